//! Rows of codes. Each line is one: changes of a code, and behind `=>` what the code with them comes to, which is `accepted` or `refused`, or the
//! lines of the trace of a run, each with a slash before the next.

use crate::codes::verdict_of;
use crate::runs::trace_of;
use std::alloc::Global;
use std::test::Fail;

/// Says whether a trace has these lines.
fn has_lines(trace: &str, lines: &str) -> bool {
    let mut wanted = lines.split('/');
    for line in trace.lines() {
        match wanted.next() {
            Some(other) if other == line => {}
            _ => return false,
        }
    }
    wanted.next().is_none()
}

/// Says whether the run of a code has these lines.
fn is_traced(alloc: Global, texts: [&str; 2], lines: &str) -> Result<bool, Fail> {
    let trace = trace_of(alloc, texts)?;
    Ok(has_lines(trace.as_str(), lines))
}

/// Says whether a code comes to this.
fn comes_to(alloc: Global, texts: [&str; 2], end: &str) -> Result<bool, Fail> {
    if end == "accepted" || end == "refused" {
        Ok(verdict_of(alloc, texts)? == end)
    } else {
        is_traced(alloc, texts, end)
    }
}

/// Says whether a line is right: no row, or one that tells what the code of the text with its changes comes to.
fn is_right(alloc: Global, text: &str, line: &str) -> Result<bool, Fail> {
    match line.split_once("=>") {
        Some((changes, end)) => comes_to(alloc, [text, changes], end.trim_start()),
        None => Ok(line.is_empty()),
    }
}

/// Answers the first row that is not right, if any, else nothing.
pub fn first_wrong<'a>(alloc: Global, text: &str, rows: &'a str) -> Result<&'a str, Fail> {
    for line in rows.lines() {
        if !is_right(alloc, text, line)? {
            return Ok(line);
        }
    }
    Ok("")
}
