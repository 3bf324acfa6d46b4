//! Strings (RM 2.6).

ghost use Rattle.std.specs.Prelude.{◌≡◌, ◌+◌, ◌≤◌, ◌<◌, ◌^◌, false, length, drop, IfOk, IfSome};
ghost use Rattle.ctl_lexis.specs.Reading.{body_length, content_of, string_of, string_at};

use crate::byte::graphic_run;
use ctl_bytes::place::is_line_end;
use ctl_lexis::shape::{Front, Shape};
use ctl_tree::fault::FaultCode;
use ctl_tree::text::Text;
use std::alloc::{AllocError, Global};

/// Counts the bytes before the quotation mark that closes a string; nothing where the line or the text ends before it.
fn body_length(body: &[u8]) -> Option<usize>
    ensures found { result ≡ body_length false body.now }
    ensures bound { IfSome result (λ n. n < length body.now) }
{
    let mut behind_mark = false;
    for (i, byte) in body.iter().enumerate() {
        if behind_mark {
            if *byte != b'"' {
                return Some(i - 1);
            }
            behind_mark = false;
        } else if *byte == b'"' {
            behind_mark = true;
        } else if is_line_end(*byte) {
            return None;
        }
    }
    if behind_mark {
        Some(body.len() - 1)
    } else {
        None
    }
}

/// Gives the string whose body has this many bytes, or the first byte in it that may not stand there.
#[tactic(auto, unfolding(ctl_lexis::specs::Reading::string_of))]
fn string_of(n: usize, body: &[u8]) -> Front
    requires inside { n < length body.now }
    requires room { length body.now < 2 ^ 32 }
    ensures { result ≡ string_of n body.now }
{
    let good = graphic_run(&body[..n]);
    if good < n {
        Err((FaultCode::BadByte, 1 + good))
    } else {
        Ok((Shape::String, n + 2))
    }
}

/// Gives the string at the front, with its length.
#[tactic(auto, unfolding(ctl_lexis::specs::Reading::string_at))]
pub fn string_at(bytes: &[u8]) -> Front
    requires some { 1 ≤ length bytes.now }
    requires room { length bytes.now < 2 ^ 32 }
    ensures { result ≡ string_at bytes.now }
{
    let body = &bytes[1..];
    match body_length(body) {
        Some(n) => string_of(n, body),
        None => Err((FaultCode::OpenString, 0)),
    }
}

/// Gives a string's body with each doubled quotation mark once.
pub fn content_of(alloc: Global, body: &[u8]) -> Result<Text, AllocError>
    ensures { IfOk result (λ t. t ≡ content_of false body.now) }
{
    let mut content = Text::new(alloc);
    let mut halfway = false;
    for byte in body {
        if halfway && *byte == b'"' {
            halfway = false;
        } else {
            content.push(*byte)?;
            halfway = *byte == b'"';
        }
    }
    Ok(content)
}
