//! Jobs on source texts, with readers and writers that fail and heaps that are too small.

use crate::texts::{EMPTY, TWO_OBJECTS, TWO_OBJECTS_OUTPUT, TWO_OBJECTS_TRACE};
use ctl_frames::outcome::Outcome;
use ctl_job::Job;
use ctl_run::run::run_source;
use ctl_serve::{Reading, RunFault, Summary, put_run, run_into, serve, serve_into};
use ctl_sink::{Sink, Through};
use ctl_tree::fault::Fault;
use ctl_tree::request::{Order, Show};
use linked_list_allocator::LocalHeap;
use std::alloc::{AllocError, Global};
use std::io;
use std::io::{Read, Write};
use std::test::Fail;

/// A writer over memory that takes at most so many bytes at a time, and so many in all; then it takes none, or answers
/// an error. A flush may fail, as that of a buffer before a full device.
#[derive(Drop)]
struct Limited {
    bytes: Vec<u8>,
    at_once: usize,
    room: usize,
    answers_error: bool,
    loses_flush: bool,
}

impl Limited {
    fn new(alloc: Global, at_once: usize, room: usize) -> Limited {
        Limited {
            bytes: Vec::new(alloc),
            at_once,
            room,
            answers_error: false,
            loses_flush: false,
        }
    }
}

impl Write for Limited {
    fn write(&mut self, bytes: &[u8]) -> io::Result<usize> {
        let left = self.room.saturating_sub(self.bytes.len());
        let n = bytes.len().min(self.at_once).min(left);
        if n == 0 && self.answers_error {
            return Err(io::Error::other("no room"));
        }
        self.bytes.extend_from_slice(&bytes[..n])?;
        Ok(n)
    }

    fn flush(&mut self) -> io::Result<()> {
        if self.loses_flush {
            return Err(io::Error::other("no room"));
        }
        Ok(())
    }
}

/// A reader that gives blanks without end, or answers an error.
#[derive(Drop)]
struct Blanks {
    answers_error: bool,
}

impl Read for Blanks {
    fn read(&mut self, buffer: &mut [u8]) -> io::Result<usize> {
        if self.answers_error {
            return Err(io::Error::other("no bytes"));
        }
        for byte in buffer.iter_mut() {
            *byte = b' ';
        }
        Ok(buffer.len())
    }
}

/// A job to check a file.
fn check_job(alloc: Global) -> Job {
    Job::Check {
        file: String::new(alloc),
    }
}

/// A job to run a file in the newest order.
fn run_job(alloc: Global, show: Show, steps: u64) -> Job {
    Job::Run {
        file: String::new(alloc),
        show,
        order: Order::Newest,
        steps,
    }
}

/// The status of a job on what a reader gives, with these outputs.
fn serve_on<R: Read + Drop, W: Write, E: Write>(
    alloc: Global,
    job: Job,
    source: R,
    out: &mut W,
    err: &mut E,
) -> u8 {
    let mut sink = Through::new(out);
    serve(alloc, job, &mut Reading::new(source), &mut sink, err)
}

/// Says whether what was said is this line.
fn is_said(err: &[u8], line: &str) -> bool {
    err == line.as_bytes()
}

/// A limit of steps that no test comes to.
const MANY_STEPS: u64 = 1_000_000_000;

/// Runs a text into a writer, and answers what is known of the run and whether the sink failed.
fn run_limited(
    alloc: Global,
    source: &str,
    show: Show,
    out: &mut Limited,
) -> (Result<Summary, RunFault>, bool) {
    let mut sink = Through::new(out);
    let source = source.as_bytes();
    let result = run_into(alloc, source, Order::Newest, MANY_STEPS, show, &mut sink);
    let failed = sink.failed();
    (result, failed)
}

/// Says whether a writer that takes so many bytes at a time has this whole text, which shows a run.
fn takes_all(alloc: Global, at_once: usize, show: Show, text: &str) -> bool {
    let mut out = Limited::new(alloc, at_once, 10_000);
    let (result, failed) = run_limited(alloc, TWO_OBJECTS, show, &mut out);
    result.is_ok() && !failed && out.bytes.as_slice() == text.as_bytes()
}

#[test]
fn a_writer_may_take_one_byte_at_a_time(rt: HostRuntime) {
    assert!(rt; takes_all(rt.alloc(), 1, Show::Trace, TWO_OBJECTS_TRACE));
    assert!(rt; takes_all(rt.alloc(), 1, Show::Output, TWO_OBJECTS_OUTPUT));
}

/// A program that prints lines without end.
const ENDLESS: &str = "with Ada.Text_IO; use Ada.Text_IO;
procedure Main is begin loop Put_Line (\"x\"); end loop; end Main;";

/// Says whether these bytes are lines of one `x`, the last of which may want its end.
fn are_lines(bytes: &[u8]) -> bool {
    for at in 0..bytes.len() {
        let wanted = if at % 2 == 0 { b'x' } else { b'\n' };
        if bytes[at] != wanted {
            return false;
        }
    }
    true
}

/// Says whether a program that prints without end is broken off where a writer has no more room, and has filled it till then.
fn is_broken_off(alloc: Global, room: usize) -> bool {
    let mut out = Limited::new(alloc, 3, room);
    let (result, failed) = run_limited(alloc, ENDLESS, Show::Output, &mut out);
    let taken = out.bytes.as_slice();
    matches!(&result, Err(RunFault::Write)) && failed && taken.len() == room && are_lines(taken)
}

#[test]
fn what_is_printed_is_put_as_the_run_goes(rt: HostRuntime) {
    assert!(rt; is_broken_off(rt.alloc(), 2_001));
}

/// Says whether a writer with this room, less than a trace has, fails with as much of the trace as there is room for.
fn takes_prefix(alloc: Global, room: usize, answers_error: bool) -> bool {
    let mut out = Limited::new(alloc, 3, room);
    out.answers_error = answers_error;
    let (result, failed) = run_limited(alloc, EMPTY, Show::Trace, &mut out);
    let taken = out.bytes.as_slice();
    matches!(&result, Err(RunFault::Write))
        && failed
        && taken.len() == room
        && b"end done\n".starts_with(taken)
}

#[test]
fn a_writer_that_fails_took_a_prefix(rt: HostRuntime) {
    for room in 0..9 {
        assert!(rt; takes_prefix(rt.alloc(), room, false), "at {room}");
        assert!(rt; takes_prefix(rt.alloc(), room, true), "at {room}");
    }
}

/// Says whether a text is refused, and nothing of it is written.
fn writes_nothing(alloc: Global, source: &str) -> bool {
    let mut out = Limited::new(alloc, 3, 0);
    let (result, failed) = run_limited(alloc, source, Show::Trace, &mut out);
    matches!(&result, Err(RunFault::Refused(_))) && !failed && out.bytes.is_empty()
}

#[test]
fn a_refused_text_writes_nothing(rt: HostRuntime) {
    assert!(rt; writes_nothing(rt.alloc(), "procedure"));
}

/// The unit of a heap, in bytes: of two heaps whose sizes differ by it, no growth fits between.
const HEAP_UNIT: usize = 16;

/// Puts a run whose text is made in a heap of this size, and answers whether the sink failed.
fn put_in(
    alloc: Global,
    size: usize,
    outcome: &Outcome,
    show: Show,
    out: &mut Vec<u8>,
) -> Result<(Result<(), RunFault>, bool), AllocError> {
    let heap = LocalHeap::new(alloc, size)?;
    let mut sink = Through::new(out);
    let result = put_run(&heap, outcome, show, &mut sink);
    let failed = sink.failed();
    Ok((result, failed))
}

/// Says whether a run whose text is made in a heap of this size is put as this text, or refused for memory with nothing put.
fn is_put_in(
    alloc: Global,
    size: usize,
    outcome: &Outcome,
    show: Show,
    text: &str,
) -> Result<Option<bool>, AllocError> {
    let mut out = Vec::new(alloc);
    let (result, failed) = put_in(alloc, size, outcome, show, &mut out)?;
    let whole = match &result {
        Ok(()) => out.as_slice() == text.as_bytes(),
        Err(fault) => *fault == RunFault::Refused(Fault::memory()) && out.is_empty(),
    };
    if failed || !whole {
        return Ok(None);
    }
    Ok(Some(result.is_ok()))
}

/// Says whether each heap that is too small puts nothing, and each that is not puts the text; there are heaps of both kinds.
fn is_put_or_refused(
    alloc: Global,
    outcome: &Outcome,
    show: Show,
    text: &str,
) -> Result<bool, AllocError> {
    let mut was_refused = false;
    let mut was_put = false;
    for units in 1..96 {
        match is_put_in(alloc, units * HEAP_UNIT, outcome, show, text)? {
            Some(true) => was_put = true,
            Some(false) if !was_put => was_refused = true,
            _ => return Ok(false),
        }
    }
    Ok(was_refused && was_put)
}

/// Each growth of the text is once the first that is refused, as the heap rises by its unit.
#[test]
fn a_text_that_has_no_room_is_not_put(rt: HostRuntime) -> Result<(), Fail> {
    let alloc = rt.alloc();
    let outcome = run_source(alloc, TWO_OBJECTS.as_bytes(), Order::Newest, 1000)?;
    assert!(rt; is_put_or_refused(alloc, &outcome, Show::Output, TWO_OBJECTS_OUTPUT)?);
    assert!(rt; is_put_or_refused(alloc, &outcome, Show::Trace, TWO_OBJECTS_TRACE)?);
    Ok(())
}

/// Says whether a job whose flush fails ends with a failed write and its line, and had passed on this text.
fn fails_to_flush(alloc: Global, job: Job, text: &str) -> bool {
    let mut out = Limited::new(alloc, 9, 10_000);
    out.loses_flush = true;
    let mut err = Vec::new(alloc);
    let status = serve_on(alloc, job, TWO_OBJECTS.as_bytes(), &mut out, &mut err);
    status == 74
        && is_said(&err, "adactl: write failed\n")
        && out.bytes.as_slice() == text.as_bytes()
}

/// The output is passed on before anything is said of how the job ended: a flush that fails is all that is told.
#[test]
fn failed_flushes_have_status_74(rt: HostRuntime) {
    let alloc = rt.alloc();
    assert!(rt; fails_to_flush(alloc, check_job(alloc), "ok\n"));
    for (show, steps, text) in [
        (Show::Trace, 1000, TWO_OBJECTS_TRACE),
        (Show::Trace, 0, "end limit\n"),
        (Show::Output, 0, ""),
    ] {
        assert!(rt;
            fails_to_flush(alloc, run_job(alloc, show, steps), text),
            "at {text}"
        );
    }
}

/// The status of a check whose sink had failed, where it is told by its line.
fn status_of_failed(alloc: Global) -> Option<u8> {
    let mut out = Limited::new(alloc, 9, 0);
    let mut sink = Through::new(&mut out);
    if sink.put(b"a").is_ok() {
        return None;
    }
    let mut err = Vec::new(alloc);
    let mut source = Reading::new(EMPTY.as_bytes());
    let status = serve(alloc, check_job(alloc), &mut source, &mut sink, &mut err);
    if is_said(&err, "adactl: write failed\n") {
        Some(status)
    } else {
        None
    }
}

#[test]
fn a_sink_that_had_failed_is_told(rt: HostRuntime) {
    assert!(rt; matches!(status_of_failed(rt.alloc()), Some(74)));
}

/// The status of a check of blanks without end, or of a reader that fails, where it is told by this line.
fn status_of_blanks(alloc: Global, answers_error: bool, line: &str) -> Option<u8> {
    let mut out = Vec::new(alloc);
    let mut err = Vec::new(alloc);
    let source = Blanks { answers_error };
    let status = serve_on(alloc, check_job(alloc), source, &mut out, &mut err);
    if is_said(&err, line) {
        Some(status)
    } else {
        None
    }
}

#[test]
fn failed_reads_have_status_74(rt: HostRuntime) {
    let status = status_of_blanks(rt.alloc(), true, "adactl: read failed\n");
    assert!(rt; matches!(status, Some(74)));
}

#[test]
fn reading_ends(rt: HostRuntime) {
    let status = status_of_blanks(rt.alloc(), false, "adactl: 1:1: 5 TOO_LONG\n");
    assert!(rt; matches!(status, Some(2)));
}

/// The status of a check that reads into a heap of this size, and what it said.
fn checked_in(alloc: Global, size: usize) -> Result<String, AllocError> {
    let heap = LocalHeap::new(alloc, size)?;
    let mut out = Vec::new(alloc);
    let mut err = Vec::new(alloc);
    let mut source = Reading::new(EMPTY.as_bytes());
    let job = check_job(alloc);
    let mut sink = Through::new(&mut out);
    let status = serve_into(alloc, &heap, 64, job, &mut source, &mut sink, &mut err) as u8;
    let err = String::from_utf8(err).map_err(|_| AllocError)?;
    format!(in alloc; "{status} {err}")
}

/// Says whether the check reads the text in a heap of this size, or tells that there is no room, which is refused.
fn is_read_in(alloc: Global, size: usize) -> Result<Option<bool>, AllocError> {
    let told = checked_in(alloc, size)?;
    Ok(match told.as_str() {
        "0 " => Some(true),
        "5 adactl: host memory\n" => Some(false),
        _ => None,
    })
}

/// Says whether each heap that is too small is told, and each that is not serves; there are heaps of both kinds.
fn is_read_or_refused(alloc: Global) -> Result<bool, AllocError> {
    let mut was_refused = false;
    let mut was_read = false;
    for units in 1..12 {
        match is_read_in(alloc, units * HEAP_UNIT)? {
            Some(true) => was_read = true,
            Some(false) if !was_read => was_refused = true,
            _ => return Ok(false),
        }
    }
    Ok(was_refused && was_read)
}

/// The one growth of the buffer is refused in each heap that is too small for it.
#[test]
fn too_small_a_buffer_has_status_5(rt: HostRuntime) -> Result<(), Fail> {
    assert!(rt; is_read_or_refused(rt.alloc())?);
    Ok(())
}
