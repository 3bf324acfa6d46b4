//! Runs and the texts that show them.

use ctl_text::{output_text, trace_text, trace_text_in};
use ctl_tree::ending::{End, Stop};
use ctl_tree::event::{Cause, Event, Owner, Part};
use ctl_tree::text::{Path, Text};
use linked_list_allocator::LocalHeap;
use std::alloc::{AllocError, Global};
use std::test::Fail;

/// A part of an object, or with no positions the whole.
fn part(alloc: Global, object: u64, positions: &[u64]) -> Result<Part, AllocError> {
    let path = Path::from_slice(alloc, positions)?;
    Ok(Part { object, path })
}

/// What Put_Line shows.
fn push_line(alloc: Global, events: &mut Vec<Event>, bytes: &[u8]) -> Result<(), AllocError> {
    let text = Text::from_slice(alloc, bytes)?;
    events.push(Event::Print(text))?;
    events.push(Event::Newline)?;
    Ok(())
}

/// Two declared objects of a block, finalized backwards as it is left, and a last line.
fn block_left(alloc: Global) -> Result<Vec<Event>, AllocError> {
    let mut events = Vec::new(alloc);
    for object in [1, 2] {
        events.push(Event::Live(part(alloc, object, &[])?, Owner::Master(2)))?;
    }
    for (object, line) in [(2, "F 2"), (1, "F 1")] {
        events.push(Event::Finalize(part(alloc, object, &[])?, Cause::Scope))?;
        push_line(alloc, &mut events, line.as_bytes())?;
    }
    push_line(alloc, &mut events, b"done")?;
    Ok(events)
}

const BLOCK_LEFT: &str =
    "live 1 m2\nlive 2 m2\nfinalize 2 scope\nprint F 2\nnewline\nfinalize 1 scope\nprint F 1\nnewline\nprint done\nnewline\nend done\n";

#[test]
fn a_run_is_shown_line_by_line(rt: HostRuntime) -> Result<(), Fail> {
    let events = block_left(rt.alloc())?;
    let trace = trace_text(rt.alloc(), events.as_slice(), &End::Done)?;
    assert!(rt; trace.as_slice() == BLOCK_LEFT.as_bytes());
    Ok(())
}

#[test]
fn the_output_is_what_is_printed(rt: HostRuntime) -> Result<(), Fail> {
    let events = block_left(rt.alloc())?;
    let output = output_text(rt.alloc(), events.as_slice())?;
    assert!(rt; output.as_slice() == b"F 2\nF 1\ndone\n".as_slice());
    Ok(())
}

/// The events of each kind but finalizations, by their numbers, of this part and with this text.
fn event_of(part: Part, text: Text, number: u64) -> Event {
    match number {
        0 => Event::Newline,
        1 => Event::Print(text),
        2 => Event::Initialize(part),
        3 => Event::Adjust(part),
        4 => Event::Allocate(1, 16),
        5 => Event::Deallocate(1, 16),
        _ => Event::Live(part, Owner::Collection(1)),
    }
}

const EACH_EVENT: &str =
    "newline\nprint \ninitialize 18446744073709551615\nadjust 4\nallocate 1 16\ndeallocate 1 16\nlive 4 c1\nend limit\n";

#[test]
fn each_event_has_its_line(rt: HostRuntime) -> Result<(), Fail> {
    let mut events = Vec::new(rt.alloc());
    for number in 0..7 {
        let object = if number == 2 { u64::MAX } else { 4 };
        let whole = part(rt.alloc(), object, &[])?;
        events.push(event_of(whole, Text::new(rt.alloc()), number))?;
    }
    let trace = trace_text(rt.alloc(), events.as_slice(), &End::StepLimit)?;
    assert!(rt; trace.as_slice() == EACH_EVENT.as_bytes());
    Ok(())
}

const CAUSES: [Cause; 6] = [
    Cause::Scope,
    Cause::Collection,
    Cause::Free,
    Cause::Subpool,
    Cause::Assign,
    Cause::Failed,
];

const EACH_CAUSE: &str =
    "finalize 7.1.20.3 scope\nfinalize 7.1.20.3 collection\nfinalize 7.1.20.3 free\nfinalize 7.1.20.3 subpool\nfinalize 7.1.20.3 assign\nfinalize 7.1.20.3 failed\nend limit\n";

#[test]
fn each_cause_has_its_word(rt: HostRuntime) -> Result<(), Fail> {
    let mut events = Vec::new(rt.alloc());
    for cause in CAUSES {
        let inner = part(rt.alloc(), 7, &[1, 20, 3])?;
        events.push(Event::Finalize(inner, cause))?;
    }
    let trace = trace_text(rt.alloc(), events.as_slice(), &End::StepLimit)?;
    assert!(rt; trace.as_slice() == EACH_CAUSE.as_bytes());
    Ok(())
}

/// Adds the line of an end.
fn push_end(alloc: Global, shown: &mut Vec<u8>, end: &End) -> Result<(), AllocError> {
    let text = trace_text(alloc, &[], end)?;
    shown.extend_from_slice(text.as_slice())
}

/// The ends, by their numbers, with the name of what was raised.
fn end_of(raised: Text, number: u64) -> End {
    match number {
        0 => End::Done,
        1 => End::Raised(raised),
        2 => End::Stopped(Stop::UseAfterFree),
        3 => End::Stopped(Stop::FreeWhileFinalizing),
        4 => End::Stopped(Stop::ForeignFree),
        5 => End::Stopped(Stop::BadAddress),
        6 => End::Stopped(Stop::ReleasedSubpool),
        7 => End::StepLimit,
        _ => End::HostMemory,
    }
}

const EACH_END: &str =
    "end done\nend raised Constraint_Error\nend stopped USE_AFTER_FREE\nend stopped FREE_WHILE_FINALIZING\nend stopped FOREIGN_FREE\nend stopped BAD_ADDRESS\nend stopped RELEASED_SUBPOOL\nend limit\nend memory\n";

#[test]
fn each_end_has_its_line(rt: HostRuntime) -> Result<(), Fail> {
    let mut shown = Vec::new(rt.alloc());
    for number in 0..9 {
        let raised = Text::from_slice(rt.alloc(), b"Constraint_Error")?;
        push_end(rt.alloc(), &mut shown, &end_of(raised, number))?;
    }
    assert!(rt; shown.as_slice() == EACH_END.as_bytes());
    Ok(())
}

/// The trace text in a heap of this size: whole, or refused.
fn whole_in(alloc: Global, events: &[Event], size: usize) -> Result<Option<bool>, AllocError> {
    let heap = LocalHeap::new(alloc, size)?;
    match trace_text_in(&heap, events, &End::Done) {
        Ok(text) => Ok(Some(text.as_slice() == BLOCK_LEFT.as_bytes())),
        Err(_) => Ok(None),
    }
}

/// Says whether a heap that is too small gives no text, one that is not gives all of it, and there are heaps of both kinds.
fn is_whole_or_refused(alloc: Global, events: &[Event]) -> Result<bool, AllocError> {
    let mut was_refused = false;
    let mut was_given = false;
    for size in 1..64 {
        match whole_in(alloc, events, size * 16)? {
            Some(true) => was_given = true,
            Some(false) => return Ok(false),
            None => was_refused = true,
        }
    }
    Ok(was_refused && was_given)
}

#[test]
fn too_small_a_heap_gives_no_text(rt: HostRuntime) -> Result<(), Fail> {
    let events = block_left(rt.alloc())?;
    assert!(rt; is_whole_or_refused(rt.alloc(), events.as_slice())?);
    Ok(())
}
