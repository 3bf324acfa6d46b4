//! The trace text of a run.

ghost use Rattle.std.specs.Prelude.{◌≡◌, ◌++◌, OnOk, IfOk};
ghost use Rattle.ctl_text.specs.Texts.{event_lines, trace_of};

use crate::lines::{push_end_line, push_event_line};
use ctl_tree::ending::End;
use ctl_tree::event::Event;
use std::alloc::{AllocError, Allocator, Global};

/// Appends a line for each event.
fn push_events<A: Allocator>(text: &mut Vec<u8, A>, events: &[Event]) -> Result<(), AllocError>
    ensures { OnOk result (text.new.items ≡ text.old.items ++ event_lines events.now) }
{
    for event in events {
        push_event_line(text, event)?;
    }
    Ok(())
}

/// Returns the trace text, in this allocator's memory: a line for each event, and then one for the end.
///
/// # Errors
///
/// Returns `AllocError` if the allocator refuses the memory.
pub fn trace_text_in<A: Allocator>(
    alloc: A,
    events: &[Event],
    end: &End,
) -> Result<Vec<u8, A>, AllocError>
    ensures { IfOk result (λ text. text.items ≡ trace_of events.now end.now) }
{
    let mut text = Vec::new(alloc);
    push_events(&mut text, events)?;
    push_end_line(&mut text, end)?;
    Ok(text)
}

/// Returns the trace text: a line for each event, and then one for the end.
///
/// # Errors
///
/// Returns `AllocError` if the allocator refuses the memory.
pub fn trace_text(alloc: Global, events: &[Event], end: &End) -> Result<Vec<u8>, AllocError>
    ensures { IfOk result (λ text. text.items ≡ trace_of events.now end.now) }
{
    trace_text_in(alloc, events, end)
}
