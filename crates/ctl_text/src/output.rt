//! What a run printed.

ghost use Rattle.std.specs.Prelude.{◌≡◌, ◌++◌, OnOk, IfOk};
ghost use Rattle.ctl_text.specs.Texts.{printed_by, output_of};

use ctl_tree::event::Event;
use std::alloc::{AllocError, Allocator, Global};

/// Appends what an event prints: the bytes of a Print, and a line feed for a Newline.
fn push_printed<A: Allocator>(text: &mut Vec<u8, A>, event: &Event) -> Result<(), AllocError>
    ensures { OnOk result (text.new.items ≡ text.old.items ++ printed_by event.now) }
{
    match event {
        Event::Print(bytes) => text.extend_from_slice(bytes.as_bytes()),
        Event::Newline => text.extend_from_slice(b"\n"),
        _ => Ok(()),
    }
}

/// Returns what the events print, in this allocator's memory: the bytes of each Print, and a line feed for each
/// Newline.
///
/// # Errors
///
/// Returns `AllocError` if the allocator refuses the memory.
pub fn output_text_in<A: Allocator>(alloc: A, events: &[Event]) -> Result<Vec<u8, A>, AllocError>
    ensures { IfOk result (λ text. text.items ≡ output_of events.now) }
{
    let mut text = Vec::new(alloc);
    for event in events {
        push_printed(&mut text, event)?;
    }
    Ok(text)
}

/// Returns what the events print: the bytes of each Print, and a line feed for each Newline.
///
/// # Errors
///
/// Returns `AllocError` if the allocator refuses the memory.
pub fn output_text(alloc: Global, events: &[Event]) -> Result<Vec<u8>, AllocError>
    ensures { IfOk result (λ text. text.items ≡ output_of events.now) }
{
    output_text_in(alloc, events)
}
