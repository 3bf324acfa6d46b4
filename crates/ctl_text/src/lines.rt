//! The line of one event, and that of an end.

ghost use Rattle.std.specs.Prelude.{◌≡◌, ◌++◌, OnOk, codes, decimal};
ghost use Rattle.ctl_text.specs.Lines.{part_text, event_line, end_line};

use crate::parts::{push_number, push_owner, push_part, push_word};
use crate::words::{word_of_cause, word_of_stop};
use ctl_tree::ending::End;
use ctl_tree::event::{Event, Part};
use std::alloc::{AllocError, Allocator};

/// Appends a word and a part.
fn push_call<A: Allocator>(text: &mut Vec<u8, A>, word: &str, part: &Part) -> Result<(), AllocError>
    ensures { OnOk result (text.new.items ≡ text.old.items ++ (word.now ++ part_text part.now)) }
{
    push_word(text, word)?;
    push_part(text, part)
}

/// Appends a word, a pool's object number and a size.
fn push_storage<A: Allocator>(
    text: &mut Vec<u8, A>,
    word: &str,
    pool: u64,
    size: u64,
) -> Result<(), AllocError>
    ensures { OnOk result (text.new.items
        ≡ text.old.items ++ (word.now ++ decimal pool ++ codes " " ++ decimal size)) }
{
    push_word(text, word)?;
    push_number(text, pool)?;
    push_word(text, " ")?;
    push_number(text, size)
}

/// Appends the line of an event, without its line feed.
fn push_event<A: Allocator>(text: &mut Vec<u8, A>, event: &Event) -> Result<(), AllocError>
    ensures { OnOk result (text.new.items ≡ text.old.items ++ event_line event.now) }
{
    match event {
        Event::Print(bytes) => {
            push_word(text, "print ")?;
            text.extend_from_slice(bytes.as_bytes())
        }
        Event::Newline => push_word(text, "newline"),
        Event::Initialize(part) => push_call(text, "initialize ", part),
        Event::Adjust(part) => push_call(text, "adjust ", part),
        Event::Finalize(part, cause) => {
            push_call(text, "finalize ", part)?;
            push_word(text, " ")?;
            push_word(text, word_of_cause(*cause))
        }
        Event::Allocate(pool, size) => push_storage(text, "allocate ", *pool, *size),
        Event::Deallocate(pool, size) => push_storage(text, "deallocate ", *pool, *size),
        Event::Live(part, owner) => {
            push_call(text, "live ", part)?;
            push_word(text, " ")?;
            push_owner(text, *owner)
        }
    }
}

/// Appends the line of an event, ended by a line feed.
pub fn push_event_line<A: Allocator>(text: &mut Vec<u8, A>, event: &Event) -> Result<(), AllocError>
    ensures { OnOk result (text.new.items ≡ text.old.items ++ (event_line event.now ++ codes "\n")) }
{
    push_event(text, event)?;
    push_word(text, "\n")
}

/// Appends the line of an end, without its line feed.
fn push_end<A: Allocator>(text: &mut Vec<u8, A>, end: &End) -> Result<(), AllocError>
    ensures { OnOk result (text.new.items ≡ text.old.items ++ end_line end.now) }
{
    match end {
        End::Done => push_word(text, "end done"),
        End::Raised(name) => {
            push_word(text, "end raised ")?;
            text.extend_from_slice(name.as_bytes())
        }
        End::Stopped(stop) => {
            push_word(text, "end stopped ")?;
            push_word(text, word_of_stop(*stop))
        }
        End::StepLimit => push_word(text, "end limit"),
        End::HostMemory => push_word(text, "end memory"),
    }
}

/// Appends the line of an end, ended by a line feed.
pub fn push_end_line<A: Allocator>(text: &mut Vec<u8, A>, end: &End) -> Result<(), AllocError>
    ensures { OnOk result (text.new.items ≡ text.old.items ++ (end_line end.now ++ codes "\n")) }
{
    push_end(text, end)?;
    push_word(text, "\n")
}
