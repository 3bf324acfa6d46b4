//! The pieces of a line: words, numbers, parts of objects, and what they belong to.

ghost use Rattle.std.specs.Prelude.{◌≡◌, ◌++◌, OnOk, decimal};
ghost use Rattle.ctl_text.specs.Lines.{part_text, path_text, owner_text};

use ctl_tree::event::{Owner, Part};
use itoa::Buffer;
use std::alloc::{AllocError, Allocator};

/// Appends a word.
pub fn push_word<A: Allocator>(text: &mut Vec<u8, A>, word: &str) -> Result<(), AllocError>
    ensures { OnOk result (text.new.items ≡ text.old.items ++ word.now) }
{
    text.extend_from_slice(word.as_bytes())
}

/// Appends a number in decimal.
pub fn push_number<A: Allocator>(text: &mut Vec<u8, A>, number: u64) -> Result<(), AllocError>
    ensures { OnOk result (text.new.items ≡ text.old.items ++ decimal number) }
{
    let mut digits = Buffer::new();
    text.extend_from_slice(digits.format(number).as_bytes())
}

/// Appends each position, with a dot before it.
fn push_path<A: Allocator>(text: &mut Vec<u8, A>, path: &[u64]) -> Result<(), AllocError>
    ensures { OnOk result (text.new.items ≡ text.old.items ++ path_text path.now) }
{
    for position in path {
        push_word(text, ".")?;
        push_number(text, *position)?;
    }
    Ok(())
}

/// Appends a part: its object's number, and its positions, joined by dots.
pub fn push_part<A: Allocator>(text: &mut Vec<u8, A>, part: &Part) -> Result<(), AllocError>
    ensures { OnOk result (text.new.items ≡ text.old.items ++ part_text part.now) }
{
    push_number(text, part.object)?;
    push_path(text, part.path.as_slice())
}

/// Appends what an object belongs to: a letter and the number of the master or the collection.
pub fn push_owner<A: Allocator>(text: &mut Vec<u8, A>, owner: Owner) -> Result<(), AllocError>
    ensures { OnOk result (text.new.items ≡ text.old.items ++ owner_text owner) }
{
    match owner {
        Owner::Master(number) => {
            push_word(text, "m")?;
            push_number(text, number)
        }
        Owner::Collection(number) => {
            push_word(text, "c")?;
            push_number(text, number)
        }
    }
}
