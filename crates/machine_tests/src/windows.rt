//! What stands in a window, as letters, the newest last.

use ctl_code::kinds::{Kind, KindNotes};
use ctl_program::types::Ty;
use std::alloc::AllocError;

/// How many slots the main procedure has.
pub const MAIN_SLOTS: usize = 2;

/// How many masters stand around each other body, and around the record types.
pub const BODY_LEVEL: usize = 1;

/// How many slots each other body has.
pub const BODY_SLOTS: usize = 1;

/// A body other than the main procedure, by its number.
fn body(number: usize) -> Kind {
    Kind::Body {
        level: BODY_LEVEL,
        slots: BODY_SLOTS,
        number,
    }
}

/// What a letter stands for: `m` is the main procedure, `f` and `g` are the bodies 1 and 2, `[` a block with one slot and `{` one with two, `i`
/// and `b` are operands, an Integer and a Boolean, and `r` is a part of record type 0. Any other is passed over.
fn kind_of(letter: u8) -> Option<Kind> {
    Some(match letter {
        b'm' => Kind::Body {
            level: 0,
            slots: MAIN_SLOTS,
            number: 0,
        },
        b'f' => body(1),
        b'g' => body(2),
        b'[' => Kind::Block(1),
        b'{' => Kind::Block(2),
        b'i' => Kind::Operand(Ty::Integer),
        b'b' => Kind::Operand(Ty::Boolean),
        b'r' => Kind::Operand(Ty::Record(0)),
        _ => return None,
    })
}

/// Lets what the letters stand for stand in the window.
fn enter(notes: &mut KindNotes, letters: &str) -> Result<(), AllocError> {
    for letter in letters.as_bytes() {
        if let Some(kind) = kind_of(*letter) {
            notes.enter(kind)?;
        }
    }
    Ok(())
}

/// Takes all of it off.
fn leave(notes: &mut KindNotes, letters: &str) {
    for letter in letters.as_bytes() {
        if kind_of(*letter).is_some() {
            notes.leave();
        }
    }
}

/// Notes what stands in the window before an instruction.
pub fn note(notes: &mut KindNotes, letters: &str) -> Result<(), AllocError> {
    enter(notes, letters)?;
    notes.note()?;
    leave(notes, letters);
    Ok(())
}
