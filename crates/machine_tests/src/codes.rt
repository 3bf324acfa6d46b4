//! Codes that are written as texts, in pieces with a semicolon behind each.
//!
//! A piece with a colon is an instruction: before the colon stands what is in the window before it, the newest last, by the letters that
//! `windows` tells, and behind it the instruction, by a word and the marks that `words` tells. A piece without one says what stands in the tables
//! beside the instructions, as `tables` tells, or is a comment behind `--`. Each code has a main procedure, behind its first instruction, the
//! exception Constraint_Error, and three texts before its own: a farewell, an image, and three images.
//!
//! Many codes are one with changes, which are pieces as well: an instruction that has a number before its window stands in the place of that
//! one, from 0, and the others stand behind it. A piece that is none of these leaves the instruction `Missing`, which no code has else.

use crate::marks::{marks_of, number_before, word_of};
use crate::tables::{add_exception, add_instr, add_table};
use crate::windows::{MAIN_SLOTS, note};
use crate::words::instr_of;
use ctl_code::code::{Code, Entry, Instr};
use ctl_code::homes::Homes;
use ctl_code::kinds::KindNotes;
use ctl_program::operators::SubprogramKind;
use ctl_valid::valid::{ValidCode, validate};
use std::alloc::{AllocError, Global};
use std::test::Fail;

/// The main procedure, behind the first instruction.
const MAIN: Entry = Entry {
    kind: SubprogramKind::Procedure,
    level: 0,
    slots: MAIN_SLOTS,
    place: 1,
};

/// The texts that each code has.
const TEXTS: &str = "text w; text i; text i i _ b";

/// Answers the piece that stands in the place of one with this number: one of the changes, or this piece itself.
fn changed<'a>(changes: &'a str, place: usize, piece: &'a str) -> &'a str {
    for change in changes.split(';') {
        if number_before(change) == Some(place) {
            return change;
        }
    }
    piece
}

/// Adds the instruction that a word with its marks stands for.
fn add_word(code: &mut Code, alloc: Global, text: &str) -> Result<(), AllocError> {
    let marks = marks_of(alloc, text)?;
    let instr = instr_of(word_of(text), marks.as_slice());
    drop(marks);
    add_instr(code, instr.unwrap_or(Instr::Missing))
}

/// Adds the instruction of a piece, and what stands before it, if the piece is one.
fn add_line(
    code: &mut Code,
    notes: &mut KindNotes,
    alloc: Global,
    piece: &str,
) -> Result<(), AllocError> {
    match piece.split_once(':') {
        Some((window, instr)) => {
            note(notes, window)?;
            add_word(code, alloc, instr)
        }
        None => Ok(()),
    }
}

/// Adds the instructions of a text with changes, with these notes of what stands before them.
fn add_lines(
    code: &mut Code,
    notes: &mut KindNotes,
    alloc: Global,
    [text, changes]: [&str; 2],
) -> Result<(), AllocError> {
    let mut place = 0_usize;
    for piece in text.split(';').chain(changes.split(';')) {
        if number_before(piece).is_none() {
            add_line(code, notes, alloc, changed(changes, place, piece))?;
        }
        place = place.saturating_add(1);
    }
    Ok(())
}

/// Adds all instructions, and what stands in the window before each.
fn add_instructions(code: &mut Code, alloc: Global, texts: [&str; 2]) -> Result<(), AllocError> {
    let mut notes = KindNotes::new(alloc);
    let added = add_lines(code, &mut notes, alloc, texts);
    code.room = notes.room();
    code.kinds = notes.finish();
    added
}

/// Adds what a piece says of the tables, which an instruction, a comment and nothing do not.
fn add_piece(code: &mut Code, alloc: Global, piece: &str) -> Result<(), AllocError> {
    let word = word_of(piece);
    if word == [b' ', b' '] || word == [b'-', b'-'] || piece.contains(':') {
        return Ok(());
    }
    let marks = marks_of(alloc, piece)?;
    let added = add_table(code, alloc, word, marks.as_slice());
    drop(marks);
    added
}

/// Adds what the pieces of a text with changes say of the tables, behind the texts that each code has.
fn add_tables(
    code: &mut Code,
    alloc: Global,
    [text, changes]: [&str; 2],
) -> Result<(), AllocError> {
    let pieces = TEXTS.split(';').chain(text.split(';'));
    for piece in pieces.chain(changes.split(';')) {
        add_piece(code, alloc, piece)?;
    }
    Ok(())
}

/// Adds all that a text with changes says, beside what each code has.
fn add_all(code: &mut Code, alloc: Global, texts: [&str; 2]) -> Result<(), AllocError> {
    code.entries.push(MAIN)?;
    add_exception(code, alloc, b"CONSTRAINT_ERROR")?;
    add_instructions(code, alloc, texts)?;
    add_tables(code, alloc, texts)
}

/// Makes code without anything.
fn nothing(alloc: Global) -> Code {
    Code {
        instructions: Vec::new(alloc),
        kinds: KindNotes::new(alloc).finish(),
        room: 0,
        entries: Vec::new(alloc),
        records: Vec::new(alloc),
        layouts: Vec::new(alloc),
        defaults: Vec::new(alloc),
        accesses: Vec::new(alloc),
        homes: Homes::new(alloc),
        texts: Vec::new(alloc),
        exceptions: Vec::new(alloc),
    }
}

/// Makes the code of a text with changes.
fn code_of(alloc: Global, texts: [&str; 2]) -> Result<Code, AllocError> {
    let mut code = nothing(alloc);
    match add_all(&mut code, alloc, texts) {
        Ok(()) => Ok(code),
        Err(error) => {
            drop(code);
            Err(error)
        }
    }
}

/// Says whether each piece was read.
fn is_read(code: &Code) -> bool {
    for instr in code.instructions.as_slice() {
        if matches!(instr, Instr::Missing) {
            return false;
        }
    }
    true
}

/// Says whether the code is well formed; it is let go.
fn is_well_formed(code: Code) -> bool {
    validate(code).is_some()
}

/// Code that is well formed.
fn validated(code: Code) -> Result<ValidCode, Fail> {
    match validate(code) {
        Some(valid) => Ok(valid),
        None => Err(Fail::new("the code is not well formed")),
    }
}

/// Makes the code of a text with changes, which is well formed.
pub fn valid_code_of(alloc: Global, texts: [&str; 2]) -> Result<ValidCode, Fail> {
    validated(code_of(alloc, texts)?)
}

/// Says whether the code of a text with changes is `accepted` or `refused`, or was `unread`.
pub fn verdict_of(alloc: Global, texts: [&str; 2]) -> Result<&'static str, AllocError> {
    let code = code_of(alloc, texts)?;
    let read = is_read(&code);
    let accepted = is_well_formed(code);
    Ok(if !read {
        "unread"
    } else if accepted {
        "accepted"
    } else {
        "refused"
    })
}
