//! The tables that a code has beside its instructions, by words as instructions are told: a word is known by its first two letters.
//!
//! - `procedure PLACE` and `function PLACE`: one more body.
//! - `record INITIALIZE FINALIZE`: the operations of one more record type, by the numbers of their bodies, 0 where there is none.
//! - `controlled`, `outer` and `plain`: the layout of one more record type, with a component of one cell for each mark. `-` begins with nothing, `c7`
//!   with the constant 7, `t0` by the record type 0, which has a controlled part, and `u0` does so and is not told apart. No master stands around a
//!   type that is `outer`, and no part of one that is `plain` is controlled.
//! - `access LEVEL`: one more access type, whose collection has slot 0 at this level.
//! - `text`: one more text, with a part for each mark: `i` and `b` are images, of an Integer and a Boolean, `_` is a blank, and `w` a farewell.
//! - `silent`: no text at all.
//! - `exception`: Program_Error is one more exception.
//! - `least`: the masters around each declaration have as few slots as the instructions need.
//! - `more` and `room CELLS`: one more instruction, of which nothing says what stands before it, and the room of a window.
//!
//! A word that is none of them leaves the instruction `Missing`.

use crate::marks::{Mark, Word};
use crate::windows::{BODY_LEVEL, BODY_SLOTS};
use ctl_code::code::{
    AccessHome, Begun, Code, Entry, Initial, Instr, Layout, Operations, Parts, Way,
};
use ctl_code::least::least_homes;
use ctl_code::template::{Template, TextPart};
use ctl_program::operators::SubprogramKind;
use ctl_program::types::Var;
use ctl_tree::text::Text;
use std::alloc::{AllocError, Global};

/// As many storage units as each object of the tests has: no fewer than its cells take.
const UNITS: usize = 1_024;

/// Adds a body.
fn add_body(code: &mut Code, kind: SubprogramKind, place: usize) -> Result<(), AllocError> {
    code.entries.push(Entry {
        kind,
        level: BODY_LEVEL,
        slots: BODY_SLOTS,
        place,
    })?;
    Ok(())
}

/// Answers the number of a body, if it is one.
fn body_of(number: usize) -> Option<usize> {
    if number == 0 { None } else { Some(number) }
}

/// Adds the operations of a record type.
fn add_record(code: &mut Code, initialize: usize, finalize: usize) -> Result<(), AllocError> {
    code.records.push(Operations {
        initialize: body_of(initialize),
        adjust: None,
        finalize: body_of(finalize),
        allocate: None,
        deallocate: None,
    })?;
    Ok(())
}

/// Answers how the component begins that a mark stands for, if it begins with something.
fn initial_of(mark: Mark) -> Option<Initial> {
    match mark.letter {
        b'c' => Some(Initial::Constant(mark.number as u64)),
        b't' => Some(Initial::ByType(mark.number)),
        b'u' => Some(Initial::ByType(mark.number)),
        _ => None,
    }
}

/// Adds a component, which has one cell.
fn add_component(layout: &mut Layout, offset: usize, mark: Mark) -> Result<(), AllocError> {
    layout.offsets.push(offset)?;
    let Some(initial) = initial_of(mark) else {
        return Ok(());
    };
    let component = Begun {
        position: offset.saturating_add(1),
        offset,
        initial,
    };
    layout.begun.push(component)?;
    if mark.letter == b't' {
        layout.controlled.push(component)?;
    }
    Ok(())
}

/// Adds the components that the marks stand for.
fn add_components(layout: &mut Layout, marks: &[Mark]) -> Result<(), AllocError> {
    for (offset, mark) in marks.iter().enumerate() {
        add_component(layout, offset, *mark)?;
    }
    Ok(())
}

/// Makes a layout of so many cells, in which no component begins yet.
fn bare_layout(alloc: Global, parts: Parts, level: usize, cells: usize) -> Layout {
    Layout {
        parts,
        level,
        cells,
        content: UNITS,
        units: UNITS,
        offsets: Vec::new(alloc),
        begun: Vec::new(alloc),
        controlled: Vec::new(alloc),
    }
}

/// Adds a layout of such components.
fn add_layout(
    code: &mut Code,
    alloc: Global,
    (parts, level): (Parts, usize),
    marks: &[Mark],
) -> Result<(), AllocError> {
    let mut layout = bare_layout(alloc, parts, level, marks.len());
    let added = add_components(&mut layout, marks);
    code.layouts.push(layout)?;
    added
}

/// Adds an access type whose collection has this level.
fn add_access_type(code: &mut Code, level: usize) -> Result<(), AllocError> {
    code.accesses.push(AccessHome {
        collection: Var { level, slot: 0 },
        pool: None,
    })?;
    Ok(())
}

/// Answers the part of a text that a letter stands for.
fn part_of(alloc: Global, letter: u8) -> Result<TextPart, AllocError> {
    Ok(match letter {
        b'i' => TextPart::IntegerImage,
        b'b' => TextPart::BooleanImage,
        b'_' => TextPart::Literal(Text::from_slice(alloc, b" ")?),
        _ => TextPart::Literal(Text::from_slice(alloc, b"bye")?),
    })
}

/// Adds a part for each mark.
fn add_parts(text: &mut Template, alloc: Global, marks: &[Mark]) -> Result<(), AllocError> {
    for mark in marks {
        text.push(part_of(alloc, mark.letter)?)?;
    }
    Ok(())
}

/// Adds a text of such parts.
fn add_text(code: &mut Code, alloc: Global, marks: &[Mark]) -> Result<(), AllocError> {
    let mut text = Template::new(alloc);
    let added = add_parts(&mut text, alloc, marks);
    code.texts.push(text)?;
    added
}

/// Takes all texts away.
fn clear_texts(code: &mut Code) -> Result<(), AllocError> {
    code.texts.clear();
    Ok(())
}

/// Adds the name of an exception.
pub fn add_exception(code: &mut Code, alloc: Global, name: &[u8]) -> Result<(), AllocError> {
    code.exceptions.push(Text::from_slice(alloc, name)?)?;
    Ok(())
}

/// Says of the masters around each declaration as little as it can.
fn say_least(code: &mut Code, alloc: Global) -> Result<(), AllocError> {
    code.homes = least_homes(alloc, code)?;
    Ok(())
}

/// Sets the room of a window.
fn set_room(code: &mut Code, room: usize) -> Result<(), AllocError> {
    code.room = room;
    Ok(())
}

/// Adds an instruction, and not what stands before it.
pub fn add_instr(code: &mut Code, instr: Instr) -> Result<(), AllocError> {
    code.instructions.push(instr)?;
    Ok(())
}

/// Does what a word asks for that stands alone.
fn add_alone(code: &mut Code, alloc: Global, word: Word) -> Result<(), AllocError> {
    match word {
        [b's', b'i'] => clear_texts(code),
        [b'e', b'x'] => add_exception(code, alloc, b"PROGRAM_ERROR"),
        [b'l', b'e'] => say_least(code, alloc),
        [b'm', b'o'] => add_instr(code, Instr::Transfer(Way::Exit)),
        _ => add_instr(code, Instr::Missing),
    }
}

/// Does what a word with a number asks for.
fn add_numbered(code: &mut Code, word: Word, number: usize) -> Result<(), AllocError> {
    match word {
        [b'p', b'r'] => add_body(code, SubprogramKind::Procedure, number),
        [b'f', b'u'] => add_body(code, SubprogramKind::Function, number),
        [b'a', b'c'] => add_access_type(code, number),
        [b'r', b'o'] => set_room(code, number),
        _ => add_instr(code, Instr::Missing),
    }
}

/// Does what a word asks for with marks that are counted.
fn add_counted(
    code: &mut Code,
    alloc: Global,
    word: Word,
    marks: &[Mark],
) -> Result<(), AllocError> {
    match marks {
        [] => add_alone(code, alloc, word),
        [mark] => add_numbered(code, word, mark.number),
        [initialize, finalize] if word == [b'r', b'e'] => {
            add_record(code, initialize.number, finalize.number)
        }
        _ => add_instr(code, Instr::Missing),
    }
}

/// Does what a word asks for with these marks.
pub fn add_table(
    code: &mut Code,
    alloc: Global,
    word: Word,
    marks: &[Mark],
) -> Result<(), AllocError> {
    match word {
        [b'c', b'o'] => add_layout(code, alloc, (Parts::Controlled, BODY_LEVEL), marks),
        [b'o', b'u'] => add_layout(code, alloc, (Parts::Controlled, 0), marks),
        [b'p', b'l'] => add_layout(code, alloc, (Parts::Plain, BODY_LEVEL), marks),
        [b't', b'e'] => add_text(code, alloc, marks),
        _ => add_counted(code, alloc, word, marks),
    }
}
