//! Words of a text, and the numbers behind them.

use ctl_code::code::{Cell, Named};
use ctl_program::types::Ty;
use std::alloc::{AllocError, Global};

/// What a word is known by: its first two letters.
pub type Word = [u8; 2];

/// A number, and the letter before it, a blank where there is none.
#[derive(Clone, Copy)]
pub struct Mark {
    pub letter: u8,
    pub number: usize,
}

/// A mark of which nothing is read.
const BLANK: Mark = Mark {
    letter: b' ',
    number: 0,
};

impl Mark {
    /// Reads one more byte of the mark.
    fn with(self, byte: u8) -> Mark {
        if byte >= b'0' && byte <= b'9' {
            let digit = byte.saturating_sub(b'0') as usize;
            return Mark {
                letter: self.letter,
                number: self.number.saturating_mul(10).saturating_add(digit),
            };
        }
        Mark {
            letter: byte,
            number: self.number,
        }
    }

    /// Answers the cell that it stands for: `v1` is the second slot of the newest master, a body, in cell 1, and `3` the operand in cell 3.
    pub fn cell(self) -> Cell {
        let named = if self.letter == b'v' {
            Named::Variable {
                out: 0,
                slot: self.number,
            }
        } else {
            Named::Operand
        };
        Cell {
            at: self.number,
            named,
        }
    }

    /// Answers the type that it stands for: `b` is Boolean, `r0` the first record type, and any other Integer.
    pub fn ty(self) -> Ty {
        match self.letter {
            b'b' => Ty::Boolean,
            b'r' => Ty::Record(self.number),
            _ => Ty::Integer,
        }
    }
}

/// Reads the mark that these letters and digits make.
fn mark_of(word: &str) -> Mark {
    let mut mark = BLANK;
    for byte in word.as_bytes() {
        mark = mark.with(*byte);
    }
    mark
}

/// Answers the first word of a text, two blanks where there is none.
pub fn word_of(text: &str) -> Word {
    match text.trim_start().as_bytes() {
        [first, second, ..] => [*first, *second],
        _ => [b' ', b' '],
    }
}

/// Reads the marks behind the first word of a text.
pub fn marks_of(alloc: Global, text: &str) -> Result<Vec<Mark>, AllocError> {
    let mut marks = Vec::new(alloc);
    for word in text.split_whitespace().skip(1) {
        marks.push(mark_of(word))?;
    }
    Ok(marks)
}

/// Reads the number that a text begins with.
pub fn number_before(text: &str) -> Option<usize> {
    let mark = match text.split_whitespace().next() {
        Some(word) => mark_of(word),
        None => return None,
    };
    if mark.letter == b' ' {
        Some(mark.number)
    } else {
        None
    }
}
