//! What tokens hold, and the longest text. Which texts are refused, and where, `tests/refused.py` asks of the program.

use crate::faults::is_fault;
use ctl_lex::tokens;
use ctl_tree::fault::{Fault, FaultCode};
use ctl_tree::token::{Kind, Token};
use std::alloc::{AllocError, Global};
use std::test::Fail;

/// Says whether these are a name, a string, two numbers, two points and the end mark, each with what it holds.
fn are_held(found: &[Token]) -> bool {
    match found {
        [name, string, number, zero, points, end] => {
            name.text.as_bytes() == b"Ab_1".as_slice()
                && string.text.as_bytes() == b"a\"b".as_slice()
                && number.value == 999_999_999_999_999_999
                && zero.value == 0
                && matches!(points.kind, Kind::DoubleDot)
                && matches!(end.kind, Kind::Finish)
        }
        _ => false,
    }
}

#[test]
fn tokens_hold_their_texts_and_values(rt: HostRuntime) -> Result<(), Fail> {
    let found = tokens(rt.alloc(), b"Ab_1 \"a\"\"b\" 999_999_999_999_999_999 0_0..")?;
    assert!(rt; are_held(&found));
    Ok(())
}

/// So many blanks.
fn blanks(alloc: Global, count: usize) -> Result<Vec<u8>, AllocError> {
    let mut text = Vec::with_capacity(alloc, count)?;
    for _ in 0..count {
        text.push(b' ')?;
    }
    Ok(text)
}

/// Says whether there is no token but the end mark, in this column of the first line.
fn is_end_alone(found: Result<Vec<Token>, Fault>, column: usize) -> bool {
    match found {
        Ok(found) => match found.as_slice() {
            [end] => {
                matches!(end.kind, Kind::Finish) && end.span.line == 1 && end.span.column == column
            }
            _ => false,
        },
        Err(_) => false,
    }
}

#[test]
fn longest_text(rt: HostRuntime) -> Result<(), Fail> {
    let most = blanks(rt.alloc(), 1_048_576)?;
    assert!(rt; is_end_alone(tokens(rt.alloc(), &most), 1_048_577));
    Ok(())
}

#[test]
fn one_byte_more(rt: HostRuntime) -> Result<(), Fail> {
    let more = blanks(rt.alloc(), 1_048_577)?;
    let fault = tokens(rt.alloc(), &more).err();
    assert!(rt; is_fault(fault, FaultCode::TooLong, 1));
    Ok(())
}
