//! Lists of tokens, also such as no text gives. Which texts are refused, and where, `tests/refused.py` asks of the program.

use crate::faults::is_fault;
use ctl_parse::parse;
use ctl_tree::fault::{Fault, FaultCode};
use ctl_tree::span::Span;
use ctl_tree::text::Text;
use ctl_tree::token::{Kind, Token};
use std::alloc::{AllocError, Global};
use std::test::Fail;

/// The kinds of the tokens of a procedure that does nothing, and of its end mark.
const EMPTY: [Kind; 9] = [
    Kind::Procedure,
    Kind::Identifier,
    Kind::Is,
    Kind::Begin,
    Kind::Null,
    Kind::Semicolon,
    Kind::End,
    Kind::Semicolon,
    Kind::Finish,
];

/// Tokens of these kinds that hold nothing, each in the column of its number.
fn tokens_of(alloc: Global, kinds: &[Kind]) -> Result<Vec<Token>, AllocError> {
    let mut tokens = Vec::new(alloc);
    for kind in kinds {
        let column = tokens.len().saturating_add(1);
        tokens.push(Token {
            kind: *kind,
            span: Span { line: 1, column },
            text: Text::new(alloc),
            value: 0,
        })?;
    }
    Ok(tokens)
}

/// Answers the fault of these tokens, or none where they have a tree.
fn fault_of(alloc: Global, tokens: &[Token]) -> Option<Fault> {
    match parse(alloc, tokens) {
        Ok(_) => None,
        Err(fault) => Some(fault),
    }
}

#[test]
fn a_procedure_has_a_tree(rt: HostRuntime) -> Result<(), Fail> {
    let tokens = tokens_of(rt.alloc(), &EMPTY)?;
    assert!(rt; fault_of(rt.alloc(), &tokens).is_none());
    Ok(())
}

#[test]
fn without_an_end_mark_the_last_token_is_unexpected(rt: HostRuntime) -> Result<(), Fail> {
    let tokens = tokens_of(rt.alloc(), &EMPTY[..8])?;
    let fault = fault_of(rt.alloc(), &tokens);
    assert!(rt; is_fault(fault, FaultCode::Unexpected, 8));
    Ok(())
}

#[test]
fn no_tokens_are_a_fault_in_the_first_column(rt: HostRuntime) {
    let fault = fault_of(rt.alloc(), &[]);
    assert!(rt; is_fault(fault, FaultCode::Unexpected, 1));
}

/// The kinds of the tokens of a procedure with a word in it that the subset leaves out.
const LEFT_OUT: [Kind; 4] = [Kind::Procedure, Kind::Identifier, Kind::Is, Kind::Task];

#[test]
fn a_word_is_left_out_by_its_kind(rt: HostRuntime) -> Result<(), Fail> {
    let tokens = tokens_of(rt.alloc(), &LEFT_OUT)?;
    let fault = fault_of(rt.alloc(), &tokens);
    assert!(rt; is_fault(fault, FaultCode::LeftOut, 4));
    Ok(())
}
