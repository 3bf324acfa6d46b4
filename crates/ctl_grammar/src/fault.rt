//! The fault of tokens that are no text of the grammar.

ghost use Rattle.std.specs.Prelude.{◌≡◌};
ghost use Rattle.ctl_grammar.specs.Fault.{code_of, fault_at};

use crate::kind::is_left_out;
use crate::refused::Reason;
use ctl_tree::fault::{Fault, FaultCode};
use ctl_tree::span::Span;
use ctl_tree::token::{Kind, Token};

/// Gives the number of the fault of a token that is wrong for this reason.
fn code_of(reason: Reason, kind: Kind) -> FaultCode
    ensures { result ≡ code_of reason kind }
{
    match reason {
        Reason::Unexpected => {
            if is_left_out(kind) {
                FaultCode::LeftOut
            } else {
                FaultCode::Unexpected
            }
        }
        Reason::TooDeep => FaultCode::TooDeep,
        Reason::LeftOut => FaultCode::LeftOut,
        Reason::EndName => FaultCode::EndName,
    }
}

/// Gives the fault of the first of these tokens. Where none is left, it stands at the last of all tokens.
pub fn fault_at(reason: Reason, rest: &[Token], tokens: &[Token]) -> Fault
    ensures { result ≡ fault_at reason rest.now tokens.now }
{
    match rest.first() {
        Some(token) => Fault::at(code_of(reason, token.kind), token.span),
        None => match tokens.last() {
            Some(token) => Fault::at(FaultCode::Unexpected, token.span),
            None => Fault::at(FaultCode::Unexpected, Span { line: 1, column: 1 }),
        },
    }
}
