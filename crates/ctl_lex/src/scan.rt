//! The scanner's loop.

ghost use Rattle.std.specs.Prelude.{◌≡◌, List, ◌⊎◌, length, IfOk, IfErr, MatchResult};
ghost use Rattle.ctl_tree.specs.declared.fault.Fault.{Fault};
ghost use Rattle.ctl_tree.specs.declared.token.Token.{Token};
ghost use Rattle.ctl_lexis.specs.Lexis.{HasTokens, HasFault};
ghost use Rattle.ctl_lex.specs.Memory.{IsMemory};

use crate::front::front_of;
use crate::token::{bare_token, push_token};
use ctl_bytes::place::{place_after, start};
use ctl_tree::fault::{Fault, FaultCode};
use ctl_tree::token::{Kind, Token};
use std::alloc::Global;

/// The bytes that a source text may have.
const LONGEST_TEXT: usize = 1_048_576;

/// Gives the tokens of a source text with their places, an end mark last (RM 2); or its first lexical fault. `Memory` comes only where a
/// growth was refused.
pub fn tokens(alloc: Global, source: &[u8]) -> Result<Vec<Token>, Fault>
    ensures found { IfOk result (λ v. HasTokens source.now v.items) }
    ensures refused { IfErr result (λ f. HasFault source.now f ⊎ IsMemory f) }

    // A text that has tokens is not refused for another reason, nor is one with a fault taken.
    ensures all_tokens { (tokens : List Token) → HasTokens source.now tokens → MatchResult result (λ v. v.items ≡ tokens) IsMemory }
    ensures all_faults { (fault : Fault) → HasFault source.now fault → MatchResult result (λ _. ⊥) (λ f. (f ≡ fault) ⊎ IsMemory f) }
{
    let mut place = start();
    if source.len() > LONGEST_TEXT {
        return Err(Fault::at(FaultCode::TooLong, place.span));
    }
    let mut found = Vec::new(alloc);
    let mut rest = source;
    while !rest.is_empty() {
        match front_of(rest) {
            Ok((shape, length)) => {
                let (text, behind) = rest.split_at(length);
                push_token(alloc, &mut found, shape, text, place.span)?;
                place = place_after(place, text);
                rest = behind;
            }
            Err((code, offset)) => {
                let before = &rest[..offset];
                return Err(Fault::at(code, place_after(place, before).span));
            }
        }
    }
    found.push(bare_token(alloc, Kind::Finish, place.span))?;
    Ok(found)
}
