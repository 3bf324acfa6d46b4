//! Identifiers and reserved words (RM 2.3, 2.9).

ghost use Rattle.std.specs.Prelude.{◌≡◌, false};
ghost use Rattle.ctl_lexis.specs.Pieces.{has_single_underscores};
ghost use Rattle.ctl_lexis.specs.Reading.{name_of, name_at};

use crate::byte::{is_underscore, name_run};
use crate::word::word_of;
use ctl_lexis::shape::{Front, Shape};
use ctl_tree::fault::FaultCode;

/// Tells whether each underscore has another byte directly behind it.
pub fn has_single_underscores(text: &[u8]) -> bool
    ensures { result ≡ has_single_underscores false text.now }
{
    let mut behind = false;
    for byte in text {
        let here = is_underscore(*byte);
        if behind && here {
            return false;
        }
        behind = here;
    }
    !behind
}

/// Gives the identifier or the reserved word of these bytes, with its length.
#[tactic(auto, unfolding(ctl_lexis::specs::Reading::name_of))]
fn name_of(text: &[u8]) -> Front
    ensures { result ≡ name_of text.now }
{
    if !has_single_underscores(text) {
        return Err((FaultCode::BadIdentifier, 0));
    }
    match word_of(text) {
        Some(kind) => Ok((Shape::Fixed(kind), text.len())),
        None => Ok((Shape::Identifier, text.len())),
    }
}

/// Gives the identifier or the reserved word at the front, with its length.
#[tactic(auto, unfolding(ctl_lexis::specs::Reading::name_at))]
pub fn name_at(bytes: &[u8]) -> Front
    ensures { result ≡ name_at bytes.now }
{
    name_of(&bytes[..name_run(bytes)])
}
