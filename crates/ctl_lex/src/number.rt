//! Numbers (RM 2.4).

ghost use Rattle.std.specs.Prelude.{◌≡◌, ◌≤◌, count_by, slice_index};
ghost use Rattle.ctl_lexis.specs.Bytes.{is_digit};
ghost use Rattle.ctl_lexis.specs.Pieces.{runs_on, is_number, value_from};
ghost use Rattle.ctl_lexis.specs.Reading.{number_of, number_at};

use crate::byte::{is_digit, is_letter, number_run};
use crate::name::has_single_underscores;
use ctl_lexis::shape::{Front, Shape};
use ctl_tree::fault::FaultCode;

/// The digits that a number may have.
const MOST_DIGITS: usize = 18;

fn digit_count(text: &[u8]) -> usize
    ensures { result ≡ count_by is_digit text.now }
{
    text.iter().filter(|b| is_digit(**b)).count()
}

/// Gives the byte at this place, or 0, which stands in no token, behind the end.
pub fn byte_at(bytes: &[u8], index: usize) -> u8
    ensures { result ≡ slice_index bytes.now index }
{
    if index < bytes.len() { bytes[index] } else { 0 }
}

/// Tells whether what follows a number would go on with it.
fn runs_on(rest: &[u8]) -> bool
    ensures { result ≡ runs_on rest.now }
{
    let next = byte_at(rest, 0);
    is_letter(next) || next == b'#' || (next == b'.' && is_digit(byte_at(rest, 1)))
}

/// Tells whether digits and underscores are a number where this follows.
#[tactic(auto, unfolding(ctl_lexis::specs::Pieces::is_number))]
fn is_number(text: &[u8], rest: &[u8]) -> bool
    ensures { result ≡ is_number text.now rest.now }
{
    has_single_underscores(text) && digit_count(text) <= MOST_DIGITS && !runs_on(rest)
}

/// Gives the value of the digits among these bytes.
fn value_of(text: &[u8]) -> u64
    requires { count_by is_digit text.now ≤ 18 }
    ensures { result ≡ value_from 0 text.now }
{
    let mut value: u64 = 0;
    for byte in text {
        if is_digit(*byte) {
            value = value * 10 + u64::from(*byte - b'0');
        }
    }
    value
}

/// Gives the number of these bytes, where this follows, with its length.
#[tactic(auto, unfolding(ctl_lexis::specs::Reading::number_of, ctl_lexis::specs::Pieces::is_number))]
fn number_of(text: &[u8], rest: &[u8]) -> Front
    ensures { result ≡ number_of text.now rest.now }
{
    if is_number(text, rest) {
        Ok((Shape::Number(value_of(text)), text.len()))
    } else {
        Err((FaultCode::BadNumber, 0))
    }
}

/// Gives the number at the front, with its length.
#[tactic(auto, unfolding(ctl_lexis::specs::Reading::number_at))]
pub fn number_at(bytes: &[u8]) -> Front
    ensures { result ≡ number_at bytes.now }
{
    let (text, rest) = bytes.split_at(number_run(bytes));
    number_of(text, rest)
}
