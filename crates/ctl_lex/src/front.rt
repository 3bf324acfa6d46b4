//! What stands at the front of a text.

ghost use Rattle.std.specs.Prelude.{◌≡◌, ◌≤◌, ◌<◌, ◌^◌, length};
ghost use Rattle.ctl_lexis.specs.Reading.{comment_at, mark_at, front_of};

use crate::byte::{class_of, line_run};
use crate::name::name_at;
use crate::number::{byte_at, number_at};
use crate::string::string_at;
use ctl_bytes::delimiter::{compound_delimiter, simple_delimiter};
use ctl_lexis::class::ByteClass;
use ctl_lexis::shape::{Front, Shape};
use ctl_tree::fault::FaultCode;

/// Gives the comment at the front, with its length (RM 2.7).
#[tactic(auto, unfolding(ctl_lexis::specs::Reading::comment_at))]
fn comment_at(bytes: &[u8]) -> Front
    requires some { 2 ≤ length bytes.now }
    requires room { length bytes.now < 2 ^ 32 }
    ensures { result ≡ comment_at bytes.now }
{
    Ok((Shape::Gap, line_run(&bytes[2..]) + 2))
}

/// Gives the comment or the longest delimiter at the front, with its length (RM 2.2, 2.7).
#[tactic(auto, unfolding(ctl_lexis::specs::Reading::mark_at))]
fn mark_at(bytes: &[u8]) -> Front
    requires room { length bytes.now < 2 ^ 32 }
    ensures { result ≡ mark_at bytes.now }
{
    let first = byte_at(bytes, 0);
    let second = byte_at(bytes, 1);
    if first == b'-' && second == b'-' {
        return comment_at(bytes);
    }
    match compound_delimiter(first, second) {
        Some(kind) => Ok((Shape::Fixed(kind), 2)),
        None => match simple_delimiter(first) {
            Some(kind) => Ok((Shape::Fixed(kind), 1)),
            None => Err((FaultCode::BadByte, 0)),
        },
    }
}

/// Tells what stands at the front, with its length; or the fault that the text has there, and how far behind the front.
#[tactic(auto, unfolding(ctl_lexis::specs::Reading::front_of))]
pub fn front_of(bytes: &[u8]) -> Front
    requires some { 1 ≤ length bytes.now }
    requires room { length bytes.now < 2 ^ 32 }
    ensures { result ≡ front_of bytes.now }
{
    match class_of(byte_at(bytes, 0)) {
        ByteClass::Blank => Ok((Shape::Gap, 1)),
        ByteClass::Letter => name_at(bytes),
        ByteClass::Digit => number_at(bytes),
        ByteClass::Quote => string_at(bytes),
        ByteClass::Other => mark_at(bytes),
    }
}
