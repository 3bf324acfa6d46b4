//! What stands at the front of a text.

use ctl_tree::fault::FaultCode;
use ctl_tree::token::Kind;

/// What stands at the front of a text, beside the bytes themselves.
#[derive(Clone, Copy)]
pub enum Shape {
    /// a blank or a comment
    Gap,
    /// a delimiter or a reserved word
    Fixed(Kind),
    Identifier,
    /// a number and its value
    Number(u64),
    String,
}

/// What stands at the front of a text, with its length; or the fault there, and how many bytes behind the front.
pub type Front = Result<(Shape, usize), (FaultCode, usize)>;
