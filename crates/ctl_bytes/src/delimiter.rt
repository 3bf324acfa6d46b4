//! The delimiters (RM 2.2).

ghost use Rattle.std.specs.Prelude.{◌≡◌};
ghost use Rattle.ctl_lexis.specs.Reading.{simple_delimiter, compound_delimiter};

use ctl_tree::token::Kind;

/// Gives the delimiter of this one byte, if it is one.
#[tactic(auto, unfolding(ctl_lexis::specs::Reading::simple_delimiter))]
pub fn simple_delimiter(byte: u8) -> Option<Kind>
    ensures { result ≡ simple_delimiter byte }
{
    match byte {
        b'&' => Some(Kind::Ampersand),
        b'\'' => Some(Kind::Apostrophe),
        b'(' => Some(Kind::LeftParenthesis),
        b')' => Some(Kind::RightParenthesis),
        b'*' => Some(Kind::Star),
        b'+' => Some(Kind::Plus),
        b',' => Some(Kind::Comma),
        b'-' => Some(Kind::Minus),
        b'.' => Some(Kind::Dot),
        b'/' => Some(Kind::Slash),
        b':' => Some(Kind::Colon),
        b';' => Some(Kind::Semicolon),
        b'<' => Some(Kind::Less),
        b'=' => Some(Kind::Equal),
        b'>' => Some(Kind::Greater),
        b'|' => Some(Kind::Bar),
        _ => None,
    }
}

/// Gives the delimiter of these two bytes, if they are one.
#[tactic(auto, unfolding(ctl_lexis::specs::Reading::compound_delimiter))]
pub fn compound_delimiter(first: u8, second: u8) -> Option<Kind>
    ensures { result ≡ compound_delimiter first second }
{
    match (first, second) {
        (b'=', b'>') => Some(Kind::Arrow),
        (b'.', b'.') => Some(Kind::DoubleDot),
        (b':', b'=') => Some(Kind::Becomes),
        (b'/', b'=') => Some(Kind::NotEqual),
        (b'>', b'=') => Some(Kind::GreaterEqual),
        (b'<', b'=') => Some(Kind::LessEqual),
        _ => None,
    }
}
