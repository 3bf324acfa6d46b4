//! Tokens with their places.

ghost use Rattle.std.specs.Prelude.{◌≡◌, ◌∷◌, ◌++◌, [], ◌-◌, length, take, drop, IfOk, OnOk};
ghost use Rattle.ctl_lexis.specs.Lexis.{token_of};
ghost use Rattle.ctl_lexis.specs.Reading.{piece_of};

use crate::string::content_of;
use ctl_lexis::shape::Shape;
use ctl_tree::span::Span;
use ctl_tree::text::Text;
use ctl_tree::token::{Kind, Token};
use std::alloc::{AllocError, Global};

/// Makes a token that carries nothing.
pub fn bare_token(alloc: Global, kind: Kind, span: Span) -> Token
    ensures { result ≡ record { kind = kind; span = span; text = []; value = 0 } }
{
    Token {
        kind,
        span,
        text: Text::new(alloc),
        value: 0,
    }
}

/// Gives the bytes between the first and the last.
fn inside(text: &[u8]) -> &[u8]
    ensures { result.now ≡ take (length text.now - 2) (drop 1 text.now) }
{
    if text.len() < 2 {
        return &[];
    }
    &text[1..text.len() - 1]
}

/// Adds a token of this shape and of these bytes behind the others; a gap adds none.
pub fn push_token(
    alloc: Global,
    found: &mut Vec<Token>,
    shape: Shape,
    text: &[u8],
    span: Span,
) -> Result<(), AllocError>
    ensures { OnOk result (found.new.items ≡ found.old.items ++ token_of span (piece_of shape text.now)) }
{
    let token = match shape {
        Shape::Gap => return Ok(()),
        Shape::Fixed(kind) => bare_token(alloc, kind, span),
        Shape::Identifier => Token {
            kind: Kind::Identifier,
            span,
            text: Text::from_slice(alloc, text)?,
            value: 0,
        },
        Shape::Number(value) => Token {
            kind: Kind::Number,
            span,
            text: Text::new(alloc),
            value,
        },
        Shape::String => Token {
            kind: Kind::String,
            span,
            text: content_of(alloc, inside(text))?,
            value: 0,
        },
    };
    found.push(token)?;
    Ok(())
}
