//! Line ends and places (RM 2.2).

ghost use Rattle.std.specs.Prelude.{◌≡◌, ◌+◌, ◌≤◌, ◌<◌, ◌^◌, length};
ghost use Rattle.ctl_lexis.specs.Bytes.{is_line_end};
ghost use Rattle.ctl_lexis.specs.Places.{start, after, place_after};

use ctl_lexis::place::Place;
use ctl_tree::span::Span;

/// Tells whether a line ends at this byte.
pub fn is_line_end(byte: u8) -> bool
    ensures { result ≡ is_line_end byte }
{
    (10..=13).contains(&byte)
}

/// Gives the place where a text begins.
pub fn start() -> Place
    ensures { result ≡ start }
{
    Place {
        span: Span { line: 1, column: 1 },
        behind_cr: false,
    }
}

/// Gives the place behind a byte.
fn after(place: Place, byte: u8) -> Place
    requires line { place.span.line + 1 < 2 ^ 64 }
    requires column { place.span.column + 1 < 2 ^ 64 }
    ensures { result ≡ after place byte }
{
    let Span { line, column } = place.span;
    if !is_line_end(byte) {
        Place {
            span: Span {
                line,
                column: column + 1,
            },
            behind_cr: false,
        }
    } else if place.behind_cr && byte == b'\n' {
        Place {
            span: place.span,
            behind_cr: false,
        }
    } else {
        Place {
            span: Span {
                line: line + 1,
                column: 1,
            },
            behind_cr: byte == b'\r',
        }
    }
}

/// Gives the place behind these bytes.
pub fn place_after(place: Place, bytes: &[u8]) -> Place
    requires room { place.span.line + place.span.column + length bytes.now < 2 ^ 64 }
    requires from_one { 1 ≤ place.span.column }
    ensures place { result ≡ place_after place bytes.now }
    ensures room { result.span.line + result.span.column ≤ place.span.line + place.span.column + length bytes.now }
    ensures from_one { 1 ≤ result.span.column }
{
    let mut now = place;
    for byte in bytes {
        now = after(now, *byte);
    }
    now
}
