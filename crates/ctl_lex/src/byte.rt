//! Classes of bytes (RM 2.1, 2.2).

ghost use Rattle.std.specs.Prelude.{◌≡◌};
ghost use Rattle.ctl_lexis.specs.Bytes.{class_of, is_blank, is_letter, is_digit, is_underscore, is_graphic, in_name, in_number, in_line, run};

use ctl_bytes::place::is_line_end;
use ctl_lexis::class::ByteClass;

fn is_blank(byte: u8) -> bool
    ensures { result ≡ is_blank byte }
{
    byte == b' ' || (9..=13).contains(&byte)
}

pub fn is_letter(byte: u8) -> bool
    ensures { result ≡ is_letter byte }
{
    (b'a'..=b'z').contains(&byte) || (b'A'..=b'Z').contains(&byte)
}

pub fn is_digit(byte: u8) -> bool
    ensures { result ≡ is_digit byte }
{
    (b'0'..=b'9').contains(&byte)
}

pub fn is_underscore(byte: u8) -> bool
    ensures { result ≡ is_underscore byte }
{
    byte == b'_'
}

fn is_graphic(byte: u8) -> bool
    ensures { result ≡ is_graphic byte }
{
    (b' '..=b'~').contains(&byte)
}

fn in_name(byte: u8) -> bool
    ensures { result ≡ in_name byte }
{
    is_letter(byte) || is_digit(byte) || is_underscore(byte)
}

fn in_number(byte: u8) -> bool
    ensures { result ≡ in_number byte }
{
    is_digit(byte) || is_underscore(byte)
}

fn in_line(byte: u8) -> bool
    ensures { result ≡ in_line byte }
{
    !is_line_end(byte)
}

/// Counts the bytes at the front that are letters, digits and underscores.
pub fn name_run(bytes: &[u8]) -> usize
    ensures { result ≡ run in_name bytes.now }
{
    bytes.iter().take_while(|b| in_name(**b)).count()
}

/// Counts the bytes at the front that are digits and underscores.
pub fn number_run(bytes: &[u8]) -> usize
    ensures { result ≡ run in_number bytes.now }
{
    bytes.iter().take_while(|b| in_number(**b)).count()
}

/// Counts the bytes at the front that stand in one line.
pub fn line_run(bytes: &[u8]) -> usize
    ensures { result ≡ run in_line bytes.now }
{
    bytes.iter().take_while(|b| in_line(**b)).count()
}

/// Counts the bytes at the front that may stand in a string.
pub fn graphic_run(bytes: &[u8]) -> usize
    ensures { result ≡ run is_graphic bytes.now }
{
    bytes.iter().take_while(|b| is_graphic(**b)).count()
}

/// Tells what may begin with a byte.
#[tactic(auto, unfolding(ctl_lexis::specs::Bytes::class_of))]
pub fn class_of(byte: u8) -> ByteClass
    ensures { result ≡ class_of byte }
{
    if is_blank(byte) {
        ByteClass::Blank
    } else if is_letter(byte) {
        ByteClass::Letter
    } else if is_digit(byte) {
        ByteClass::Digit
    } else if byte == b'"' {
        ByteClass::Quote
    } else {
        ByteClass::Other
    }
}
