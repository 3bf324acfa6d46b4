//! Texts that the program prints, with the images of values (RM 3.5), and names that the code gives by number.

ghost use Rattle.std.specs.Prelude.{◌≡◌, ◌+◌, ◌≤◌, ◌++◌, IfOk, OnOk, drop, length, slice_get, take};
ghost use Rattle.ctl_meaning.specs.Numbers.{integer_image, boolean_image};
ghost use Rattle.ctl_code.specs.Table.{images_in, text_of};
ghost use Rattle.ctl_values.specs.Images as Sign;

use crate::operators::{is_true, signed};
use ctl_code::template::TextPart;
use ctl_tree::text::Text;
use itoa::Buffer;
use std::alloc::{AllocError, Global};

/// Answers the sign of the image of a number: a blank or a minus sign.
fn sign_of(number: i64) -> u8
    ensures { result ≡ Sign.sign_of number }
{
    if number < 0 { b'-' } else { b' ' }
}

/// Appends the image of an Integer (RM 3.5): a blank or a minus sign, and the digits.
#[tactic(auto, unfolding(ctl_meaning::specs::Numbers::integer_image))]
fn push_integer_image(text: &mut Text, cell: u64) -> Result<(), AllocError>
    ensures { OnOk result (text.new ≡ text.old ++ integer_image cell) }
{
    let number = signed(cell);
    text.push(sign_of(number))?;
    let mut digits = Buffer::new();
    text.push_all(digits.format(number.unsigned_abs()).as_bytes())
}

/// Appends the image of a Boolean (RM 3.5).
#[tactic(auto, unfolding(ctl_meaning::specs::Numbers::boolean_image))]
fn push_boolean_image(text: &mut Text, cell: u64) -> Result<(), AllocError>
    ensures { OnOk result (text.new ≡ text.old ++ boolean_image cell) }
{
    if is_true(cell) {
        text.push_all(b"TRUE")
    } else {
        text.push_all(b"FALSE")
    }
}

/// Makes a text, whose images take their values in turn from the cells from this one on.
pub fn text_from(
    alloc: Global,
    parts: &[TextPart],
    cells: &[u64],
    first: usize,
) -> Result<Text, AllocError>
    requires { first + images_in parts.now ≤ length cells.now }
    ensures { IfOk result (λ text. text ≡ text_of parts.now (take (images_in parts.now) (drop first cells.now))) }
{
    let mut text = Text::new(alloc);
    let mut next = first;
    for part in parts {
        match part {
            TextPart::Literal(literal) => text.push_all(literal.as_bytes())?,
            TextPart::IntegerImage => {
                push_integer_image(&mut text, cells[next])?;
                next += 1;
            }
            TextPart::BooleanImage => {
                push_boolean_image(&mut text, cells[next])?;
                next += 1;
            }
        }
    }
    Ok(text)
}

/// Copies the text of this number, where there is one.
pub fn copy_at(alloc: Global, texts: &[Text], number: usize) -> Result<Option<Text>, AllocError>
    ensures { IfOk result (λ text. text ≡ slice_get texts.now number) }
{
    match texts.get(number) {
        Some(text) => Ok(Some(text.copied(alloc)?)),
        None => Ok(None),
    }
}
