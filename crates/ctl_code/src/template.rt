//! The texts that a program prints, with places for the images of values (RM 3.5, 4.5.3).

ghost use Rattle.std.specs.Prelude.{◌≡◌, [], ◌∷◌, ◌++◌, OnOk, OnErr};

use ctl_tree::text::Text;
use std::alloc::{AllocError, Global};
use std::marker::Model;

/// A part of a text that is printed.
#[derive(Drop)]
pub enum TextPart {
    Literal(Text),
    /// the image of an Integer operand (RM 3.5)
    IntegerImage,
    /// the image of a Boolean operand
    BooleanImage,
}

/// A text that is printed: its images take as many operands.
///
/// A contract sees it as the list of its parts.
#[derive(Drop)]
pub struct Template {
    parts: Vec<TextPart>,
}

impl Model for Template {
    ghost use Rattle.std.specs.Prelude.{List};
    ghost use Rattle.ctl_code.specs.declared.template.TextPart.{TextPart};

    ghost Value = { List TextPart };

    ghost view = { λ t. t.parts.items };
}

impl Template {
    /// Makes a text with no part.
    pub fn new(alloc: Global) -> Template
        ensures { result ≡ [] }
    {
        Template {
            parts: Vec::new(alloc),
        }
    }

    /// Adds a part at the end; unchanged where memory is refused.
    pub fn push(&mut self, part: TextPart) -> Result<(), AllocError>
        ensures ok { OnOk result (self.new ≡ self.old ++ part ∷ []) }
        ensures err { OnErr result (self.new ≡ self.old) }
    {
        self.parts.push(part)?;
        Ok(())
    }

    /// Answers the parts.
    pub fn parts(&self) -> &[TextPart]
        ensures { result.now ≡ self.now }
    {
        self.parts.as_slice()
    }
}
