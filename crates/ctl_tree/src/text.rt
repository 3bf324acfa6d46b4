//! Short lists of bytes and numbers that contracts see as lists.

ghost use Rattle.std.specs.Prelude.{◌≡◌, [], ◌∷◌, ◌++◌, IfOk, OnOk, OnErr, length};

use smallvec::SmallVec;
use std::alloc::{AllocError, Global};
use std::marker::Model;

/// Bytes: a name as the text writes it, a string's content, or what a program prints.
///
/// A contract sees a text as the list of its bytes.
#[derive(Drop, Debug)]
pub struct Text {
    bytes: Vec<u8>,
}

impl Model for Text {
    ghost use Rattle.std.specs.Prelude.{List, ℕ};

    ghost Value = { List ℕ };

    ghost view = { λ t. t.bytes.items };
}

impl Text {
    /// Makes a text of no byte.
    pub fn new(alloc: Global) -> Text
        ensures { result ≡ [] }
    {
        Text {
            bytes: Vec::new(alloc),
        }
    }

    /// Makes a text of a copy of these bytes.
    pub fn from_slice(alloc: Global, bytes: &[u8]) -> Result<Text, AllocError>
        ensures { IfOk result (λ t. t ≡ bytes.now) }
    {
        Ok(Text {
            bytes: Vec::from_slice(alloc, bytes)?,
        })
    }

    /// Makes a text of these bytes themselves.
    pub fn from_vec(bytes: Vec<u8>) -> Text
        ensures { result ≡ bytes.items }
    {
        Text { bytes }
    }

    /// Gives the bytes.
    pub fn as_bytes(&self) -> &[u8]
        ensures { result.now ≡ self.now }
    {
        self.bytes.as_slice()
    }

    /// Adds one more byte at the end; unchanged where memory is refused.
    pub fn push(&mut self, byte: u8) -> Result<(), AllocError>
        ensures ok { OnOk result (self.new ≡ self.old ++ byte ∷ []) }
        ensures err { OnErr result (self.new ≡ self.old) }
    {
        self.bytes.push(byte)?;
        Ok(())
    }

    /// Adds more bytes at the end; unchanged where memory is refused.
    pub fn push_all(&mut self, bytes: &[u8]) -> Result<(), AllocError>
        ensures ok { OnOk result (self.new ≡ self.old ++ bytes.now) }
        ensures err { OnErr result (self.new ≡ self.old) }
    {
        self.bytes.extend_from_slice(bytes)?;
        Ok(())
    }

    /// Makes a copy.
    pub fn copied(&self, alloc: Global) -> Result<Text, AllocError>
        ensures { IfOk result (λ t. t ≡ self.now) }
    {
        Text::from_slice(alloc, self.as_bytes())
    }
}

/// The way from an object to a part of it: positions of components, from 1. Short paths need no allocation.
///
/// A contract sees a path as the list of its positions.
#[derive(Drop, Debug)]
pub struct Path {
    positions: SmallVec<u64, 4>,
}

impl Model for Path {
    ghost use Rattle.std.specs.Prelude.{List, ℕ};

    ghost Value = { List ℕ };

    ghost view = { λ p. p.positions.items };
}

impl Path {
    /// Makes the way to the whole object.
    pub fn new(alloc: Global) -> Path
        ensures { result ≡ [] }
    {
        Path {
            positions: SmallVec::new(alloc),
        }
    }

    /// Makes the way along these positions.
    pub fn from_slice(alloc: Global, positions: &[u64]) -> Result<Path, AllocError>
        ensures { IfOk result (λ p. p ≡ positions.now) }
    {
        Ok(Path {
            positions: SmallVec::from_slice(alloc, positions)?,
        })
    }

    /// Gives the positions.
    pub fn as_slice(&self) -> &[u64]
        ensures { result.now ≡ self.now }
    {
        self.positions.as_slice()
    }

    /// Goes one position further; unchanged where memory is refused.
    pub fn push(&mut self, position: u64) -> Result<(), AllocError>
        ensures ok { OnOk result (self.new ≡ self.old ++ position ∷ []) }
        ensures err { OnErr result (self.new ≡ self.old) }
    {
        self.positions.push(position)?;
        Ok(())
    }
}
