//! A sink over a writer.

ghost use Rattle.std.specs.Prelude.{◌≡◌, false, true};
ghost use Rattle.ctl_sink.specs.Through.{writer_of, is_broken};

use crate::traits::{PutFault, Sink};
use std::io::Write;

/// The sink over a writer of the standard library. It tells the bytes that the writer tells. It fails if a write
/// returns an error, of whatever kind, or takes no byte, and if a flush fails.
#[derive(Drop)]
pub struct Through<W> {
    writer: W,
    is_broken: bool,
}

impl<W: Write> Through<W> {
    /// Makes the sink over this writer. It has not failed.
    pub fn new(writer: W) -> Through<W>
        ensures writer { writer_of result ≡ writer }
        ensures whole { is_broken result ≡ false }
    {
        Through {
            writer,
            is_broken: false,
        }
    }

    /// Remembers that the writer failed.
    fn fail(&mut self) -> PutFault
        ensures broken { is_broken self.new ≡ true }
        ensures writer { writer_of self.new ≡ writer_of self.old }
    {
        self.is_broken = true;
        PutFault
    }
}

impl<W: Write> Sink for Through<W> {
    ghost taken = { λ t. W.contents t.writer };

    ghost has_failed = { λ t. t.is_broken };

    fn put(&mut self, bytes: &[u8]) -> Result<usize, PutFault> {
        match self.writer.write(bytes) {
            Ok(n) if n > 0 => Ok(n),
            _ => Err(self.fail()),
        }
    }

    fn flush(&mut self) -> Result<(), PutFault> {
        match self.writer.flush() {
            Ok(()) => Ok(()),
            Err(_) => Err(self.fail()),
        }
    }

    fn failed(&self) -> bool {
        self.is_broken
    }
}
