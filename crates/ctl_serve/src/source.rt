//! Source texts, read from a file.

ghost use Rattle.std.specs.Prelude.{◌≡◌, ◌≤◌, ◌<◌, false, true, IfErr, IfOk, IsErrOf, OnErr, OnOk, length, take, vec_len};
ghost use Rattle.std.specs.Io.{ReadsAtMost};
ghost use Rattle.std.specs.Io.KnownBytes.{Consumes, IsAtEnd, ReadConsumes};
ghost use Rattle.ctl_serve.specs.Reading.{is_unread, reader_of};

use std::alloc::Allocator;
use std::io::Read;

/// The reason why a source text was not read.
#[derive(Clone, Copy, Debug, PartialEq, Eq)]
pub enum ReadFault {
    Memory,
    /// a read returned an error
    Read,
}

/// A reader that remembers whether a read failed.
#[derive(Drop)]
pub struct Reading<R> {
    reader: R,
    is_broken: bool,
}

impl<R: Read> Reading<R> {
    /// Makes a `Reading` of this reader, of which no read has failed.
    pub fn new(reader: R) -> Reading<R>
        ensures reader { reader_of result ≡ reader }
        ensures whole { is_unread result ≡ false }
    {
        Reading {
            reader,
            is_broken: false,
        }
    }

    /// Reads some bytes, none only at the reader's end or if the buffer has no room. A fault reads none.
    fn read(&mut self, buffer: &mut [u8]) -> Result<usize, ReadFault>
        ensures bound { ReadsAtMost result buffer.new }
        ensures bytes { ReadConsumes (R.remaining (reader_of self.old)) (R.remaining (reader_of self.new)) result buffer.new }
        ensures ok { OnOk result (is_unread self.new ≡ is_unread self.old) }
        ensures err { OnErr result (is_unread self.new ≡ true) }
        ensures read { IfErr result (λ fault. fault ≡ ReadFault.Read) }
    {
        match self.reader.read(buffer) {
            Ok(n) => Ok(n),
            Err(_) => {
                self.is_broken = true;
                Err(ReadFault::Read)
            }
        }
    }
}

/// Fills the buffer, and returns how many bytes were read: fewer than it has only at the reader's end. Each read but
/// the last gives at least a byte, so that there are no more reads than bytes.
fn fill<R: Read>(source: &mut Reading<R>, buffer: &mut [u8]) -> Result<usize, ReadFault>
    ensures count { IfOk result (λ n. n ≤ length buffer.new) }
    ensures bytes { IfOk result (λ n. Consumes (R.remaining (reader_of source.old)) (R.remaining (reader_of source.new)) (take n buffer.new)) }
    ensures end { IfOk result (λ n. n < length buffer.new → IsAtEnd (R.remaining (reader_of source.new))) }
    ensures ok { OnOk result (is_unread source.new ≡ is_unread source.old) }
    ensures err { OnErr result (is_unread source.new ≡ true) }
    ensures read { IfErr result (λ fault. fault ≡ ReadFault.Read) }
{
    let mut held = 0;
    while held < buffer.len() {
        match source.read(&mut buffer[held..])? {
            0 => return Ok(held),
            n => held += n,
        }
    }
    Ok(held)
}

/// Reads the bytes of a file, at most `limit` of them, into memory of this allocator.
///
/// # Errors
///
/// Returns `Read` if a read failed, and `Memory` before any read.
pub fn read_source<A: Allocator, R: Read>(
    alloc: A,
    source: &mut Reading<R>,
    limit: usize,
) -> Result<Vec<u8, A>, ReadFault>
    ensures count { IfOk result (λ bytes. vec_len bytes ≤ limit) }
    ensures bytes { IfOk result (λ bytes. Consumes (R.remaining (reader_of source.old)) (R.remaining (reader_of source.new)) bytes.items) }
    ensures end { IfOk result (λ bytes. vec_len bytes < limit → IsAtEnd (R.remaining (reader_of source.new))) }
    ensures ok { OnOk result (is_unread source.new ≡ is_unread source.old) }
    ensures read { IsErrOf result ReadFault.Read → is_unread source.new ≡ true }
    ensures memory { IsErrOf result ReadFault.Memory → source.new ≡ source.old }
{
    let Ok(mut bytes) = vec![in alloc; 0u8; limit] else {
        return Err(ReadFault::Memory);
    };
    let held = fill(source, &mut bytes)?;
    bytes.truncate(held);
    Ok(bytes)
}
