//! Sinks that take less than they are given, and sinks that fail.

ghost use Rattle.std.specs.Prelude.{◌≡◌, true, Some};

use ctl_sink::{PutFault, Sink, Through, put_all};
use std::alloc::Global;
use std::io;
use std::io::Write;
use std::test::Fail;

/// A sink over memory that takes at most so many bytes at a time, and so many in all.
#[derive(Drop)]
struct Memory {
    bytes: Vec<u8>,
    at_once: usize,
    room: usize,
    is_broken: bool,
}

impl Memory {
    fn new(alloc: Global, at_once: usize, room: usize) -> Memory {
        Memory {
            bytes: Vec::new(alloc),
            at_once,
            room,
            is_broken: false,
        }
    }
}

impl Sink for Memory {
    ghost use Rattle.std.specs.Prelude.{Some};

    ghost taken = { λ m. Some m.bytes.items };

    ghost has_failed = { λ m. m.is_broken };

    fn put(&mut self, bytes: &[u8]) -> Result<usize, PutFault> {
        let left = self.room.saturating_sub(self.bytes.len());
        let n = bytes.len().min(self.at_once).min(left);
        if n == 0 || self.bytes.extend_from_slice(&bytes[..n]).is_err() {
            self.is_broken = true;
            return Err(PutFault);
        }
        Ok(n)
    }

    fn flush(&mut self) -> Result<(), PutFault> {
        Ok(())
    }

    fn failed(&self) -> bool {
        self.is_broken
    }
}

/// A writer that takes so many bytes, and then answers errors, or writes of no byte. A flush of it answers an error once it has
/// taken all that it can.
#[derive(Drop)]
struct Failing {
    room: usize,
    answers_error: bool,
}

impl Write for Failing {
    fn write(&mut self, bytes: &[u8]) -> io::Result<usize> {
        let n = bytes.len().min(self.room);
        if n == 0 && self.answers_error {
            return Err(io::Error::other("no room"));
        }
        self.room -= n;
        Ok(n)
    }

    fn flush(&mut self) -> io::Result<()> {
        if self.room == 0 {
            return Err(io::Error::other("no room"));
        }
        Ok(())
    }
}

/// Says whether a sink that takes so many bytes at a time has all of three puts.
fn takes_all(alloc: Global, at_once: usize) -> bool {
    let mut sink = Memory::new(alloc, at_once, 100);
    for bytes in ["trace", "", "d"] {
        if put_all(&mut sink, bytes.as_bytes()).is_err() {
            return false;
        }
    }
    !sink.failed() && sink.bytes.as_slice() == b"traced".as_slice()
}

#[test]
fn short_puts_are_continued(rt: HostRuntime) {
    for at_once in 1..5 {
        assert!(rt; takes_all(rt.alloc(), at_once), "at {at_once}");
    }
}

/// Says whether a sink with too little room for a put has failed, and has as much of it as there is room for.
fn takes_prefix(alloc: Global, room: usize) -> bool {
    let mut sink = Memory::new(alloc, 2, room);
    let is_put = put_all(&mut sink, b"trace").is_ok();
    let taken = sink.bytes.as_slice();
    !is_put && sink.failed() && taken.len() == room && b"trace".starts_with(taken)
}

#[test]
fn a_failed_put_leaves_a_prefix(rt: HostRuntime) {
    for room in 0..5 {
        assert!(rt; takes_prefix(rt.alloc(), room), "at {room}");
    }
}

/// Says whether a put of five bytes into a writer with this room fails where there is less, and is known to have failed.
fn tells_failure(room: usize, answers_error: bool) -> bool {
    let mut sink = Through::new(Failing {
        room,
        answers_error,
    });
    let is_put = put_all(&mut sink, b"trace").is_ok();
    is_put == (room >= 5) && sink.failed() == (room < 5)
}

#[test]
fn a_writer_fails_by_an_error_or_by_no_byte(rt: HostRuntime) {
    for room in 0..8 {
        assert!(rt; tells_failure(room, false), "at {room}");
        assert!(rt; tells_failure(room, true), "at {room}");
    }
}

/// Says whether a flush behind a put of five bytes into a writer with this room is kept, and is known to have failed if not.
fn flushes(room: usize) -> Option<bool> {
    let mut sink = Through::new(Failing {
        room,
        answers_error: true,
    });
    if put_all(&mut sink, b"trace").is_err() {
        return None;
    }
    let is_kept = sink.flush().is_ok();
    if sink.failed() == is_kept {
        return None;
    }
    Some(is_kept)
}

#[test]
fn a_flush_that_fails_is_remembered(rt: HostRuntime) {
    assert!(rt; matches!(flushes(5), Some(false)));
    assert!(rt; matches!(flushes(6), Some(true)));
}
