//! Sinks, and their fault.

ghost use Rattle.std.specs.Prelude.{◌≡◌, ◌≤◌, ◌<◌, ℕ, Bool, true, List, Option, length, IfOk, OnOk, OnErr};
ghost use Rattle.std.specs.Io.KnownBytes.{Keeps, WriteAppends};

/// The fault of a sink that took nothing, or did not pass on what it took. The sink has failed from then on.
#[derive(Clone, Copy, Debug, PartialEq, Eq)]
pub struct PutFault;

/// A sink of bytes, which takes some of those that it is given at a time, or fails.
pub trait Sink {
    // the bytes taken so far, if the sink tells them
    ghost taken: { Self → Option (List ℕ) };

    // whether a `put` or a `flush` has failed
    ghost has_failed: { Self → Bool };

    /// Takes the first of these bytes, at least one, and returns how many.
    ///
    /// # Errors
    ///
    /// Returns `PutFault` if it takes none of them. It has failed from then on.
    fn put(&mut self, bytes: &[u8]) -> Result<usize, PutFault>
        requires { 0 < length bytes.now }
        ensures count { IfOk result (λ n. (0 < n) × (n ≤ length bytes.now)) }
        ensures taken { WriteAppends (taken self.old) (taken self.new) result bytes.now }
        ensures ok { OnOk result (has_failed self.new ≡ has_failed self.old) }
        ensures err { OnErr result (has_failed self.new ≡ true) };

    /// Passes on all bytes that were taken, as to a file behind a buffer. Takes no byte.
    ///
    /// # Errors
    ///
    /// Returns `PutFault` if they are not passed on. The sink has failed from then on.
    fn flush(&mut self) -> Result<(), PutFault>
        ensures taken { Keeps (taken self.old) (taken self.new) }
        ensures ok { OnOk result (has_failed self.new ≡ has_failed self.old) }
        ensures err { OnErr result (has_failed self.new ≡ true) };

    /// Returns whether a `put` or a `flush` has failed.
    fn failed(&self) -> bool
        ensures { result ≡ has_failed self.now };
}
