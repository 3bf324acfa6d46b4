//! Whole texts, put into a sink.

ghost use Rattle.std.specs.Prelude.{◌≡◌, true, OnOk, OnErr};
ghost use Rattle.std.specs.Io.KnownBytes.{Appends};
ghost use Rattle.ctl_sink.specs.Prefix.{AppendsPart};

use crate::traits::{PutFault, Sink};

/// Puts all these bytes: if the sink takes only some of them, the rest is put again.
///
/// # Errors
///
/// Returns `PutFault` if a `put` fails. The sink has then taken a prefix of the bytes, and not all of them.
pub fn put_all<S: Sink>(sink: &mut S, bytes: &[u8]) -> Result<(), PutFault>
    ensures all { OnOk result (Appends (S.taken sink.old) (S.taken sink.new) bytes.now) }
    ensures ok { OnOk result (S.has_failed sink.new ≡ S.has_failed sink.old) }
    ensures part { OnErr result (AppendsPart (S.taken sink.old) (S.taken sink.new) bytes.now) }
    ensures err { OnErr result (S.has_failed sink.new ≡ true) }
{
    let mut done = 0;
    while done < bytes.len() {
        done += sink.put(&bytes[done..])?;
    }
    Ok(())
}
