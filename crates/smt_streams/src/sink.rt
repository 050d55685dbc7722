//! Sinks, which accept bytes. This file knows no device.

ghost use Rattle.std.specs.Prelude.{◌≡◌, ◌<◌, ℕ, List, Bool, false, Option, length, take, is_err, OnErr, OnOk};
ghost use Rattle.std.specs.Io.{WritesAtMost};
ghost use Rattle.std.specs.Io.KnownBytes.{Appends};
ghost use Rattle.smt_streams.specs.Moved.{TakesPart, moved};

use crate::Broken;

/// A place where bytes go, some at a time, until a call fails.
pub trait Sink {
    /// The bytes accepted so far, after those that it held before, where they are known.
    ghost taken: { Self → Option (List ℕ) };

    /// Whether a call has failed.
    ghost is_broken: { Self → Bool };

    /// Accepts bytes from the front of `bytes`, after those accepted before, and returns how many: one or
    /// more.
    ///
    /// A call that fails accepts no byte. The caller passes at least one byte, and does not call again after
    /// a failure.
    fn put(&mut self, bytes: &[u8]) -> Result<usize, Broken>
        requires some { 0 < length bytes.now }
        requires sound { is_broken self.old ≡ false }
        ensures bound { WritesAtMost result bytes.now }
        ensures progress { OnOk result (0 < moved result) }
        ensures bytes { Appends (taken self.old) (taken self.new) (take (moved result) bytes.now) }
        ensures failed { is_broken self.new ≡ is_err result };

    /// Whether a call has failed.
    fn broken(&self) -> bool
        ensures { result ≡ is_broken self.now };
}

/// Puts all of `bytes`, in as many calls as the sink needs.
///
/// It fails where a call fails. The sink has then accepted some of the bytes, from the front, but not all.
pub fn put_all<S: Sink>(sink: &mut S, bytes: &[u8]) -> Result<(), Broken>
    requires { S.is_broken sink.old ≡ false }
    ensures whole { OnOk result (Appends (S.taken sink.old) (S.taken sink.new) bytes.now) }
    ensures part { OnErr result (TakesPart (S.taken sink.old) (S.taken sink.new) bytes.now) }
    ensures failed { S.is_broken sink.new ≡ is_err result }
{
    let mut done = 0;
    while done < bytes.len() {
        let taken = sink.put(&bytes[done..])?;
        done += taken;
    }
    Ok(())
}
