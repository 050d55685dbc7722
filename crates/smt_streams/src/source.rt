//! Sources, which give bytes. This file knows no device.

use crate::Broken;

/// A place where bytes come from, some at a time, until it reports the end or a call fails.
pub trait Source {
    ghost use Rattle.std.specs.Prelude.{◌≡◌, ◌<◌, ℕ, List, Bool, false, true, Option, length, take, drop, is_err};
    ghost use Rattle.std.specs.Io.{ReadsAtMost};
    ghost use Rattle.std.specs.Io.KnownBytes.{Consumes, IsAtEnd};
    ghost use Rattle.smt_streams.specs.Moved.{moved, tells_end};

    /// The bytes to come, where they are known.
    ghost to_come: { Self → Option (List ℕ) };

    /// Whether a call has reported the end.
    ghost has_ended: { Self → Bool };

    /// Whether a call has failed.
    ghost is_broken: { Self → Bool };

    /// Gives the next bytes, at the front of `buf`, and returns how many; 0 reports the end, and comes only
    /// where no byte is left.
    ///
    /// Bytes of `buf` after those stay as they were. A call that fails gives no byte. The caller gives room
    /// for at least one byte, and does not call again after the end or a failure.
    fn pull(&mut self, buf: &mut [u8]) -> Result<usize, Broken>
        requires room { 0 < length buf.old }
        requires sound { is_broken self.old ≡ false }
        requires open { has_ended self.old ≡ false }
        ensures bound { ReadsAtMost result buf.new }
        ensures behind { drop (moved result) buf.new ≡ drop (moved result) buf.old }
        ensures bytes { Consumes (to_come self.old) (to_come self.new) (take (moved result) buf.new) }
        ensures end { has_ended self.new ≡ tells_end result }
        ensures nothing_left { tells_end result ≡ true → IsAtEnd (to_come self.new) }
        ensures failed { is_broken self.new ≡ is_err result };

    /// Whether a call has failed.
    fn broken(&self) -> bool
        ensures { result ≡ is_broken self.now };
}
