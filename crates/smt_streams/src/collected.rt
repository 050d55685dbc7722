//! A sink into memory. This file knows no device.

ghost use Rattle.std.specs.Prelude.{◌≡◌, ◌<◌, false, [], length, take, min, Some, is_err, IfOk, OnOk};
ghost use Rattle.std.specs.Io.{WritesAtMost};
ghost use Rattle.std.specs.Io.KnownBytes.{Appends};

use crate::{Broken, Sink};
use std::alloc::Global;

/// A sink that keeps bytes in memory, with a bound on how many a call accepts. A call fails where memory is
/// refused.
#[derive(Drop)]
pub struct Collected {
    bytes: Vec<u8>,
    most: usize,
    broken: bool,
    ghost some: { 0 < most },
}

impl Collected {
    ghost use Rattle.smt_streams.specs.Collected.{collected_bytes, collected_broken, collected_most};

    /// A sink that has accepted nothing, and accepts at most `most` bytes a call, which is one or more.
    pub fn new(alloc: Global, most: usize) -> Collected
        requires { 0 < most }
        ensures bytes { collected_bytes result ≡ [] }
        ensures most { collected_most result ≡ most }
        ensures sound { collected_broken result ≡ false }
    {
        Collected {
            bytes: Vec::new(alloc),
            most,
            broken: false,
        }
    }

    /// The bytes accepted so far.
    pub fn bytes(&self) -> &[u8]
        ensures { result.now ≡ collected_bytes self.now }
    {
        self.bytes.as_slice()
    }
}

impl Sink for Collected {
    ghost use Rattle.smt_streams.specs.Moved.{moved};
    ghost use Rattle.smt_streams.specs.Collected.{collected_bytes, collected_broken, collected_most};

    ghost taken = { λ sink. Some (collected_bytes sink) };

    ghost is_broken = { collected_broken };

    fn put(&mut self, bytes: &[u8]) -> Result<usize, Broken>
        requires some { 0 < length bytes.now }
        requires sound { collected_broken self.old ≡ false }
        ensures bound { WritesAtMost result bytes.now }
        ensures progress { OnOk result (0 < moved result) }
        ensures bytes { Appends (Some (collected_bytes self.old)) (Some (collected_bytes self.new))
            (take (moved result) bytes.now) }
        ensures failed { collected_broken self.new ≡ is_err result }
        ensures count { IfOk result (λ n. n ≡ min (collected_most self.old) (length bytes.now)) }
        ensures most { collected_most self.new ≡ collected_most self.old }
    {
        let count = self.most.min(bytes.len());
        if self.bytes.extend_from_slice(&bytes[..count]).is_err() {
            self.broken = true;
            return Err(Broken);
        }
        Ok(count)
    }

    fn broken(&self) -> bool {
        self.broken
    }
}
