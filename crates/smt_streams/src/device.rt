//! Devices: sources over what std reads from, and sinks over what std writes to. This file knows no file and
//! no terminal.

ghost use Rattle.std.specs.Prelude.{◌≡◌, ◌<◌, false, length, take, drop, IfOk, OnOk};
ghost use Rattle.std.specs.Io.{ReadsAtMost, WritesAtMost};
ghost use Rattle.std.specs.Io.KnownBytes.{Appends, Consumes, IsAtEnd};
ghost use Rattle.smt_streams.specs.Device.{device_inner, device_broken, device_ended};
ghost use Rattle.smt_streams.specs.Moved.{moved};

use crate::{Broken, Sink, Source};
use std::io::{ErrorKind, Read, Write};

// The greatest number of bytes that a pull gives.
const BLOCK: usize = 4096;

/// A source over a reader, or a sink over a writer.
///
/// It repeats a call that a signal interrupts. A writer that accepts no byte has failed. A pull gives at most
/// 4,096 bytes.
#[derive(Drop)]
pub struct Device<T> {
    inner: T,
    broken: bool,
    ended: bool,
    // The block that a read writes to. Its contents mean nothing before and after a read.
    block: [u8; BLOCK],
}

impl<T> Device<T> {
    /// A device that has moved no byte yet.
    pub fn new(inner: T) -> Device<T>
        ensures inner { device_inner result ≡ inner }
        ensures sound { device_broken result ≡ false }
        ensures open { device_ended result ≡ false }
    {
        Device {
            inner,
            broken: false,
            ended: false,
            block: [0; BLOCK],
        }
    }
}

impl<R: Read> Source for Device<R> {
    ghost to_come = { λ device. R.remaining (device_inner device) };

    ghost has_ended = { device_ended };

    ghost is_broken = { device_broken };

    fn pull(&mut self, buf: &mut [u8]) -> Result<usize, Broken> {
        let given = read_front(&mut self.inner, &mut self.block, buf);
        self.ended = given == Ok(0);
        self.broken = given.is_err();
        given
    }

    fn broken(&self) -> bool {
        self.broken
    }
}

impl<W: Write> Sink for Device<W> {
    ghost taken = { λ device. W.contents (device_inner device) };

    ghost is_broken = { device_broken };

    fn put(&mut self, bytes: &[u8]) -> Result<usize, Broken> {
        let taken = write_some(&mut self.inner, bytes);
        self.broken = taken.is_err();
        taken
    }

    fn broken(&self) -> bool {
        self.broken
    }
}

// Gives the bytes of one read. It reads into a block first, since a reader may write after the bytes that it
// gives.
fn read_front<R: Read>(
    reader: &mut R,
    block: &mut [u8; BLOCK],
    buf: &mut [u8],
) -> Result<usize, Broken>
    requires { 0 < length buf.old }
    ensures bound { ReadsAtMost result buf.new }
    ensures behind { drop (moved result) buf.new ≡ drop (moved result) buf.old }
    ensures bytes { Consumes (R.remaining reader.old) (R.remaining reader.new) (take (moved result) buf.new) }
    ensures end { IfOk result (λ n. n ≡ 0 → IsAtEnd (R.remaining reader.new)) }
{
    let room = buf.len().min(BLOCK);
    let count = read_uninterrupted(reader, &mut block[..room])?;
    buf[..count].copy_from_slice(&block[..count]);
    Ok(count)
}

// One read, repeated where a signal interrupts it. No contract bounds the interruptions, so 2^64 - 1 of them
// count as a failure.
fn read_uninterrupted<R: Read>(reader: &mut R, buf: &mut [u8]) -> Result<usize, Broken>
    ensures bound { ReadsAtMost result buf.new }
    ensures bytes { Consumes (R.remaining reader.old) (R.remaining reader.new) (take (moved result) buf.new) }
    ensures end { IfOk result (λ n. n ≡ 0 → 0 < length buf.old → IsAtEnd (R.remaining reader.new)) }
{
    for _ in 0..u64::MAX {
        match reader.read(buf) {
            Ok(given) => return Ok(given),
            Err(error) if error.kind() == ErrorKind::Interrupted => {}
            Err(_) => return Err(Broken),
        }
    }
    Err(Broken)
}

// One write, repeated where a signal interrupts it, as a read is.
fn write_some<W: Write>(writer: &mut W, bytes: &[u8]) -> Result<usize, Broken>
    ensures bound { WritesAtMost result bytes.now }
    ensures progress { OnOk result (0 < moved result) }
    ensures bytes { Appends (W.contents writer.old) (W.contents writer.new) (take (moved result) bytes.now) }
{
    for _ in 0..u64::MAX {
        match writer.write(bytes) {
            Ok(0) => return Err(Broken),
            Ok(taken) => return Ok(taken),
            Err(error) if error.kind() == ErrorKind::Interrupted => {}
            Err(_) => return Err(Broken),
        }
    }
    Err(Broken)
}
