//! A source over bytes in memory. This file knows no device.

ghost use Rattle.std.specs.Prelude.{◌≡◌, ◌<◌, false, true, length, take, drop, min, Some, Ok, is_err};
ghost use Rattle.std.specs.Io.{ReadsAtMost};
ghost use Rattle.std.specs.Io.KnownBytes.{Consumes, IsAtEnd};

use crate::{Broken, Source};

/// A source that gives bytes in memory, with a bound on how many a call gives. No call of it fails.
#[derive(Drop)]
pub struct Pieces<'a> {
    rest: &'a [u8],
    most: usize,
    ended: bool,
    ghost some: { 0 < most },
}

impl<'a> Pieces<'a> {
    ghost use Rattle.smt_streams.specs.Pieces.{pieces_left, pieces_ended, pieces_most};

    /// A source that gives `bytes`, at most `most` of them a call, which is one or more.
    pub fn new(bytes: &'a [u8], most: usize) -> Pieces<'a>
        requires { 0 < most }
        ensures left { pieces_left result ≡ bytes.now }
        ensures most { pieces_most result ≡ most }
        ensures open { pieces_ended result ≡ false }
    {
        Pieces {
            rest: bytes,
            most,
            ended: false,
        }
    }
}

impl Source for Pieces<'_> {
    ghost use Rattle.smt_streams.specs.Moved.{moved, tells_end};
    ghost use Rattle.smt_streams.specs.Pieces.{pieces_left, pieces_ended, pieces_most};

    ghost to_come = { λ pieces. Some (pieces_left pieces) };

    ghost has_ended = { pieces_ended };

    ghost is_broken = { λ _. false };

    fn pull(&mut self, buf: &mut [u8]) -> Result<usize, Broken>
        requires room { 0 < length buf.old }
        requires open { pieces_ended self.old ≡ false }
        ensures bound { ReadsAtMost result buf.new }
        ensures behind { drop (moved result) buf.new ≡ drop (moved result) buf.old }
        ensures bytes { Consumes (Some (pieces_left self.old)) (Some (pieces_left self.new))
            (take (moved result) buf.new) }
        ensures end { pieces_ended self.new ≡ tells_end result }
        ensures nothing_left { tells_end result ≡ true → IsAtEnd (Some (pieces_left self.new)) }
        ensures failed { false ≡ is_err result }
        ensures count { result
            ≡ Ok (min (pieces_most self.old) (min (length (pieces_left self.old)) (length buf.old))) }
        ensures most { pieces_most self.new ≡ pieces_most self.old }
    {
        let count = self.most.min(self.rest.len().min(buf.len()));
        buf[..count].copy_from_slice(&self.rest[..count]);
        self.rest = &self.rest[count..];
        self.ended = count == 0;
        Ok(count)
    }

    fn broken(&self) -> bool {
        false
    }
}
