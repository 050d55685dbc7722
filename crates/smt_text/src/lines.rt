//! Lines and columns of places in a text that are asked for in any order. This file knows no tokens.

ghost use Rattle.std.proofs.Props.{props};
ghost use Rattle.std.specs.Prelude.{◌≡◌, ◌+◌, ◌*◌, drop, length, take, IfOk, OnOk};
ghost use Rattle.smt_text.specs.Lines.{AreKnown, stride};
ghost use Rattle.smt_text.specs.Positions.{position_after};

use crate::position::Position;
use smt_faults::Memory;
use std::alloc::Global;

/// The positions of the bytes at multiples of this number are kept.
const STRIDE: usize = 4096;

/// A text, and the positions of some of its bytes, which are kept as they are asked for. So all questions together go
/// over the text once, and each over at most 4,096 bytes more.
#[derive(Drop)]
pub struct Lines<'t> {
    pub text: &'t [u8],
    known: Vec<Position>,
    /// The position that is kept next.
    next: Position,
    ghost are_known: { AreKnown text.now known.items } by { Prim.hlevel props },
    ghost next_so: { next ≡ position_after (take (length known.items * stride) text.now) },
}

impl<'t> Lines<'t> {
    /// The lines of a text, of which no position is kept.
    pub fn new(alloc: Global, text: &'t [u8]) -> Lines<'t>
        ensures { result.text.now ≡ text.now }
    {
        Lines {
            text,
            known: Vec::new(alloc),
            next: Position::first(),
        }
    }
}

impl Lines<'_> {
    /// The position of a byte of the text, which counts from 0. Where the text has no such byte, the position of its
    /// end. The only error is want of memory.
    pub fn position(&mut self, byte: u64) -> Result<Position, Memory>
        ensures place { IfOk result (λ p. p ≡ position_after (take byte self.old.text.now)) }
        ensures text { self.new.text ≡ self.old.text }
    {
        let place = byte.min(self.text.len() as u64) as usize;
        let wanted = place / STRIDE;
        while self.known.len() <= wanted {
            self.keep_next()?;
        }
        match self.known.get(wanted) {
            Some(before) => Ok(before.after(part_of(self.text, wanted, place % STRIDE))),
            None => unreachable!(),
        }
    }

    // Keeps one more position.
    fn keep_next(&mut self) -> Result<(), Memory>
        ensures one { OnOk result (length self.new.known.items ≡ length self.old.known.items + 1) }
        ensures text { self.new.text ≡ self.old.text }
    {
        let strides = self.known.len();
        self.known.push(self.next)?;
        self.next = self.next.after(part_of(self.text, strides, STRIDE));
        Ok(())
    }
}

// So many bytes of a text behind this many strides, or as many as there are.
fn part_of(text: &[u8], strides: usize, count: usize) -> &[u8]
    ensures { result.now ≡ take count (drop (strides * stride) text.now) }
{
    let rest = &text[strides.saturating_mul(STRIDE).min(text.len())..];
    &rest[..count.min(rest.len())]
}
