//! Why a byte of a text was refused, whatever its place. This file knows no want of memory.

ghost use Rattle.std.specs.Prelude.{◌≡◌};
ghost use Rattle.smt_text.specs.Internal.LexerStates.{flaw_at};

use smt_faults::TextFlaw;

/// Why a byte was refused.
#[derive(Clone, Copy)]
pub(crate) enum Refusal {
    /// No text continues with the byte.
    Unfit,
    /// The byte opens a list deeper than lists may nest.
    TooDeep,
}

impl Refusal {
    /// The flaw of a text whose byte at this place was refused; places are in bytes from 0.
    pub(crate) fn at(self, place: u64) -> TextFlaw
        ensures { result ≡ flaw_at place self }
    {
        match self {
            Refusal::Unfit => TextFlaw::Byte { place },
            Refusal::TooDeep => TextFlaw::Deep { place },
        }
    }
}
