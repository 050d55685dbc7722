//! Why a text is not in the language. This file knows no bytes, only places, and no want of memory.

ghost use Rattle.std.specs.Prelude.{◌≡◌};
ghost use Rattle.smt_faults.specs.Faults.{place_of};

use std::error::Error;
use std::fmt;

/// Why a text is not in the language. Places are in bytes from 0.
#[derive(Clone, Copy, Debug, PartialEq, Eq)]
pub enum TextFlaw {
    /// No text continues with the byte at this place (`X1`).
    Byte { place: u64 },
    /// The byte at this place opens a list deeper than lists may nest (`X2`).
    Deep { place: u64 },
    /// The text ends, at this place, inside a list, or inside a token that is not complete (`X3`).
    End { place: u64 },
}

impl TextFlaw {
    /// The place of the flaw, in bytes from 0.
    pub fn place(&self) -> u64
        ensures { result ≡ place_of self.now }
    {
        match self {
            TextFlaw::Byte { place } | TextFlaw::Deep { place } | TextFlaw::End { place } => *place,
        }
    }
}

impl fmt::Display for TextFlaw {
    ghost use Rattle.std.specs.Prelude.{Some};
    ghost use Rattle.smt_faults.specs.FlawText.{text_of_flaw};

    ghost output = { λ x. Some (text_of_flaw x) };

    fn fmt<W: fmt::Write>(&self, f: &mut fmt::Formatter<W>) -> fmt::Result {
        f.write_str(match self {
            TextFlaw::Byte { .. } => "X1",
            TextFlaw::Deep { .. } => "X2",
            TextFlaw::End { .. } => "X3",
        })
    }
}

impl Error for TextFlaw {}
