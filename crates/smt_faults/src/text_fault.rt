//! Why a text can't be read, as the caller of a reader gets it. This file knows no bytes, only places.

ghost use Rattle.std.specs.Prelude.{◌≡◌};
ghost use Rattle.smt_faults.specs.Faults.{flaw_in};

use crate::failure::Failure;
use crate::text_flaw::TextFlaw;
use std::alloc::{AllocError, AllocFailed};

/// Why a text is not in the language, or can't be read. Places are in bytes from 0.
#[derive(Clone, Copy, Debug, PartialEq, Eq)]
pub enum TextFault {
    /// No text continues with the byte at this place (`X1`).
    Byte { place: u64 },
    /// The byte at this place opens a list deeper than lists may nest (`X2`).
    Deep { place: u64 },
    /// The text ends, at this place, inside a list, or inside a token that is not complete (`X3`).
    End { place: u64 },
    /// Memory was refused (`X0`), which says nothing about the text.
    Memory,
}

impl TextFault {
    /// What is wrong with the text; `None` where memory was refused.
    pub fn flaw(self) -> Option<TextFlaw>
        ensures { result ≡ flaw_in self }
    {
        match self {
            TextFault::Byte { place } => Some(TextFlaw::Byte { place }),
            TextFault::Deep { place } => Some(TextFlaw::Deep { place }),
            TextFault::End { place } => Some(TextFlaw::End { place }),
            TextFault::Memory => None,
        }
    }
}

impl From<TextFlaw> for TextFault {
    ghost use Rattle.std.specs.Prelude.{◌≡◌};
    ghost use Rattle.smt_faults.specs.Faults.{text_fault};

    ghost from_gives = { λ flaw fault. fault ≡ text_fault flaw };

    fn from(flaw: TextFlaw) -> TextFault {
        match flaw {
            TextFlaw::Byte { place } => TextFault::Byte { place },
            TextFlaw::Deep { place } => TextFault::Deep { place },
            TextFlaw::End { place } => TextFault::End { place },
        }
    }
}

impl From<Failure<TextFlaw>> for TextFault {
    ghost use Rattle.std.specs.Prelude.{◌≡◌};
    ghost use Rattle.smt_faults.specs.Faults.{text_failure};

    ghost from_gives = { λ failure fault. fault ≡ text_failure failure };

    fn from(failure: Failure<TextFlaw>) -> TextFault {
        match failure {
            Failure::Fault(flaw) => TextFault::from(flaw),
            Failure::Memory => TextFault::Memory,
        }
    }
}

impl From<AllocError> for TextFault {
    ghost use Rattle.std.specs.Prelude.{◌≡◌};
    ghost use Rattle.smt_faults.specs.declared.text_fault.TextFault.TheVariants.{Memory};

    ghost from_gives = { λ _ fault. fault ≡ Memory };

    fn from(_error: AllocError) -> TextFault {
        TextFault::Memory
    }
}

impl<T: Drop> From<AllocFailed<T>> for TextFault {
    ghost use Rattle.std.specs.Prelude.{◌≡◌};
    ghost use Rattle.smt_faults.specs.declared.text_fault.TextFault.TheVariants.{Memory};

    ghost from_gives = { λ _ fault. fault ≡ Memory };

    fn from(_error: AllocFailed<T>) -> TextFault {
        TextFault::Memory
    }
}
