//! Why a term, a sort or a definition is refused, as a caller gets it. This file knows no term, only what is
//! wrong with one.

ghost use Rattle.std.specs.Prelude.{◌≡◌};
ghost use Rattle.smt_faults.specs.Faults.{flaw_of_term_fault};

use crate::memory::Memory;
use crate::term_flaw::TermFlaw;
use std::alloc::{AllocError, AllocFailed};

/// Why a term, a sort or a definition is refused: the first thing that is wrong with it, or want of memory.
#[derive(Clone, Copy, Debug, PartialEq, Eq)]
pub enum TermFault {
    /// Its form is wrong (`F1`).
    Form,
    /// It is in the standard, but is not supported (`F2`).
    Unsupported,
    /// A symbol, a sort or a literal is unknown (`F3`).
    Unknown,
    /// A symbol is applied to arguments that it does not accept, or a term has another sort than it should
    /// (`F4`).
    IllSorted,
    /// The indexes of an operator are wrong in number, kind or range, or a width is out of range (`F5`).
    Index,
    /// A name is bound twice (`F6`).
    BoundTwice,
    /// A name that should be new is in use (`F7`).
    NotFresh,
    /// A label is where none may be (`F8`).
    Label,
    /// Memory was refused (`F0`), which says nothing about the term.
    Memory,
}

impl TermFault {
    /// What is wrong with the term, the sort or the definition; `None` where memory was refused.
    pub fn flaw(self) -> Option<TermFlaw>
        ensures { result ≡ flaw_of_term_fault self }
    {
        match self {
            TermFault::Form => Some(TermFlaw::Form),
            TermFault::Unsupported => Some(TermFlaw::Unsupported),
            TermFault::Unknown => Some(TermFlaw::Unknown),
            TermFault::IllSorted => Some(TermFlaw::IllSorted),
            TermFault::Index => Some(TermFlaw::Index),
            TermFault::BoundTwice => Some(TermFlaw::BoundTwice),
            TermFault::NotFresh => Some(TermFlaw::NotFresh),
            TermFault::Label => Some(TermFlaw::Label),
            TermFault::Memory => None,
        }
    }
}

impl From<TermFlaw> for TermFault {
    ghost use Rattle.std.specs.Prelude.{◌≡◌};
    ghost use Rattle.std.specs.Prelude.{Some};
    ghost use Rattle.smt_faults.specs.Faults.{flaw_of_term_fault};

    ghost from_gives = { λ flaw fault. flaw_of_term_fault fault ≡ Some flaw };

    fn from(flaw: TermFlaw) -> TermFault {
        match flaw {
            TermFlaw::Form => TermFault::Form,
            TermFlaw::Unsupported => TermFault::Unsupported,
            TermFlaw::Unknown => TermFault::Unknown,
            TermFlaw::IllSorted => TermFault::IllSorted,
            TermFlaw::Index => TermFault::Index,
            TermFlaw::BoundTwice => TermFault::BoundTwice,
            TermFlaw::NotFresh => TermFault::NotFresh,
            TermFlaw::Label => TermFault::Label,
        }
    }
}

impl From<Memory> for TermFault {
    ghost use Rattle.std.specs.Prelude.{◌≡◌};
    ghost use Rattle.smt_faults.specs.declared.term_fault.TermFault.TheVariants.{Memory as OutOfMemory};

    ghost from_gives = { λ _ fault. fault ≡ OutOfMemory };

    fn from(_memory: Memory) -> TermFault {
        TermFault::Memory
    }
}

impl From<AllocError> for TermFault {
    ghost use Rattle.std.specs.Prelude.{◌≡◌};
    ghost use Rattle.smt_faults.specs.declared.term_fault.TermFault.TheVariants.{Memory};

    ghost from_gives = { λ _ fault. fault ≡ Memory };

    fn from(_error: AllocError) -> TermFault {
        TermFault::Memory
    }
}

impl<T: Drop> From<AllocFailed<T>> for TermFault {
    ghost use Rattle.std.specs.Prelude.{◌≡◌};
    ghost use Rattle.smt_faults.specs.declared.term_fault.TermFault.TheVariants.{Memory};

    ghost from_gives = { λ _ fault. fault ≡ Memory };

    fn from(_error: AllocFailed<T>) -> TermFault {
        TermFault::Memory
    }
}
