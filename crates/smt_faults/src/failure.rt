//! Why a call that needs memory returned no value. This file knows no fault of its own.

use crate::memory::Memory;
use std::alloc::{AllocError, AllocFailed};

/// A fault of what was read, or want of memory, which says nothing about what was read.
#[derive(Clone, Copy)]
pub enum Failure<F> {
    /// What was read has this fault.
    Fault(F),
    /// Memory was refused.
    Memory,
}

impl<F> From<Memory> for Failure<F> {
    ghost use Rattle.std.specs.Prelude.{◌≡◌};
    ghost use Rattle.smt_faults.specs.declared.failure.Failure.TheVariants.{Memory as OutOfMemory};

    ghost from_gives = { λ _ failure. failure ≡ OutOfMemory };

    fn from(_memory: Memory) -> Failure<F> {
        Failure::Memory
    }
}

impl<F> From<AllocError> for Failure<F> {
    ghost use Rattle.std.specs.Prelude.{◌≡◌};
    ghost use Rattle.smt_faults.specs.declared.failure.Failure.TheVariants.{Memory as OutOfMemory};

    ghost from_gives = { λ _ failure. failure ≡ OutOfMemory };

    fn from(_error: AllocError) -> Failure<F> {
        Failure::Memory
    }
}

impl<F, T: Drop> From<AllocFailed<T>> for Failure<F> {
    ghost use Rattle.std.specs.Prelude.{◌≡◌};
    ghost use Rattle.smt_faults.specs.declared.failure.Failure.TheVariants.{Memory as OutOfMemory};

    ghost from_gives = { λ _ failure. failure ≡ OutOfMemory };

    fn from(_error: AllocFailed<T>) -> Failure<F> {
        Failure::Memory
    }
}
