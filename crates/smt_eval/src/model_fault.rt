//! Why a model can't be used. This file knows no values.

ghost use Rattle.std.specs.Prelude.{◌≡◌};
ghost use Rattle.smt_eval.specs.ModelFaults.{flaw_of_model_fault};

use smt_faults::{Memory, TermFault, TermFlaw};

/// What is wrong with a model.
#[derive(Clone, Copy)]
pub enum ModelFlaw {
    /// The first item with a flaw; items count from 1.
    Item { number: u64, flaw: TermFlaw },
    /// The command of the first declared name that no item defines.
    Lacks { command: u64 },
}

/// Why a model can't be used: what is wrong with it, or want of memory.
#[derive(Clone, Copy)]
pub enum ModelFault {
    /// The first item with a fault; items count from 1.
    Item { number: u64, fault: TermFault },
    /// The command of the first declared name that no item defines.
    Lacks { command: u64 },
    /// Memory was refused, which says nothing about the model.
    Memory,
}

impl ModelFault {
    /// What is wrong with the model; `None` where memory was refused.
    pub fn flaw(self) -> Option<ModelFlaw>
        ensures { result ≡ flaw_of_model_fault self }
    {
        match self {
            ModelFault::Item { number, fault } => match fault.flaw() {
                Some(flaw) => Some(ModelFlaw::Item { number, flaw }),
                None => None,
            },
            ModelFault::Lacks { command } => Some(ModelFlaw::Lacks { command }),
            ModelFault::Memory => None,
        }
    }
}

impl From<Memory> for ModelFault {
    ghost use Rattle.std.specs.Prelude.{◌≡◌};
    ghost use Rattle.smt_eval.specs.declared.model_fault.ModelFault.TheVariants.{Memory as OutOfMemory};

    ghost from_gives = { λ _ fault. fault ≡ OutOfMemory };

    fn from(_memory: Memory) -> ModelFault {
        ModelFault::Memory
    }
}
