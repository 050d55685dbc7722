//! Why a command is refused, as a caller gets it. This file knows no command, only what is wrong with one.

ghost use Rattle.std.specs.Prelude.{◌≡◌};
ghost use Rattle.smt_faults.specs.Faults.{flaw_of_command_fault};

use crate::command_flaw::CommandFlaw;
use crate::memory::Memory;
use crate::term_fault::TermFault;
use std::alloc::{AllocError, AllocFailed};

/// Why a command is refused.
#[derive(Clone, Copy)]
pub enum CommandFault {
    /// Its form is wrong (`C1`).
    Form,
    /// It is a command of the standard that is not supported (`C2`).
    Unsupported,
    /// It pushes so many levels that there would be more than 10,000 (`C3`).
    TooDeep,
    /// It pops more levels than there are (`C4`).
    NoLevel,
    /// It sets a logic that is not supported, or it sets a logic or `:global-declarations` too late (`C5`).
    Logic,
    /// It comes after an `exit` (`C6`).
    AfterExit,
    /// A term, a sort or a name in it has a fault (`C7`).
    Term { fault: TermFault },
    /// Memory was refused (`C0`), which says nothing about the command.
    Memory,
}

impl CommandFault {
    /// What is wrong with the command; `None` where memory was refused.
    pub fn flaw(self) -> Option<CommandFlaw>
        ensures { result ≡ flaw_of_command_fault self }
    {
        match self {
            CommandFault::Form => Some(CommandFlaw::Form),
            CommandFault::Unsupported => Some(CommandFlaw::Unsupported),
            CommandFault::TooDeep => Some(CommandFlaw::TooDeep),
            CommandFault::NoLevel => Some(CommandFlaw::NoLevel),
            CommandFault::Logic => Some(CommandFlaw::Logic),
            CommandFault::AfterExit => Some(CommandFlaw::AfterExit),
            CommandFault::Term { fault } => match fault.flaw() {
                Some(flaw) => Some(CommandFlaw::Term { flaw }),
                None => None,
            },
            CommandFault::Memory => None,
        }
    }
}

impl From<CommandFlaw> for CommandFault {
    ghost use Rattle.std.specs.Prelude.{◌≡◌, Some};
    ghost use Rattle.smt_faults.specs.Faults.{flaw_of_command_fault};

    ghost from_gives = { λ flaw fault. flaw_of_command_fault fault ≡ Some flaw };

    fn from(flaw: CommandFlaw) -> CommandFault {
        match flaw {
            CommandFlaw::Form => CommandFault::Form,
            CommandFlaw::Unsupported => CommandFault::Unsupported,
            CommandFlaw::TooDeep => CommandFault::TooDeep,
            CommandFlaw::NoLevel => CommandFault::NoLevel,
            CommandFlaw::Logic => CommandFault::Logic,
            CommandFlaw::AfterExit => CommandFault::AfterExit,
            CommandFlaw::Term { flaw } => CommandFault::Term {
                fault: TermFault::from(flaw),
            },
        }
    }
}

impl From<TermFault> for CommandFault {
    ghost use Rattle.std.specs.Prelude.{◌≡◌};
    ghost use Rattle.smt_faults.specs.Faults.{fault_by_term};

    ghost from_gives = { λ fault made. made ≡ fault_by_term fault };

    fn from(fault: TermFault) -> CommandFault {
        match fault {
            TermFault::Memory => CommandFault::Memory,
            _ => CommandFault::Term { fault },
        }
    }
}

impl From<Memory> for CommandFault {
    ghost use Rattle.std.specs.Prelude.{◌≡◌};
    ghost use Rattle.smt_faults.specs.declared.command_fault.CommandFault.TheVariants.{Memory as OutOfMemory};

    ghost from_gives = { λ _ fault. fault ≡ OutOfMemory };

    fn from(_memory: Memory) -> CommandFault {
        CommandFault::Memory
    }
}

impl From<AllocError> for CommandFault {
    ghost use Rattle.std.specs.Prelude.{◌≡◌};
    ghost use Rattle.smt_faults.specs.declared.command_fault.CommandFault.TheVariants.{Memory};

    ghost from_gives = { λ _ fault. fault ≡ Memory };

    fn from(_error: AllocError) -> CommandFault {
        CommandFault::Memory
    }
}

impl<T: Drop> From<AllocFailed<T>> for CommandFault {
    ghost use Rattle.std.specs.Prelude.{◌≡◌};
    ghost use Rattle.smt_faults.specs.declared.command_fault.CommandFault.TheVariants.{Memory};

    ghost from_gives = { λ _ fault. fault ≡ Memory };

    fn from(_error: AllocFailed<T>) -> CommandFault {
        CommandFault::Memory
    }
}
