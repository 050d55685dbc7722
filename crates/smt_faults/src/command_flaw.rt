//! What is wrong with a command. This file knows no want of memory.

use crate::term_flaw::TermFlaw;
use std::error::Error;
use std::fmt;

/// Why a command is refused.
#[derive(Clone, Copy, Debug, PartialEq, Eq)]
pub enum CommandFlaw {
    /// Its form is wrong (`C1`).
    Form,
    /// It is a command of the standard that is not supported (`C2`).
    Unsupported,
    /// It pushes so many levels that there would be more than 10,000 (`C3`).
    TooDeep,
    /// It pops more levels than there are (`C4`).
    NoLevel,
    /// It sets a logic that is not supported, or it sets a logic or `:global-declarations` too late (`C5`).
    Logic,
    /// It comes after an `exit` (`C6`).
    AfterExit,
    /// A term, a sort or a name in it has a flaw (`C7`).
    Term { flaw: TermFlaw },
}

impl fmt::Display for CommandFlaw {
    ghost use Rattle.std.specs.Prelude.{Some};
    ghost use Rattle.smt_faults.specs.FlawText.{text_of_command_flaw};

    ghost output = { λ x. Some (text_of_command_flaw x) };

    fn fmt<W: fmt::Write>(&self, f: &mut fmt::Formatter<W>) -> fmt::Result {
        match self {
            CommandFlaw::Form => write!(f, "C1"),
            CommandFlaw::Unsupported => write!(f, "C2"),
            CommandFlaw::TooDeep => write!(f, "C3"),
            CommandFlaw::NoLevel => write!(f, "C4"),
            CommandFlaw::Logic => write!(f, "C5"),
            CommandFlaw::AfterExit => write!(f, "C6"),
            CommandFlaw::Term { flaw } => write!(f, "C7 {flaw}"),
        }
    }
}

impl Error for CommandFlaw {}
