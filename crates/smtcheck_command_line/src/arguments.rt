//! What a command line asks for, and why it is refused. This file reads no words, and knows only the error of `clap`.

ghost use Rattle.std.specs.Prelude.{◌≡◌};
ghost use Rattle.smtcheck_command_line.specs.Settings.{asks_for_version, prints_by_default, solver_named};

use clap::Error;
use clap::error::ErrorKind;
use smt_theory::Profile;
use std::{error, fmt};

/// The form of an explanation.
#[derive(Clone, Copy)]
pub enum Form {
    /// Text for people.
    Text,
    /// One JSON object a line.
    Json,
    /// One SARIF 2.1.0 document.
    Sarif,
}

/// What the command line asks for.
#[derive(Clone, Copy)]
pub struct Settings<'a> {
    /// The file with the script.
    pub script: &'a str,
    /// The file with the answers.
    pub answers: &'a str,
    /// Whether the solver prints `success` before the script sets `:print-success`.
    pub print_success: bool,
    /// The profile of the language that is accepted.
    pub profile: Profile,
    /// The most steps that the evaluation of a model may cost, from 0 to 2^64 - 2. All its assertions count.
    pub steps: u64,
    /// The form of the explanation of what is not confirmed, which follows the report. `None` where none does.
    pub explain: Option<Form>,
    /// Whether the program hints at usual mistakes. `None` leaves it to the program, which knows the terminal.
    pub hints: Option<bool>,
    /// Whether the exit status is 2 in place of 0 where a check is not answered by a confirmed `sat`, or where
    /// there is no check.
    pub strict: bool,
}

/// A solver that the command line can name, in place of the options that suit its answers.
#[derive(Clone, Copy)]
pub(crate) enum Solver {
    Z3,
    Cvc5,
    Cvc4,
    Bitwuzla,
    Boolector,
    SmtInterpol,
}

impl Solver {
    /// The solver with this name, as the option `--solver` writes it.
    pub(crate) fn named(word: &str) -> Option<Solver>
        ensures { result ≡ solver_named word.now }
    {
        match word {
            "z3" => Some(Solver::Z3),
            "cvc5" => Some(Solver::Cvc5),
            "cvc4" => Some(Solver::Cvc4),
            "bitwuzla" => Some(Solver::Bitwuzla),
            "boolector" => Some(Solver::Boolector),
            "smtinterpol" => Some(Solver::SmtInterpol),
            _ => None,
        }
    }

    /// Whether the solver prints `success` by default.
    pub(crate) fn prints_success(self) -> bool
        ensures { result ≡ prints_by_default self }
    {
        matches!(self, Solver::SmtInterpol)
    }
}

/// Why a command line is refused.
#[derive(Debug, Drop)]
pub enum LineFault {
    /// Memory was refused.
    Memory,
    /// It is not in form, or asks for help or the version. The text to print is that of the error.
    Refused(Error),
}

impl LineFault {
    /// Whether the command line asks for the version.
    pub fn asks_for_version(&self) -> bool
        ensures { result ≡ asks_for_version self.now }
    {
        match self {
            LineFault::Memory => false,
            LineFault::Refused(error) => matches!(error.kind(), ErrorKind::DisplayVersion),
        }
    }
}

impl fmt::Display for LineFault {
    ghost use Rattle.smtcheck_command_line.specs.Settings.{text_of_line_fault};

    ghost output = { text_of_line_fault };

    fn fmt<W: fmt::Write>(&self, f: &mut fmt::Formatter<W>) -> fmt::Result {
        match self {
            LineFault::Memory => f.write_str("out of memory"),
            LineFault::Refused(error) => write!(f, "{error}"),
        }
    }
}

impl error::Error for LineFault {}
