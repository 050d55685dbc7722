//! The claims of a check on a model: formulas that it has to make true. This file knows no formula and no model.

use std::fmt;

/// A formula that a model of a check has to make true. Commands count from 1, and so do the assumptions of the
/// check.
#[derive(Clone, Copy)]
pub enum Claim {
    /// The assertion of a command.
    Assertion { command: u64 },
    /// The assumption at a place among those of the check.
    Assumption { place: u64 },
}

impl fmt::Display for Claim {
    ghost use Rattle.std.specs.Prelude.{Some};
    ghost use Rattle.smt_report.specs.LineText.{text_of_claim};

    ghost output = { λ x. Some (text_of_claim x) };

    fn fmt<W: fmt::Write>(&self, f: &mut fmt::Formatter<W>) -> fmt::Result {
        match self {
            Claim::Assertion { command } => write!(f, "assertion of command {command}"),
            Claim::Assumption { place } => write!(f, "assumption {place}"),
        }
    }
}
