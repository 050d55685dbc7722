//! The counts of the lines of a report, as C gets them. This file finds no line.

ghost use Rattle.smtcheck_c.specs.Told.{IsSummaryOf};

use smt_dialogue::{Line, Tally};

/// `struct smtcheck_summary`: how many checks of each kind a report has, and how many lines.
#[repr(C)]
#[derive(Clone, Copy)]
pub struct SmtcheckSummary {
    /// How many `sat` are confirmed by the models printed for them.
    pub confirmed: u64,
    /// How many `sat` have a model that makes an assertion or an assumption false.
    pub refuted: u64,
    /// How many `sat` are neither.
    pub undecided: u64,
    /// How many checks have an answer other than `sat`.
    pub unchecked: u64,
    /// How many lines the report has, with the verdict line.
    pub lines: u64,
}

/// The counts of these lines.
pub(crate) fn summary_of(lines: &[Line]) -> SmtcheckSummary
    ensures { IsSummaryOf result lines.now }
{
    let count = lines.len();
    let tally = Tally::new().with_lines(lines);
    SmtcheckSummary {
        confirmed: tally.confirmed,
        refuted: tally.refuted,
        undecided: tally.undecided,
        unchecked: tally.unchecked,
        lines: count as u64,
    }
}
