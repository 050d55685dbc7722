//! The lines of a report. This file knows what they say, and not how they are found.

ghost use Rattle.std.specs.Prelude.{◌≡◌};
ghost use Rattle.smt_report.specs.Verdict as verdicts;

use crate::claim::Claim;
use crate::verdict::{Tally, Verdict};
use smt_faults::{CommandFlaw, TermFlaw, TextFlaw};
use std::fmt;

/// The answer to a check, where it is not `sat`.
#[derive(Clone, Copy)]
pub enum CheckAnswer {
    Unsat,
    Unknown,
    Unsupported,
    /// A list of the symbol `error` and a string.
    Error,
}

/// One of the two texts of a dialogue.
#[derive(Clone, Copy)]
pub enum Side {
    Script,
    Answers,
}

/// A line of a report. Checks, commands, answers and items of a model count from 1, and bytes from 0.
#[derive(Clone, Copy)]
pub enum Line {
    /// A check whose answer is not `sat`.
    Unchecked {
        check: u64,
        command: u64,
        answer: CheckAnswer,
    },
    /// A `sat` with at least one model, and all of its models confirmed.
    Confirmed {
        check: u64,
        command: u64,
    },
    /// A `sat` without a model.
    NoModel {
        check: u64,
        command: u64,
    },
    /// A `sat` with a model, printed for command `model`, whose item `item` is its first with a flaw.
    ItemFault {
        check: u64,
        command: u64,
        model: u64,
        item: u64,
        flaw: TermFlaw,
    },
    /// A `sat` with a model that doesn't define what command `declaration` declares.
    Lacks {
        check: u64,
        command: u64,
        model: u64,
        declaration: u64,
    },
    /// A `sat` with a complete model whose evaluation costs more than the limit.
    TooLong {
        check: u64,
        command: u64,
        model: u64,
    },
    /// A `sat` with a complete model that makes this claim false.
    Refuted {
        check: u64,
        command: u64,
        model: u64,
        claim: Claim,
    },
    /// A `sat` with a complete model in which this claim is open, and no claim is known to be false.
    NotDecided {
        check: u64,
        command: u64,
        model: u64,
        claim: Claim,
    },
    /// A text outside the language.
    TextFault {
        side: Side,
        flaw: TextFlaw,
    },
    /// A refused command.
    CommandFault {
        command: u64,
        flaw: CommandFlaw,
    },
    /// The answers end where a command needs one (`P1`).
    MissingAnswer {
        command: u64,
    },
    /// An answer that its command can't have (`P2`).
    UnexpectedAnswer {
        command: u64,
        answer: u64,
    },
    /// The first answer that is left over (`P3`).
    ExtraAnswer {
        answer: u64,
    },
    /// The verdict of the report, and its tally: the last line.
    Verdict {
        verdict: Verdict,
        tally: Tally,
    },
}

impl Line {
    /// Whether the line reports a check with at least one model, all of them confirmed.
    pub fn is_confirmed(&self) -> bool
        ensures { result ≡ verdicts.is_confirmed_line self.now }
    {
        matches!(self, Line::Confirmed { .. })
    }

    /// Whether the line reports a check with a refuted model.
    pub fn is_refuted(&self) -> bool
        ensures { result ≡ verdicts.is_refuted_line self.now }
    {
        matches!(self, Line::Refuted { .. })
    }

    /// Whether the line reports a `sat` that is neither confirmed nor refuted.
    pub fn is_undecided(&self) -> bool
        ensures { result ≡ verdicts.is_undecided_line self.now }
    {
        match self {
            Line::NoModel { .. }
            | Line::ItemFault { .. }
            | Line::Lacks { .. }
            | Line::TooLong { .. }
            | Line::NotDecided { .. } => true,
            _ => false,
        }
    }

    /// Whether the line reports a check whose answer is not `sat`.
    pub fn is_unchecked(&self) -> bool
        ensures { result ≡ verdicts.is_unchecked_line self.now }
    {
        matches!(self, Line::Unchecked { .. })
    }

    /// Whether the line reports a fault.
    pub fn is_fault(&self) -> bool
        ensures { result ≡ verdicts.is_fault_line self.now }
    {
        match self {
            Line::TextFault { .. } | Line::CommandFault { .. } | Line::MissingAnswer { .. } => true,
            Line::UnexpectedAnswer { .. } | Line::ExtraAnswer { .. } => true,
            _ => false,
        }
    }
}

impl fmt::Display for CheckAnswer {
    ghost use Rattle.std.specs.Prelude.{Some};
    ghost use Rattle.smt_report.specs.LineText.{text_of_answer};

    ghost output = { λ x. Some (text_of_answer x) };

    fn fmt<W: fmt::Write>(&self, f: &mut fmt::Formatter<W>) -> fmt::Result {
        f.write_str(match self {
            CheckAnswer::Unsat => "unsat",
            CheckAnswer::Unknown => "unknown",
            CheckAnswer::Unsupported => "unsupported",
            CheckAnswer::Error => "error",
        })
    }
}

impl fmt::Display for Side {
    ghost use Rattle.std.specs.Prelude.{Some};
    ghost use Rattle.smt_report.specs.LineText.{text_of_side};

    ghost output = { λ x. Some (text_of_side x) };

    fn fmt<W: fmt::Write>(&self, f: &mut fmt::Formatter<W>) -> fmt::Result {
        f.write_str(match self {
            Side::Script => "script",
            Side::Answers => "answers",
        })
    }
}

impl fmt::Display for Line {
    ghost use Rattle.std.specs.Prelude.{Some};
    ghost use Rattle.smt_report.specs.LineText.{text_of};

    ghost output = { λ x. Some (text_of x) };

    fn fmt<W: fmt::Write>(&self, f: &mut fmt::Formatter<W>) -> fmt::Result {
        match self {
            Line::Unchecked { check, command, .. }
            | Line::Confirmed { check, command }
            | Line::NoModel { check, command }
            | Line::ItemFault { check, command, .. }
            | Line::Lacks { check, command, .. }
            | Line::TooLong { check, command, .. }
            | Line::Refuted { check, command, .. }
            | Line::NotDecided { check, command, .. } => {
                let outcome = Outcome { line: self };
                write!(f, "check {check} at command {command}: {outcome}")
            }
            Line::TextFault { side, flaw } => {
                let place = flaw.place();
                write!(f, "fault {flaw} in the {side} at byte {place}")
            }
            Line::CommandFault { command, flaw } => write!(f, "fault {flaw} at command {command}"),
            Line::MissingAnswer { command } => write!(f, "fault P1 at command {command}"),
            Line::UnexpectedAnswer { command, answer } => write!(
                f,
                "fault P2 at command {command}, answer {answer}"
            ),
            Line::ExtraAnswer { answer } => write!(f, "fault P3 at answer {answer}"),
            Line::Verdict { verdict, tally } => write!(f, "verdict: {verdict}, {tally}"),
        }
    }
}

/// What a line on a check says after the check and its command; empty for any other line.
#[derive(Clone, Copy)]
struct Outcome<'a> {
    line: &'a Line,
}

impl fmt::Display for Outcome<'_> {
    ghost use Rattle.std.specs.Prelude.{Some};
    ghost use Rattle.smt_report.specs.Internal.CheckText.{text_of_outcome};

    ghost output = { λ x. Some (text_of_outcome x.line.now) };

    fn fmt<W: fmt::Write>(&self, f: &mut fmt::Formatter<W>) -> fmt::Result {
        match self.line {
            Line::Unchecked { answer, .. } => write!(f, "{answer}"),
            Line::Confirmed { .. } => f.write_str("sat, confirmed"),
            Line::NoModel { .. } => f.write_str("sat, no model"),
            Line::ItemFault { model, .. }
            | Line::Lacks { model, .. }
            | Line::TooLong { model, .. }
            | Line::Refuted { model, .. }
            | Line::NotDecided { model, .. } => {
                let finding = Finding { line: self.line };
                write!(f, "sat, model of command {model}: {finding}")
            }
            _ => Ok(()),
        }
    }
}

/// What a line on a model says after the command of the model; empty for any other line.
#[derive(Clone, Copy)]
struct Finding<'a> {
    line: &'a Line,
}

impl fmt::Display for Finding<'_> {
    ghost use Rattle.std.specs.Prelude.{Some};
    ghost use Rattle.smt_report.specs.Internal.CheckText.{text_of_finding};

    ghost output = { λ x. Some (text_of_finding x.line.now) };

    fn fmt<W: fmt::Write>(&self, f: &mut fmt::Formatter<W>) -> fmt::Result {
        match self.line {
            Line::ItemFault { item, flaw, .. } => write!(f, "item {item} {flaw}"),
            Line::Lacks { declaration, .. } => write!(
                f,
                "lacks the symbol of command {declaration}"
            ),
            Line::TooLong { .. } => f.write_str("too long"),
            Line::Refuted { claim, .. } => match claim {
                Claim::Assertion { .. } => write!(f, "refuted by the {claim}"),
                Claim::Assumption { .. } => write!(f, "refuted by {claim}"),
            },
            Line::NotDecided { claim, .. } => write!(f, "{claim} not decided"),
            _ => Ok(()),
        }
    }
}
