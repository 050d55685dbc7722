//! The verdict on the lines of a report. A tally counts the lines as they come, so nobody has to keep them.

ghost use Rattle.std.specs.Prelude.{◌≡◌, ◌+◌, ◌<◌, ◌^◌, ◌++◌, Bool, List, [], count_by, length};
ghost use Rattle.std.specs.List.{list_any};
ghost use Rattle.smt_report.specs.Verdict as verdicts;
ghost use Rattle.smt_report.specs.declared.line.Line.{Line as ReportLine};

use crate::line::Line;
use std::fmt;

/// How many answers `sat` are confirmed, refuted and undecided, and how many checks have another answer.
#[derive(Clone, Copy)]
pub struct Tally {
    pub confirmed: u64,
    pub refuted: u64,
    pub undecided: u64,
    pub unchecked: u64,
}

impl Tally {
    /// The tally of no lines: each number is 0.
    pub fn new() -> Tally
        ensures { result ≡ verdicts.tally_of [] }
    {
        Tally {
            confirmed: 0,
            refuted: 0,
            undecided: 0,
            unchecked: 0,
        }
    }

    /// The tally of the lines so far and of these, as long as there are fewer than 2^64 lines in all.
    pub fn with_lines(self, lines: &[Line]) -> Tally
        ensures { (earlier : List ReportLine) → self ≡ verdicts.tally_of earlier
            → length earlier + length lines.now < 2 ^ 64
            → result ≡ verdicts.tally_of (earlier ++ lines.now) }
    {
        Tally {
            confirmed: self.confirmed.saturating_add(confirmed_in(lines)),
            refuted: self.refuted.saturating_add(refuted_in(lines)),
            undecided: self.undecided.saturating_add(undecided_in(lines)),
            unchecked: self.unchecked.saturating_add(unchecked_in(lines)),
        }
    }

    /// The verdict on the lines with this tally; `has_fault` says whether one of them reports a fault. A fault
    /// decides first, then a refuted `sat`, then an undecided one.
    pub fn verdict(self, has_fault: bool) -> Verdict
        ensures { (lines : List ReportLine) → self ≡ verdicts.tally_of lines
            → has_fault ≡ list_any verdicts.is_fault_line lines
            → result ≡ verdicts.verdict_of lines }
    {
        if has_fault {
            Verdict::Refused
        } else if self.refuted > 0 {
            Verdict::Invalid
        } else if self.undecided > 0 {
            Verdict::NotDecided
        } else {
            Verdict::Valid
        }
    }

    /// Whether there is a check, and each check is confirmed.
    pub fn confirms_all(self) -> bool
        ensures { result ≡ verdicts.are_all_confirmed self }
    {
        self.confirmed > 0 && self.refuted == 0 && self.undecided == 0 && self.unchecked == 0
    }
}

fn confirmed_in(lines: &[Line]) -> u64
    ensures { result ≡ count_by verdicts.is_confirmed_line lines.now }
{
    lines.iter().filter(|line| line.is_confirmed()).count() as u64
}

fn refuted_in(lines: &[Line]) -> u64
    ensures { result ≡ count_by verdicts.is_refuted_line lines.now }
{
    lines.iter().filter(|line| line.is_refuted()).count() as u64
}

fn undecided_in(lines: &[Line]) -> u64
    ensures { result ≡ count_by verdicts.is_undecided_line lines.now }
{
    lines.iter().filter(|line| line.is_undecided()).count() as u64
}

fn unchecked_in(lines: &[Line]) -> u64
    ensures { result ≡ count_by verdicts.is_unchecked_line lines.now }
{
    lines.iter().filter(|line| line.is_unchecked()).count() as u64
}

/// The verdict of a report.
#[derive(Clone, Copy)]
pub enum Verdict {
    /// Each `sat` is confirmed.
    Valid,
    /// Some `sat` is refuted.
    Invalid,
    /// Some `sat` is neither, and none is refuted.
    NotDecided,
    /// The dialogue has a fault.
    Refused,
}

impl Verdict {
    /// The exit status for the verdict: 0 for valid, 1 for invalid, 2 for not decided, 3 for refused.
    pub fn status(self) -> u8
        ensures status { result ≡ verdicts.status_of self }
        ensures below { result < 4 }
    {
        match self {
            Verdict::Valid => 0,
            Verdict::Invalid => 1,
            Verdict::NotDecided => 2,
            Verdict::Refused => 3,
        }
    }

    /// The exit status where `valid` also asks that there is a check and that each is confirmed: 2 in place of 0
    /// unless `all_confirmed`. Other verdicts keep their status.
    pub fn strict_status(self, all_confirmed: bool) -> u8
        ensures { result ≡ verdicts.strict_status_of self all_confirmed }
    {
        match self {
            Verdict::Valid if !all_confirmed => Verdict::NotDecided.status(),
            _ => self.status(),
        }
    }
}

impl fmt::Display for Verdict {
    ghost use Rattle.std.specs.Prelude.{Some};
    ghost use Rattle.smt_report.specs.LineText.{text_of_verdict};

    ghost output = { λ x. Some (text_of_verdict x) };

    fn fmt<W: fmt::Write>(&self, f: &mut fmt::Formatter<W>) -> fmt::Result {
        f.write_str(match self {
            Verdict::Valid => "valid",
            Verdict::Invalid => "invalid",
            Verdict::NotDecided => "not decided",
            Verdict::Refused => "refused",
        })
    }
}

impl fmt::Display for Tally {
    ghost use Rattle.std.specs.Prelude.{Some};
    ghost use Rattle.smt_report.specs.LineText.{text_of_tally};

    ghost output = { λ x. Some (text_of_tally x) };

    fn fmt<W: fmt::Write>(&self, f: &mut fmt::Formatter<W>) -> fmt::Result {
        let Tally {
            confirmed,
            refuted,
            undecided,
            unchecked,
        } = *self;
        write!(
            f,
            "confirmed {confirmed}, refuted {refuted}, undecided {undecided}, unchecked {unchecked}"
        )
    }
}
