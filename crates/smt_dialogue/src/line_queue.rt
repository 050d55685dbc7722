//! Decided lines, in order: the queue keeps the lines that it has not handed out, and counts all. This file knows
//! no dialogue.

ghost use Rattle.std.specs.Prelude.{◌≡◌, ◌<◌, ◌+◌, ◌^◌, ◌++◌, List, [], false, length, IfOk, OnOk, OnErr};
ghost use Rattle.std.specs.List.{list_any};
ghost use Rattle.smt_dialogue.specs.Report.{lines_of_end};
ghost use Rattle.smt_dialogue.specs.SoFar.{IsBeginning};
ghost use Rattle.smt_dialogue.specs.Internal.ChecksState.{new_lines};
ghost use Rattle.smt_dialogue.specs.Internal.LineQueueView.{IsFaultLine, IsPartOf};
ghost use Rattle.smt_report.specs.Verdict.{is_fault_line, tally_of, summary_of, with_verdict};
ghost use Rattle.smt_report.specs.declared.line.Line.{Line as ReportLine};

use crate::checks::NewLines;
use smt_eval::Memory;
use smt_report::{Line, Summary, Tally};
use std::alloc::Global;
use std::mem;

/// The decided lines that were not handed out, and how many of each kind were decided in all.
#[derive(Drop)]
pub struct LineQueue {
    alloc: Global,
    pub lines: Vec<Line>,
    pub tally: Tally,
}

impl LineQueue {
    /// A queue of no line.
    pub(crate) fn new(alloc: Global) -> Self
        ensures lines { result.lines.items ≡ [] }
        ensures tally { result.tally ≡ tally_of [] }
    {
        LineQueue {
            alloc,
            lines: Vec::new(alloc),
            tally: Tally::new(),
        }
    }

    /// Adds the lines that a command decided. Where memory is refused, nothing changes.
    pub(crate) fn add(&mut self, new: NewLines) -> Result<(), Memory>
        ensures lines { OnOk result (self.new.lines.items ≡ self.old.lines.items ++ new_lines new) }
        ensures tally { OnOk result ((earlier : List ReportLine) → self.old.tally ≡ tally_of earlier
            → length earlier + length (new_lines new) < 2 ^ 64
            → self.new.tally ≡ tally_of (earlier ++ new_lines new)) }
        ensures kept { OnErr result (self.new.lines.items ≡ self.old.lines.items) }
    {
        match (new.ended, new.own) {
            (None, None) => Ok(()),
            (Some(line), None) | (None, Some(line)) => self.add_all(&[line]),
            (Some(ended), Some(own)) => self.add_all(&[ended, own]),
        }
    }

    // Adds lines after the lines that wait.
    fn add_all(&mut self, lines: &[Line]) -> Result<(), Memory>
        ensures lines { OnOk result (self.new.lines.items ≡ self.old.lines.items ++ lines.now) }
        ensures tally { OnOk result ((earlier : List ReportLine) → self.old.tally ≡ tally_of earlier
            → length earlier + length lines.now < 2 ^ 64
            → self.new.tally ≡ tally_of (earlier ++ lines.now)) }
        ensures kept { OnErr result (self.new.lines.items ≡ self.old.lines.items) }
    {
        let tally = self.tally.with_lines(lines);
        self.lines.extend_from_slice(lines)?;
        self.tally = tally;
        Ok(())
    }

    /// Adds the line of the fault, if there is one, and then the verdict line, and returns what that says. Where
    /// memory is refused, the line of the fault may have been added, and no verdict line.
    pub(crate) fn end(&mut self, fault: Option<Line>) -> Result<Summary, Memory>
        requires { IsFaultLine fault }
        ensures ended { IfOk result (λ summary. (earlier : List ReportLine)
            → self.old.tally ≡ tally_of (earlier ++ self.old.lines.items)
            → list_any is_fault_line (earlier ++ self.old.lines.items) ≡ false
            → let all = (earlier ++ self.old.lines.items) ++ lines_of_end fault in
            (earlier ++ self.new.lines.items ≡ with_verdict all) × (summary ≡ summary_of all)) }
        ensures kept { OnErr result
            (IsPartOf self.old.lines.items (lines_of_end fault) self.new.lines.items) }
        ensures more { IsBeginning self.old.lines.items self.new.lines.items }
    {
        // (the tally does not count the line of a fault)
        let tally = self.tally;
        let verdict = tally.verdict(fault.is_some());
        if let Some(line) = fault {
            self.lines.push(line)?;
        }
        self.lines.push(Line::Verdict { verdict, tally })?;
        Ok(Summary { verdict, tally })
    }

    /// Returns the lines that wait, and keeps none. The tally stays.
    pub(crate) fn take(&mut self) -> Vec<Line>
        ensures taken { result.items ≡ self.old.lines.items }
        ensures rest { self.new.lines.items ≡ [] }
        ensures tally { self.new.tally ≡ self.old.tally }
    {
        mem::replace(&mut self.lines, Vec::new(self.alloc))
    }
}
