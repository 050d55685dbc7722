//! The lines of a session, compared with those of a report. This file knows no session.

use smt_dialogue::Line;
use std::alloc::{AllocError, Global};
use std::io;
use std::io::Write;

/// How many lines agreed with the report, and the first line that differed.
#[derive(Drop)]
pub(crate) struct Seen<'a> {
    alloc: Global,
    left: &'a [String],
    count: u64,
    other: Option<Other>,
}

/// What came in place of a line of the report.
#[derive(Drop)]
enum Other {
    Line(String),
    /// The end of both texts.
    End,
}

impl<'a> Seen<'a> {
    /// Before any line came, for a report with these lines.
    pub(crate) fn new(alloc: Global, report: &'a [String]) -> Seen<'a> {
        Seen {
            alloc,
            left: report,
            count: 0,
            other: None,
        }
    }

    /// Compares the next lines with those of the report.
    pub(crate) fn take(&mut self, lines: &[Line]) -> Result<(), AllocError> {
        for line in lines {
            self.take_line(line)?;
        }
        Ok(())
    }

    fn take_line(&mut self, line: &Line) -> Result<(), AllocError> {
        if self.is_other() {
            return Ok(());
        }
        let came = format!(in self.alloc; "{line}")?;
        match self.left.split_first() {
            Some((wanted, left)) if wanted.as_str() == came.as_str() => {
                self.left = left;
                self.count = self.count.saturating_add(1);
            }
            _ => self.other = Some(Other::Line(came)),
        }
        Ok(())
    }

    /// Ends the comparison: no line comes after the end of both texts.
    pub(crate) fn end(&mut self) {
        if !self.is_other() && !self.left.is_empty() {
            self.other = Some(Other::End);
        }
    }

    /// Whether a line differed from that of the report.
    pub(crate) fn is_other(&self) -> bool {
        self.other.is_some()
    }

    /// Writes which line differed, and what came in its place.
    pub(crate) fn write<W: Write>(&self, out: &mut W) -> io::Result<()> {
        let number = self.count.saturating_add(1);
        match &self.other {
            Some(Other::Line(came)) => writeln!(out, "line {number} is `{came}`"),
            Some(Other::End) => writeln!(out, "line {number} does not come"),
            None => writeln!(out, "each line is that of the report"),
        }
    }
}
