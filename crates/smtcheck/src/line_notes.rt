//! Notes on the lines of a report, taken as each line comes: whether one looks like a usual mistake, and which is the
//! first that refuses something. On request all lines are kept. This file knows no file.

use crate::hints::{Hint, hint_of, is_unsat, refuses};
use smt_dialogue::{Line, LineVisitor};
use std::alloc::Global;

/// What the lines so far show.
#[derive(Drop)]
pub(crate) struct LineNotes {
    /// Whether the last line reports an `unsat`.
    after_unsat: bool,
    hint: Option<Hint>,
    refused: Option<Line>,
    lines: Vec<Line>,
    /// Whether `lines` has every line: false where none is kept, and once memory is refused.
    has_all: bool,
}

impl LineNotes {
    ghost use Rattle.std.specs.Prelude.{◌≡◌, List, [], IfSome};
    ghost use Rattle.smtcheck.specs.LineNotes.{AreNotesOn};
    ghost use Rattle.smt_report.specs.declared.line.Line.{Line as ReportLine};

    /// Notes on no line; `keeps` says whether the lines to come are kept.
    pub(crate) fn new(alloc: Global, keeps: bool) -> LineNotes
        ensures { AreNotesOn result [] }
    {
        LineNotes {
            after_unsat: false,
            hint: None,
            refused: None,
            lines: Vec::new(alloc),
            has_all: keeps,
        }
    }

    /// The usual mistake that a line looks like; the first one found.
    pub(crate) fn hint(&self) -> Option<Hint> {
        self.hint
    }

    /// The first line that refuses something which another profile may take.
    pub(crate) fn refused(&self) -> Option<Line> {
        self.refused
    }

    /// The lines; `None` where none is kept, or memory was refused for one.
    pub(crate) fn lines(&self) -> Option<&[Line]>
        ensures { (visited : List ReportLine) → AreNotesOn self.now visited
            → IfSome result (λ lines. lines.now ≡ visited) }
    {
        if self.has_all {
            Some(self.lines.as_slice())
        } else {
            None
        }
    }
}

impl LineVisitor for LineNotes {
    ghost use Rattle.smtcheck.specs.LineNotes.{AreNotesOn};

    ghost has_visited = { AreNotesOn };

    fn visit(&mut self, line: &Line) {
        if self.hint.is_none() {
            self.hint = hint_of(line, self.after_unsat);
        }
        if self.refused.is_none() && refuses(line) {
            self.refused = Some(*line);
        }
        self.after_unsat = is_unsat(line);
        self.has_all = self.has_all && self.lines.push(*line).is_ok();
    }
}
