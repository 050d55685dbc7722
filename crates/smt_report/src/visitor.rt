//! Who looks at the lines of a report. This file finds no line.

use crate::line::Line;

/// Looks at the lines of a report, one after the other, in order.
pub trait LineVisitor {
    ghost use Rattle.std.specs.Prelude.{List, [], ◌∷◌, ◌++◌};
    ghost use Rattle.smt_report.specs.declared.line.Line.{Line as ReportLine};

    /// That these are the lines it has visited.
    ghost has_visited: { Self → List ReportLine → Type 0 };

    /// Visits the next line.
    fn visit(&mut self, line: &Line)
        ensures { (lines : List ReportLine) → has_visited self.old lines
            → has_visited self.new (lines ++ line.now ∷ []) };
}

/// Keeps nothing of any line.
impl LineVisitor for () {
    ghost has_visited = { λ _ _. Unit {0} };

    fn visit(&mut self, _line: &Line) {}
}
