//! Reports. This file finds no line.

use crate::line::Line;
use crate::verdict::Verdict;

/// A report: its lines, the last of which gives the verdict, and the verdict.
#[derive(Drop)]
pub struct Report {
    pub lines: Vec<Line>,
    pub verdict: Verdict,
}
