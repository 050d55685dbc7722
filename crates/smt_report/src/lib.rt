//! Reports: their lines, the texts of the lines, and the verdict. This crate knows no dialogue: it is given the
//! lines, whatever found them.
//!
//! The layer above counts lines as they come, by `Tally::with_lines`, and asks for the verdict on them, by
//! `Tally::verdict`. Only the kinds of the lines decide the verdict. So, for one confirmed check:
//!
//! ```text
//! let tally = Tally::new().with_lines(&[Line::Confirmed { check: 1, command: 4 }]);
//! let verdict = tally.verdict(false);                                       // Verdict::Valid
//! verdict.status()                                                          // 0
//! Line::Verdict { verdict, tally }            // verdict: valid, confirmed 1, refuted 0, undecided 0, unchecked 0
//! tally.verdict(true)                         // Verdict::Refused, after a line such as `fault P3 at answer 6`
//! ```
#![tactic(auto)]

mod claim;
pub mod laws;
mod line;
mod report;
mod summary;
mod verdict;
mod visitor;

pub use claim::Claim;
pub use line::{CheckAnswer, Line, Side};
pub use report::Report;
pub use summary::Summary;
pub use verdict::{Tally, Verdict};
pub use visitor::LineVisitor;
