//! Explanations of a report: where its lines are in the two texts, and the reasons for them. For a claim that is
//! false they give its text and place, the part that makes it false, and the values in that part. This crate judges
//! nothing: it is given the lines.
//!
//! `explain` returns the text for such lines. So for a model of README's `jobs.smt2` with painting one hour too early:
//!
//! ```text
//! let line = Line::Refuted { check: 1, command: 12, model: 13, claim: Claim::Assertion { command: 10 } };
//! explain(alloc, texts, &[line])?                                           // the bytes of these six lines:
//! check 1: jobs.smt2:13:1, command 12: (check-sat)
//!   claim: jobs.smt2:11:1, command 10: (assert (before drilling 2 painting))
//!   false: (<= (+ start hours) next)   at jobs.smt2:6:1, in before
//!     (+ start hours) = 5, next = painting = 4, start = drilling = 3, hours = 2
//!     items: painting at answers.txt:5:3, drilling at answers.txt:7:3
//!   model: answers.txt:2:1
//! ```
#![tactic(auto)]

mod blames;
mod claims;
mod dialogue;
mod faults;
mod items;
mod told;

pub use dialogue::Texts;
pub use smt_faults::Memory;
pub use smt_remarks::Form;
pub use told::explain;
