//! The form of the files of rows that the test programs read: rows of fields, and the escapes in their texts.
//!
//! No claim rests on this crate, which is no part of the program. Contracts say what its functions make of a field;
//! what `read` and `run` do is seen in what the test programs print.
//!
//! A call, for a file that holds `terms: over p` and, on the next line, `term: (not \x70)`:
//!
//! ```text
//! let rows = read(alloc, text)?;                  // one row of two fields
//! rows[0][1].key                                  // "term"
//! rows[0][1].bytes(alloc)?                        // the bytes of (not p)
//! ```
#![tactic(auto)]

mod escapes;
mod fields;
mod printing;
mod rows;

pub use fields::{is_on, refuse, want_key};
pub use printing::{Answers, run};
pub use rows::{Field, read};
