//! The library for programs in C: one export for each function of `include/smtcheck.h`, over `smt_dialogue`.
//!
//! This crate decides nothing. Each export passes what C gives it to `smt_dialogue`, and passes the result to C. Its
//! contract restates the clauses of the function that it calls, for what C gets. In C a slice is a pointer and a
//! length, and a parameter `alloc` is left out.
//!
//! ```text
//! smtcheck_validate("(check-sat)", 11, "unsat", 5, &options, &summary, text, room, &wanted)
//!                                                 // 0: valid; `summary.unchecked` is 1, `summary.lines` is 2
//! ```
#![tactic(auto)]

pub mod explanation;
mod feed;
mod handle;
pub mod options;
mod outcome;
pub mod session;
pub mod session_handle;
pub mod summary;
mod text;
pub mod validation;
pub mod version;
