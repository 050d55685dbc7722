//! The command line of the program: the words that it accepts, and what they ask for. This crate opens no file, and
//! knows no dialogue. The profiles that a user can choose are those of `smt_theory`.
//!
//! ```text
//! let words = ["smtcheck", "--print-success", "off", "--profile", "wide", "script.smt2", "answers.txt"];
//! settings(alloc, &words)?                   // these two files, `print_success: false`, `profile: Profile::Wide`
//! settings(alloc, &["smtcheck", "a", "b"])?  // the files `a` and `b`, and the default of each option
//! settings(alloc, &["smtcheck"])             // Err(LineFault::Refused(..)), with the text of `clap`
//! ```
#![tactic(auto)]

mod arguments;
mod command;

pub use arguments::{Form, LineFault, Settings};
pub use command::settings;
