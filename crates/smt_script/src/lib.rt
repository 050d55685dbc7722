//! Commands, and the stack of what is in force after them (SMT-LIB 2.6, sections 4.1 and 4.2). This crate
//! knows no answers: the caller passes it the commands that took effect, each with its number.
//!
//! The layer above uses two contracts. `read_command` answers the command that a tree is in a profile, or why
//! it is none. After any commands that took effect, a `Stack` holds exactly the theories, abbreviations,
//! names, assertions and levels that are in force, in order.
//!
//! For example, let command 1 be `(set-logic QF_LIA)`, command 2 `(declare-const x Int)`, command 3
//! `(push 1)` and command 4 `(assert (< x 1))`. The stack then holds the theories Core and Ints, the name
//! `x`, one level, and one assertion, of command 4, whose term is one of its `library`. After `(pop 1)` the
//! assertion and the level are gone. Another `set-logic` is refused with `CommandFault::Logic`: a logic is
//! set once, and before every declaration, definition, assertion, change of levels and check.
#![tactic(auto)]

mod command;
mod forms;
pub mod laws;
mod stack;

pub use command::{Command, Kind, Query};
pub use forms::read_command;
pub use smt_faults::{CommandFault, CommandFlaw};
pub use stack::{Assertion, Level, Stack, Start};
