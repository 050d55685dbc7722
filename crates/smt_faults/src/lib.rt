//! What can be wrong with a text, a term or a command. This crate knows none of these: the crates that read
//! them return these faults, and a report writes them by their names, which are this project's own.
//!
//! A fault of a term is a fault of its command: `CommandFault::from(TermFault::Unknown)` is
//! `CommandFault::Term { fault: TermFault::Unknown }`, and is written `C7 F3`.
#![tactic(auto)]

mod command_fault;
mod command_flaw;
mod failure;
pub mod laws;
mod memory;
mod term_fault;
mod term_flaw;
mod text_fault;
mod text_flaw;

pub use command_fault::CommandFault;
pub use command_flaw::CommandFlaw;
pub use failure::Failure;
pub use memory::Memory;
pub use term_fault::TermFault;
pub use term_flaw::TermFlaw;
pub use text_fault::TextFault;
pub use text_flaw::TextFlaw;
