//! What an explanation says, remark by remark, and the forms in which it is written: lines of text, an object of JSON
//! on each line, or one document of SARIF 2.1.0. This crate knows no report and no term: it is told.
//!
//! ```text
//! let mut page = Page::new(alloc, script, answers);
//! page.begin("claim");
//! page.set_spot(Side::Script, 135);
//! page.set_command(10);
//! page.put(b"(assert (before drilling 2 painting))");
//! page.finish(&mut out, Some(1), "refuted", Form::Text)?;
//! out     // jobs.smt2:11:1: claim, command 10: (assert (before drilling 2 painting))
//! ```
#![tactic(auto)]

mod form;
mod page;
mod remark;
mod sarif;
mod text;

pub use form::Form;
pub use page::{File, MOST, Page};
pub use remark::{Explained, Item, Remark, Spot, Value};
pub use smt_faults::Memory;
