//! dialogue_rows: reads the files named on its command line, and prints the results of their dialogues, whole and
//! in pieces. No claim rests on it.
//!
//! For a file that holds a row of a dialogue it prints the row's title, the report and the status:
//!
//! ```text
//! dialogue: one check                             // one check
//! script: (check-sat)                             // check 1 at command 1: unsat
//! answers: unsat                                  // verdict: valid, confirmed 0, ..
//! start: on                                       // status 0
//! ```
#![tactic(auto)]

mod dialogues;
mod runs;
mod sessions;

use anyhow::{Result, bail};
use row_texts::{Answers, Field};
use std::alloc::Global;
use std::io::Write;

fn main(rt: HostRuntime) -> Result<()> {
    row_texts::run(&rt, &ByDialogue)
}

/// The results of rows of dialogues, sessions and runs.
struct ByDialogue;

impl Answers for ByDialogue {
    fn print<W: Write>(
        &self,
        alloc: Global,
        out: &mut W,
        title: &Field,
        fields: &[Field],
    ) -> Result<()> {
        match title.key {
            "dialogue" => dialogues::print(alloc, out, title, fields),
            "session" => sessions::print(alloc, out, title, fields),
            "run" => runs::print(alloc, out, title, fields),
            key => bail!("line {}: `{key}` is no kind of row", title.line),
        }
    }
}
