//! rows: reads the files named on its command line, and prints what the crates return for their rows. No claim
//! rests on it.
//!
//! For a file that holds a row of terms it prints the row's title and each term with its sort:
//!
//! ```text
//! terms: over p                                   // terms over p
//! declare: p Bool                                 // p Bool => declared
//! term: (not p)                                   // (not p) => Bool
//! ```
#![tactic(auto)]

mod commands;
mod items;
mod models;
mod names;
mod terms;
mod texts;
mod trees;
mod values;

ghost use Rattle.smt_eval.specs.Interpretation.{HoldsScript};

use crate::trees::split_logic;
use anyhow::{Result, bail};
use row_texts::{Answers, Field};
use smt_terms::Library;
use std::alloc::Global;
use std::io::Write;

fn main(rt: HostRuntime) -> Result<()> {
    row_texts::run(&rt, &Rows)
}

/// The results of rows of texts, terms, models, values, items and commands.
struct Rows;

impl Answers for Rows {
    fn print<W: Write>(
        &self,
        alloc: Global,
        out: &mut W,
        title: &Field,
        fields: &[Field],
    ) -> Result<()> {
        match title.key {
            "commands" => commands::print(alloc, out, fields),
            "texts" => texts::print(alloc, out, fields),
            _ => print_over_library(alloc, out, title, fields),
        }
    }
}

// Prints the results of a row over a library of the logic that its first field names; without one, of all theories.
fn print_over_library<W: Write>(
    alloc: Global,
    out: &mut W,
    title: &Field,
    fields: &[Field],
) -> Result<()> {
    let (theories, fields) = split_logic(alloc, fields)?;
    let mut library = Library::new(alloc, theories);
    print_by_kind(alloc, out, &mut library, title, fields)
}

fn print_by_kind<W: Write>(
    alloc: Global,
    out: &mut W,
    library: &mut Library<'_>,
    title: &Field,
    fields: &[Field],
) -> Result<()>
    requires { HoldsScript library.old }
{
    match title.key {
        "terms" => terms::print(alloc, out, library, fields),
        "values" => values::print(alloc, out, library, title, fields),
        "models" => models::print(alloc, out, library, fields),
        "items" => items::print(alloc, out, library, fields),
        key => bail!("line {}: `{key}` is no kind of row", title.line),
    }
}
