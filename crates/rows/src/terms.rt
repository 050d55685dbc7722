//! Rows of terms: each term with its sort or its first fault; and of definitions, assertions and names. This file
//! evaluates nothing.

use crate::names::{print_counts, print_name, write_sort};
use crate::trees::{assert, declare, define, flaw_of, tree_of};
use anyhow::{Result, bail};
use row_texts::{Field, refuse};
use smt_terms::Library;
use smt_trees::Tree;
use std::alloc::Global;
use std::io::Write;

/// Prints the results of the fields, in order. The number of a declaration's command is its place after the logic.
pub(crate) fn print<W: Write>(
    alloc: Global,
    out: &mut W,
    library: &mut Library<'_>,
    fields: &[Field],
) -> Result<()> {
    for (command, field) in (1..u64::MAX).zip(fields) {
        print_field(alloc, out, library, command, field)?;
    }
    Ok(())
}

fn print_field<W: Write>(
    alloc: Global,
    out: &mut W,
    library: &mut Library<'_>,
    command: u64,
    field: &Field,
) -> Result<()> {
    match field.key {
        "declare" => declare(alloc, out, library, command, field),
        "define" => define(alloc, out, library, field),
        "assert" => assert(alloc, out, library, field),
        "term" => print_term(alloc, out, library, field),
        "find" => print_name(alloc, out, library, field),
        "names" => Ok(print_counts(out, "names", library)?),
        _ => refuse(field),
    }
}

fn print_term<W: Write>(
    alloc: Global,
    out: &mut W,
    library: &mut Library<'_>,
    field: &Field,
) -> Result<()> {
    let term = tree_of(alloc, field)?;
    write_checked(out, library, field, term.view())
}

fn write_checked<W: Write>(
    out: &mut W,
    library: &mut Library<'_>,
    field: &Field,
    term: Tree<'_>,
) -> Result<()> {
    write!(out, "{} => ", field.text)?;
    match &library.check(term) {
        Ok((_, sort)) => write_sort(out, sort)?,
        Err(fault) => {
            let flaw = flaw_of(*fault)?;
            write!(out, "{flaw}")?;
        }
    }
    writeln!(out)?;
    Ok(())
}
