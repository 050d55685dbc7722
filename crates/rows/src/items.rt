//! Rows of items: each item of a model, accepted by a library or with its fault. This file evaluates nothing.

ghost use Rattle.smt_terms.specs.Library.{ReadsModelsOf};

use crate::names::{print_counts, write_found};
use crate::trees::{assert, declare, define, print_answer, tree_of};
use anyhow::{Result, bail};
use row_texts::{Field, refuse};
use smt_terms::Library;
use std::alloc::Global;
use std::io;
use std::io::Write;

/// Prints the results of declarations, and then of items of a model of the declared names, in order. The number of
/// a declaration's command is its place after the logic. A refused item defines nothing, and the items after it
/// have their results all the same.
pub(crate) fn print<W: Write>(
    alloc: Global,
    out: &mut W,
    script: &mut Library<'_>,
    fields: &[Field],
) -> Result<()> {
    let items = declare_all(alloc, out, script, fields)?;
    print_items(alloc, out, script, items)
}

// Declares, defines and asserts what the first fields say, and returns the fields after them.
fn declare_all<'a, 'b, W: Write>(
    alloc: Global,
    out: &mut W,
    script: &mut Library<'_>,
    fields: &'b [Field<'a>],
) -> Result<&'b [Field<'a>]> {
    for (place, field) in fields.iter().enumerate() {
        match field.key {
            "declare" => declare(alloc, out, script, place as u64 + 1, field)?,
            "define" => define(alloc, out, script, field)?,
            "assert" => assert(alloc, out, script, field)?,
            _ => return Ok(&fields[place..]),
        }
    }
    Ok(&[])
}

fn print_items<W: Write>(
    alloc: Global,
    out: &mut W,
    script: &Library<'_>,
    fields: &[Field],
) -> Result<()> {
    let Ok(mut model) = script.for_model(fields.len()) else {
        bail!("out of memory");
    };
    print_fields(alloc, out, script, &mut model, fields)
}

fn print_fields<W: Write>(
    alloc: Global,
    out: &mut W,
    script: &Library<'_>,
    model: &mut Library<'_>,
    fields: &[Field],
) -> Result<()>
    requires { ReadsModelsOf model.old script.now }
{
    for field in fields {
        print_field(alloc, out, script, model, field)?;
    }
    Ok(())
}

fn print_field<W: Write>(
    alloc: Global,
    out: &mut W,
    script: &Library<'_>,
    model: &mut Library<'_>,
    field: &Field,
) -> Result<()>
    requires { ReadsModelsOf model.old script.now }
    ensures { ReadsModelsOf model.new script.now }
{
    match field.key {
        "item" => define_item(alloc, out, script, model, field),
        "find" => find(alloc, out, script, model, field),
        "names" => {
            print_counts(out, "script", script)?;
            print_counts(out, "model", model)?;
            Ok(())
        }
        _ => refuse(field),
    }
}

// Defines the item in a field, and prints the result.
fn define_item<W: Write>(
    alloc: Global,
    out: &mut W,
    script: &Library<'_>,
    model: &mut Library<'_>,
    field: &Field,
) -> Result<()>
    requires { ReadsModelsOf model.old script.now }
    ensures { ReadsModelsOf model.new script.now }
{
    let item = tree_of(alloc, field)?;
    let before = model.definitions().len();
    let answer = model.define_item(script, item.view());
    let done = if model.definitions().len() == before {
        "set aside"
    } else {
        "defined"
    };
    print_answer(out, field, done, answer.err())
}

// Prints the place of the name in a field, among the names of the script and among the items.
fn find<W: Write>(
    alloc: Global,
    out: &mut W,
    script: &Library<'_>,
    model: &Library<'_>,
    field: &Field,
) -> Result<()> {
    let name = field.bytes(alloc)?;
    write_places(out, script, model, field, name.as_slice())?;
    Ok(())
}

fn write_places<W: Write>(
    out: &mut W,
    script: &Library<'_>,
    model: &Library<'_>,
    field: &Field,
    name: &[u8],
) -> io::Result<()> {
    write!(out, "{} => script ", field.text)?;
    write_found(out, script, name)?;
    write!(out, ", model ")?;
    write_found(out, model, name)?;
    writeln!(out)
}
