//! Rows of models: each model with the names that it defines, or its first fault. This file evaluates nothing.

ghost use Rattle.std.specs.Prelude.{IfOk, MatchOption};
ghost use Rattle.smt_eval.specs.Interpretation.{Fits, HoldsScript};
ghost use Rattle.smt_terms.specs.Library.{ReadsModelsOf};

use crate::trees::{assert, declare, define, parts_of, tree_of};
use anyhow::{Result, bail};
use row_texts::{Field, refuse};
use smt_eval::{Interpretation, ModelFault, ModelFlaw};
use smt_faults::TermFault;
use smt_terms::Library;
use smt_trees::Trees;
use std::alloc::Global;
use std::io;
use std::io::Write;

/// Prints the results of declarations, definitions, assertions and models, in order. The number of a declaration's
/// command is its place after the logic.
pub(crate) fn print<W: Write>(
    alloc: Global,
    out: &mut W,
    library: &mut Library<'_>,
    fields: &[Field],
) -> Result<()>
    requires { HoldsScript library.old }
{
    for (command, field) in (1..u64::MAX).zip(fields) {
        match field.key {
            "declare" => declare(alloc, out, library, command, field)?,
            "define" => define(alloc, out, library, field)?,
            "assert" => assert(alloc, out, library, field)?,
            "model" => print_if_defined(alloc, out, library, field)?,
            _ => return refuse(field),
        }
    }
    Ok(())
}

fn print_if_defined<W: Write>(
    alloc: Global,
    out: &mut W,
    declared: &Library<'_>,
    field: &Field,
) -> Result<()>
    requires { HoldsScript declared.now }
{
    let _ = print_model(alloc, out, declared, field)?;
    Ok(())
}

/// Prints the result of a model of the declared names, and returns its interpretation if it has no fault.
pub(crate) fn print_model<'l, W: Write>(
    alloc: Global,
    out: &mut W,
    declared: &'l Library<'_>,
    field: &Field,
) -> Result<Option<Interpretation<'l>>>
    requires { HoldsScript declared.now }
    ensures { IfOk result (λ found. MatchOption found (Unit {0}) (λ model. Fits model declared.now)) }
{
    let tree = tree_of(alloc, field)?;
    let parts = parts_of(field, &tree)?;
    let read = Interpretation::read(declared, parts);
    print_read(out, declared, field, parts, &read)?;
    Ok(read.ok())
}

fn print_read<W: Write>(
    out: &mut W,
    declared: &Library<'_>,
    field: &Field,
    parts: Trees<'_>,
    read: &Result<Interpretation<'_>, ModelFault>,
) -> Result<()> {
    let text = &field.text;
    match read {
        Ok(_) => {
            write!(out, "{text} => defines")?;
            print_names(out, declared, parts)?;
        }
        Err(fault) => match fault.flaw() {
            Some(ModelFlaw::Item { number, flaw }) => writeln!(
                out,
                "{text} => item {number} {flaw}"
            )?,
            Some(ModelFlaw::Lacks { command }) => writeln!(
                out,
                "{text} => lacks the symbol of command {command}"
            )?,
            None => bail!("out of memory"),
        },
    }
    Ok(())
}

// Prints the names that a model without a fault defines, in order, each after a space, and ends the line.
fn print_names<W: Write>(out: &mut W, declared: &Library<'_>, model: Trees<'_>) -> Result<()> {
    let definitions = definitions_of(declared, model)?;
    write_names(out, &definitions)?;
    Ok(())
}

/// A library of what the items of a model without a fault define.
pub(crate) fn definitions_of<'l>(
    declared: &'l Library<'_>,
    model: Trees<'_>,
) -> Result<Library<'l>> {
    let Ok(mut definitions) = declared.for_model(model.size()) else {
        bail!("out of memory");
    };
    match define_items(declared, &mut definitions, model) {
        Ok(()) => Ok(definitions),
        Err(error) => {
            drop(definitions);
            Err(error)
        }
    }
}

fn define_items(
    declared: &Library<'_>,
    definitions: &mut Library<'_>,
    model: Trees<'_>,
) -> Result<()>
    requires { ReadsModelsOf definitions.old declared.now }
{
    let mut left = model;
    while let Some((item, rest)) = left.split_first() {
        left = rest;
        if item.is_symbol(b"model") {
            continue;
        }
        match definitions.define_item(declared, item) {
            Ok(()) => {}
            Err(TermFault::Memory) => bail!("out of memory"),
            Err(_) => bail!("an item of a model without a fault is refused"),
        }
    }
    Ok(())
}

fn write_names<W: Write>(out: &mut W, library: &Library<'_>) -> io::Result<()> {
    for definition in library.definitions() {
        write!(out, " ")?;
        out.write_all(definition.name.as_slice())?;
    }
    writeln!(out)
}
