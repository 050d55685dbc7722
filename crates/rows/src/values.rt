//! Rows of values: terms over the definitions of a model, each with its known value. Two ways find the value: by
//! the term's tree, and by its node. This file computes no value itself.

ghost use Rattle.std.specs.Prelude.{◌<◌, ◌-◌, ◌^◌, IfOk};
ghost use Rattle.smt_eval.specs.Interpretation.{HoldsScript};
ghost use Rattle.smt_terms.specs.Library.{StandsFor};
ghost use Rattle.smt_terms.specs.Signature.{Signature};

mod nodes;
mod plain;

use crate::models::{definitions_of, print_model};
use crate::trees::{parts_of, tree_of, trees_of};
use crate::values::nodes::{declare_items, known_by_node, left_of};
use crate::values::plain::plain_definitions;
use anyhow::{Result, bail};
use row_texts::{Field, want_key};
use smt_faults::{Memory, TermFlaw};
use smt_names::Names;
use smt_plain::{Closed, Definition};
use smt_terms::Library;
use smt_trees::{OwnedTree, Tree, Trees};
use smt_values::{ElementNumber, Value};
use std::alloc::Global;
use std::io;
use std::io::Write;

/// What a model defines, as trees, and the names of elements among them: the place of a name is its element's number.
#[derive(Clone, Copy)]
struct Defined<'a> {
    definitions: &'a [Definition<'a>],
    names: &'a Names,
}

/// Prints the results of a model and of terms over it, in order. It declares in the library the names that the
/// model defines.
pub(crate) fn print<W: Write>(
    alloc: Global,
    out: &mut W,
    script: &mut Library<'_>,
    title: &Field,
    fields: &[Field],
) -> Result<()>
    requires { HoldsScript script.old }
{
    let Some((first, terms)) = fields.split_first() else {
        bail!("line {}: a row of values has a model", title.line);
    };
    want_key(first, "model")?;
    let tree = tree_of(alloc, first)?;
    let model = parts_of(first, &tree)?;
    declare_items(alloc, script, model)?;
    print_values(alloc, out, script, first, model, terms)
}

fn print_values<W: Write>(
    alloc: Global,
    out: &mut W,
    script: &mut Library<'_>,
    first: &Field,
    model: Trees<'_>,
    terms: &[Field],
) -> Result<()>
    requires { HoldsScript script.old }
{
    let Some(_) = print_model(alloc, out, script, first)? else {
        bail!("line {}: the model has a fault", first.line);
    };
    print_over(alloc, out, script, model, terms)
}

fn print_over<W: Write>(
    alloc: Global,
    out: &mut W,
    script: &mut Library<'_>,
    model: Trees<'_>,
    terms: &[Field],
) -> Result<()>
    requires { HoldsScript script.old }
{
    // (a library of its own: the definitions borrow from it while terms are added to the script's)
    let mut twin = Library::new(alloc, script.theories());
    declare_items(alloc, &mut twin, model)?;
    let library = definitions_of(&twin, model)?;
    let Ok(definitions) = plain_definitions(alloc, &library, model) else {
        bail!("memory was refused");
    };
    let Ok(names) = element_names(alloc, &library) else {
        bail!("memory was refused");
    };
    let defined = Defined {
        definitions: definitions.as_slice(),
        names: &names,
    };
    print_terms(alloc, out, script, model, defined, terms)
}

// The names of the elements that a model names, in the order of their numbers.
fn element_names(alloc: Global, library: &Library<'_>) -> Result<Names, Memory> {
    let mut names = Names::new(alloc);
    for number in 0..u32::MAX {
        match library.nodes().element_name(number) {
            Some(name) => names.place(name)?,
            None => break,
        };
    }
    Ok(names)
}

fn print_terms<W: Write>(
    alloc: Global,
    out: &mut W,
    script: &mut Library<'_>,
    model: Trees<'_>,
    defined: Defined<'_>,
    fields: &[Field],
) -> Result<()>
    requires { HoldsScript script.old }
{
    for field in fields {
        if field.key == "steps" {
            print_left(alloc, out, script, model, field)?;
        } else {
            want_key(field, "term")?;
            print_value(alloc, out, script, model, defined, field)?;
        }
    }
    Ok(())
}

// Prints how many of the steps given in a field are left after the evaluation of its term.
fn print_left<W: Write>(
    alloc: Global,
    out: &mut W,
    script: &mut Library<'_>,
    model: Trees<'_>,
    field: &Field,
) -> Result<()>
    requires { HoldsScript script.old }
    ensures { (s : Signature) → StandsFor script.old s → StandsFor script.new s }
{
    let (steps, tree) = steps_of(alloc, field)?;
    match left_of(script, model, tree.view(), steps)? {
        Some(left) => writeln!(out, "{} => {left} left", field.text)?,
        None => writeln!(out, "{} => too long", field.text)?,
    }
    Ok(())
}

// The number of steps and the term in a field.
fn steps_of(alloc: Global, field: &Field) -> Result<(u64, OwnedTree)>
    ensures { IfOk result (λ found. found.0 < 2 ^ 64 - 1) }
{
    let Some((steps, _)) = field.text.split_once(' ') else {
        bail!("line {}: no number of steps before a term", field.line);
    };
    let Ok(steps) = steps.parse::<u64>() else {
        bail!("line {}: no number of steps before a term", field.line);
    };
    match trees_of(alloc, field)?.as_slice() {
        [_, tree] if steps < u64::MAX => Ok((steps, tree.copy(alloc)?)),
        _ => bail!("line {}: not a number of steps and a term", field.line),
    }
}

fn print_value<W: Write>(
    alloc: Global,
    out: &mut W,
    script: &mut Library<'_>,
    model: Trees<'_>,
    defined: Defined<'_>,
    field: &Field,
) -> Result<()>
    requires { HoldsScript script.old }
    ensures { (s : Signature) → StandsFor script.old s → StandsFor script.new s }
{
    let tree = tree_of(alloc, field)?;
    let by_tree = known_by_tree(alloc, script, defined, tree.view())?;
    let by_node = known_by_node(script, model, tree.view())?;
    write_value(out, defined.names, field, &by_tree, &by_node)?;
    Ok(())
}

// The known value of a term, found by its tree.
fn known_by_tree(
    alloc: Global,
    script: &Library<'_>,
    defined: Defined<'_>,
    tree: Tree<'_>,
) -> Result<Option<Value>> {
    let term = Closed {
        alloc,
        theories: script.theories(),
        definitions: defined.definitions,
        names: defined.names,
        tree,
    };
    match term.value() {
        Ok(known) => Ok(known),
        Err(_) => bail!("out of memory"),
    }
}

// Writes the known value of a term by its tree. Where its node gives another value, it writes that too; where the
// term is refused, the flaw.
fn write_value<W: Write>(
    out: &mut W,
    names: &Names,
    field: &Field,
    by_tree: &Option<Value>,
    by_node: &Result<Option<Value>, TermFlaw>,
) -> io::Result<()> {
    write!(out, "{} => ", field.text)?;
    write_known(out, names, by_tree)?;
    match by_node {
        Ok(known) => write_other(out, names, by_tree, known)?,
        Err(flaw) => write!(out, ", and no term: {flaw}")?,
    }
    writeln!(out)
}

fn write_other<W: Write>(
    out: &mut W,
    names: &Names,
    by_tree: &Option<Value>,
    by_node: &Option<Value>,
) -> io::Result<()> {
    if by_node != by_tree {
        write!(out, ", but by its node ")?;
        write_known(out, names, by_node)?;
    }
    Ok(())
}

fn write_known<W: Write>(out: &mut W, names: &Names, known: &Option<Value>) -> io::Result<()> {
    match known {
        Some(Value::Bool(value)) => write!(out, "{value}"),
        Some(Value::Bits(value)) => {
            let bits = value.width().bits();
            write!(out, "(_ bv{} {bits})", value.number())
        }
        Some(Value::Ratio(ratio)) => write!(out, "{}/{}", ratio.numerator(), ratio.denominator()),
        Some(Value::Abstract(number)) => write_name(out, names, *number),
        Some(value) => write!(out, "{}", value.integer().unwrap_or(0)),
        None => write!(out, "open"),
    }
}

fn write_name<W: Write>(out: &mut W, names: &Names, number: ElementNumber) -> io::Result<()> {
    out.write_all(b"the element ")?;
    match number.get() {
        Some(place) if (place as usize) < names.len() => out.write_all(names.name(place as usize)),
        _ => Ok(()),
    }
}
