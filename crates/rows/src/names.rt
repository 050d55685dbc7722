//! The names of a library, as the rows show them. This file changes no library.

use anyhow::Result;
use row_texts::Field;
use smt_terms::{Declared, Definition, Found, Library};
use smt_theory::{Sort, SortKind};
use std::alloc::Global;
use std::io;
use std::io::Write;

/// Prints the place and the rank, in a library, of the name in a field.
pub(crate) fn print_name<W: Write>(
    alloc: Global,
    out: &mut W,
    library: &Library<'_>,
    field: &Field,
) -> Result<()> {
    write!(out, "{} => ", field.text)?;
    write_found(out, library, field.bytes(alloc)?.as_slice())?;
    writeln!(out)?;
    Ok(())
}

/// Prints a title, and how many declared and how many defined names a library has.
pub(crate) fn print_counts<W: Write>(
    out: &mut W,
    title: &str,
    library: &Library<'_>,
) -> io::Result<()> {
    let declared = library.declared().len();
    let definitions = library.definitions().len();
    writeln!(out, "{title} => {declared} declared, {definitions} defined")
}

/// Writes the place of a name in a library, from 0 among the declared names or among the definitions, and its rank.
pub(crate) fn write_found<W: Write>(
    out: &mut W,
    library: &Library<'_>,
    name: &[u8],
) -> io::Result<()> {
    match library.find(name) {
        Some(Found::Declared(place)) => {
            write!(out, "declared {place}")?;
            write_declared(out, library.declared().get(place))
        }
        Some(Found::Defined(place)) => {
            write!(out, "defined {place}")?;
            write_definition(out, library.definitions().get(place))
        }
        None => write!(out, "unknown"),
    }
}

/// Writes a sort, as the standard does. (Arrays are at most two deep.)
pub(crate) fn write_sort<W: Write>(out: &mut W, sort: &Sort) -> io::Result<()> {
    let Some((index, element)) = sort.array_parts() else {
        return write_plain_sort(out, sort);
    };
    let Some((inner, held)) = element.array_parts() else {
        return write_array_sort(out, &index, &element);
    };
    write!(out, "(Array ")?;
    write_plain_sort(out, &index)?;
    write!(out, " ")?;
    write_array_sort(out, &inner, &held)?;
    write!(out, ")")
}

// Writes a sort of arrays of elements that are none.
fn write_array_sort<W: Write>(out: &mut W, index: &Sort, element: &Sort) -> io::Result<()> {
    write!(out, "(Array ")?;
    write_plain_sort(out, index)?;
    write!(out, " ")?;
    write_plain_sort(out, element)?;
    write!(out, ")")
}

// Writes a sort of no arrays.
fn write_plain_sort<W: Write>(out: &mut W, sort: &Sort) -> io::Result<()> {
    match sort.kind() {
        SortKind::Bool => write!(out, "Bool"),
        SortKind::Int => write!(out, "Int"),
        SortKind::Real => write!(out, "Real"),
        SortKind::Free(command) => write!(out, "the sort of command {command}"),
        SortKind::Bits(width) => write!(out, "(_ BitVec {})", width.bits()),
        SortKind::Array(_, _) => write!(out, "Array"),
    }
}

// Writes the command of a declared name and its rank, as ` by command 2: (Int Bool) Int`, or that its place is empty.
fn write_declared<W: Write>(out: &mut W, declared: Option<&Declared>) -> io::Result<()> {
    let Some(declared) = declared else {
        return write!(out, ", and is not there");
    };
    write!(out, " by command {}: (", declared.command)?;
    for (place, sort) in declared.params.iter().enumerate() {
        write_space(out, place)?;
        write_sort(out, sort)?;
    }
    write!(out, ") ")?;
    write_sort(out, &declared.result)
}

// Writes the parameters of a definition and the sort of its result, as `: ((a Int) (b Bool)) Int`, or that its
// place is empty.
fn write_definition<W: Write>(out: &mut W, definition: Option<&Definition>) -> io::Result<()> {
    let Some(definition) = definition else {
        return write!(out, ", and is not there");
    };
    write!(out, ": (")?;
    for (place, (name, sort)) in definition.params.iter().enumerate() {
        write_space(out, place)?;
        write_param(out, name.as_slice(), sort)?;
    }
    write!(out, ") ")?;
    write_sort(out, &definition.result)
}

fn write_param<W: Write>(out: &mut W, name: &[u8], sort: &Sort) -> io::Result<()> {
    write!(out, "(")?;
    out.write_all(name)?;
    write!(out, " ")?;
    write_sort(out, sort)?;
    write!(out, ")")
}

// Writes a space before each part of a list but the first.
fn write_space<W: Write>(out: &mut W, place: usize) -> io::Result<()> {
    if place > 0 {
        write!(out, " ")?;
    }
    Ok(())
}
