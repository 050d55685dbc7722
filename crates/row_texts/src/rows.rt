//! The form of the files of rows. This file knows no key, and no escape.
//!
//! A file has rows, with at least one empty line between them. A row has fields, each on a line of its own, such as
//! `term: (and p q)`. The first field is the title of the row, and its key is the kind of the row. A line that
//! begins with two spaces continues the field above it, and a line that begins with `#` is a comment.

ghost use Rattle.std.specs.Prelude.{◌≡◌, ◌++◌, Some, IfOk, IfErr, codes, string_bytes};
ghost use Rattle.std.specs.Fmt.{decimal};
ghost use Rattle.anyhow.specs.Error.{HasMessage};
ghost use Rattle.row_texts.specs.Escapes.{bytes_meant};

use crate::escapes::unescape;
use anyhow::{Context, Result, bail};
use std::alloc::{AllocError, Global};
use std::mem;

/// A field of a row.
#[derive(Drop)]
pub struct Field<'a> {
    /// The line on which the field begins, from 1.
    pub line: u64,
    pub key: &'a str,
    /// The text after the key, as the file has it.
    pub text: String,
}

impl Field<'_> {
    /// The bytes that the text stands for; the error of a faulty escape names the line.
    pub fn bytes(&self, alloc: Global) -> Result<Vec<u8>>
        ensures ok { IfOk result (λ bytes. bytes_meant (string_bytes self.now.text) ≡ Some bytes.items) }
        ensures err { IfErr result (HasMessage (Some (codes "line " ++ decimal self.now.line))) }
    {
        let line = self.line;
        unescape(alloc, self.text.as_str()).context(format_args!("line {line}"))
    }
}

/// The rows of a file, none of them empty. A line without a colon, or one that continues no field, is an error.
pub fn read<'a>(alloc: Global, text: &'a str) -> Result<Vec<Vec<Field<'a>>>> {
    let mut rows = Vec::new(alloc);
    let mut row = Vec::new(alloc);
    read_lines(alloc, &mut rows, &mut row, text)?;
    Ok(rows)
}

// Adds the rows of a text. The row under way is empty afterwards.
fn read_lines<'a>(
    alloc: Global,
    rows: &mut Vec<Vec<Field<'a>>>,
    row: &mut Vec<Field<'a>>,
    text: &'a str,
) -> Result<()> {
    for (number, line) in (1..u64::MAX).zip(text.lines()) {
        if line.is_empty() {
            end_row(alloc, rows, row)?;
        } else if let Some(more) = line.strip_prefix("  ") {
            continue_field(row, number, more)?;
        } else if !line.starts_with('#') {
            add_field(alloc, row, number, line)?;
        }
    }
    end_row(alloc, rows, row)?;
    Ok(())
}

// Adds the row that ends here, if there is one.
fn end_row<'a>(
    alloc: Global,
    rows: &mut Vec<Vec<Field<'a>>>,
    row: &mut Vec<Field<'a>>,
) -> Result<(), AllocError> {
    if !row.is_empty() {
        rows.push(mem::replace(row, Vec::new(alloc)))?;
    }
    Ok(())
}

// Adds a line to the text of the last field.
fn continue_field(row: &mut Vec<Field>, number: u64, more: &str) -> Result<()> {
    match row.last_mut() {
        Some(field) => Ok(field.text.push_str(more)?),
        None => bail!("line {number}: there is no field to continue"),
    }
}

// Adds the field that begins with a line. One space after the colon is no part of the text.
fn add_field<'a>(
    alloc: Global,
    row: &mut Vec<Field<'a>>,
    number: u64,
    line: &'a str,
) -> Result<()> {
    let Some((key, text)) = line.split_once(':') else {
        bail!("line {number}: a field begins with its key and a colon");
    };
    let text = text.strip_prefix(' ').unwrap_or(text);
    let text = String::from_str(alloc, text)?;
    row.push(Field {
        line: number,
        key,
        text,
    })?;
    Ok(())
}
