//! Rows of texts: each text with its trees, read whole and in pieces. This file knows no term.

ghost use Rattle.std.specs.Prelude.{◌≤◌, length};

mod reading;
mod writing;

use anyhow::Result;
use row_texts::{Field, want_key};
use std::alloc::{AllocError, Global};
use std::io::Write;

/// Prints what the reader returns for each text.
pub(crate) fn print<W: Write>(alloc: Global, out: &mut W, fields: &[Field]) -> Result<()> {
    for field in fields {
        want_key(field, "text")?;
        print_text(alloc, out, field)?;
    }
    Ok(())
}

fn print_text<W: Write>(alloc: Global, out: &mut W, field: &Field) -> Result<()> {
    let text = field.bytes(alloc)?;
    write!(out, "{} => ", field.text)?;
    write_read(alloc, out, text.as_slice())
}

// Writes the result for a whole text, and a result for its pieces that differs, and ends the line.
fn write_read<W: Write>(alloc: Global, out: &mut W, text: &[u8]) -> Result<()> {
    let whole = reading::read_whole(alloc, text)?;
    out.write_all(whole.as_slice())?;
    write_other(alloc, out, text, whole.as_slice())?;
    writeln!(out)?;
    Ok(())
}

// Cuts a text at every two places. At the first two where the result differs, it writes the places and that result.
fn write_other<W: Write>(alloc: Global, out: &mut W, text: &[u8], whole: &[u8]) -> Result<()> {
    for first in 0..text.len() {
        for second in first..text.len() {
            let pieces = read_cut(alloc, text, first, second)?;
            if pieces.as_slice() != whole {
                return write_cut(out, first, second, pieces.as_slice());
            }
        }
    }
    Ok(())
}

fn write_cut<W: Write>(out: &mut W, first: usize, second: usize, read: &[u8]) -> Result<()> {
    write!(out, ", but cut at {first} and {second}: ")?;
    out.write_all(read)?;
    Ok(())
}

// The result for a text that is cut before the bytes at two places.
fn read_cut(alloc: Global, text: &[u8], first: usize, second: usize) -> Result<Vec<u8>, AllocError>
    requires ordered { first ≤ second }
    requires inside { second ≤ length text.now }
{
    let (front, rest) = text.split_at(first);
    let (middle, back) = rest.split_at(second - first);
    reading::read_in_pieces(alloc, front, middle, back)
}
