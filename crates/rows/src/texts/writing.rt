//! Trees and faults, written as the rows have them. This file reads no text.

ghost use Rattle.std.specs.Prelude.{◌<◌};

use smt_faults::TextFault;
use smt_trees::{OwnedTree, Tree, Trees, Word, spelling};
use std::alloc::{AllocError, Global};

/// Trees, with a space after each, and then the fault.
pub(crate) fn written(
    alloc: Global,
    trees: &[OwnedTree],
    fault: Option<TextFault>,
) -> Result<Vec<u8>, AllocError> {
    let mut out = Vec::new(alloc);
    for tree in trees {
        write_tree(&mut out, tree.view())?;
    }
    write_end(alloc, &mut out, fault)?;
    Ok(out)
}

// Writes a tree, with a space after it.
#[cycle(write)]
fn write_tree(out: &mut Vec<u8>, tree: Tree<'_>) -> Result<(), AllocError> {
    match tree {
        Tree::Numeral(digits) => write_atom(out, b'n', digits),
        Tree::Decimal(text) => write_atom(out, b'd', text),
        Tree::Hex(digits) => write_atom(out, b'x', digits),
        Tree::Bin(digits) => write_atom(out, b'b', digits),
        Tree::Text(bytes) => write_atom(out, b't', bytes),
        Tree::Symbol(name) => write_atom(out, b's', name),
        Tree::Keyword(name) => write_atom(out, b'k', name),
        Tree::Reserved(word) => write_word(out, word),
        Tree::List(parts) => {
            out.extend_from_slice(b"( ")?;
            write_trees(out, parts)?;
            out.extend_from_slice(b") ")?;
            Ok(())
        }
    }
}

#[cycle(write)]
fn write_trees(out: &mut Vec<u8>, trees: Trees<'_>) -> Result<(), AllocError> {
    let Some((tree, rest)) = trees.split_first() else {
        return Ok(());
    };
    write_tree(out, tree)?;
    write_trees(out, rest)
}

// Writes the fault with its place, or that there is none. This call fails where the fault is that memory was refused.
fn write_end(alloc: Global, out: &mut Vec<u8>, fault: Option<TextFault>) -> Result<(), AllocError> {
    let end = match fault {
        None => format!(in alloc; ".")?,
        Some(TextFault::Byte { place }) => format!(in alloc; "byte {place}")?,
        Some(TextFault::Deep { place }) => format!(in alloc; "deep {place}")?,
        Some(TextFault::End { place }) => format!(in alloc; "end {place}")?,
        Some(TextFault::Memory) => return Err(AllocError),
    };
    out.extend_from_slice(end.as_bytes())?;
    Ok(())
}

fn write_word(out: &mut Vec<u8>, word: Word) -> Result<(), AllocError> {
    out.extend_from_slice(b"r:")?;
    out.extend_from_slice(spelling(word))?;
    out.push(b' ')?;
    Ok(())
}

fn write_atom(out: &mut Vec<u8>, kind: u8, bytes: &[u8]) -> Result<(), AllocError> {
    out.push(kind)?;
    out.push(b':')?;
    for byte in bytes {
        write_byte(out, *byte)?;
    }
    out.push(b' ')?;
    Ok(())
}

// Writes a byte, as an escape where it is white space, a backslash or not printable.
fn write_byte(out: &mut Vec<u8>, byte: u8) -> Result<(), AllocError> {
    match byte {
        b'\n' => out.extend_from_slice(b"\\n")?,
        b'\r' => out.extend_from_slice(b"\\r")?,
        b'\t' => out.extend_from_slice(b"\\t")?,
        b' ' => out.extend_from_slice(b"\\s")?,
        b'\\' => out.extend_from_slice(b"\\\\")?,
        b'!'..=b'~' => out.push(byte)?,
        _ => {
            out.extend_from_slice(b"\\x")?;
            out.push(digit(byte / 16))?;
            out.push(digit(byte % 16))?;
        }
    }
    Ok(())
}

// The hexadecimal digit of a value below 16.
fn digit(value: u8) -> u8
    requires { value < 16 }
{
    if value < 10 {
        b'0' + value
    } else {
        b'a' + (value - 10)
    }
}
