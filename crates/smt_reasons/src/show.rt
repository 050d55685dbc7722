//! The text of trees and names on a page. This file reads no text.

use crate::trees::tree_from;
use crate::value_texts::symbol_text;
use smt_faults::Memory;
use smt_remarks::Page;
use smt_trees::{Tree, Trees, spelling};
use std::alloc::Global;

/// The most bytes of the text of a tree: a longer text is cut.
const MOST: usize = 4096;

/// Writes a tree, without its middle where it is long.
pub fn put_tree(page: &mut Page<'_>, tree: Tree<'_>) {
    let text = text_of(page.alloc(), tree);
    page.put_text(text);
}

/// The text of a tree; a text over 4,096 bytes is cut there, and ends with ` ..`.
pub(crate) fn text_of(alloc: Global, tree: Tree<'_>) -> Result<Vec<u8>, Memory> {
    let mut out = Vec::new(alloc);
    match tree {
        Tree::List(parts) => write_list(alloc, &mut out, parts)?,
        _ => write_atom(alloc, &mut out, tree)?,
    }
    if out.len() > MOST {
        out.truncate(MOST);
        out.extend_from_slice(b" ..")?;
    }
    Ok(out)
}

// Writes a list, tree by tree, as far as there is room.
fn write_list(alloc: Global, out: &mut Vec<u8>, parts: Trees<'_>) -> Result<(), Memory> {
    // (the places where the lists end that are open)
    let mut ends: Vec<usize> = Vec::new(alloc);
    out.push(b'(')?;
    for before in 0..parts.size() {
        let place = parts.size() - before;
        let Some((tree, rest)) = tree_from(parts, place) else {
            break;
        };
        if out.len() > MOST {
            return Ok(());
        }
        close(out, &mut ends, place)?;
        if !out.ends_with(b"(") {
            out.push(b' ')?;
        }
        match tree {
            Tree::List(_) => {
                out.push(b'(')?;
                ends.push(rest.size())?;
            }
            _ => write_atom(alloc, out, tree)?,
        }
    }
    close(out, &mut ends, 0)?;
    out.push(b')')?;
    Ok(())
}

// Closes the lists that end before a place.
fn close(out: &mut Vec<u8>, ends: &mut Vec<usize>, place: usize) -> Result<(), Memory> {
    let open = ends.as_slice().iter().filter(|end| **end < place).count();
    for _end in open..ends.len() {
        out.push(b')')?;
    }
    ends.truncate(open);
    Ok(())
}

fn write_atom(alloc: Global, out: &mut Vec<u8>, tree: Tree<'_>) -> Result<(), Memory> {
    match tree {
        Tree::Numeral(digits) | Tree::Decimal(digits) => put(out, b"", digits),
        Tree::Hex(digits) => put(out, b"#x", digits),
        Tree::Bin(digits) => put(out, b"#b", digits),
        Tree::Text(_) => put(out, b"\"..", b"\""),
        Tree::Reserved(word) => put(out, b"", spelling(word)),
        Tree::Keyword(name) => put(out, b":", name),
        Tree::Symbol(name) => {
            let text = symbol_text(alloc, name)?;
            put(out, b"", text.as_slice())
        }
        Tree::List(_) => Ok(()),
    }
}

fn put(out: &mut Vec<u8>, before: &[u8], bytes: &[u8]) -> Result<(), Memory> {
    out.extend_from_slice(before)?;
    out.extend_from_slice(bytes)?;
    Ok(())
}

/// Writes a name, without its middle where it is long.
pub fn put_name(page: &mut Page<'_>, name: &[u8]) {
    let text = symbol_text(page.alloc(), name);
    page.put_text(text);
}
