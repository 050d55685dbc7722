//! The results of the reader for a text, written out. This file prints nothing, and looks into no tree.

ghost use Rattle.std.specs.Prelude.{◌≡◌, ◌+◌, ◌<◌, ◌^◌, length};
ghost use Rattle.smt_text.specs.Reader.{is_finished, bytes_fed};

use crate::texts::writing;
use smt_faults::TextFault;
use smt_text::{MAX_DEPTH, Next, Reader, read_trees};
use smt_trees::OwnedTree;
use std::alloc::{AllocError, Global};

/// The result of one call for a whole text.
pub(crate) fn read_whole(alloc: Global, text: &[u8]) -> Result<Vec<u8>, AllocError> {
    match read_trees(alloc, text) {
        Ok(trees) => writing::written(alloc, trees.as_slice(), None),
        // (This call returned no trees before the fault: so they are read in pieces.)
        Err(_) => read_in_pieces(alloc, text, b"", b""),
    }
}

/// The result for a text in three pieces, some of which may be empty. It takes the trees out after each piece.
pub(crate) fn read_in_pieces(
    alloc: Global,
    first: &[u8],
    second: &[u8],
    third: &[u8],
) -> Result<Vec<u8>, AllocError>
    requires { length first.now + length second.now + length third.now < 2 ^ 64 }
{
    let mut trees = Vec::new(alloc);
    let mut reader = Reader::new(alloc, MAX_DEPTH);
    reader.feed(first);
    let _first = take(&mut reader, &mut trees)?;
    reader.feed(second);
    let _second = take(&mut reader, &mut trees)?;
    reader.feed(third);
    let _third = take(&mut reader, &mut trees)?;
    reader.finish();
    let fault = take(&mut reader, &mut trees)?;
    writing::written(alloc, trees.as_slice(), fault)
}

// Takes out the trees that are ready, and returns the fault after them, if there is one.
fn take(reader: &mut Reader, trees: &mut Vec<OwnedTree>) -> Result<Option<TextFault>, AllocError>
    ensures finished { is_finished reader.new ≡ is_finished reader.old }
    ensures counted { bytes_fed reader.new ≡ bytes_fed reader.old }
{
    loop {
        match reader.next() {
            Next::Tree(tree) => trees.push(tree)?,
            Next::Wait | Next::End => return Ok(None),
            Next::Fault(fault) => return Ok(Some(fault)),
        }
    }
}
