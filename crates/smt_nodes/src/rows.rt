//! The rows of a table, as they are stored. What is long is in lists, of which this file knows only how far
//! each row reaches.

use crate::term_id::TermId;
use smt_theory::{LiteralKind, PlainOp};
use std::mem::size_of;

// Rows are read at random, and there may be many.
const _: () = prove!(size_of::<StoredRow>() == 24);

const _: () = prove!(size_of::<TermId>() == 4);

/// How much of each list belongs to a row and those before it.
#[derive(Clone, Copy)]
pub(crate) struct Ends {
    pub(crate) parts: u32,
    pub(crate) digits: u32,
    pub(crate) ops: u32,
}

/// A node, with the counts of its digits or arguments. In the lists these end where the row ends.
#[derive(Clone, Copy)]
pub(crate) enum Stored {
    /// A literal: the count of its digits, and the number that they spell.
    Literal(LiteralKind, u32, u32),
    /// A literal whose number has no room here: the count of its digits, and the place of the number among
    /// the large ones.
    Large(LiteralKind, u32, u32),
    /// An element of a declared sort: the count of the bytes of its name, which are among the digits, and the place
    /// of its name among the names of elements.
    Element(u32, u32),
    Slot(u32),
    /// An operator that holds no number, and the count of its arguments.
    Plain(PlainOp, u32),
    /// The place of an operator among those with numbers, and the count of its arguments.
    Numbered(u32, u32),
    /// The place of a declared name, and the count of its arguments; the next is the same of a defined name.
    Declared(u32, u32),
    Defined(u32, u32),
    /// The count of the values of a `let`, and its body.
    Let(u32, TermId),
    /// The place of a node among those with annotations round them, and how many these are.
    Annotated(u32, u32),
}

/// A row: what is stored, and where the row ends in each list.
#[derive(Clone, Copy)]
pub(crate) struct StoredRow {
    pub(crate) stored: Stored,
    pub(crate) ends: Ends,
}
