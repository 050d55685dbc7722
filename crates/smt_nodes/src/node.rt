//! Nodes, as a caller writes and reads them. This file does not know how a table holds them.

use crate::term_id::TermId;
use smt_theory::{LiteralKind, Op, PlainOp};

/// A node of a term (SMT-LIB 2.6, section 3.6). Its parts are nodes, by their numbers.
#[derive(Clone, Copy)]
pub enum Node<'a> {
    /// A literal, by its digits.
    Literal(LiteralKind, &'a [u8]),
    /// An element of a declared sort, by its name.
    Element(&'a [u8]),
    /// A variable, by its place in the frame, from 0.
    Slot(usize),
    /// An operator of a theory, with its arguments.
    Apply { op: Op, args: &'a [TermId] },
    /// A declared name, by its place among the declared names, from 0, with its arguments.
    Declared { place: usize, args: &'a [TermId] },
    /// A defined name, by its place among the defined names, from 0, with its arguments.
    Defined { place: usize, args: &'a [TermId] },
    /// A `let`: the values of its variables, and its body.
    Let { values: &'a [TermId], body: TermId },
}

/// A node, without what takes long to fetch: the operator of some, and the name of an element.
#[derive(Clone, Copy)]
pub enum NodeParts<'a> {
    /// A literal, by its digits.
    Literal(LiteralKind, &'a [u8]),
    /// A variable, by its place in the frame, from 0.
    Slot(usize),
    /// An operator that holds no number, with its arguments.
    Plain { op: PlainOp, args: &'a [TermId] },
    /// The arguments of another operator; none for an element.
    Args(&'a [TermId]),
    /// The arguments of a declared name, with its place among the declared names, from 0.
    Declared { place: usize, args: &'a [TermId] },
    /// The arguments of a defined name, with its place among the defined names, from 0.
    Defined { place: usize, args: &'a [TermId] },
    /// The values of the variables of a `let`, and its body.
    Let { values: &'a [TermId], body: TermId },
}
