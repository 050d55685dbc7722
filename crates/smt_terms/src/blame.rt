//! What is to blame where a term, a declaration, a definition or an item is refused. This file checks nothing.

use smt_theory::{Sort, Wanted};
use smt_trees::Tree;

/// What is to blame for a fault: a name or a part of what was refused, which it borrows. Places are from 1.
#[derive(Drop)]
pub enum Blame<'t> {
    /// A symbol, the name of an identifier with indexes, or that of a sort, which nothing has (F3).
    Unknown {
        name: &'t [u8],
    },
    /// A symbol, an identifier with indexes, a literal or the tree of a sort that is unknown here, and would not be so
    /// in a logic with this theory (F3).
    Lacks {
        part: Tree<'t>,
        theory: Theory,
    },
    /// A name that is bound twice by a `let`, or that two parameters or two items have (F6).
    Twice {
        name: &'t [u8],
    },
    /// A label that an earlier term of the same assertion has (F7).
    Label {
        name: &'t [u8],
    },
    /// A new name that is in use, is an operator's or an element's, or is a sort's (F7).
    InUse {
        name: &'t [u8],
    },
    /// A part whose head is a variable, which takes no arguments (F4).
    Variable {
        part: Tree<'t>,
    },
    /// An argument of a part that is the first of another sort than is wanted there (F4).
    Misfit {
        part: Tree<'t>,
        place: u64,
        argument: Tree<'t>,
        found: Sort,
        wanted: Wanted,
    },
    /// A part whose head takes another number of arguments; `wanted` is the least that it takes. A symbol or an
    /// identifier with indexes alone is given none (F4).
    Arity {
        part: Tree<'t>,
        given: u64,
        wanted: u64,
    },
    /// A part whose arguments are bit vectors of these sorts, whose widths do not fit its operator (F4).
    Sorts {
        part: Tree<'t>,
        found: Vec<Sort>,
    },
    /// The term as a whole: the assertion, the assumption, or the body of the definition (F4).
    Whole {
        found: Sort,
        wanted: Sort,
    },
    /// A parameter of an item that has another sort than in the declaration of the name (F4).
    Parameter {
        place: u64,
        found: Sort,
        wanted: Sort,
    },
    /// The result of an item that has another sort than in the declaration of the name (F4).
    Outcome {
        found: Sort,
        wanted: Sort,
    },
    /// An item with more or fewer parameters than its name is declared with (F4).
    Parameters {
        given: u64,
        wanted: u64,
    },
}

/// A theory that a logic may lack.
#[derive(Clone, Copy)]
pub enum Theory {
    Integers,
    /// Only in the wide profile.
    Reals,
    BitVectors,
    /// Only in the wide profile.
    Arrays,
}
