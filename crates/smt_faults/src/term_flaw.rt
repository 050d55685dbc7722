//! What is wrong with a term, a sort or a definition. This file knows no want of memory.

use std::error::Error;
use std::fmt;

/// The first thing that is wrong with a term, a sort or a definition.
#[derive(Clone, Copy, Debug, PartialEq, Eq)]
pub enum TermFlaw {
    /// Its form is wrong (`F1`).
    Form,
    /// It is in the standard, but is not supported (`F2`).
    Unsupported,
    /// A symbol, a sort or a literal is unknown (`F3`).
    Unknown,
    /// A symbol is applied to arguments that it does not accept, or a term has another sort than it should
    /// (`F4`).
    IllSorted,
    /// The indexes of an operator are wrong in number, kind or range, or a width is out of range (`F5`).
    Index,
    /// A name is bound twice (`F6`).
    BoundTwice,
    /// A name that should be new is in use (`F7`).
    NotFresh,
    /// A label is where none may be (`F8`).
    Label,
}

impl fmt::Display for TermFlaw {
    ghost use Rattle.std.specs.Prelude.{Some};
    ghost use Rattle.smt_faults.specs.FlawText.{text_of_term_flaw};

    ghost output = { λ x. Some (text_of_term_flaw x) };

    fn fmt<W: fmt::Write>(&self, f: &mut fmt::Formatter<W>) -> fmt::Result {
        f.write_str(match self {
            TermFlaw::Form => "F1",
            TermFlaw::Unsupported => "F2",
            TermFlaw::Unknown => "F3",
            TermFlaw::IllSorted => "F4",
            TermFlaw::Index => "F5",
            TermFlaw::BoundTwice => "F6",
            TermFlaw::NotFresh => "F7",
            TermFlaw::Label => "F8",
        })
    }
}

impl Error for TermFlaw {}
