//! The parts of a term that wait while a part in them is checked. This file checks nothing.

ghost use Rattle.std.specs.Prelude.{◌≡◌, ◌+◌, IfOk};

use crate::library::draft::CheckedTerm;
use smt_faults::Memory;

/// A list in the whole term. Its parts are the trees of the whole term between two places; a place is the number of
/// cells from there to the end of the whole term.
#[derive(Clone, Copy)]
pub(crate) struct Part {
    pub(crate) from: u32,
    pub(crate) to: u32,
    /// How many annotations without a label are directly round it.
    pub(crate) around: u32,
}

/// An application.
#[derive(Clone, Copy)]
pub(crate) struct Application {
    /// The place where its head begins.
    pub(crate) parts: u32,
    /// The place where its last argument ends.
    pub(crate) end: u32,
    /// How many arguments of other terms wait.
    pub(crate) start: u32,
    pub(crate) around: u32,
}

/// A `let` whose bindings are being checked.
#[derive(Clone, Copy)]
pub(crate) struct Binder {
    /// The places where its bindings and its body begin, and where the body ends.
    pub(crate) bindings: u32,
    pub(crate) body: u32,
    pub(crate) end: u32,
    /// How many arguments of other terms wait; the terms of its bindings wait after these.
    pub(crate) start: u32,
    pub(crate) around: u32,
}

/// A `let` whose body is being checked.
#[derive(Clone, Copy)]
pub(crate) struct Body {
    /// How many arguments of other terms wait; the terms of its bindings wait after these.
    pub(crate) start: u32,
    pub(crate) around: u32,
    /// How many variables are bound outside it.
    pub(crate) outer: u32,
}

/// A term with a label.
#[derive(Clone, Copy)]
pub(crate) struct Labelled {
    /// The places where the term in it begins, and where its attributes end.
    pub(crate) parts: u32,
    pub(crate) end: u32,
    pub(crate) around: u32,
    /// How many variables are bound outside the innermost term with a label that it is in.
    pub(crate) base: u32,
}

/// A part of a term that waits for the check of a part in it. `is_open` says whether one of its checked parts uses a
/// variable from outside.
#[derive(Clone, Copy)]
pub(crate) enum Frame {
    /// The arguments from `left` on are still to be checked.
    Argument {
        application: Application,
        left: u32,
        is_open: bool,
    },
    /// The bindings from `left` on are still to be checked. The first `distinct` of them have names that no earlier one
    /// has; the one after these has not.
    Binding {
        binder: Binder,
        left: u32,
        distinct: u32,
        is_open: bool,
    },
    Body {
        body: Body,
        is_open: bool,
    },
    Labelled(Labelled),
}

/// What comes next in the check of a term: a list in it, or the part that waits for this one.
#[derive(Clone, Copy)]
pub(crate) enum Next {
    Enter(Part),
    Checked(CheckedTerm),
}

/// What a list, or a part that waited, leads to.
#[derive(Clone, Copy)]
pub(crate) enum Step {
    Next(Next),
    /// The arguments of an application from `left` on are still to be checked. `is_open` says whether one of those
    /// before them uses a variable from outside.
    Arguments {
        application: Application,
        left: u32,
        is_open: bool,
    },
}

/// The place of so many cells before another place, or `Memory` if it is no 32-bit number.
#[inline(always)]
pub(crate) fn place_before(size: usize, place: u32) -> Result<u32, Memory>
    ensures { IfOk result (λ before. before ≡ size + place) }
{
    let size = narrow(size)?;
    size.checked_add(place).ok_or(Memory)
}

/// A number as one of 32 bits, or `Memory`.
#[inline(always)]
pub(crate) fn narrow(number: usize) -> Result<u32, Memory>
    ensures { IfOk result (λ same. same ≡ number) }
{
    u32::try_from(number).map_err(|_| Memory)
}
