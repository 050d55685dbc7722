//! What a machine has left to do. This file knows no stack.

ghost use Rattle.std.specs.Prelude.{◌≡◌};
ghost use Rattle.smt_machine.specs.Internal.Parts.{number_of};
ghost use Rattle.smt_machine.specs.Internal.Tasks.{part_task};

use crate::parts::Part;
use smt_theory::PlainOp;

/// A task; its nodes are given by their numbers.
#[derive(Clone, Copy)]
pub(crate) enum Task {
    /// Leaves the value of the node.
    Visit(usize),
    /// Leaves an open value.
    Open,
    /// Continues with the node whose arguments are the last values.
    Finish(usize),
    /// Replaces the last values, which are so many, by what the operator makes of them.
    Operate(PlainOp, usize),
    /// Continues with the choice whose condition is the last value.
    Choose(usize),
    /// Ends the innermost frame; the frame before it began at this place.
    Return(usize),
    /// Shortens the frames to this length.
    Unbind(usize),
    /// Keeps the last value, as that of the closed node.
    Keep(usize),
}

/// The task that leaves the value of a part of a node; an open value where the part's number is too large.
#[inline(always)]
pub(crate) fn task_of(number: usize, part: Part) -> Task
    ensures { result ≡ part_task number (number_of part) }
{
    let part = part.shift.saturating_add(part.id.number());
    if part < number {
        Task::Visit(part)
    } else {
        Task::Open
    }
}
