//! Parts of a node, by their numbers in its table. This file knows no table.

ghost use Rattle.std.specs.Prelude.{◌≡◌, None, Some, if◌then◌else◌, nat_lt};
ghost use Rattle.smt_machine.specs.Internal.Parts.{number_of};

use smt_nodes::TermId;

/// A node by its number in a table; its number in both tables is `shift` higher.
#[derive(Clone, Copy)]
pub(crate) struct Part {
    pub(crate) id: TermId,
    pub(crate) shift: usize,
}

impl Part {
    /// The number in both tables, if it is below that of another node.
    #[inline(always)]
    pub(crate) fn below(self, number: usize) -> Option<usize>
        ensures { result ≡ (if nat_lt (number_of self) number then Some (number_of self) else None) }
    {
        let part = self.shift.saturating_add(self.id.number());
        if part < number { Some(part) } else { None }
    }
}

/// Nodes by their numbers in a table; their numbers in both tables are `shift` higher.
#[derive(Clone, Copy)]
pub(crate) struct Parts<'a> {
    pub(crate) ids: &'a [TermId],
    pub(crate) shift: usize,
}
