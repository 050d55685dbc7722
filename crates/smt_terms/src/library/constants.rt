//! Constant arrays: `((as const o) t)` is the array of the sort o whose elements are all t. No standard has them, but
//! solvers print them. This file knows no items.

ghost use Rattle.std.specs.Prelude.{◌≡◌, ◌≤◌, IfOk, length};
ghost use Rattle.smt_trees.specs.View.{sexp_of};
ghost use Rattle.smt_faults.specs.Outcome.{IsOutcome};
ghost use Rattle.smt_forms.specs.Identifier.{Qualified};
ghost use Rattle.smt_terms.specs.Checking as checking;
ghost use Rattle.smt_terms.specs.Elements as elements;
ghost use Rattle.smt_terms.specs.Internal.DraftView.{argument_sorts, sorts_from, terms_from};
ghost use Rattle.smt_terms.specs.Internal.LibraryView.{constant_sorts_of, names_of_library};
ghost use Rattle.smt_terms.specs.Internal.NodesView.{AddsApplied, GrowsTo};
ghost use Rattle.smt_terms.specs.SortTrees.{sort_named};

use crate::library::Library;
use crate::library::draft::{CheckedTerm, Draft};
use crate::sorts::SortNames;
use smt_faults::TermFault;
use smt_theory::{ArraysOp, Op, Sort};
use smt_trees::Tree;

impl Library<'_> {
    // The sort and the node of the constant array of this sort, whose element waits as the argument from this one on.
    #[inline(never)]
    pub(super) fn sort_of_constant(
        &self,
        draft: &mut Draft<'_>,
        sort: Tree<'_>,
        start: usize,
        is_open: bool,
        around: u32,
    ) -> Result<CheckedTerm, TermFault>
        requires { start ≤ length (argument_sorts draft.old.arguments) }
        ensures sort { IsOutcome (λ c. c.sort) (checking.sort_applied (names_of_library self.now)
            (Qualified (sexp_of sort.entry)) (sorts_from start draft.old.arguments)) result }
        ensures open { IfOk result (λ c. c.is_open ≡ is_open) }
        ensures added { IfOk result (AddsApplied self.now draft.old draft.new around (Qualified (sexp_of sort.entry))
            (sorts_from start draft.old.arguments) (terms_from start draft.old.arguments)) }
        ensures longer { GrowsTo draft.old draft.new }
        ensures scope { draft.new.scope ≡ draft.old.scope }
        ensures base { draft.new.base ≡ draft.old.base }
        ensures labels { draft.new.labels ≡ draft.old.labels }
        ensures arguments { draft.new.arguments ≡ draft.old.arguments }
    {
        let op = self.constant_op(sort)?;
        self.sort_of_indexed(draft, Ok(op), start, is_open, around)
    }

    // The operator `(as const sort)`, or the first fault of its sort.
    pub(super) fn constant_op(&self, sort: Tree<'_>) -> Result<Op, TermFault>
        ensures { IsOutcome (λ op. op) (elements.constant_op (names_of_library self.now).theories
            (names_of_library self.now).elements (sexp_of sort.entry)) result }
    {
        let sort = self.constant_sort(sort)?;
        Ok(Op::Arrays(ArraysOp::Const(sort)))
    }

    // The sort that is named behind a `const`: by the theories alone, or in a model also by the names of the script's
    // sorts.
    fn constant_sort(&self, tree: Tree<'_>) -> Result<Sort, TermFault>
        ensures { IsOutcome (λ sort. sort) (sort_named (constant_sorts_of self.now) (sexp_of tree.entry)) result }
    {
        let theories = self.sorts.theories;
        match &self.elements {
            Some(elements) => elements.sorts.sort_under(self.alloc, theories, tree),
            None => SortNames::new(self.alloc, theories).sort_of(self.alloc, tree),
        }
    }
}
