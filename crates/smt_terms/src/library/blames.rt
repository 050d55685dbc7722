//! What is to blame for a term that is refused. The term is checked once more, and the part at which the walk over it
//! stops is asked. This file adds no name to a library, and knows no items.

ghost use Rattle.std.specs.Prelude.{◌≡◌, [], IfOk, IfSome, Ok, Some, false};
ghost use Rattle.smt_theory.specs.Sort.{is_same_sort};
ghost use Rattle.smt_theory.specs.Sort as theory;
ghost use Rattle.smt_terms.specs.declared.blame.Blame.TheVariants.{Whole};
ghost use Rattle.smt_trees.specs.Sexp.{Items};
ghost use Rattle.smt_trees.specs.View.{sexp_of, sexps_of};
ghost use Rattle.smt_faults.specs.declared.term_fault.TermFault.TheVariants as fault_of;
ghost use Rattle.smt_theory.specs.Sort.{Boolean};
ghost use Rattle.smt_forms.specs.ScopeView.{scope_view};
ghost use Rattle.smt_terms.specs.Checking.{sort_in};
ghost use Rattle.smt_terms.specs.Blame.{IsBlamed, IsFirstTold, IsToldOver, IsToldWhole, whole_blame};
ghost use Rattle.smt_terms.specs.Internal.Blamed.{IsTold, IsToldAsChecked};
ghost use Rattle.smt_terms.specs.Internal.DraftView.{IsPlaced, seen_by, sorts_seen};
ghost use Rattle.smt_terms.specs.Internal.LabelsView.{labels_view};
ghost use Rattle.smt_terms.specs.Internal.LibraryView.{names_for, names_of_library};
ghost use Rattle.smt_terms.specs.Library.{StandsFor};
ghost use Rattle.smt_terms.specs.Signature.{Names, Signature, in_assertion, names_of};
ghost use Rattle.smt_terms.specs.SortTrees.{SortNames};

use crate::blame::Blame;
use crate::labels::Labels;
use crate::library::Library;
use crate::library::arguments::Arguments;
use crate::library::draft::{CheckedTerm, Draft};
use crate::library::frames::Frame;
use crate::library::stops::stop_of;
use crate::sorts::are_equal;
use smt_faults::{Memory, TermFault};
use smt_forms::Variable;
use smt_nodes::Nodes;
use smt_theory::Sort;
use smt_trees::{Tree, Trees};

impl Library<'_> {
    /// What is to blame for the fault of a term, where `assert` refuses it; `None` where it has no fault, or one of
    /// another kind than F3, F4, F6 and F7. It is the first such part or name, in the order in which `assert` looks at
    /// them, and the time is in proportion to the term.
    ///
    /// The only error is want of memory.
    pub fn blame_of_assertion<'t>(&self, term: Tree<'t>) -> Result<Option<Blame<'t>>, Memory>
        ensures told { (s : Signature) → StandsFor self.now s → IfOk result (IsToldOver s) }
        ensures whole { (s : Signature) → StandsFor self.now s
            → IsToldWhole Boolean (sort_in (in_assertion (names_of s)) [] (sexp_of term.entry)) result }
    {
        self.blame_of_term(&[], Labels::new(self.alloc), term, Sort::bool())
    }

    /// The same of terms that are assumed, each of which has to be a formula without labels: what is to blame for the
    /// fault of the first one that has one.
    pub fn blame_of_assumptions<'t>(&self, terms: Trees<'t>) -> Result<Option<Blame<'t>>, Memory>
        ensures told { (s : Signature) → StandsFor self.now s → IfOk result (IsToldOver s) }
        ensures first { (s : Signature) → StandsFor self.now s
            → IsFirstTold (names_of s) (sexps_of terms.entry) result }
    {
        self.blame_in_assumptions(terms)
    }

    fn blame_in_assumptions<'t>(&self, terms: Trees<'t>) -> Result<Option<Blame<'t>>, Memory>
        ensures told { IfOk result (IsTold self.now) }
        ensures first { IsFirstTold (names_of_library self.now) (sexps_of terms.entry) result }
    {
        let Some((first, _)) = terms.split_first() else {
            return Ok(None);
        };
        self.blame_from(first, terms)
    }

    // The same of terms that begin with this one.
    fn blame_from<'t>(&self, first: Tree<'t>, terms: Trees<'t>) -> Result<Option<Blame<'t>>, Memory>
        ensures told { IfOk result (IsTold self.now) }
        ensures first { (sort : theory.Sort) → sort_in (names_of_library self.now) [] (sexp_of first.entry) ≡ Ok sort
            → is_same_sort sort Boolean ≡ false → IfOk result (λ found. found ≡ Some (Whole sort Boolean)) }
    {
        match self.blame_of_term(&[], Labels::refused(self.alloc), first, Sort::bool()) {
            Ok(None) => self.blame_among(terms),
            Ok(Some(blame)) => Ok(Some(blame)),
            Err(Memory) => Err(Memory),
        }
    }

    // The same of the first term that is refused.
    fn blame_among<'t>(&self, terms: Trees<'t>) -> Result<Option<Blame<'t>>, Memory>
        ensures { IfOk result (IsTold self.now) }
    {
        match self.first_refused(terms) {
            Ok(Some(term)) => {
                self.blame_of_term(&[], Labels::refused(self.alloc), term, Sort::bool())
            }
            Ok(None) => Ok(None),
            Err(Memory) => Err(Memory),
        }
    }

    // The first of these terms that is no formula without labels.
    fn first_refused<'t>(&self, terms: Trees<'t>) -> Result<Option<Tree<'t>>, Memory> {
        let mut left = terms;
        while let Some((term, rest)) = left.split_first() {
            if !self.is_formula(term)? {
                return Ok(Some(term));
            }
            left = rest;
        }
        Ok(None)
    }

    // Whether a term is a formula without labels.
    fn is_formula(&self, term: Tree<'_>) -> Result<bool, Memory> {
        let mut draft = self.draft(Labels::refused(self.alloc));
        is_bool(self.check_over(&mut draft, &[], term))
    }

    // A draft without variables, with these labels.
    fn draft<'t>(&self, labels: Labels<'t>) -> Draft<'t>
        ensures none { seen_by result ≡ [] }
        ensures base { result.base ≡ 0 }
        ensures labels { result.labels ≡ labels.entry }
    {
        let nodes = Nodes::new(self.alloc);
        Draft::new(self.alloc, labels, nodes, Arguments::new(self.alloc))
    }

    // The same of a term over the names and these variables, which has to be of a sort.
    pub(super) fn blame_of_term<'t>(
        &self,
        variables: &[Variable<'t, Sort>],
        labels: Labels<'t>,
        term: Tree<'t>,
        wanted: Sort,
    ) -> Result<Option<Blame<'t>>, Memory>
        ensures told { IfOk result (IsTold self.now) }
        ensures whole { IsToldWhole wanted (sort_in (names_for self.now (labels_view labels.entry))
            (scope_view variables.now) (sexp_of term.entry)) result }
    {
        let mut draft = self.draft(labels);
        self.blame_over(&mut draft, variables, term, wanted)
    }

    // The same with a draft that has no variables before.
    fn blame_over<'t>(
        &self,
        draft: &mut Draft<'t>,
        variables: &[Variable<'t, Sort>],
        term: Tree<'t>,
        wanted: Sort,
    ) -> Result<Option<Blame<'t>>, Memory>
        requires none { seen_by draft.old ≡ [] }
        requires base { draft.old.base ≡ 0 }
        ensures told { IfOk result (IsTold self.now) }
        ensures whole { IsToldWhole wanted (sort_in (names_for self.now (labels_view draft.old.labels))
            (scope_view variables.now) (sexp_of term.entry)) result }
    {
        draft.bind(variables)?;
        match term {
            Tree::List(whole) => self.blame_of_walk(draft, whole, wanted),
            _ => self.blame_of_whole_atom(draft, term, wanted),
        }
    }

    // The same of a term that is no list.
    fn blame_of_whole_atom<'t>(
        &self,
        draft: &mut Draft<'t>,
        term: Tree<'t>,
        wanted: Sort,
    ) -> Result<Option<Blame<'t>>, Memory>
        requires { IsPlaced (seen_by draft.old) draft.old.base }
        ensures told { IfOk result (IsTold self.now) }
        ensures whole { IsToldWhole wanted (sort_in (names_for self.now (labels_view draft.old.labels))
            (sorts_seen draft.old) (sexp_of term.entry)) result }
    {
        let checked = self.sort_of(draft, term, 0);
        self.blame_of_checked_atom(term, checked, wanted)
    }

    // The same of a term that is no list, of which this is found.
    fn blame_of_checked_atom<'t>(
        &self,
        term: Tree<'t>,
        checked: Result<CheckedTerm, TermFault>,
        wanted: Sort,
    ) -> Result<Option<Blame<'t>>, Memory>
        ensures told { IfOk result (IsTold self.now) }
        ensures whole { IsToldAsChecked wanted checked result }
    {
        match checked {
            Ok(checked) => Ok(other_sort(&checked.sort, &wanted)),
            Err(fault) => self.blame_of_atom_at(term, fault),
        }
    }

    // The same where this is its fault.
    fn blame_of_atom_at<'t>(
        &self,
        term: Tree<'t>,
        fault: TermFault,
    ) -> Result<Option<Blame<'t>>, Memory>
        ensures told { IfOk result (IsTold self.now) }
        ensures memory { fault ≡ fault_of.Memory → IfOk result (λ _. ⊥) }
    {
        match fault {
            TermFault::Memory => Err(Memory),
            TermFault::Unknown | TermFault::IllSorted => self.blame_of_atom(term),
            TermFault::BoundTwice
            | TermFault::NotFresh
            | TermFault::Form
            | TermFault::Unsupported
            | TermFault::Index
            | TermFault::Label => Ok(None),
        }
    }

    // The same of a term that is a list of these parts.
    fn blame_of_walk<'t>(
        &self,
        draft: &mut Draft<'t>,
        whole: Trees<'t>,
        wanted: Sort,
    ) -> Result<Option<Blame<'t>>, Memory>
        requires { IsPlaced (seen_by draft.old) draft.old.base }
        ensures told { IfOk result (IsTold self.now) }
        ensures whole { IsToldWhole wanted (sort_in (names_for self.now (labels_view draft.old.labels))
            (sorts_seen draft.old) (Items (sexps_of whole.entry))) result }
    {
        let mut frames = Vec::new(self.alloc);
        let checked = self.walk(draft, &mut frames, whole, 0);
        self.blame_of_checked(draft, whole, frames.as_slice(), checked, wanted)
    }

    // The same where the walk found this.
    fn blame_of_checked<'t>(
        &self,
        draft: &Draft<'t>,
        whole: Trees<'t>,
        frames: &[Frame],
        checked: Result<CheckedTerm, TermFault>,
        wanted: Sort,
    ) -> Result<Option<Blame<'t>>, Memory>
        ensures told { IfOk result (IsTold self.now) }
        ensures whole { IsToldAsChecked wanted checked result }
    {
        match checked {
            Ok(checked) => Ok(other_sort(&checked.sort, &wanted)),
            Err(fault) => self.blame_of_stop(draft, whole, frames, fault),
        }
    }

    // The same where the walk stopped at this fault.
    fn blame_of_stop<'t>(
        &self,
        draft: &Draft<'t>,
        whole: Trees<'t>,
        frames: &[Frame],
        fault: TermFault,
    ) -> Result<Option<Blame<'t>>, Memory>
        ensures told { IfOk result (IsTold self.now) }
        ensures memory { fault ≡ fault_of.Memory → IfOk result (λ _. ⊥) }
    {
        match fault {
            TermFault::Memory => Err(Memory),
            TermFault::Unknown
            | TermFault::IllSorted
            | TermFault::BoundTwice
            | TermFault::NotFresh => self.blame_at(draft, stop_of(whole, frames)),
            TermFault::Form | TermFault::Unsupported | TermFault::Index | TermFault::Label => {
                Ok(None)
            }
        }
    }

    // The same where the walk stopped in this part, and so many arguments wait of the parts around it.
    fn blame_at<'t>(
        &self,
        draft: &Draft<'t>,
        stop: Option<(Tree<'t>, usize)>,
    ) -> Result<Option<Blame<'t>>, Memory>
        ensures { IfOk result (IsTold self.now) }
    {
        match stop {
            Some((part, around)) => self.blame_of_part(draft, part, around),
            None => Ok(None),
        }
    }
}

// Whether a term of which this is found is a formula.
fn is_bool(checked: Result<CheckedTerm, TermFault>) -> Result<bool, Memory> {
    match checked {
        Ok(checked) => Ok(are_equal(checked.sort, Sort::bool())),
        Err(TermFault::Memory) => Err(Memory),
        Err(_) => Ok(false),
    }
}

// The blame of a term as a whole, where it is of another sort than is wanted.
pub(super) fn other_sort(found: &Sort, wanted: &Sort) -> Option<Blame<'static>>
    ensures told { (names : Names) (sorts : SortNames) → IfSome result (IsBlamed names sorts) }
    ensures whole { result ≡ whole_blame found.now wanted.now }
{
    if are_equal(*found, *wanted) {
        None
    } else {
        Some(Blame::Whole {
            found: *found,
            wanted: *wanted,
        })
    }
}
