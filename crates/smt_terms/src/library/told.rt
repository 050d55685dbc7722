//! Items of models that tell which elements declared sorts have. This file adds no name, and knows no bodies.

ghost use Rattle.std.specs.Prelude.{◌≡◌, Err, Option, Some, None, MatchOption, Result, true};
ghost use Rattle.smt_trees.specs.Sexp.{Cons, Items};
ghost use Rattle.smt_trees.specs.View.{sexp_of, sexps_of};
ghost use Rattle.smt_faults.specs.Outcome.{IsOutcome};
ghost use Rattle.smt_faults.specs.declared.term_flaw.TermFlaw.{TermFlaw};
ghost use Rattle.smt_faults.specs.declared.term_flaw.TermFlaw.TheVariants.{Form};
ghost use Rattle.smt_terms.specs.Elements.{element_sort};
ghost use Rattle.smt_theory.specs.Words.{result_and_then};
ghost use Rattle.smt_terms.specs.Internal.LibraryView.{sort_names};
ghost use Rattle.smt_terms.specs.Items.{declared_item, element_told, told_in, told_item, told_sort};
ghost use Rattle.smt_terms.specs.SortTrees.{sort_named};
ghost use Rattle.smt_terms.specs.Library.{StandsFor};
ghost use Rattle.smt_terms.specs.Signature.{Entry, Signature, sort_names_of};

use crate::library::Library;
use crate::sorts::are_equal;
use smt_faults::TermFault;
use smt_theory::Sort;
use smt_trees::{Tree, Trees, Word};

impl Library<'_> {
    // In the wide profile, what comes of an item that tells which elements a declared sort has; `None` of other items.
    pub(super) fn told(&self, item: Tree<'_>) -> Option<Result<(), TermFault>>
        ensures { (s : Signature) → StandsFor self.now s
            → MatchOption result (told_item s (sexp_of item.entry) ≡ None)
            (λ told. (r : Result (Option Entry) TermFlaw) × (told_item s (sexp_of item.entry) ≡ Some r)
            × IsOutcome (λ _. None) r told) }
    {
        if self.is_wide() {
            self.told_in(item)
        } else {
            None
        }
    }

    // The same, whatever the profile is.
    fn told_in(&self, item: Tree<'_>) -> Option<Result<(), TermFault>>
        ensures { (s : Signature) → StandsFor self.now s → s.theories.wide ≡ true
            → MatchOption result (told_in s (sexp_of item.entry) ≡ None)
            (λ told. (r : Result (Option Entry) TermFlaw) × (told_in s (sexp_of item.entry) ≡ Some r)
            × IsOutcome (λ _. None) r told) }
    {
        let Tree::List(parts) = item else {
            return None;
        };
        let Some((Tree::Reserved(word), rest)) = parts.split_first() else {
            return None;
        };
        match word {
            Word::Forall | Word::DeclareSort => Some(Ok(())),
            Word::DeclareFun => Some(self.check_declared(rest)),
            _ => None,
        }
    }

    // Checks `(declare-fun x () sort)`, from the parts after its first word: x has to have the form of the names of
    // the sort's elements, and be none that this library has.
    fn check_declared(&self, parts: Trees<'_>) -> Result<(), TermFault>
        ensures { (s : Signature) → StandsFor self.now s → s.theories.wide ≡ true
            → IsOutcome (λ _. None) (declared_item s (sexps_of parts.entry)) result }
    {
        let Some((name, tree)) = constant_parts(parts) else {
            return Err(TermFault::Form);
        };
        let Some(element) = self.sorts.element_sort(name) else {
            return Err(TermFault::Form);
        };
        if self.has_entry(name) {
            return Err(TermFault::NotFresh);
        }
        self.check_element_sort(element, tree)
    }

    // Checks that the sort of a tree is that of an element.
    fn check_element_sort(&self, element: Sort, tree: Tree<'_>) -> Result<(), TermFault>
        ensures { IsOutcome (λ _. None) (result_and_then (sort_named (sort_names self.now.sorts) (sexp_of tree.entry))
            (told_sort element)) result }
    {
        let sort = self.sorts.sort_of(self.alloc, tree)?;
        if !are_equal(element, sort) {
            return Err(TermFault::IllSorted);
        }
        Ok(())
    }
}

// The name and the tree of the sort of a constant that an item declares.
pub(super) fn declared_parts<'a>(item: Tree<'a>) -> Option<(&'a [u8], Tree<'a>)> {
    let Tree::List(parts) = item else {
        return None;
    };
    match parts.split_first() {
        Some((Tree::Reserved(Word::DeclareFun), rest)) => constant_parts(rest),
        _ => None,
    }
}

// The name and the tree of the sort of a constant that is declared, from the parts after the first word.
fn constant_parts<'a>(parts: Trees<'a>) -> Option<(&'a [u8], Tree<'a>)>
    ensures { (s : Signature) → MatchOption result (declared_item s (sexps_of parts.entry) ≡ Err Form)
        (λ p. declared_item s (sexps_of parts.entry)
        ≡ element_told s p.0.now (element_sort (sort_names_of s) p.0.now) (sexp_of p.1)) }
{
    let Some((Tree::Symbol(name), rest)) = parts.split_first() else {
        return None;
    };
    let Some((Tree::List(parameters), rest)) = rest.split_first() else {
        return None;
    };
    let Some((sort, rest)) = rest.split_first() else {
        return None;
    };
    if parameters.split_first().is_some() || rest.split_first().is_some() {
        return None;
    }
    Some((name, sort))
}
