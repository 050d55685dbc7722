//! What is to blame for an item of a model that is refused. This file adds no name to a library, and does not know
//! which names a model lacks.

ghost use Rattle.std.specs.Prelude.{◌≡◌, ℕ, List, IfOk, IfSome, Some, false, true};
ghost use Rattle.smt_theory.specs.declared.misfits.RankFlaw.TheVariants.{Argument};
ghost use Rattle.smt_terms.specs.Blame as blame;
ghost use Rattle.smt_trees.specs.View.{sexp_of};
ghost use Rattle.smt_terms.specs.Blame.{IsBlamed, IsToldOf, IsToldTwice, IsTwice};
ghost use Rattle.smt_terms.specs.Freshness.{is_defined_before};
ghost use Rattle.smt_terms.specs.Items.{is_set_aside};
ghost use Rattle.smt_terms.specs.Internal.Blamed.{IsTold};
ghost use Rattle.smt_terms.specs.Internal.Blamed as internal;
ghost use Rattle.smt_terms.specs.Internal.LibraryView.{names_of_library, rank_of};
ghost use Rattle.smt_theory.specs.Words.{look_up};
ghost use Rattle.smt_terms.specs.Library.{StandsFor};
ghost use Rattle.smt_terms.specs.Signature.{Names, Rank, Signature};
ghost use Rattle.smt_terms.specs.SortTrees.{SortNames};

use crate::blame::Blame;
use crate::labels::Labels;
use crate::library::blamed_names::in_use;
use crate::library::blamed_parts::parameter_flaw;
use crate::library::blames::other_sort;
use crate::library::params::{sorted_params, sorts_of_variables};
use crate::library::told::declared_parts;
use crate::library::{Entry, Found, Library};
use crate::sorts::are_equal;
use smt_faults::{Memory, TermFault};
use smt_forms::{ItemForm, Variable, item_form, params_of};
use smt_theory::{RankFlaw, Sort, Wanted};
use smt_trees::Tree;

impl Library<'_> {
    /// What is to blame for the fault of an item of a model of the script's names, where `define_item` refuses it
    /// behind the items of this library; `None` where it has no fault, or one of another kind than F3, F4, F6 and F7.
    /// It is the first such name or part, in the order in which `define_item` looks at them, and the time is in
    /// proportion to the item.
    ///
    /// The only error is want of memory.
    pub fn blame_of_item<'t>(
        &self,
        script: &Library<'_>,
        item: Tree<'t>,
    ) -> Result<Option<Blame<'t>>, Memory>
        ensures told { (s m : Signature) → StandsFor script.now s → StandsFor self.now m → IfOk result (IsToldOf s m) }
        ensures twice { (s m : Signature) → StandsFor script.now s → StandsFor self.now m
            → IsToldTwice s m (sexp_of item.entry) result }
    {
        self.blame_in_item(script, item)
    }

    fn blame_in_item<'t>(
        &self,
        script: &Library<'_>,
        item: Tree<'t>,
    ) -> Result<Option<Blame<'t>>, Memory>
        ensures told { IfOk result (internal.IsToldOf script.now self.now) }
        ensures twice { (s m : Signature) → StandsFor script.now s → StandsFor self.now m
            → IsToldTwice s m (sexp_of item.entry) result }
    {
        if script.told(item).is_some() {
            return Ok(script.blame_of_told(item));
        }
        match item_form(item) {
            Ok(form) => self.blame_of_item_form(script, form),
            Err(_) => Ok(None),
        }
    }

    // The same of an item of this form.
    fn blame_of_item_form<'t>(
        &self,
        script: &Library<'_>,
        form: ItemForm<'t>,
    ) -> Result<Option<Blame<'t>>, Memory>
        ensures told { IfOk result (internal.IsToldOf script.now self.now) }
        ensures twice { (s m : Signature) → StandsFor script.now s → StandsFor self.now m
            → is_set_aside s form.entry.name.now ≡ false → is_defined_before m.entries form.entry.name.now ≡ true
            → IfOk result (IsTwice form.entry.name.now) }
    {
        if script.sets_aside(form.name) {
            return script.blame_of_repeated(form);
        }
        if self.has_entry(form.name) {
            return Ok(Some(Blame::Twice { name: form.name }));
        }
        if script.is_unfit(form.name) {
            return Ok(script.blame_of_item_name(form.name));
        }
        self.blame_of_new_item(script, form)
    }

    // The same of an item that repeats a definition of this script: it has to have its rank.
    fn blame_of_repeated<'t>(&self, form: ItemForm<'t>) -> Result<Option<Blame<'t>>, Memory>
        ensures { IfOk result (IsTold self.now) }
    {
        let params = params_of(self.alloc, form.parameters)?;
        match sorted_params(self.alloc, &self.sorts, params.as_slice()) {
            Ok(variables) => self.blame_of_repeated_rank(form, variables.as_slice()),
            Err(TermFault::Memory) => Err(Memory),
            Err(_) => self.blame_of_params(params.as_slice()),
        }
    }

    // The same, with these parameters.
    fn blame_of_repeated_rank<'t>(
        &self,
        form: ItemForm<'t>,
        variables: &[Variable<'t, Sort>],
    ) -> Result<Option<Blame<'t>>, Memory>
        ensures { IfOk result (IsTold self.now) }
    {
        match self.sorts.sort_of(self.alloc, form.sort) {
            Ok(sort) => self.blame_of_rank(form.name, variables, &sort, true),
            Err(TermFault::Memory) => Err(Memory),
            Err(_) => Ok(self.blame_of_sort(form.sort)),
        }
    }

    // The same of an item whose name may be defined.
    fn blame_of_new_item<'t>(
        &self,
        script: &Library<'_>,
        form: ItemForm<'t>,
    ) -> Result<Option<Blame<'t>>, Memory>
        ensures { IfOk result (internal.IsToldOf script.now self.now) }
    {
        let params = params_of(self.alloc, form.parameters)?;
        match sorted_params(self.alloc, &script.sorts, params.as_slice()) {
            Ok(variables) => self.blame_of_sorted_item(script, form, variables.as_slice()),
            Err(TermFault::Memory) => Err(Memory),
            Err(_) => script.blame_of_params(params.as_slice()),
        }
    }

    // The same, with these parameters.
    fn blame_of_sorted_item<'t>(
        &self,
        script: &Library<'_>,
        form: ItemForm<'t>,
        variables: &[Variable<'t, Sort>],
    ) -> Result<Option<Blame<'t>>, Memory>
        ensures { IfOk result (internal.IsToldOf script.now self.now) }
    {
        match script.sorts.sort_of(self.alloc, form.sort) {
            Ok(sort) => self.blame_of_ranked_item(script, form, variables, sort),
            Err(TermFault::Memory) => Err(Memory),
            Err(_) => Ok(script.blame_of_sort(form.sort)),
        }
    }

    // The same, with this sort: its rank, or its body.
    fn blame_of_ranked_item<'t>(
        &self,
        script: &Library<'_>,
        form: ItemForm<'t>,
        variables: &[Variable<'t, Sort>],
        sort: Sort,
    ) -> Result<Option<Blame<'t>>, Memory>
        ensures { IfOk result (internal.IsToldOf script.now self.now) }
    {
        match script.blame_of_rank(form.name, variables, &sort, false) {
            Ok(None) => {
                self.blame_of_term(variables, Labels::refused(self.alloc), form.body, sort)
            }
            Ok(Some(blame)) => Ok(Some(blame)),
            Err(Memory) => Err(Memory),
        }
    }

    // What is to blame in this script for an item's name that no item may have.
    fn blame_of_item_name<'t>(&self, name: &'t [u8]) -> Option<Blame<'t>>
        ensures { IsTold self.now result }
    {
        if self.is_element_name(name) {
            in_use(name, true)
        } else {
            self.blame_of_name(name)
        }
    }

    // What is to blame in this script for the rank of an item. It has to be that of its name, if a command declared it,
    // or if the item repeats its definition.
    fn blame_of_rank<'t>(
        &self,
        name: &'t [u8],
        variables: &[Variable<'t, Sort>],
        sort: &Sort,
        repeats: bool,
    ) -> Result<Option<Blame<'t>>, Memory>
        ensures { IfOk result (IsTold self.now) }
    {
        let Some(entry) = self.entry_to_fit(name, repeats) else {
            return Ok(None);
        };
        let sorts = sorts_of_variables(self.alloc, variables)?;
        Ok(other_rank(entry, sorts.as_slice(), sort))
    }

    // What a name means, if a command declared it, or if an item repeats its definition.
    fn entry_to_fit(&self, name: &[u8], repeats: bool) -> Option<&Entry>
        ensures { IfSome result
            (λ e. look_up (names_of_library self.now).ranks name.now ≡ Some (rank_of e.now)) }
    {
        let Some(entry) = self.get(name) else {
            return None;
        };
        match entry.place {
            Found::Declared(_) => Some(entry),
            Found::Defined(_) => { if repeats { Some(entry) } else { None } }
        }
    }

    // What is to blame in this script for an item that tells which elements a declared sort has.
    fn blame_of_told<'t>(&self, item: Tree<'t>) -> Option<Blame<'t>>
        ensures { IsTold self.now result }
    {
        let Some((name, tree)) = declared_parts(item) else {
            return None;
        };
        let Some(element) = self.sorts.element_sort(name) else {
            return None;
        };
        if self.has_entry(name) {
            self.blame_of_name(name)
        } else {
            self.blame_unless_sort(tree, &element)
        }
    }

    // The same of the tree of a sort that has to be this one.
    fn blame_unless_sort<'t>(&self, tree: Tree<'t>, wanted: &Sort) -> Option<Blame<'t>>
        ensures { IsTold self.now result }
    {
        match self.sorts.sort_of(self.alloc, tree) {
            Ok(sort) => other_sort(&sort, wanted),
            Err(_) => self.blame_of_sort(tree),
        }
    }
}

// The blame of parameters and a result of these sorts, where a name has another rank.
fn other_rank(entry: &Entry, sorts: &[Sort], sort: &Sort) -> Option<Blame<'static>>
    ensures { (names : Names) (sort_names : SortNames) (x : List ℕ)
        → look_up names.ranks x ≡ Some (rank_of entry.now) → IfSome result (IsBlamed names sort_names) }
{
    match parameter_flaw(entry.parameters.as_slice(), sorts) {
        Some(RankFlaw::Argument { place, wanted }) => other_parameter(sorts, place, wanted),
        Some(RankFlaw::Count { wanted }) => Some(Blame::Parameters {
            given: sorts.len() as u64,
            wanted: wanted as u64,
        }),
        Some(RankFlaw::Widths) => None,
        None => other_result(entry, sort),
    }
}

fn other_result(entry: &Entry, found: &Sort) -> Option<Blame<'static>>
    ensures { (names : Names) (sort_names : SortNames) (x : List ℕ)
        → look_up names.ranks x ≡ Some (rank_of entry.now) → IfSome result (IsBlamed names sort_names) }
{
    if are_equal(*found, entry.sort) {
        None
    } else {
        Some(Blame::Outcome {
            found: *found,
            wanted: entry.sort,
        })
    }
}

fn other_parameter(sorts: &[Sort], place: usize, wanted: Wanted) -> Option<Blame<'static>>
    ensures { (names : Names) (sort_names : SortNames) (x : List ℕ) (rank : Rank)
        → look_up names.ranks x ≡ Some rank
        → blame.parameter_flaw rank.parameters sorts.now ≡ Some (Argument place wanted)
        → IfSome result (IsBlamed names sort_names) }
{
    let Wanted::Only(wanted) = wanted else {
        return None;
    };
    let Some(found) = sorts.get(place) else {
        return None;
    };
    let Some(number) = (place as u64).checked_add(1) else {
        return None;
    };
    Some(Blame::Parameter {
        place: number,
        found: *found,
        wanted,
    })
}
