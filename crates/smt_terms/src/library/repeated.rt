//! Items of models that repeat a definition of the script. This file adds no name, and knows no bodies.

ghost use Rattle.std.specs.Prelude.{◌≡◌, None, Ok, OnOk, IfErr, IfOk, map};
ghost use Rattle.smt_forms.specs.ItemView.{item_view};
ghost use Rattle.smt_forms.specs.ScopeView.{scope_view};
ghost use Rattle.smt_terms.specs.Items.{has_rank_of, is_defined_in, is_set_aside, repeated_in};
ghost use Rattle.smt_terms.specs.Library.{StandsFor};
ghost use Rattle.smt_terms.specs.Signature.{Signature, entry_named};
ghost use Rattle.smt_faults.specs.Outcome.{Tells};

use crate::library::Library;
use crate::library::items::has_rank;
use crate::library::params::{sorted_params_of, sorts_of_variables};
use smt_faults::{Memory, TermFault};
use smt_forms::{ItemForm, Variable};
use smt_theory::Sort;

impl Library<'_> {
    // Whether items of this name are set aside: the profile is wide, and a definition or a label has the name, which
    // has not the form of an element's.
    pub(super) fn sets_aside(&self, name: &[u8]) -> bool
        ensures { (s : Signature) → StandsFor self.now s → result ≡ is_set_aside s name.now }
    {
        self.is_wide() && self.is_defined(name) && !self.is_element_name(name)
    }

    // Whether the profile is the wide one.
    pub(super) fn is_wide(&self) -> bool
        ensures { (s : Signature) → StandsFor self.now s → result ≡ s.theories.wide }
    {
        self.theories().wide
    }

    // Whether the name is that of a definition or a label.
    fn is_defined(&self, name: &[u8]) -> bool
        ensures { (s : Signature) → StandsFor self.now s → result ≡ is_defined_in s name.now }
    {
        self.has_entry(name) && !self.is_declared(name)
    }

    // Checks an item with these parts against the definition that it repeats.
    pub(super) fn check_repeated(&self, form: ItemForm<'_>) -> Result<(), TermFault>
        ensures repeated { OnOk result ((s : Signature) → StandsFor self.now s
            → repeated_in s (item_view form.entry) ≡ Ok None) }
        ensures refused { IfErr result (λ fault. (s : Signature) → StandsFor self.now s
            → Tells (repeated_in s (item_view form.entry)) fault) }
    {
        let parameters = sorted_params_of(self.alloc, &self.sorts, form.parameters)?;
        let sort = self.sorts.sort_of(self.alloc, form.sort)?;
        if !self.repeats_rank(form.name, parameters.as_slice(), sort)? {
            return Err(TermFault::IllSorted);
        }
        Ok(())
    }

    // Whether the name has the rank of these parameters and this sort; true of a name that is not in the library.
    fn repeats_rank(
        &self,
        name: &[u8],
        parameters: &[Variable<'_, Sort>],
        sort: Sort,
    ) -> Result<bool, Memory>
        ensures { IfOk result (λ kept. (s : Signature) → StandsFor self.now s
            → kept ≡ has_rank_of (entry_named s.entries name.now)
            (map (λ p. p.1) (scope_view parameters.now)) sort) }
    {
        let sorts = sorts_of_variables(self.alloc, parameters)?;
        Ok(self.has_this_rank(name, sorts.as_slice(), sort))
    }

    // Whether the name has this rank; true of a name that is not in the library.
    fn has_this_rank(&self, name: &[u8], parameters: &[Sort], sort: Sort) -> bool
        ensures { (s : Signature) → StandsFor self.now s
            → result ≡ has_rank_of (entry_named s.entries name.now) parameters.now sort }
    {
        match self.get(name) {
            Some(entry) => has_rank(entry, parameters, sort),
            None => true,
        }
    }
}
