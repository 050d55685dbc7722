//! What is to blame for a declaration, a definition or a name of a sort that is refused. This file knows no items, and
//! adds no name to a library.

ghost use Rattle.std.specs.Prelude.{◌≡◌, IfOk, IfSome, Ok, Some, true};
ghost use Rattle.smt_terms.specs.Blame.{IsToldOver};
ghost use Rattle.smt_terms.specs.Freshness.{is_sort_taken, is_taken};
ghost use Rattle.smt_terms.specs.Internal.Blamed.{IsTold};
ghost use Rattle.smt_terms.specs.Internal.LibraryView.{names_of_library, sort_names};
ghost use Rattle.smt_terms.specs.Library.{StandsFor};
ghost use Rattle.smt_terms.specs.Signature.{Signature, names_of, sort_names_of};
ghost use Rattle.smt_terms.specs.declared.blame.Blame.TheVariants.{InUse};

use crate::blame::Blame;
use crate::labels::Labels;
use crate::library::Library;
use crate::library::blamed_names::in_use;
use crate::library::params::sorted_params;
use smt_faults::{Memory, TermFault};
use smt_forms::{NameSet, Param, Variable};
use smt_theory::Sort;
use smt_trees::{Tree, Trees};

impl Library<'_> {
    /// What is to blame for the fault of a declaration, where `declare` refuses it; `None` where it has no fault, or
    /// one of another kind than F3 and F7. It is the first such name or tree, in the order in which `declare` looks at
    /// them.
    pub fn blame_of_declaration<'t>(
        &self,
        name: &'t [u8],
        params: Trees<'t>,
        sort: Tree<'t>,
    ) -> Option<Blame<'t>>
        ensures told { (s : Signature) → StandsFor self.now s → IsToldOver s result }
        ensures taken { (s : Signature) → StandsFor self.now s → is_taken (names_of s) name.now ≡ true
            → result ≡ Some (InUse name.entry) }
    {
        self.blame_in_declaration(name, params, sort)
    }

    /// The same of a definition, where `define` refuses it, and also of F4 and F6. The body's time is in proportion to
    /// the body.
    ///
    /// The only error is want of memory.
    pub fn blame_of_definition<'t>(
        &self,
        name: &'t [u8],
        params: &[Param<'t>],
        sort: Tree<'t>,
        body: Tree<'t>,
    ) -> Result<Option<Blame<'t>>, Memory>
        ensures told { (s : Signature) → StandsFor self.now s → IfOk result (IsToldOver s) }
        ensures taken { (s : Signature) → StandsFor self.now s → is_taken (names_of s) name.now ≡ true
            → result ≡ Ok (Some (InUse name.entry)) }
    {
        self.blame_in_definition(name, params, sort, body)
    }

    /// The same of an abbreviation of a sort, where `abbreviate` refuses it.
    pub fn blame_of_abbreviation<'t>(&self, name: &'t [u8], sort: Tree<'t>) -> Option<Blame<'t>>
        ensures told { (s : Signature) → StandsFor self.now s → IsToldOver s result }
        ensures taken { (s : Signature) → StandsFor self.now s → is_sort_taken (sort_names_of s) name.now ≡ true
            → result ≡ Some (InUse name.entry) }
    {
        self.blame_in_abbreviation(name, sort)
    }

    /// The same of the declaration of a sort, where `declare_sort` refuses it: its name.
    pub fn blame_of_sort_name<'t>(&self, name: &'t [u8]) -> Option<Blame<'t>>
        ensures told { (s : Signature) → StandsFor self.now s → IsToldOver s result }
        ensures taken { (s : Signature) → StandsFor self.now s → is_sort_taken (sort_names_of s) name.now ≡ true
            → result ≡ Some (InUse name.entry) }
    {
        self.blame_in_sort_name(name)
    }

    fn blame_in_declaration<'t>(
        &self,
        name: &'t [u8],
        params: Trees<'t>,
        sort: Tree<'t>,
    ) -> Option<Blame<'t>>
        ensures told { IsTold self.now result }
        ensures taken { is_taken (names_of_library self.now) name.now ≡ true → result ≡ Some (InUse name.entry) }
    {
        if self.is_taken(name) {
            in_use(name, true)
        } else {
            self.blame_of_sort(self.first_unsorted(params, sort))
        }
    }

    // The first of these trees that names no sort, or else this one.
    fn first_unsorted<'t>(&self, trees: Trees<'t>, last: Tree<'t>) -> Tree<'t> {
        let mut left = trees;
        while let Some((tree, rest)) = left.split_first() {
            if self.sorts.sort_of(self.alloc, tree).is_err() {
                return tree;
            }
            left = rest;
        }
        last
    }

    fn blame_in_definition<'t>(
        &self,
        name: &'t [u8],
        params: &[Param<'t>],
        sort: Tree<'t>,
        body: Tree<'t>,
    ) -> Result<Option<Blame<'t>>, Memory>
        ensures told { IfOk result (IsTold self.now) }
        ensures taken { is_taken (names_of_library self.now) name.now ≡ true
            → result ≡ Ok (Some (InUse name.entry)) }
    {
        if self.is_taken(name) {
            Ok(in_use(name, true))
        } else {
            self.blame_in_params(params, sort, body)
        }
    }

    // The same of a definition whose name is new.
    fn blame_in_params<'t>(
        &self,
        params: &[Param<'t>],
        sort: Tree<'t>,
        body: Tree<'t>,
    ) -> Result<Option<Blame<'t>>, Memory>
        ensures { IfOk result (IsTold self.now) }
    {
        match sorted_params(self.alloc, &self.sorts, params) {
            Ok(variables) => self.blame_in_body(variables.as_slice(), sort, body),
            Err(TermFault::Memory) => Err(Memory),
            Err(_) => self.blame_of_params(params),
        }
    }

    // The same of the sort of a definition with these parameters, or of its body.
    fn blame_in_body<'t>(
        &self,
        variables: &[Variable<'t, Sort>],
        sort: Tree<'t>,
        body: Tree<'t>,
    ) -> Result<Option<Blame<'t>>, Memory>
        ensures { IfOk result (IsTold self.now) }
    {
        match self.sorts.sort_of(self.alloc, sort) {
            Ok(wanted) => {
                self.blame_of_term(variables, Labels::refused(self.alloc), body, wanted)
            }
            Err(TermFault::Memory) => Err(Memory),
            Err(_) => Ok(self.blame_of_sort(sort)),
        }
    }

    fn blame_in_abbreviation<'t>(&self, name: &'t [u8], sort: Tree<'t>) -> Option<Blame<'t>>
        ensures told { IsTold self.now result }
        ensures taken { is_sort_taken (sort_names self.now.sorts) name.now ≡ true
            → result ≡ Some (InUse name.entry) }
    {
        if self.sorts.is_taken(name) {
            in_use(name, true)
        } else {
            self.blame_of_sort(sort)
        }
    }

    fn blame_in_sort_name<'t>(&self, name: &'t [u8]) -> Option<Blame<'t>>
        ensures told { IsTold self.now result }
        ensures taken { is_sort_taken (sort_names self.now.sorts) name.now ≡ true
            → result ≡ Some (InUse name.entry) }
    {
        in_use(name, self.sorts.is_taken(name))
    }

    // What is to blame for parameters: the first one that has no sort, or a name that an earlier one has.
    pub(super) fn blame_of_params<'t>(
        &self,
        params: &[Param<'t>],
    ) -> Result<Option<Blame<'t>>, Memory>
        ensures { IfOk result (IsTold self.now) }
    {
        match self.first_unfit(params) {
            Ok(Some(param)) => Ok(self.blame_of_param(param)),
            Ok(None) => Ok(None),
            Err(Memory) => Err(Memory),
        }
    }

    // The first parameter whose tree names no sort, or whose name an earlier one has.
    fn first_unfit<'t>(&self, params: &[Param<'t>]) -> Result<Option<Param<'t>>, Memory> {
        let mut names = NameSet::new(self.alloc);
        for param in params {
            if self.sorts.sort_of(self.alloc, param.sort).is_err() || names.contains(param.name) {
                return Ok(Some(*param));
            }
            names.insert(param.name)?;
        }
        Ok(None)
    }

    // What is to blame for such a parameter: the tree of its sort, or its name.
    fn blame_of_param<'t>(&self, param: Param<'t>) -> Option<Blame<'t>>
        ensures { IsTold self.now result }
    {
        match self.sorts.sort_of(self.alloc, param.sort) {
            Ok(_) => Some(Blame::Twice { name: param.name }),
            Err(_) => self.blame_of_sort(param.sort),
        }
    }
}
