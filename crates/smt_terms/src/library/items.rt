//! Items of models: which definitions an item may add to those of a model, beside the names of a script. This file
//! knows no values, and does not know which names a model lacks.

ghost use Rattle.std.specs.Prelude.{◌≡◌, ◌&&◌, map, option_map, None, Some, Ok, Err, Option, OnOk, OnErr, IfErr};
ghost use Rattle.std.specs.Prelude.{IfOk, []};
ghost use Rattle.smt_trees.specs.View.{sexp_of};
ghost use Rattle.smt_theory.specs.Shapes.{are_exactly};
ghost use Rattle.smt_theory.specs.Sort.{is_same_sort};
ghost use Rattle.smt_terms.specs.Contents.{Extends, contents_of};
ghost use Rattle.smt_terms.specs.Internal.LibraryView.{rank_of};
ghost use Rattle.smt_forms.specs.ItemForm as forms;
ghost use Rattle.smt_forms.specs.ItemView.{item_view};
ghost use Rattle.smt_theory.specs.Words.{result_and_then};
ghost use Rattle.smt_terms.specs.Items.{form_in, has_rank_of, item_by, item_in, items_before, list_of};
ghost use Rattle.smt_terms.specs.Library.{ReadsModelsOf, IsUnchanged, StandsFor};
ghost use Rattle.smt_forms.specs.ScopeView.{scope_view};
ghost use Rattle.smt_terms.specs.Signature as signature;
ghost use Rattle.smt_terms.specs.Signature.{Signature, declared_named, rank_of_entry};
ghost use Rattle.smt_terms.specs.Signature.{with_entries, with_entry};
ghost use Rattle.smt_faults.specs.Outcome.{Tells};

use crate::library::checker::are_same;
use crate::library::params::{sorted_params_of, sorts_of_variables};
use crate::library::{Entry, Found, Library};
use crate::sorts::are_equal;
use smt_faults::{Memory, TermFault};
use smt_forms::{ItemForm, Variable, item_form};
use smt_theory::Sort;
use smt_trees::Tree;

impl Library<'_> {
    /// A library for the items of a model of these names (SMT-LIB 2.6, section 4.2.6). It has the theories of this
    /// library and no names. In the wide profile its terms may name elements of the sorts that this library declares.
    ///
    /// It has room for `count` items, but for no more than this library declares names. The only error is want of
    /// memory.
    pub fn for_model(&self, count: usize) -> Result<Library<'_>, Memory>
        ensures names { IfOk result
            (λ library. (s : Signature) → StandsFor self.now s → StandsFor library (items_before s [])) }
        ensures reads { IfOk result (λ library. ReadsModelsOf library self.now) }
    {
        let mut library = Library::new(self.alloc, self.sorts.theories);
        library.reserve(count.min(self.declared.len()))?;
        library.elements = self.lent();
        Ok(library)
    }

    // Makes room for the definitions of so many constants.
    fn reserve(&mut self, count: usize) -> Result<(), Memory>
        ensures contents { contents_of self.new ≡ contents_of self.old }
        ensures sorts { self.new.sorts ≡ self.old.sorts }
    {
        self.names.reserve(count)?;
        self.definitions.reserve(count)?;
        self.bodies.reserve(count)?;
        self.ends.reserve(count)?;
        self.nodes.reserve(count)
    }

    /// Adds the definition of an item of a model of the script's names, after the earlier items (SMT-LIB 2.6, section
    /// 4.2.6). Its body sees the earlier items and the theories, and no name of the script. Its sorts may be
    /// abbreviations of the script.
    ///
    /// It refuses, in this order:
    /// 1. an item out of form (`Form`), or a recursive one (`Unsupported`);
    /// 2. a name that an earlier item has (`BoundTwice`);
    /// 3. in the wide profile a name of the form of an element's of a sort that the script declares, and any name that
    ///    the script does not declare and that is in use or a plain operator's (`NotFresh`);
    /// 4. for each parameter, a tree that names no sort, with its fault, and then a name that an earlier parameter has
    ///    (`BoundTwice`);
    /// 5. for the result, a tree that names no sort, with its fault;
    /// 6. another rank than the declared one (`IllSorted`);
    /// 7. a body with a fault over the earlier items, the elements and the parameters, with its first fault (any label
    ///    is one);
    /// 8. a body of another sort (`IllSorted`).
    ///
    /// Then, and where memory is refused (`Memory`), nothing changes.
    ///
    /// In the wide profile it sets aside an item of a name that the script defines, by a definition or a label, unless
    /// the name has the form of an element's: it adds nothing and does not look at the body. It refuses such an item
    /// for its form, its parameters and its sort like others, and for another rank than the definition's
    /// (`IllSorted`).
    ///
    /// In the wide profile it also sets aside the items that tell which elements a declared sort has:
    /// `(forall ..)` and `(declare-sort ..)`, whatever they hold, and `(declare-fun x () S)` where x is an element of
    /// the sort S. It refuses, in this order: a `declare-fun` of another form, or of a name of another form than an
    /// element's (`Form`); a name that the script has (`NotFresh`); a tree that names no sort, with its fault; another
    /// sort than the element's (`IllSorted`).
    #[tactic(auto, using(crate::proofs::ContentsLemmas::extends_itself))]
    pub fn define_item(&mut self, script: &Library<'_>, item: Tree<'_>) -> Result<(), TermFault>
        requires { ReadsModelsOf self.old script.now }
        ensures defined { OnOk result ((s m : Signature) → StandsFor script.now s → StandsFor self.old m
            → (o : Option signature.Entry) × (item_in s m.entries (sexp_of item.entry) ≡ Ok o)
            × StandsFor self.new (with_entries m (list_of o))) }
        ensures refused { IfErr result
            (λ fault. (s m : Signature) → StandsFor script.now s → StandsFor self.old m
            → Tells (item_in s m.entries (sexp_of item.entry)) fault) }
        ensures unchanged { OnErr result (IsUnchanged self.old self.new) }
        ensures restored { OnErr result (contents_of self.new ≡ contents_of self.old) }
        ensures grown { Extends (contents_of self.old) (contents_of self.new) }
        ensures reads { ReadsModelsOf self.new script.now }
    {
        match script.told(item) {
            Some(told) => told,
            None => self.define_other(script, item),
        }
    }

    // Adds the definition of an item, as `define_item` does, unless the item repeats a definition.
    #[tactic(auto, using(crate::proofs::ContentsLemmas::extends_itself))]
    fn define_other(&mut self, script: &Library<'_>, item: Tree<'_>) -> Result<(), TermFault>
        requires { ReadsModelsOf self.old script.now }
        ensures defined { OnOk result ((s m : Signature) → StandsFor script.now s → StandsFor self.old m
            → (o : Option signature.Entry)
            × (result_and_then (forms.item_form (sexp_of item.entry)) (item_by s m.entries) ≡ Ok o)
            × StandsFor self.new (with_entries m (list_of o))) }
        ensures refused { IfErr result
            (λ fault. (s m : Signature) → StandsFor script.now s → StandsFor self.old m
            → Tells (result_and_then (forms.item_form (sexp_of item.entry)) (item_by s m.entries)) fault) }
        ensures unchanged { OnErr result (IsUnchanged self.old self.new) }
        ensures restored { OnErr result (contents_of self.new ≡ contents_of self.old) }
        ensures grown { Extends (contents_of self.old) (contents_of self.new) }
        ensures reads { ReadsModelsOf self.new script.now }
    {
        let form = item_form(item)?;
        if script.sets_aside(form.name) {
            script.check_repeated(form)
        } else {
            self.add_item(script, form)
        }
    }

    // Adds the definition of an item of these parts. Where the item has a fault, or memory is refused, it changes
    // nothing.
    #[tactic(auto, using(crate::proofs::ContentsLemmas::extends_itself))]
    fn add_item(&mut self, script: &Library<'_>, form: ItemForm<'_>) -> Result<(), TermFault>
        requires { ReadsModelsOf self.old script.now }
        ensures defined { OnOk result ((s m : Signature) → StandsFor script.now s → StandsFor self.old m
            → (e : signature.Entry) × (form_in s m.entries (item_view form.entry) ≡ Ok e)
            × StandsFor self.new (with_entry m e)) }
        ensures refused { IfErr result
            (λ fault. (s m : Signature) → StandsFor script.now s → StandsFor self.old m
            → Tells (form_in s m.entries (item_view form.entry)) fault) }
        ensures unchanged { OnErr result (IsUnchanged self.old self.new) }
        ensures restored { OnErr result (contents_of self.new ≡ contents_of self.old) }
        ensures grown { Extends (contents_of self.old) (contents_of self.new) }
        ensures reads { ReadsModelsOf self.new script.now }
    {
        self.check_name(script, form.name)?;
        let parameters = sorted_params_of(self.alloc, &script.sorts, form.parameters)?;
        let sort = script.sorts.sort_of(self.alloc, form.sort)?;
        if !self.has_declared_rank(script, form.name, parameters.as_slice(), sort)? {
            return Err(TermFault::IllSorted);
        }
        self.add_definition(form.name, parameters.as_slice(), sort, form.body)
    }

    // Whether the script declares the name with this rank, or does not declare it.
    fn has_declared_rank(
        &self,
        script: &Library<'_>,
        name: &[u8],
        parameters: &[Variable<'_, Sort>],
        sort: Sort,
    ) -> Result<bool, Memory>
        ensures { IfOk result (λ kept. (s : Signature) → StandsFor script.now s
            → kept ≡ has_rank_of (declared_named s.entries name.now)
            (map (λ p. p.1) (scope_view parameters.now)) sort) }
    {
        let sorts = sorts_of_variables(self.alloc, parameters)?;
        Ok(script.keeps_rank(name, sorts.as_slice(), sort))
    }

    // What a name means, if a command declared it.
    pub(super) fn get_declared(&self, name: &[u8]) -> Option<&Entry>
        ensures { (s : Signature) → StandsFor self.now s
            → option_map (λ e. rank_of e.now) result
            ≡ option_map rank_of_entry (declared_named s.entries name.now) }
    {
        let Some(entry) = self.get(name) else {
            return None;
        };
        match entry.place {
            Found::Declared(_) => Some(entry),
            Found::Defined(_) => None,
        }
    }

    // Whether this library declares the name with this rank, or does not declare it.
    fn keeps_rank(&self, name: &[u8], parameters: &[Sort], sort: Sort) -> bool
        ensures { (s : Signature) → StandsFor self.now s
            → result ≡ has_rank_of (declared_named s.entries name.now) parameters.now sort }
    {
        match self.get_declared(name) {
            Some(entry) => has_rank(entry, parameters, sort),
            None => true,
        }
    }
}

// Whether the function that a name means has exactly this rank.
pub(super) fn has_rank(entry: &Entry, parameters: &[Sort], sort: Sort) -> bool
    ensures { result ≡ are_exactly entry.now.parameters.items parameters.now
        && is_same_sort entry.now.sort sort }
{
    are_same(entry.parameters.as_slice(), parameters) && are_equal(entry.sort, sort)
}
