//! Elements of declared sorts, as terms of a model name them. A library for a script has none. This file knows no
//! items.

ghost use Rattle.std.specs.Prelude.{◌≡◌, ◌&&◌, [], Ok, Some, None, is_some, MatchOption, IfSome, IfOk, false};
ghost use Rattle.std.specs.Prelude.{option_map};
ghost use Rattle.smt_forms.specs.ElementNames as forms;
ghost use Rattle.smt_forms.specs.ElementNames.{qualified_symbol};
ghost use Rattle.smt_forms.specs.Identifier.{Plain};
ghost use Rattle.smt_nodes.specs.Node.{Element};
ghost use Rattle.smt_trees.specs.Sexp.{Cons, Items, Reserved};
ghost use Rattle.smt_trees.specs.View.{sexps_of};
ghost use Rattle.smt_trees.specs.declared.reserved.Word.TheVariants.{As};
ghost use Rattle.smt_theory.specs.Operators.{op_by};
ghost use Rattle.smt_theory.specs.Words.{look_up};
ghost use Rattle.smt_faults.specs.Outcome.{IsOutcome};
ghost use Rattle.smt_terms.specs.Checking.{sort_alone, sort_applied};
ghost use Rattle.smt_terms.specs.Denotes.{node_alone};
ghost use Rattle.smt_terms.specs.Elements as elements;
ghost use Rattle.smt_terms.specs.Elements.{element_among, qualified_in, qualified_sort};
ghost use Rattle.smt_terms.specs.Freshness as freshness;
ghost use Rattle.smt_terms.specs.Internal.LibraryView.{element_names, elements_lent, names_of_library};
ghost use Rattle.smt_terms.specs.Internal.LibraryView.{sort_names};
ghost use Rattle.smt_terms.specs.Internal.NodesView.{AddsAlone, AddsNode, GrowsTo, Stands};
ghost use Rattle.smt_terms.specs.Internal.TableView.{table_of};

use crate::library::Library;
use crate::library::draft::{CheckedTerm, Draft};
use crate::library::element_names::ElementNames;
use crate::library::freshness::is_operator;
use smt_faults::{Memory, TermFault};
use smt_nodes::Node;
use smt_theory::Sort;
use smt_trees::{Tree, Trees};

impl Library<'_> {
    // The sort and the node of a symbol alone that is no variable: of a name or an operator without arguments, or else
    // of an element.
    #[inline(always)]
    pub(super) fn sort_of_alone(
        &self,
        draft: &mut Draft<'_>,
        name: &[u8],
        around: u32,
    ) -> Result<CheckedTerm, TermFault>
        ensures sort { IsOutcome (λ c. c.sort) (sort_alone (names_of_library self.now) name.now
            (look_up (names_of_library self.now).ranks name.now)) result }
        ensures open { IfOk result (λ c. c.is_open ≡ false) }
        ensures added { IfOk result (AddsAlone self.now draft.old draft.new around name.now) }
        ensures longer { GrowsTo draft.old draft.new }
        ensures scope { draft.new.scope ≡ draft.old.scope }
        ensures base { draft.new.base ≡ draft.old.base }
        ensures labels { draft.new.labels ≡ draft.old.labels }
        ensures arguments { draft.new.arguments ≡ draft.old.arguments }
    {
        match self.element_alone(name) {
            Some(sort) => Ok(self.push_element(draft, name, sort, around)?),
            None => {
                let start = draft.arguments.len();
                self.sort_of_plain(draft, name, start, false, around)
            }
        }
    }

    // The sort of the element that a symbol is that is no variable: no name in force and no plain operator has that
    // name. In a script this is a single test, as most symbols pass here.
    #[inline(always)]
    fn element_alone(&self, name: &[u8]) -> Option<Sort>
        ensures sort { MatchOption result
            (sort_alone (names_of_library self.now) name.now
            (look_up (names_of_library self.now).ranks name.now)
            ≡ sort_applied (names_of_library self.now) (Plain name.now) [])
            (λ sort. sort_alone (names_of_library self.now) name.now
            (look_up (names_of_library self.now).ranks name.now) ≡ Ok sort) }
        ensures node { IfSome result (λ _. node_alone (table_of self.now) name.now
            (op_by (table_of self.now).theories name.now []) (look_up (table_of self.now).heads name.now)
            ≡ Some (Element name.now)) }
    {
        match &self.elements {
            Some(_) => self.element_unless_named(name),
            None => None,
        }
    }

    // The sort of the element that terms may name so, unless a name in force or a plain operator has that name.
    #[inline(never)]
    fn element_unless_named(&self, name: &[u8]) -> Option<Sort>
        ensures sort { MatchOption result
            (sort_alone (names_of_library self.now) name.now
            (look_up (names_of_library self.now).ranks name.now)
            ≡ sort_applied (names_of_library self.now) (Plain name.now) [])
            (λ sort. sort_alone (names_of_library self.now) name.now
            (look_up (names_of_library self.now).ranks name.now) ≡ Ok sort) }
        ensures node { IfSome result (λ _. node_alone (table_of self.now) name.now
            (op_by (table_of self.now).theories name.now []) (look_up (table_of self.now).heads name.now)
            ≡ Some (Element name.now)) }
    {
        let Some(sort) = self.element_sort(name) else {
            return None;
        };
        if self.has_entry(name) {
            return None;
        }
        if is_operator(self.sorts.theories, name) {
            return None;
        }
        Some(sort)
    }

    // The declared sort of the element that terms may name so, if there is one.
    fn element_sort(&self, name: &[u8]) -> Option<Sort>
        ensures { result ≡ element_among (names_of_library self.now).elements name.now }
    {
        match &self.elements {
            Some(elements) => elements.element_sort(name),
            None => None,
        }
    }

    // Whether terms may name an element so, alone or behind an `as`.
    pub(super) fn is_element(&self, name: &[u8]) -> bool
        ensures { result ≡ freshness.is_element (names_of_library self.now) name.now }
    {
        match &self.elements {
            Some(elements) => begins_at(name) || elements.element_sort(name).is_some(),
            None => false,
        }
    }

    // Whether a name has the form of those of elements of this library's sorts, in the wide profile.
    pub(super) fn is_element_name(&self, name: &[u8]) -> bool
        ensures { result ≡ (self.now.sorts.theories.wide
            && is_some (elements.element_sort (sort_names self.now.sorts) name.now)) }
    {
        self.sorts.theories.wide && self.sorts.element_sort(name).is_some()
    }

    // What items of models of this library's names may name elements by: in the wide profile its sorts.
    pub(super) fn lent(&self) -> Option<ElementNames<'_>>
        ensures { option_map element_names result ≡ elements_lent self.now }
    {
        if self.sorts.theories.wide {
            Some(ElementNames {
                sorts: &self.sorts,
                names: &self.names,
            })
        } else {
            None
        }
    }

    // The sort and the node of `(as symbol sort)`, from the parts after the `as`, or its first fault.
    #[inline(never)]
    pub(super) fn sort_of_qualified(
        &self,
        draft: &mut Draft<'_>,
        parts: Trees<'_>,
        around: u32,
    ) -> Result<CheckedTerm, TermFault>
        ensures sort { IsOutcome (λ c. c.sort)
            (qualified_sort (names_of_library self.now).elements (names_of_library self.now).ranks
            (sexps_of parts.entry)) result }
        ensures open { IfOk result (λ c. c.is_open ≡ false) }
        ensures node { IfOk result (Stands self.now draft.old draft.new around
            (Items (Cons (Reserved As) (sexps_of parts.entry)))) }
        ensures longer { GrowsTo draft.old draft.new }
        ensures scope { draft.new.scope ≡ draft.old.scope }
        ensures base { draft.new.base ≡ draft.old.base }
        ensures labels { draft.new.labels ≡ draft.old.labels }
        ensures arguments { draft.new.arguments ≡ draft.old.arguments }
    {
        let Some(symbol) = symbol_of(parts) else {
            return Err(TermFault::Unsupported);
        };
        let sort = self.sort_qualified(parts)?;
        Ok(self.push_element(draft, symbol, sort, around)?)
    }

    // The sort of `(as symbol sort)`, from the parts after the `as`, or its fault.
    fn sort_qualified(&self, parts: Trees<'_>) -> Result<Sort, TermFault>
        ensures { IsOutcome (λ sort. sort)
            (qualified_sort (names_of_library self.now).elements (names_of_library self.now).ranks
            (sexps_of parts.entry)) result }
    {
        match &self.elements {
            Some(elements) => self.sort_qualified_by(elements, parts),
            None => Err(TermFault::Unsupported),
        }
    }

    // The same, by what names elements: `Unsupported` for other parts and for a symbol that does not begin with `@`,
    // `NotFresh` for a symbol that the script has or that is in force, the fault of the sort, or `IllSorted` for a sort
    // that no command declares.
    fn sort_qualified_by(
        &self,
        elements: &ElementNames<'_>,
        parts: Trees<'_>,
    ) -> Result<Sort, TermFault>
        ensures { IsOutcome (λ sort. sort) (qualified_in (element_names elements.now)
            (names_of_library self.now).ranks (sexps_of parts.entry)) result }
    {
        let Some((Tree::Symbol(symbol), rest)) = parts.split_first() else {
            return Err(TermFault::Unsupported);
        };
        let Some((tree, rest)) = rest.split_first() else {
            return Err(TermFault::Unsupported);
        };
        if rest.split_first().is_some() || !begins_at(symbol) {
            return Err(TermFault::Unsupported);
        }
        if elements.is_taken(symbol) || self.has_entry(symbol) {
            return Err(TermFault::NotFresh);
        }
        elements.sorts.declared_sort(self.alloc, tree)
    }

    // Adds the node of an element of this sort.
    #[inline(never)]
    fn push_element(
        &self,
        draft: &mut Draft<'_>,
        name: &[u8],
        sort: Sort,
        around: u32,
    ) -> Result<CheckedTerm, Memory>
        ensures sort { IfOk result (λ c. c.sort ≡ sort) }
        ensures open { IfOk result (λ c. c.is_open ≡ false) }
        ensures added { IfOk result (AddsNode self.now.nodes draft.old draft.new around (Element name.now)) }
        ensures longer { GrowsTo draft.old draft.new }
        ensures scope { draft.new.scope ≡ draft.old.scope }
        ensures base { draft.new.base ≡ draft.old.base }
        ensures labels { draft.new.labels ≡ draft.old.labels }
        ensures arguments { draft.new.arguments ≡ draft.old.arguments }
    {
        draft.push(&self.nodes, &Node::Element(name), &sort, false, around)
    }
}

// Whether a symbol begins with `@`, as those do that solvers may give to elements.
fn begins_at(symbol: &[u8]) -> bool
    ensures { result ≡ forms.begins_at symbol.now }
{
    match symbol {
        [first, ..] => *first == b'@',
        [] => false,
    }
}

// The symbol of `(as symbol sort)`, from the parts after the `as`.
fn symbol_of<'a>(parts: Trees<'a>) -> Option<&'a [u8]>
    ensures { option_map (λ symbol. symbol.now) result ≡ qualified_symbol (sexps_of parts.entry) }
{
    match parts.split_first() {
        Some((Tree::Symbol(symbol), _)) => Some(symbol),
        _ => None,
    }
}
