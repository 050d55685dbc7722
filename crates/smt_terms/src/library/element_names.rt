//! What the terms of a model may name elements by: the sorts and the names of its script. This file knows no terms.

ghost use Rattle.std.specs.Prelude.{◌≡◌};
ghost use Rattle.smt_forms.specs.Variables.{is_among};
ghost use Rattle.smt_terms.specs.Elements.{element_in};
ghost use Rattle.smt_terms.specs.Internal.LibraryView.{element_names};

use crate::library::Entry;
use crate::sorts::SortNames;
use smt_names::NameMap;
use smt_theory::Sort;

// The names of a script's sorts, and the names that the script has, of which none is an element's.
#[derive(Clone, Copy)]
pub(super) struct ElementNames<'s> {
    pub(super) sorts: &'s SortNames,
    pub(super) names: &'s NameMap<Entry>,
}

impl ElementNames<'_> {
    // The declared sort of which a symbol is an element.
    pub(super) fn element_sort(&self, symbol: &[u8]) -> Option<Sort>
        ensures { result ≡ element_in (element_names self.now) symbol.now }
    {
        if self.is_taken(symbol) {
            return None;
        }
        self.sorts.element_sort(symbol)
    }

    // Whether the script has the name.
    pub(super) fn is_taken(&self, name: &[u8]) -> bool
        ensures { result ≡ is_among (element_names self.now).taken name.now }
    {
        self.names.get(name).is_some()
    }
}
