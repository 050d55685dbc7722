//! The names of declared sorts. This file knows no terms.

ghost use Rattle.std.specs.Prelude.{◌≡◌, option_map};
ghost use Rattle.smt_terms.specs.DeclaredSorts as spec;
ghost use Rattle.smt_terms.specs.DeclaredSorts.{name_of_sort};
ghost use Rattle.smt_terms.specs.Internal.LibraryView.{abbreviations_of};
ghost use Rattle.smt_terms.specs.Library.{StandsFor};
ghost use Rattle.smt_terms.specs.Signature.{Signature};

use crate::library::Library;
use crate::named_sort::NamedSort;
use crate::sorts::are_equal;
use smt_theory::Sort;

impl Library<'_> {
    /// The name of a declared sort, without bars; `None` of other sorts, and of one whose name is not in force (SMT-LIB
    /// 2.6, section 4.2.3). The time is in proportion to the number of names of sorts.
    pub fn sort_name(&self, sort: Sort) -> Option<&[u8]>
        ensures { (s : Signature) → StandsFor self.now s
            → option_map (λ name. name.now) result ≡ name_of_sort s.abbreviations sort }
    {
        self.name_of_sort(&sort)
    }

    fn name_of_sort(&self, sort: &Sort) -> Option<&[u8]>
        ensures { option_map (λ name. name.now) result ≡ name_of_sort (abbreviations_of self.now.sorts) sort.now }
    {
        for place in 0..self.sorts.abbreviations.len() {
            let (name, named) = self.sorts.abbreviations.get_index(place).unwrap();
            if declares(named, sort) {
                return Some(name);
            }
        }
        None
    }
}

// Whether a name stands for this sort because a command declared it.
fn declares(named: &NamedSort, sort: &Sort) -> bool
    ensures { result ≡ spec.declares named.now sort.now }
{
    named.is_declared && are_equal(named.sort, *sort)
}
