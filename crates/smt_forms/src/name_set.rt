//! Sets of names, which say whether a name is among them. This file knows nothing of what a name stands for.

ghost use Rattle.std.specs.Prelude.{◌≡◌, ◌∷◌, ◌++◌, [], length, OnErr, OnOk};
ghost use Rattle.smt_forms.specs.NamesIn.{names_in};
ghost use Rattle.smt_forms.specs.Variables.{is_among};

use crate::places::Places;
use smt_faults::Memory;
use std::alloc::Global;

/// A set of names, without bars, that it borrows. A contract sees their list, in the order in which they
/// came.
///
/// Adding a name and looking for one each take time in proportion to the name's length and to the logarithm
/// of the number of names, whatever the names are.
#[derive(Drop)]
pub struct NameSet<'a> {
    places: Places<'a>,
}

impl<'a> NameSet<'a> {
    /// An empty set, which asks for no memory.
    pub fn new(alloc: Global) -> Self
        ensures { names_in result ≡ [] }
    {
        NameSet {
            places: Places::new(alloc),
        }
    }

    /// The number of names, each counted as often as it came.
    pub fn len(&self) -> usize
        ensures { result ≡ length (names_in self.now) }
    {
        self.places.len()
    }

    /// Whether the set has this name.
    pub fn contains(&self, name: &[u8]) -> bool
        ensures { result ≡ is_among (names_in self.now) name.now }
    {
        self.places.find(name).is_some()
    }

    /// Adds a name after the others. The only error is want of memory, and then nothing changes.
    pub fn insert(&mut self, name: &'a [u8]) -> Result<(), Memory>
        ensures pushed { OnOk result (names_in self.new ≡ names_in self.old ++ name.now ∷ []) }
        ensures unchanged { OnErr result (names_in self.new ≡ names_in self.old) }
    {
        self.places.push(name)
    }
}
