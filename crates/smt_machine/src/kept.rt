//! The values that were found for closed nodes, by the numbers of the nodes. This file knows no node.

ghost use Rattle.std.specs.Prelude.{◌≡◌, ℕ, ◌<◌, ◌==◌, ◌∷◌, ◌++◌, [], None, Some, IfOk, OnErr, OnOk, length};
ghost use Rattle.std.specs.Prelude.{if◌then◌else◌, vec_capacity};
ghost use Rattle.smt_machine.specs.Internal.KeptView.{found_at, kept_at};

use smt_faults::Memory;
use smt_values::Value;
use std::alloc::Global;

/// The number of values for which unused memory is kept.
pub(crate) const FEW: usize = 4096;

/// The value that was found for the node of a number, which may be open.
#[derive(Clone, Copy)]
pub(crate) struct Found {
    number: usize,
    value: Option<Value>,
}

/// The values that are kept, in the order in which they came.
///
/// For the number of each node it has the place where the node's value is among them, if the value there is
/// of this number. So one step forgets all values, and a node without a value costs nothing.
#[derive(Drop)]
pub(crate) struct Kept {
    alloc: Global,
    found: Vec<Found>,
    places: Vec<u32>,
}

impl Kept {
    /// No values.
    #[tactic(auto, unfolding(crate::specs::Internal::KeptView::kept_at))]
    pub(crate) fn new(alloc: Global) -> Kept
        ensures nothing { (number : ℕ) → kept_at result number ≡ None }
        ensures memory { (vec_capacity result.found ≡ 0) × (vec_capacity result.places ≡ 0) }
    {
        Kept {
            alloc,
            found: Vec::new(alloc),
            places: Vec::new(alloc),
        }
    }

    /// Forgets all values. It keeps the memory of at most `FEW` values, and that of the places.
    #[tactic(auto, unfolding(crate::specs::Internal::KeptView::kept_at))]
    pub(crate) fn forget(&mut self)
        ensures { (number : ℕ) → kept_at self.new number ≡ None }
    {
        self.found.clear();
        if self.found.capacity() > FEW {
            self.found = Vec::new(self.alloc);
        }
    }

    /// The value that is kept for a number.
    #[tactic(auto, unfolding(crate::specs::Internal::KeptView::kept_at))]
    #[inline(always)]
    pub(crate) fn get(&self, number: usize) -> Option<Option<Value>>
        ensures { result ≡ kept_at self.now number }
    {
        match self.places.get(number) {
            Some(place) => self.get_at(*place as usize, number),
            None => None,
        }
    }

    // The value at a place, if it was found for this number.
    #[inline(always)]
    fn get_at(&self, place: usize, number: usize) -> Option<Option<Value>>
        ensures { result ≡ found_at self.now.found.items place number }
    {
        match self.found.get(place) {
            Some(found) if found.number == number => Some(found.value),
            _ => None,
        }
    }

    /// Keeps a value for a number.
    pub(crate) fn insert(&mut self, number: usize, value: Option<Value>) -> Result<(), Memory>
        ensures kept { IfOk result (λ _. (other : ℕ) → kept_at self.new other
            ≡ (if other == number then Some value else kept_at self.old other)) }
        ensures unchanged { OnErr result ((other : ℕ) → kept_at self.new other ≡ kept_at self.old other) }
    {
        let place = self.found.len();
        if place > u32::MAX as usize {
            return Err(Memory);
        }
        // (no value is at this place yet, and the one that will be is of this number)
        self.make_room(number, place as u32)?;
        self.found.push(Found { number, value })?;
        self.places.as_mut_slice()[number] = place as u32;
        Ok(())
    }

    // Makes room for the place of a number. A number that has no place gets this one, which is that of no value.
    #[tactic(auto, unfolding(crate::specs::Internal::KeptView::kept_at))]
    fn make_room(&mut self, number: usize, none: u32) -> Result<(), Memory>
        requires { none ≡ length self.old.found.items }
        ensures room { IfOk result (λ _. number < length self.new.places.items) }
        ensures kept { (other : ℕ) → kept_at self.new other ≡ kept_at self.old other }
        ensures found { self.new.found ≡ self.old.found }
    {
        let Some(len) = number.checked_add(1) else {
            // Memory has no room for so many nodes.
            return Err(Memory);
        };
        if self.places.len() < len {
            self.places.resize(len, none)?;
        }
        Ok(())
    }
}
