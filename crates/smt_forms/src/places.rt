//! Names in the order in which they came, and the place of the last of each. This file knows nothing of what
//! a name stands for.

ghost use Rattle.std.specs.Prelude.{◌≡◌, ◌∷◌, ◌++◌, ◌-◌, [], length, take, OnErr, OnOk, bytes_eq};
ghost use Rattle.smt_forms.specs.Internal.Places.{names_of, place_from, place_in};

use crate::marks::{is_marked, with_mark};
use smt_faults::Memory;
use smt_names::NameMap;
use std::alloc::Global;
use std::marker::Model;

// The number of names that are compared one after another. The map holds those after them.
const FEW: usize = 8;

// Names, of which a later one hides the earlier ones that are the same. A contract sees their list.
#[derive(Drop)]
pub struct Places<'a> {
    names: Vec<Placed<'a>>,
    // For each name, the place of its last occurrence after the first `FEW` names, if one is left.
    last: NameMap<Option<usize>>,
    // The mark of each name, and perhaps marks of names that are gone.
    marks: u64,
}

// A name, and the place that it hides in the map, if any.
#[derive(Clone, Copy)]
pub struct Placed<'a> {
    name: &'a [u8],
    hidden: Option<usize>,
}

impl<'a> Model for Places<'a> {
    ghost use Rattle.std.specs.Prelude.{ℕ, List};
    ghost use Rattle.smt_forms.specs.Internal.Marks.{AreMarked};
    ghost use Rattle.smt_forms.specs.Internal.Places.{IsIndexed, names_of};
    ghost use Rattle.smt_forms.specs.declared.places.TheConstants.{FEW};

    ghost Value = { List (List ℕ) };

    ghost view = { λ p. names_of p.names.items };

    ghost invariant = { λ p. IsIndexed FEW p.names.items p.last × AreMarked p.marks (names_of p.names.items) };
}

impl<'a> Places<'a> {
    pub fn new(alloc: Global) -> Self
        ensures { result ≡ [] }
    {
        Places {
            names: Vec::new(alloc),
            last: NameMap::new(alloc),
            marks: 0,
        }
    }

    pub fn len(&self) -> usize
        ensures { result ≡ length self.now }
    {
        self.names.len()
    }

    // The place of the last occurrence of this name, from 0.
    #[inline(always)]
    pub fn find(&self, name: &[u8]) -> Option<usize>
        ensures { result ≡ place_from 0 self.now name.now }
    {
        // Most names are no variables.
        if !is_marked(self.marks, name) {
            return None;
        }
        let names = self.names.as_slice();
        if names.len() <= FEW {
            return find_last(names, name);
        }
        match last_place(&self.last, name) {
            Some(place) => Some(place),
            None => find_last(&names[..FEW], name),
        }
    }

    pub fn push(&mut self, name: &'a [u8]) -> Result<(), Memory>
        ensures pushed { OnOk result (self.new ≡ self.old ++ name.now ∷ []) }
        ensures unchanged { OnErr result (self.new ≡ self.old) }
    {
        let place = self.names.len();
        if place < FEW {
            self.names.push(Placed { name, hidden: None })?;
            self.marks = with_mark(self.marks, name);
            return Ok(());
        }
        // Room is asked for first: nothing is refused after the map's own want of memory, which leaves all as
        // it was.
        self.names.reserve(1)?;
        let hidden = self.last.replace(name, Some(place))?;
        let hidden = hidden.flatten();
        self.names.push(Placed { name, hidden })?;
        self.marks = with_mark(self.marks, name);
        Ok(())
    }

    // Keeps the first `len` names.
    pub fn cut(&mut self, len: usize)
        ensures { self.new ≡ take len self.old }
    {
        while self.len() > len {
            self.pop();
        }
    }

    fn pop(&mut self)
        ensures { self.new ≡ take (length self.old - 1) self.old }
    {
        let Some(gone) = self.names.pop() else {
            return;
        };
        if self.names.is_empty() {
            self.marks = 0;
            return;
        }
        if self.names.len() < FEW {
            return;
        }
        // The map has the name, so this asks for no memory.
        let _ = self.last.replace(gone.name, gone.hidden);
    }
}

// The place that a map has for a name.
#[inline(always)]
fn last_place(last: &NameMap<Option<usize>>, name: &[u8]) -> Option<usize>
    ensures { result ≡ place_in last.now name.now }
{
    last.get(name).copied().flatten()
}

fn find_last(names: &[Placed<'_>], name: &[u8]) -> Option<usize>
    ensures { result ≡ place_from 0 (names_of names.now) name.now }
{
    let mut left = names.len();
    while left > 0 {
        left -= 1;
        if is_same(name, names[left].name) {
            return Some(left);
        }
    }
    None
}

#[inline(always)]
fn is_same(name: &[u8], other: &[u8]) -> bool
    ensures { result ≡ bytes_eq name.now other.now }
{
    name == other
}
