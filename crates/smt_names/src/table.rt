//! Names by their places. This file knows no key. Where too many names lie close together in the library's table,
//! the places of all are kept by their order from then on, so that names chosen to meet cost no more than others.

ghost use Rattle.std.specs.Option.{option_to_list};
ghost use Rattle.indexmap.specs.IndexMap.{keys};
ghost use Rattle.std.specs.Prelude.{◌≡◌, ◌-◌, ◌<◌, ◌≤◌, ◌∷◌, ◌++◌, [], length, take, Some, None, OnOk, OnErr, IfOk};
ghost use Rattle.std.specs.Prelude.{ℕ, List, IfNone, slice_index, slice_index_or};
ghost use Rattle.smt_names.specs.Places.{AreDistinct, place_of};
ghost use Rattle.smt_names.specs.Internal.Order.{HasPlacesIfAny, place_in};

use crate::crowd::Crowd;
use crate::hasher::KeyHasher;
use crate::name::{Name, Sought};
use crate::order::{insert, places_of};
use indexmap::IndexMap;
use smt_faults::Memory;
use std::alloc::Global;
use std::collections::BTreeMap;
use std::hash::BuildHasherDefault;
use std::marker::Model;

/// The greatest number of names.
const MOST: usize = 4_294_967_295;

// The library's table. (The look-ups of an `IndexSet`, which is this map, are not in line.)
type KeptNames = IndexMap<Name, (), BuildHasherDefault<KeyHasher>>;

/// Names, each once, in the order in which they came. A contract sees their list.
#[derive(Drop)]
pub(crate) struct Table {
    names: KeptNames,
    // Whether there was a name that begins with this byte.
    begun: [bool; 256],
    crowd: Crowd,
    // The places of all names by their order, from when too many lay close together, and the names that came since.
    places: Option<BTreeMap<Vec<u8>, u32>>,
    late: Vec<Name>,
}

impl Model for Table {
    ghost use Rattle.std.specs.Prelude.{ℕ, List, ◌++◌};
    ghost use Rattle.indexmap.specs.IndexMap.{keys};
    ghost use Rattle.smt_names.specs.Internal.Order.{IsTable};

    ghost Value = { List (List ℕ) };

    ghost view = { λ t. keys t.names ++ t.late.items };

    ghost invariant = { λ t. IsTable (keys t.names) t.late.items t.begun t.places };
}

impl Table {
    /// No names.
    pub(crate) fn new(alloc: Global) -> Self
        ensures { result ≡ [] }
    {
        Table {
            names: IndexMap::with_hasher(alloc, BuildHasherDefault::new()),
            begun: [false; 256],
            crowd: Crowd::new(alloc),
            places: None,
            late: Vec::new(alloc),
        }
    }

    /// Makes room for so many more names.
    pub(crate) fn reserve(&mut self, count: usize) -> Result<(), Memory>
        ensures { self.new ≡ self.old }
    {
        self.names.reserve(count)?;
        Ok(())
    }

    /// The number of names.
    #[inline(always)]
    pub(crate) fn len(&self) -> usize
        ensures { result ≡ length self.now }
    {
        self.names.len() + self.late.len()
    }

    /// The place of a name, from 0; `None` where it is none of them.
    #[inline(always)]
    pub(crate) fn find(&self, name: &[u8]) -> Option<u32>
        ensures place { result ≡ place_of self.now name.now }
        ensures distinct { AreDistinct self.now }
    {
        // Most names that are none of these begin with another byte.
        if !self.begun[first_of(name)] {
            return None;
        }
        self.find_begun(name)
    }

    #[inline(never)]
    fn find_begun(&self, name: &[u8]) -> Option<u32>
        ensures place { result ≡ place_of self.now name.now }
        ensures distinct { AreDistinct self.now }
    {
        match &self.places {
            Some(places) => place_by_order(places, name),
            None => place_by_hash(&self.names, name),
        }
    }

    /// Adds a new name after the others, and returns its place.
    #[inline(never)]
    pub(crate) fn add(&mut self, alloc: Global, name: &[u8]) -> Result<u32, Memory>
        requires { place_of self.old name.now ≡ None }
        ensures added { OnOk result (self.new ≡ self.old ++ name.now ∷ []) }
        ensures place { IfOk result (λ i. i ≡ length self.old) }
        ensures unchanged { OnErr result (self.new ≡ self.old) }
    {
        let place = self.len();
        if place >= MOST {
            return Err(Memory);
        }
        self.order_if_dense(alloc)?;
        let kept = Name::new(alloc, name)?;
        self.put(alloc, kept, name)?;
        Ok(place as u32)
    }

    // Puts a new name behind the others.
    #[inline(always)]
    fn put(&mut self, alloc: Global, kept: Name, name: &[u8]) -> Result<(), Memory>
        requires same { kept ≡ name.now }
        requires new { place_of self.old name.now ≡ None }
        requires few { length self.old < 4294967295 }
        ensures added { OnOk result (self.new ≡ self.old ++ name.now ∷ []) }
        ensures unchanged { OnErr result (self.new ≡ self.old) }
    {
        let place = self.len();
        match &mut self.places {
            None => {
                self.names.insert(kept, ())?;
                self.begun[first_of(name)] = true;
                Ok(())
            }
            Some(places) => {
                self.late.reserve(1)?;
                insert(alloc, places, name, place as u32)?;
                self.late.push_reserved(kept);
                self.begun[first_of(name)] = true;
                Ok(())
            }
        }
    }

    // Notes the places of all names by their order, where too many lie close together.
    #[inline(always)]
    fn order_if_dense(&mut self, alloc: Global) -> Result<(), Memory>
        ensures { self.new ≡ self.old }
    {
        if self.places.is_none() && self.crowd.is_dense(self.names.keys().as_slice())? {
            self.places = Some(places_of(alloc, self.names.keys().as_slice())?);
        }
        Ok(())
    }

    /// The name at a place, from 0.
    #[inline(always)]
    pub(crate) fn name(&self, place: usize) -> &[u8]
        requires { place < length self.now }
        ensures { result.now ≡ slice_index_or self.now place [] }
    {
        let names = self.names.keys().as_slice();
        if place < names.len() {
            names[place].bytes()
        } else {
            self.late[place - names.len()].bytes()
        }
    }

    /// Keeps the first `len` names, or all where there are no more.
    pub(crate) fn cut(&mut self, len: usize)
        ensures { self.new ≡ take len self.old }
    {
        if self.places.is_none() {
            self.crowd.forget(self.names.keys().as_slice(), len);
            self.names.truncate(len);
            return;
        }
        while self.len() > len {
            self.pop();
        }
    }

    fn pop(&mut self)
        requires { 0 < length self.old }
        ensures { self.new ≡ take (length self.old - 1) self.old }
    {
        let Some(gone) = take_last(&mut self.names, &mut self.late) else {
            return;
        };
        forget_place(&mut self.places, gone.bytes());
    }
}

// Takes the last of these names, if there is one.
fn take_last(names: &mut KeptNames, late: &mut Vec<Name>) -> Option<Name>
    ensures taken { keys names.old ++ late.old.items ≡ (keys names.new ++ late.new.items) ++ option_to_list result }
    ensures empty { IfNone result (keys names.old ++ late.old.items ≡ []) }
    ensures none_late { late.old.items ≡ [] → late.new.items ≡ [] }
{
    match late.pop() {
        Some(name) => Some(name),
        None => match names.pop() {
            Some((name, ())) => Some(name),
            None => None,
        },
    }
}

// Removes the place of the last name, if there are places.
fn forget_place(places: &mut Option<BTreeMap<Vec<u8>, u32>>, name: &[u8])
    ensures left { (names : List (List ℕ)) → place_of names name.now ≡ None
        → HasPlacesIfAny (names ++ name.now ∷ []) places.old → HasPlacesIfAny names places.new }
    ensures none { places.new ≡ None → places.old ≡ None }
{
    if let Some(places) = places {
        places.remove(name);
    }
}

#[inline(never)]
fn place_by_order(places: &BTreeMap<Vec<u8>, u32>, name: &[u8]) -> Option<u32>
    ensures { result ≡ place_in places.now name.now }
{
    places.get(name).copied()
}

// What finds a short name calls nothing, and needs no frame.
#[inline(always)]
fn place_by_hash(names: &KeptNames, name: &[u8]) -> Option<u32>
    requires distinct { AreDistinct (keys names.now) }
    requires few { length (keys names.now) ≤ 4294967295 }
    ensures { result ≡ place_of (keys names.now) name.now }
{
    if name.len() > 8 {
        return place_of_long(names, name);
    }
    search(names, name)
}

#[inline(never)]
fn place_of_long(names: &KeptNames, name: &[u8]) -> Option<u32>
    requires distinct { AreDistinct (keys names.now) }
    requires few { length (keys names.now) ≤ 4294967295 }
    ensures { result ≡ place_of (keys names.now) name.now }
{
    search(names, name)
}

#[inline(always)]
fn search(names: &KeptNames, name: &[u8]) -> Option<u32>
    requires distinct { AreDistinct (keys names.now) }
    requires few { length (keys names.now) ≤ 4294967295 }
    ensures { result ≡ place_of (keys names.now) name.now }
{
    match names.get_index_of(Sought::new(name)) {
        Some(place) => Some(place as u32),
        None => None,
    }
}

// The first byte of a name, 0 where it has none.
#[inline(always)]
fn first_of(name: &[u8]) -> usize
    ensures value { result ≡ slice_index name.now 0 }
    ensures byte { result < 256 }
{
    match name.first() {
        Some(byte) => usize::from(*byte),
        None => 0,
    }
}
