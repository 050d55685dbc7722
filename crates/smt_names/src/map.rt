//! A map from names to values. This file knows nothing of how a name is found.

ghost use Rattle.std.specs.Prelude.{◌≡◌, ◌<◌, Some, length, slice_get, slice_set};
ghost use Rattle.std.specs.Option.{option_copied};

use crate::names::Names;
use smt_faults::Memory;
use std::alloc::Global;

/// Names, each once, and a value of each, in the order in which they came. A contract sees their list.
///
/// The map holds at most 2^32 - 1 names. Finding a name or adding one takes time in proportion to the name's
/// length, and at worst to the logarithm of the number of names, whatever the names are.
#[derive(Drop)]
pub struct NameMap<V> {
    names: Names,
    values: Vec<V>,
    ghost paired: { length values.items ≡ length names },
}

impl<V> NameMap<V> {
    ghost use Rattle.std.specs.Prelude.{ℕ, List, bytes_eq, if◌then◌else◌, Some};
    ghost use Rattle.std.specs.Prelude.{◌≡◌, ◌∷◌, ◌++◌, [], None, length, take, slice_get, option_map};
    ghost use Rattle.std.specs.Prelude.{IfOk, OnErr, OnOk};
    ghost use Rattle.std.specs.Option.{option_copied};
    ghost use Rattle.smt_theory.specs.Words.{look_up};
    ghost use Rattle.smt_names.specs.Entries.{entries_of, with_value};

    /// An empty map, which asks for no memory.
    pub fn new(alloc: Global) -> Self
        ensures { entries_of result ≡ [] }
    {
        NameMap {
            names: Names::new(alloc),
            values: Vec::new(alloc),
        }
    }

    /// Makes room for so many more names with their values, so that they are not moved while they come.
    ///
    /// The only error is want of memory.
    pub fn reserve(&mut self, count: usize) -> Result<(), Memory>
        ensures { entries_of self.new ≡ entries_of self.old }
    {
        self.values.reserve(count)?;
        self.names.reserve(count)
    }

    /// The number of names.
    #[inline(always)]
    pub fn len(&self) -> usize
        ensures { result ≡ length (entries_of self.now) }
    {
        self.values.len()
    }

    /// The value of a name; `None` where the map does not have the name.
    #[inline(always)]
    pub fn get(&self, name: &[u8]) -> Option<&V>
        ensures { option_copied result ≡ look_up (entries_of self.now) name.now }
    {
        match self.names.find(name) {
            Some(place) => value_at(self.values.as_slice(), place as usize),
            None => None,
        }
    }

    /// The name at a place, from 0, and its value; `None` from the length on.
    #[inline(always)]
    pub fn get_index(&self, place: usize) -> Option<(&[u8], &V)>
        ensures { option_map (λ p. (p.0.now, p.1.now)) result ≡ slice_get (entries_of self.now) place }
    {
        match value_at(self.values.as_slice(), place) {
            Some(value) => Some((self.names.name(place), value)),
            None => None,
        }
    }

    /// Adds a new name after the others, with its value.
    ///
    /// The only error is want of memory, and then nothing changes. Want of memory is reported, too, beyond
    /// 2^32 - 1 names.
    pub fn insert(&mut self, name: &[u8], value: V) -> Result<(), Memory>
    where
        V: Drop,
        requires { look_up (entries_of self.old) name.now ≡ None }
        ensures inserted { OnOk result (entries_of self.new ≡ entries_of self.old ++ (name.now, value) ∷ []) }
        ensures unchanged { OnErr result (entries_of self.new ≡ entries_of self.old) }
    {
        self.values.reserve(1)?;
        self.names.add(name)?;
        self.values.push_reserved(value);
        Ok(())
    }

    /// Sets the value of a name, and returns its earlier value, if it had one. A new name is added after the
    /// others.
    ///
    /// The only error is want of memory for a new name, as at `insert`, and then nothing changes.
    pub fn replace(&mut self, name: &[u8], value: V) -> Result<Option<V>, Memory>
    where
        V: Copy,
        ensures old { IfOk result (λ old. old ≡ look_up (entries_of self.old) name.now) }
        ensures replaced { OnOk result (entries_of self.new ≡ with_value (entries_of self.old) name.now value) }
        ensures alone { OnOk result ((other : List ℕ) → look_up (entries_of self.new) other
            ≡ (if bytes_eq name.now other then Some value else look_up (entries_of self.old) other)) }
        ensures refused { OnErr result (look_up (entries_of self.old) name.now ≡ None) }
        ensures unchanged { OnErr result (entries_of self.new ≡ entries_of self.old) }
    {
        match self.names.find(name) {
            Some(place) => {
                let values = self.values.as_mut_slice();
                Ok(Some(replace_at(values, place as usize, value)))
            }
            None => {
                self.insert(name, value)?;
                Ok(None)
            }
        }
    }

    /// Keeps the first `len` names, or all where there are no more.
    pub fn truncate(&mut self, len: usize)
    where
        V: Drop,
        ensures { entries_of self.new ≡ take len (entries_of self.old) }
    {
        self.names.cut(len);
        self.values.truncate(len);
    }
}

#[inline(always)]
fn value_at<V>(values: &[V], place: usize) -> Option<&V>
    ensures { option_copied result ≡ slice_get values.now place }
{
    values.get(place)
}

#[inline(always)]
fn replace_at<V: Copy>(values: &mut [V], place: usize, value: V) -> V
    requires { place < length values.old }
    ensures old { Some result ≡ slice_get values.old place }
    ensures new { values.new ≡ slice_set values.old place value }
{
    let old = values[place];
    values[place] = value;
    old
}
