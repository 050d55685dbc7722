//! Names by their places. This file knows nothing of how a name is found.

ghost use Rattle.std.specs.Prelude.{◌≡◌, ◌<◌, ◌∷◌, ◌++◌, [], length, take, Some, None, OnOk, OnErr, IfOk};
ghost use Rattle.std.specs.Prelude.{slice_index_or};
ghost use Rattle.smt_names.specs.Places.{AreDistinct, place_of, with_name};

use crate::table::Table;
use smt_faults::Memory;
use std::alloc::Global;
use std::marker::Model;

/// Names, each once, in the order in which they came. A contract sees their list.
///
/// There are at most 2^32 - 1 names. Finding a name or adding one takes time in proportion to the name's
/// length, and at worst to the logarithm of the number of names, whatever the names are.
#[derive(Drop)]
pub struct Names {
    alloc: Global,
    // None where there was never a name, so that to have no names costs little.
    table: Option<Box<Table>>,
}

impl Model for Names {
    ghost use Rattle.std.specs.Prelude.{ℕ, List};

    ghost Value = { List (List ℕ) };

    ghost use Rattle.smt_names.specs.Internal.Tables.{names_of};

    ghost view = { λ n. names_of n.table };
}

impl Names {
    /// An empty list of names, which asks for no memory.
    pub fn new(alloc: Global) -> Self
        ensures { result ≡ [] }
    {
        Names { alloc, table: None }
    }

    /// Makes room for so many more names.
    ///
    /// The only error is want of memory.
    pub(crate) fn reserve(&mut self, count: usize) -> Result<(), Memory>
        ensures { self.new ≡ self.old }
    {
        match &mut self.table {
            Some(table) => table.reserve(count),
            None => self.begin_with(count),
        }
    }

    // Makes room for the first names.
    fn begin_with(&mut self, count: usize) -> Result<(), Memory>
        requires { self.old ≡ [] }
        ensures { self.new ≡ self.old }
    {
        if count == 0 {
            return Ok(());
        }
        let mut table = Box::new(self.alloc, Table::new(self.alloc))?;
        table.reserve(count)?;
        self.table = Some(table);
        Ok(())
    }

    /// The number of names.
    #[inline(always)]
    pub fn len(&self) -> usize
        ensures { result ≡ length self.now }
    {
        match &self.table {
            None => 0,
            Some(table) => table.len(),
        }
    }

    /// The place of a name, from 0; `None` where it is none of them.
    #[inline(always)]
    pub fn find(&self, name: &[u8]) -> Option<u32>
        ensures place { result ≡ place_of self.now name.now }
        ensures distinct { AreDistinct self.now }
    {
        match &self.table {
            None => None,
            Some(table) => table.find(name),
        }
    }

    /// The place of a name, from 0; a new name is added after the others.
    ///
    /// The only error is want of memory, and then nothing changes. Want of memory is reported, too, beyond
    /// 2^32 - 1 names.
    #[inline(always)]
    pub fn place(&mut self, name: &[u8]) -> Result<u32, Memory>
        ensures added { OnOk result (self.new ≡ with_name self.old name.now) }
        ensures place { IfOk result (λ i. place_of self.new name.now ≡ Some i) }
        ensures refused { OnErr result (place_of self.old name.now ≡ None) }
        ensures unchanged { OnErr result (self.new ≡ self.old) }
    {
        match self.find(name) {
            Some(place) => Ok(place),
            None => self.add(name),
        }
    }

    /// Adds a new name, as `place` does.
    #[inline(always)]
    pub(crate) fn add(&mut self, name: &[u8]) -> Result<u32, Memory>
        requires { place_of self.old name.now ≡ None }
        ensures added { OnOk result (self.new ≡ self.old ++ name.now ∷ []) }
        ensures place { IfOk result (λ i. i ≡ length self.old) }
        ensures unchanged { OnErr result (self.new ≡ self.old) }
    {
        match &mut self.table {
            Some(table) => table.add(self.alloc, name),
            None => self.begin(name),
        }
    }

    // Adds the first name.
    #[inline(never)]
    fn begin(&mut self, name: &[u8]) -> Result<u32, Memory>
        requires { self.old ≡ [] }
        ensures added { OnOk result (self.new ≡ self.old ++ name.now ∷ []) }
        ensures place { IfOk result (λ i. i ≡ length self.old) }
        ensures unchanged { OnErr result (self.new ≡ self.old) }
    {
        let mut table = Box::new(self.alloc, Table::new(self.alloc))?;
        let place = table.add(self.alloc, name)?;
        self.table = Some(table);
        Ok(place)
    }

    /// The name at a place, from 0.
    #[inline(always)]
    pub fn name(&self, place: usize) -> &[u8]
        requires { place < length self.now }
        ensures { result.now ≡ slice_index_or self.now place [] }
    {
        match &self.table {
            None => &[],
            Some(table) => table.name(place),
        }
    }

    /// Keeps the first `len` names, or all where there are no more.
    pub fn cut(&mut self, len: usize)
        ensures { self.new ≡ take len self.old }
    {
        if let Some(table) = &mut self.table {
            table.cut(len);
        }
    }
}
