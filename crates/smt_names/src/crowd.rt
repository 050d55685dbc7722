//! How many names lie close together in the library's table, by the bits of the hash that the library uses. This
//! file keeps no name.

ghost use Rattle.std.specs.Prelude.{◌≡◌, ◌<◌, ◌≤◌, length};

use crate::hasher::hash_of;
use crate::name::Name;
use smt_faults::Memory;
use std::alloc::Global;

// So many new names are counted together.
const AT_ONCE: usize = 64;

// Groups that are counted together. The library's search goes from a full group to the next.
const BLOCK: u64 = 32;

// The library's table has at least one block for so many names.
const LOAD: usize = 288;

// The most names that one block has room for. By chance one block in 10^7 gets more.
const MOST: u16 = 384;

/// For each block of groups, how many names begin there, of the names so far but for the last few.
#[derive(Drop)]
pub(crate) struct Crowd {
    blocks: Vec<u16>,
    // How many names there are when they are counted next.
    next: usize,
    // The number of names that are counted.
    counted: usize,
    // How many of them came to a block that had the most already.
    over: usize,
}

impl Crowd {
    pub(crate) fn new(alloc: Global) -> Self {
        Crowd {
            blocks: Vec::new(alloc),
            next: LOAD,
            counted: 0,
            over: 0,
        }
    }

    /// Whether more of these names lie close together than by chance. They are those of the last call, less
    /// those that were forgotten since, and some new ones.
    #[inline(always)]
    pub(crate) fn is_dense(&mut self, names: &[Name]) -> Result<bool, Memory> {
        if names.len() >= self.next {
            self.count(names)?;
        }
        Ok(self.over > 0)
    }

    #[inline(never)]
    fn count(&mut self, names: &[Name]) -> Result<(), Memory> {
        if names.len() / LOAD >= self.blocks.len() {
            self.begin_anew()?;
        }
        let blocks = self.blocks.as_mut_slice();
        if let Some(new) = names.get(self.counted..)
            && !blocks.is_empty()
        {
            let over = add_all(blocks, new);
            self.over = self.over.saturating_add(over);
            self.counted = names.len();
            self.next = names.len().saturating_add(AT_ONCE);
        }
        Ok(())
    }

    // Counts none of the names, of which there may be twice as many.
    fn begin_anew(&mut self) -> Result<(), Memory> {
        let size = self.blocks.len().saturating_mul(2).max(2);
        self.blocks.resize(size, 0)?;
        self.blocks.as_mut_slice().fill(0);
        self.counted = 0;
        self.over = 0;
        Ok(())
    }

    /// Takes back the counts of the names from a place on.
    pub(crate) fn forget(&mut self, names: &[Name], len: usize) {
        let blocks = self.blocks.as_mut_slice();
        if let Some(gone) = names.get(len..self.counted)
            && !blocks.is_empty()
        {
            let over = remove_all(blocks, gone);
            self.over = self.over.saturating_sub(over);
            self.counted = len;
            self.next = len.saturating_add(AT_ONCE);
        }
    }
}

// Counts names, and returns how many of them came to a block that had the most already. (At most 64 do, so that
// no count wraps.)
fn add_all(blocks: &mut [u16], names: &[Name]) -> usize
    requires { 0 < length blocks.old }
{
    let mut over = 0;
    for name in names {
        let block = block_of(name.key(), blocks.len());
        let count = blocks[block].wrapping_add(1);
        blocks[block] = count;
        over += usize::from(count > MOST);
    }
    over
}

// Takes back the counts of names, and returns how many of them were in a block that was more than full.
fn remove_all(blocks: &mut [u16], names: &[Name]) -> usize
    requires { 0 < length blocks.old }
{
    let mut over = 0;
    for name in names {
        let block = block_of(name.key(), blocks.len());
        let count = blocks[block];
        blocks[block] = count.wrapping_sub(1);
        over += usize::from(count > MOST);
    }
    over
}

// The block where the library's search for a name begins, of so many blocks.
#[inline(always)]
fn block_of(key: u64, size: usize) -> usize
    requires { 0 < size }
    ensures { result < size }
{
    let hash = hash_of(key);
    ((hash ^ (hash >> 32)) / BLOCK & (size as u64 - 1)) as usize
}
