//! A name as a key of the library's map: hashed by its key, compared as its bytes, and looked up by a slice.

ghost use Rattle.std.specs.Prelude.{◌≡◌, bytes_eq, IfOk};
ghost use Rattle.std.specs.Cmp.{on_equiv, on_per, partial_equiv_from_equiv};
ghost use Rattle.std.specs.Cmp.Lexicographic.{nat_list_eq_equiv};
ghost use Rattle.std.specs.Hash as fed;
ghost use Rattle.smt_names.specs.Internal.Keys.{AreBytes, IsKeyOf, fed_alike, key_of};

use crate::keys::key;
use indexmap::Equivalent;
use smallvec::SmallVec;
use std::alloc::{AllocError, Global};
use std::cmp::{Eq, PartialEq};
use std::hash::{Hash, Hasher};
use std::marker::Model;

/// A name that is kept. A contract sees its bytes.
#[derive(Drop)]
pub(crate) struct Name {
    key: u64,
    bytes: SmallVec<u8, 16>,
}

impl Model for Name {
    ghost use Rattle.std.specs.Prelude.{ℕ, List};
    ghost use Rattle.smt_names.specs.Internal.Keys.{IsKeyOf};

    ghost Value = { List ℕ };

    ghost view = { λ n. n.bytes.items };

    ghost invariant = { λ n. IsKeyOf n.key n.bytes.items };
}

impl Name {
    #[inline(always)]
    pub(crate) fn new(alloc: Global, name: &[u8]) -> Result<Name, AllocError>
        ensures { IfOk result (λ kept. kept ≡ name.now) }
    {
        Ok(Name {
            key: key(name),
            bytes: SmallVec::from_slice(alloc, name)?,
        })
    }

    #[inline(always)]
    pub(crate) fn key(&self) -> u64
        ensures { result ≡ key_of self.now }
    {
        self.key
    }

    #[inline(always)]
    pub(crate) fn bytes(&self) -> &[u8]
        ensures name { result.now ≡ self.now }
        ensures bytes { AreBytes result.now }
    {
        self.bytes.as_slice()
    }
}

impl PartialEq for Name {
    ghost eq = { bytes_eq };

    ghost laws = { partial_equiv_from_equiv nat_list_eq_equiv };

    #[inline(always)]
    fn eq(&self, other: &Name) -> bool {
        are_same(self.key(), self.bytes(), other.key(), other.bytes())
    }
}

impl Eq for Name {
    ghost laws = { nat_list_eq_equiv };
}

impl Hash for Name {
    ghost hash_input = { λ a. fed.u64 (key_of a) };

    ghost respects_eq = { fed_alike };

    #[inline(always)]
    fn hash<H: Hasher>(&self, state: &mut H) {
        state.write_u64(self.key());
    }
}

/// A name that is sought.
#[derive(Clone, Copy)]
pub(crate) struct Sought<'a> {
    pub(crate) bytes: &'a [u8],
    key: u64,
    ghost keyed: { IsKeyOf key bytes.now },
}

impl<'a> Sought<'a> {
    #[inline(always)]
    pub(crate) fn new(bytes: &'a [u8]) -> Self
        ensures { result.bytes.now ≡ bytes.now }
    {
        Sought {
            bytes,
            key: key(bytes),
        }
    }
}

impl<'a> PartialEq for Sought<'a> {
    ghost eq = { λ a b. bytes_eq a.bytes.now b.bytes.now };

    ghost laws = { on_per (λ a. a.bytes.now) (partial_equiv_from_equiv nat_list_eq_equiv) };

    #[inline(always)]
    fn eq(&self, other: &Sought<'a>) -> bool {
        are_same(self.key, self.bytes, other.key, other.bytes)
    }
}

impl<'a> Eq for Sought<'a> {
    ghost laws = { on_equiv (λ a. a.bytes.now) nat_list_eq_equiv };
}

impl<'a> Hash for Sought<'a> {
    ghost hash_input = { λ a. fed.u64 (key_of a.bytes.now) };

    ghost respects_eq = { λ a b. fed_alike a.bytes.now b.bytes.now };

    #[inline(always)]
    fn hash<H: Hasher>(&self, state: &mut H) {
        state.write_u64(self.key);
    }
}

impl<'a> Equivalent<Name> for Sought<'a> {
    ghost equivalent = { λ q k. bytes_eq q.bytes.now k };

    ghost respects_hash = { λ q k. fed_alike q.bytes.now k };

    ghost respects_eq = { λ q x y. nat_list_eq_equiv.congr q.bytes.now x y };

    #[inline(always)]
    fn equivalent(&self, name: &Name) -> bool {
        are_same(self.key, self.bytes, name.key(), name.bytes())
    }
}

// Names of up to eight bytes are the same where their keys and their lengths are.
#[inline(always)]
fn are_same(key: u64, name: &[u8], other_key: u64, other: &[u8]) -> bool
    requires key { IsKeyOf key name.now }
    requires other { IsKeyOf other_key other.now }
    ensures { result ≡ bytes_eq name.now other.now }
{
    if key != other_key || name.len() != other.len() {
        return false;
    }
    name.len() <= 8 || name == other
}
