//! The elements of arrays, each by a number. This file knows no array.

ghost use Rattle.indexmap.specs.IndexSet.{keys};
ghost use Rattle.smt_arrays.specs.KeyLaws.{same_value};
ghost use Rattle.smt_arrays.specs.Elements.{AreDistinct, Extends, first_number, second_number, value_at};
ghost use Rattle.smt_values.specs.Element.{element_of};
ghost use Rattle.std.proofs.Common.{ap};
ghost use Rattle.std.specs.Hash as fed;
ghost use Rattle.std.specs.Prelude.{◌≡◌, ◌++◌, ◌<◌, [], IfOk, OnErr, length};

use crate::lookup::zigzag;
use indexmap::IndexSet;
use smt_faults::Memory;
use smt_values::Value;
use std::alloc::Global;
use std::hash::{BuildHasherDefault, DefaultHasher, Hash, Hasher};
use std::marker::Model;

// The greatest number of elements.
const MOST: usize = 4_294_967_295;

/// A value that is found by a hash.
#[derive(Clone, Copy, PartialEq, Eq)]
pub struct Key {
    pub value: Value,
}

impl Hash for Key {
    ghost hash_input = { λ k. fed.u128 (first_number (element_of k.value))
        ++ fed.u128 (second_number (element_of k.value)) };

    ghost respects_eq = { λ x y h. ap (λ v. fed.u128 (first_number (element_of v))
        ++ fed.u128 (second_number (element_of v))) (same_value x.value y.value h) };

    fn hash<H: Hasher>(&self, state: &mut H) {
        first_number(&self.value).hash(state);
        second_number(&self.value).hash(state);
    }
}

type Entries = IndexSet<Key, BuildHasherDefault<DefaultHasher>>;

/// Values, each once, in the order in which they came: the number of a value is its place. A contract sees their list.
///
/// There are at most 2^32 - 1 values. One is found by a hash without a secret: to find it among values that are chosen
/// to collide takes longer.
#[derive(Drop)]
pub struct Elements {
    entries: Entries,
}

impl Model for Elements {
    ghost use Rattle.indexmap.specs.IndexSet.{keys};
    ghost use Rattle.smt_arrays.specs.Elements.{AreDistinct};
    ghost use Rattle.smt_arrays.specs.declared.elements.Key.{Key};
    ghost use Rattle.std.specs.Prelude.{List};

    ghost Value = { List Key };

    ghost view = { λ e. keys e.entries };

    ghost invariant = { λ e. AreDistinct (keys e.entries) };
}

impl Elements {
    /// No values, which asks for no memory.
    pub fn new(alloc: Global) -> Elements
        ensures { result ≡ [] }
    {
        Elements {
            entries: IndexSet::with_hasher(alloc, BuildHasherDefault::new()),
        }
    }

    /// The value of a number.
    pub fn value(&self, number: u32) -> Value
        ensures { result ≡ value_at self.now number }
    {
        match self.entries.as_slice().get(number as usize) {
            Some(key) => key.value,
            None => Value::Bool(false),
        }
    }

    /// The number of a value: a new one, if it had none.
    ///
    /// The only error is want of memory. It is reported, too, beyond 2^32 - 1 values.
    pub fn number(&mut self, value: &Value) -> Result<u32, Memory>
        ensures within { IfOk result (λ number. number < length self.new) }
        ensures value { IfOk result (λ number. value_at self.new number ≡ value.now) }
        ensures grown { Extends self.old self.new }
        ensures distinct { AreDistinct self.new }
    {
        if self.entries.len() >= MOST {
            return Err(Memory);
        }
        let (number, _added) = self.entries.insert_full(Key { value: *value })?;
        Ok(number as u32)
    }

    /// Forgets all values, and keeps their memory.
    pub fn clear(&mut self)
        ensures { self.new ≡ [] }
    {
        self.entries.clear();
    }
}

// ---- hashes

// A number that tells most values apart.
fn first_number(value: &Value) -> u128
    ensures { result ≡ first_number (element_of value.now) }
{
    match value {
        Value::Bool(truth) => u128::from(*truth),
        Value::Int(integer) => zigzag(integer.get()),
        Value::Ratio(ratio) => zigzag(ratio.numerator()),
        Value::Bits(bits) => bits.number(),
        Value::Abstract(number) => match (number.get(), number.array_place()) {
            (_, Some(place)) => (1 << 32) + u128::from(place),
            (Some(number), None) => u128::from(number),
            (None, None) => 0,
        },
    }
}

// Another number of a value, if its first does not tell it from all others.
fn second_number(value: &Value) -> u128
    ensures { result ≡ second_number (element_of value.now) }
{
    match value {
        Value::Ratio(ratio) => ratio.denominator(),
        Value::Bits(bits) => u128::from(bits.width().bits()),
        Value::Bool(_) | Value::Int(_) | Value::Abstract(_) => 0,
    }
}
