//! The variables in scope, by name. This file knows nothing of what a variable stands for.

ghost use Rattle.std.specs.Prelude.{◌≡◌, length, slice_get};

use crate::places::Places;
use smt_faults::Memory;
use std::alloc::Global;

/// The variables that a term sees, each with the value that is kept for it (SMT-LIB 2.6, section 3.6.1). A
/// contract sees their list, the innermost first.
///
/// Pushing a variable, finding one and removing one each take time in proportion to the name's length and to
/// the logarithm of the number of variables, whatever the names are.
#[derive(Drop)]
pub struct Scope<'a, V> {
    places: Places<'a>,
    values: Vec<V>,
    ghost paired: { length values.items ≡ length places },
}

impl<'a, V: Copy> Scope<'a, V> {
    ghost use Rattle.std.specs.Prelude.{◌≡◌, ◌∷◌, ◌-◌, [], drop, length, OnErr, OnOk};
    ghost use Rattle.smt_theory.specs.Words.{look_up};
    ghost use Rattle.smt_forms.specs.ScopeOf.{scope_of};

    /// An empty scope, which asks for no memory.
    pub fn new(alloc: Global) -> Self
        ensures { scope_of result ≡ [] }
    {
        Scope {
            places: Places::new(alloc),
            values: Vec::new(alloc),
        }
    }

    /// The number of variables, hidden ones among them.
    pub fn len(&self) -> usize
        ensures { result ≡ length (scope_of self.now) }
    {
        self.values.len()
    }

    /// The value kept for the innermost variable of this name, without bars; `None` where there is no such
    /// variable.
    #[inline(always)]
    pub fn find(&self, name: &[u8]) -> Option<V>
        ensures { result ≡ look_up (scope_of self.now) name.now }
    {
        match self.places.find(name) {
            Some(place) => value_at(self.values.as_slice(), place),
            None => None,
        }
    }

    /// Adds a variable inside the others. The only error is want of memory, and then nothing changes.
    pub fn push(&mut self, name: &'a [u8], value: V) -> Result<(), Memory>
        ensures pushed { OnOk result (scope_of self.new ≡ (name.now, value) ∷ scope_of self.old) }
        ensures unchanged { OnErr result (scope_of self.new ≡ scope_of self.old) }
    {
        self.values.reserve(1)?;
        self.places.push(name)?;
        self.values.push(value)?;
        Ok(())
    }

    /// Keeps the outermost `len` variables, or all where there are no more.
    pub fn cut(&mut self, len: usize)
        ensures { scope_of self.new ≡ drop (length (scope_of self.old) - len) (scope_of self.old) }
    {
        self.places.cut(len);
        self.values.truncate(len);
    }
}

#[inline(always)]
fn value_at<V: Copy>(values: &[V], place: usize) -> Option<V>
    ensures { result ≡ slice_get values.now place }
{
    values.get(place).copied()
}
