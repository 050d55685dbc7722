//! Terms and definitions that are kept as trees, and the call that tells what is known of a term. This file looks into
//! no tree.

ghost use Rattle.std.specs.Prelude.{◌≡◌, IfOk};
ghost use Rattle.smt_plain.specs.PlainTerm.{known_single, known_without_arrays};
ghost use Rattle.smt_values.specs.ElementNumbers.{numbered_in};

use crate::evaluator::known_value;
use crate::names::Definitions;
use smt_faults::Memory;
use smt_names::Names;
use smt_theory::{Sort, Theories};
use smt_trees::Tree;
use smt_values::Value;
use std::alloc::Global;

/// A name that is defined (SMT-LIB 2.6, section 4.2.3).
#[derive(Clone, Copy)]
pub struct Definition<'a> {
    /// The bytes of its name, without bars.
    pub name: &'a [u8],
    /// Its parameters, each with its name and its sort.
    pub params: &'a [(Vec<u8>, Sort)],
    /// The sort of its result.
    pub result: Sort,
    /// Its body, over the definitions before it and the parameters.
    pub body: Tree<'a>,
}

/// A closed term over definitions, each of which sees those before it.
#[derive(Clone, Copy)]
pub struct Closed<'a> {
    pub alloc: Global,
    pub theories: Theories,
    pub definitions: &'a [Definition<'a>],
    /// The names of elements of declared sorts: the place of a name, from 0, is the number of its element. An element
    /// with none of these names is open.
    pub names: &'a Names,
    pub tree: Tree<'a>,
}

impl Closed<'_> {
    ghost use Rattle.smt_trees.specs.Sexp.{Sexp};
    ghost use Rattle.smt_terms.specs.Signature.{Signature};
    ghost use Rattle.smt_plain.specs.PlainTerm.{IsPlain};

    /// What is known of the term's value, whatever it costs; `None` where the value is open. Each array is open, and so
    /// is what is computed of one, as `select`. The only error is want of memory.
    pub fn value(&self) -> Result<Option<Value>, Memory>
        ensures { IfOk result (λ v. (structure : Signature) (term : Sexp) → IsPlain self.now structure term
            → known_single v ≡ known_without_arrays (numbered_in self.now.names.now) structure term) }
    {
        known_value(self.over(), &[], self.tree)
    }

    // The definitions that the term sees.
    fn over(&self) -> Definitions<'_>
        ensures theories { result.theories ≡ self.now.theories }
        ensures seen { result.seen.now ≡ self.now.definitions.now }
        ensures names { result.names.now ≡ self.now.names.now }
    {
        Definitions {
            alloc: self.alloc,
            theories: self.theories,
            seen: self.definitions,
            names: self.names,
        }
    }
}
