//! Values of the sorts. This file knows no operator, and no open element.

ghost use Rattle.std.specs.Prelude.{◌≡◌, Some};
ghost use Rattle.smt_values.specs.Element.{element_of};
ghost use Rattle.smt_values.specs.KnownOperations.{known_integer, known_truth};

use crate::element_number::ElementNumber;
use crate::integer::Integer;
use smt_bits::Bits;
use smt_ratios::Ratio;
use std::mem::size_of;

// Values wait on stacks, and there may be many.
const _: () = prove!(size_of::<Value>() == 32);

/// A value of a sort's domain (SMT-LIB 2.6, theories Core, Reals_Ints and FixedSizeBitVectors). A real that is an
/// integer is an `Int`.
#[derive(Clone, Copy, PartialEq, Eq)]
pub enum Value {
    Bool(bool),
    /// An integer from -2^127 to 2^127 - 1. An integer outside has no value here.
    Int(Integer),
    /// A rational number that is no integer, in lowest terms. One whose terms have no room has no value here.
    Ratio(Ratio),
    Bits(Bits),
    /// An element of a declared sort, by the number of its name among the names of elements: one name is one element,
    /// and another name another.
    Abstract(ElementNumber),
}

impl Value {
    /// The truth value that the value is; `None` where it is of another sort.
    #[inline(always)]
    pub fn truth(&self) -> Option<bool>
        ensures { result ≡ known_truth (Some (element_of self.now)) }
    {
        match self {
            Value::Bool(truth) => Some(*truth),
            Value::Int(_) | Value::Ratio(_) | Value::Bits(_) | Value::Abstract(_) => None,
        }
    }

    /// The integer that the value is; `None` where it is of another sort.
    pub fn integer(&self) -> Option<i128>
        ensures { result ≡ known_integer (Some (element_of self.now)) }
    {
        match self {
            Value::Int(integer) => Some(integer.get()),
            Value::Bool(_) | Value::Ratio(_) | Value::Bits(_) | Value::Abstract(_) => None,
        }
    }
}
