//! `distinct` of many arguments. It sorts them, so that it has to compare each with the next alone. This file
//! knows no other operator.

ghost use Rattle.std.specs.Prelude.{◌≡◌, not};
ghost use Rattle.smt_values.specs.Element.{known_element, known_elements};
ghost use Rattle.smt_values.specs.Internal.Keys.{key_of};
ghost use Rattle.smt_values.specs.Internal.Same.{is_same_known};
ghost use Rattle.smt_values.specs.KnownOperations.{known_core};
ghost use Rattle.smt_values.specs.Lists.{are_chained};
ghost use Rattle.smt_theory.specs.declared.op.CoreOp.TheVariants.{Distinct};

use super::bools::{all_are_known, are_both, distinctness};
use crate::element_number::ElementNumber;
use crate::value::Value;

// Up to this many arguments, each is compared with each later one, which is quicker than a sort.
const FEW: usize = 8;

/// The value of `distinct`. Its arguments may change places.
pub(crate) fn distinctness_in_place(args: &mut [Option<Value>]) -> Option<Value>
    ensures { known_element result ≡ known_core Distinct (known_elements args.old) }
{
    if args.len() > FEW && all_are_known(args) {
        args.sort_unstable_by_key(key);
        Some(Value::Bool(are_neighbours_distinct(args)))
    } else {
        distinctness(args)
    }
}

// Whether none is the same as the one after it.
fn are_neighbours_distinct(args: &[Option<Value>]) -> bool
    ensures { result ≡ are_chained
        (λ a b. not (is_same_known (known_element a) (known_element b))) args.now }
{
    let mut left = args;
    while let [first, second, ..] = left {
        if are_both(first, second) {
            return false;
        }
        left = &left[1..];
    }
    true
}

// A key that no other argument has: the kind of the argument, and which it is of that kind.
fn key(arg: &Option<Value>) -> (u8, i128, u128, ElementNumber)
    ensures { result ≡ key_of (known_element arg.now) }
{
    match arg {
        None => (0, 0, 0, ElementNumber::none()),
        Some(Value::Bool(b)) => (1, 0, u128::from(*b), ElementNumber::none()),
        Some(Value::Int(z)) => (2, z.get(), 0, ElementNumber::none()),
        Some(Value::Ratio(ratio)) => (
            5,
            ratio.numerator(),
            ratio.denominator(),
            ElementNumber::none(),
        ),
        Some(Value::Bits(v)) => (
            3,
            i128::from(v.width().bits()),
            v.number(),
            ElementNumber::none(),
        ),
        Some(Value::Abstract(number)) => (4, 0, 0, *number),
    }
}
