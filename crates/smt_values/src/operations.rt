//! Operators on values of which some may be open. This file chooses by the theory, and computes nothing.

mod bits;
pub(crate) mod bools;
mod distinct;
pub(crate) mod ints;
pub(crate) mod numbers;

ghost use Rattle.std.specs.Prelude.{◌≡◌};
ghost use Rattle.smt_values.specs.Element.{known_element, known_elements};
ghost use Rattle.smt_values.specs.KnownOperations.{known_step};

use crate::value::Value;
use smt_theory::{CoreOp, Op};

/// What is known of the operator's result for these arguments; `None` is an open argument, and an open
/// result.
///
/// These results are open:
///
/// - an integer outside -2^127 to 2^127 - 1, as the result or as a partial result of an operator that is
///   applied from the left;
/// - a fraction whose numerator is outside that, or whose denominator is over 2^120 - 1, or where a product or a sum on
///   the way to it is outside that;
/// - `div`, `mod` and `/` at divisor 0;
/// - those of operators on arrays, of which this crate knows nothing;
/// - every result with an open argument, except for `and`, `or`, `=>` and `ite` where the known arguments
///   decide (this project's own rule).
#[inline(always)]
pub fn apply(op: Op, args: &[Option<Value>]) -> Option<Value>
    ensures { known_element result ≡ known_step op (known_elements args.now) }
{
    match op {
        Op::Core(op) => bools::apply_core(op, args),
        Op::Ints(op) => numbers::apply_number_op(op, args),
        Op::Reals(op) => numbers::apply_reals(op, args),
        Op::Bits(op) => bits::apply_bits(op, args),
        Op::Arrays(_) => None,
    }
}

/// What [`apply`] gives. The arguments may change places, so `distinct` of n arguments takes time n log n,
/// where `apply` takes n^2.
#[inline(always)]
pub fn apply_in_place(op: Op, args: &mut [Option<Value>]) -> Option<Value>
    ensures { known_element result ≡ known_step op (known_elements args.old) }
{
    match op {
        Op::Core(CoreOp::Distinct) => distinct::distinctness_in_place(args),
        _ => apply(op, args),
    }
}
