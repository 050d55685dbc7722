//! Ranks: the sorts of the arguments and of the results of operators. This file knows no operator's name, and no value.

ghost use Rattle.std.specs.Prelude.{◌≡◌, ◌↔◌, Some};
ghost use Rattle.smt_theory.specs.PlainOp.{op_of_plain};
ghost use Rattle.smt_theory.specs.Ranks.{HasRank, rank_of, shape_of};
ghost use Rattle.smt_theory.specs.Sort.{Sort as SortView};

use crate::op::arrays_ops::shape_in_arrays;
use crate::op::bits_ops::shape_in_bits;
use crate::op::core_ops::shape_in_core;
use crate::op::ints_ops::{shape_in_ints, shape_of_arithmetic};
use crate::op::plain::PlainOp;
use crate::op::reals_ops::shape_in_reals;
use crate::op::{ArraysOp, BitsOp, IntsOp, Op};
use crate::shapes::{Shape, rank_by};
use crate::sort::Sort;

/// The sort of the operator's result for arguments of these sorts; `None` where it has no rank for them.
pub fn rank(op: Op, args: &[Sort]) -> Option<Sort>
    ensures computed { result ≡ rank_of op args.now }
    ensures listed { (sort : SortView) → (result ≡ Some sort) ↔ HasRank op args.now sort }
{
    rank_by(shape(op), args)
}

/// The same sort as `rank` gives, for an operator that holds no number; it takes less time.
#[inline(always)]
pub fn plain_rank(op: PlainOp, args: &[Sort]) -> Option<Sort>
    ensures { result ≡ rank_of (op_of_plain op) args.now }
{
    match op {
        PlainOp::Select | PlainOp::Store => rank_out_of_line(op, args),
        _ => rank_by(plain_shape(op), args),
    }
}

// The same, for operators that few scripts have.
#[inline(never)]
fn rank_out_of_line(op: PlainOp, args: &[Sort]) -> Option<Sort>
    ensures { result ≡ rank_of (op_of_plain op) args.now }
{
    rank_by(plain_shape(op), args)
}

/// How an operator takes its arguments, and of which sort its result is.
pub fn shape(op: Op) -> Shape
    ensures { result ≡ shape_of op }
{
    match op {
        Op::Core(op) => shape_in_core(op),
        Op::Ints(op) => shape_in_ints(op),
        Op::Reals(op) => shape_in_reals(op),
        Op::Bits(op) => shape_in_bits(op),
        Op::Arrays(op) => shape_in_arrays(op),
    }
}

#[inline(always)]
fn plain_shape(op: PlainOp) -> Shape
    ensures { result ≡ shape_of (op_of_plain op) }
{
    match op {
        PlainOp::Core(op) => shape_in_core(op),
        PlainOp::Arithmetic(op) => shape_of_arithmetic(op),
        PlainOp::Order(op) => shape_in_ints(IntsOp::Comparison(op)),
        PlainOp::Mod => shape_in_ints(IntsOp::Mod),
        PlainOp::Abs => shape_in_ints(IntsOp::Abs),
        PlainOp::Reals(op) => shape_in_reals(op),
        PlainOp::Concat => shape_in_bits(BitsOp::Concat),
        PlainOp::Unary(op) => shape_in_bits(BitsOp::Unary(op)),
        PlainOp::Folded(op) => shape_in_bits(BitsOp::Folded(op)),
        PlainOp::Binary(op) => shape_in_bits(BitsOp::Binary(op)),
        PlainOp::BitsOrder(op) => shape_in_bits(BitsOp::Comparison(op)),
        PlainOp::Comp => shape_in_bits(BitsOp::Comp),
        PlainOp::Select => shape_in_arrays(ArraysOp::Select),
        PlainOp::Store => shape_in_arrays(ArraysOp::Store),
    }
}
