//! The theory Reals, with what Reals_Ints adds: its operators that are none of Ints by name, each with its shape, and
//! which operators there are. This file knows no bit vector.

ghost use Rattle.std.specs.Prelude.{◌≡◌, option_map};
ghost use Rattle.smt_theory.specs.Operators.{has_ints_op, is_of_both};
ghost use Rattle.smt_theory.specs.Ints.{ints_named};
ghost use Rattle.smt_theory.specs.PlainOp.{op_of_plain};
ghost use Rattle.smt_theory.specs.Reals.{has_reals_op, reals_named, reals_shape};
ghost use Rattle.smt_theory.specs.Reals as specs;
ghost use Rattle.smt_theory.specs.Words.{if_passes};
ghost use Rattle.smt_theory.specs.declared.op.Op.TheVariants as ops;

use crate::op::ints_ops::ints_op;
use crate::op::plain::PlainOp;
use crate::op::{Arithmetic, RealsOp};
use crate::shapes::{Arity, Shape};
use crate::sort::Sort;
use crate::symbols::is_named;
use crate::theories::Theories;

/// How an operator of Reals takes its arguments.
#[inline(always)]
pub(crate) fn shape_in_reals(op: RealsOp) -> Shape
    ensures { result ≡ reals_shape op }
{
    match op {
        RealsOp::Divide => Shape::Numbers(Arity::Several, Sort::real()),
        RealsOp::ToReal => Shape::Uniform(Arity::One, Sort::int(), Sort::real()),
        RealsOp::ToInt => Shape::Numbers(Arity::One, Sort::int()),
        RealsOp::IsInt => Shape::Numbers(Arity::One, Sort::bool()),
    }
}

/// The operator of Ints of this name that these theories have, perhaps as one of Reals.
#[inline(always)]
pub(crate) fn number_op(theories: Theories, symbol: &[u8]) -> Option<PlainOp>
    ensures { option_map op_of_plain result
        ≡ option_map ops.Ints (if_passes (has_ints_op theories) (ints_named symbol.now)) }
{
    if theories.ints {
        ints_op(symbol)
    } else if theories.reals {
        if_of_both(ints_op(symbol))
    } else {
        None
    }
}

fn if_of_both(found: Option<PlainOp>) -> Option<PlainOp>
    ensures { result ≡ if_passes (λ op. is_of_both (op_of_plain op)) found }
{
    let op = found?;
    is_of_both(op).then_some(op)
}

fn is_of_both(op: PlainOp) -> bool
    ensures { result ≡ is_of_both (op_of_plain op) }
{
    match op {
        PlainOp::Order(_) => true,
        PlainOp::Arithmetic(Arithmetic::Minus | Arithmetic::Plus | Arithmetic::Times) => true,
        _ => false,
    }
}

/// The operator of Reals of this name that these theories have.
pub(crate) fn reals_op(theories: Theories, symbol: &[u8]) -> Option<PlainOp>
    ensures { option_map op_of_plain result
        ≡ option_map ops.Reals (if_passes (has_reals_op theories) (reals_named symbol.now)) }
{
    let op = named(symbol)?;
    has_reals_op(theories, op).then_some(PlainOp::Reals(op))
}

fn named(symbol: &[u8]) -> Option<RealsOp>
    ensures { result ≡ reals_named symbol.now }
{
    if is_named(symbol, b"/") {
        Some(RealsOp::Divide)
    } else if is_named(symbol, b"to_real") {
        Some(RealsOp::ToReal)
    } else if is_named(symbol, b"to_int") {
        Some(RealsOp::ToInt)
    } else if is_named(symbol, b"is_int") {
        Some(RealsOp::IsInt)
    } else {
        None
    }
}

fn has_reals_op(theories: Theories, op: RealsOp) -> bool
    ensures { result ≡ has_reals_op theories op }
{
    match op {
        RealsOp::Divide => theories.reals,
        RealsOp::ToReal | RealsOp::ToInt | RealsOp::IsInt => theories.reals && theories.ints,
    }
}

/// The name of an operator of Reals.
#[inline(always)]
pub(crate) fn reals_name(op: RealsOp) -> &'static [u8]
    ensures { result.now ≡ specs.reals_name op }
{
    match op {
        RealsOp::Divide => b"/",
        RealsOp::ToReal => b"to_real",
        RealsOp::ToInt => b"to_int",
        RealsOp::IsInt => b"is_int",
    }
}
