//! The theory Core: its operators by name, each with its shape. This file knows no other theory.

ghost use Rattle.std.specs.Prelude.{◌≡◌, option_map};
ghost use Rattle.smt_theory.specs.Core as core;
ghost use Rattle.smt_theory.specs.Core.{core_named, core_shape};
ghost use Rattle.smt_theory.specs.PlainOp.{op_of_plain};
ghost use Rattle.smt_theory.specs.Sort.{Boolean};
ghost use Rattle.smt_theory.specs.declared.op.Op.TheVariants as ops;
ghost use Rattle.smt_theory.specs.declared.shapes.Shape.TheVariants.{Uniform};

use crate::op::CoreOp;
use crate::op::names::if_named;
use crate::op::plain::PlainOp;
use crate::shapes::{Arity, Shape};
use crate::sort::Sort;
use crate::symbols::byte_at;

/// How an operator of Core takes its arguments.
#[inline(always)]
pub(crate) fn shape_in_core(op: CoreOp) -> Shape
    ensures { result ≡ core_shape op }
{
    match op {
        CoreOp::True | CoreOp::False => Shape::Constant(Sort::bool()),
        CoreOp::Not => of_bools(Arity::One),
        CoreOp::Implies | CoreOp::And | CoreOp::Or | CoreOp::Xor => of_bools(Arity::Several),
        CoreOp::Equal | CoreOp::Distinct => Shape::Alike,
        CoreOp::Ite => Shape::Choice,
    }
}

// So many truth values, of which a truth value is made.
#[inline(always)]
fn of_bools(arity: Arity) -> Shape
    ensures { result ≡ Uniform arity Boolean Boolean }
{
    Shape::Uniform(arity, Sort::bool(), Sort::bool())
}

/// The operator of Core of this name. The length and the first byte single out the one that it can be.
#[inline(always)]
pub(crate) fn core_op(symbol: &[u8]) -> Option<PlainOp>
    ensures { option_map op_of_plain result ≡ option_map ops.Core (core_named symbol.now) }
{
    if_named(symbol, core_like(symbol.len(), byte_at(symbol, 0)))
}

#[inline(always)]
fn core_like(length: usize, first: u8) -> Option<PlainOp>
    ensures { option_map op_of_plain result ≡ option_map ops.Core (core.core_like length first) }
{
    match (length, first) {
        (1, b'=') => Some(PlainOp::Core(CoreOp::Equal)),
        (2, b'=') => Some(PlainOp::Core(CoreOp::Implies)),
        (2, b'o') => Some(PlainOp::Core(CoreOp::Or)),
        (3, b'a') => Some(PlainOp::Core(CoreOp::And)),
        (3, b'i') => Some(PlainOp::Core(CoreOp::Ite)),
        (3, b'n') => Some(PlainOp::Core(CoreOp::Not)),
        (3, b'x') => Some(PlainOp::Core(CoreOp::Xor)),
        (4, b't') => Some(PlainOp::Core(CoreOp::True)),
        (5, b'f') => Some(PlainOp::Core(CoreOp::False)),
        (8, b'd') => Some(PlainOp::Core(CoreOp::Distinct)),
        _ => None,
    }
}

/// The name of an operator of Core.
#[inline(always)]
pub(crate) fn core_name(op: CoreOp) -> &'static [u8]
    ensures { result.now ≡ core.core_name op }
{
    match op {
        CoreOp::True => b"true",
        CoreOp::False => b"false",
        CoreOp::Not => b"not",
        CoreOp::Implies => b"=>",
        CoreOp::And => b"and",
        CoreOp::Or => b"or",
        CoreOp::Xor => b"xor",
        CoreOp::Equal => b"=",
        CoreOp::Distinct => b"distinct",
        CoreOp::Ite => b"ite",
    }
}
