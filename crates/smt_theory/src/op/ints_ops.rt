//! The theory Ints: its operators by name and indexes, each with its shape. This file knows no other theory.

ghost use Rattle.std.specs.Prelude.{◌≡◌, IfNone, IfSome, IsTrue, map, option_map};
ghost use Rattle.smt_theory.specs.Index.{index_view};
ghost use Rattle.smt_theory.specs.Ints as specs;
ghost use Rattle.smt_theory.specs.Ints.{divisible_by, ints_named, ints_shape};
ghost use Rattle.smt_theory.specs.PlainOp.{has_number, op_of_plain};
ghost use Rattle.smt_theory.specs.Sort.{Int};
ghost use Rattle.smt_theory.specs.declared.op.IntsOp.TheVariants as ints;
ghost use Rattle.smt_theory.specs.declared.op.Op.TheVariants as ops;
ghost use Rattle.smt_theory.specs.declared.shapes.Shape.TheVariants.{Uniform};

use crate::index::Index;
use crate::op::names::if_named;
use crate::op::plain::PlainOp;
use crate::op::{Arithmetic, Comparison, IntsOp, Op};
use crate::shapes::{Arity, Shape};
use crate::sort::Sort;
use crate::symbols::byte_at;

/// How an operator of Ints takes its arguments.
#[inline(always)]
pub(crate) fn shape_in_ints(op: IntsOp) -> Shape
    ensures { result ≡ ints_shape op }
{
    match op {
        IntsOp::Arithmetic(op) => shape_of_arithmetic(op),
        IntsOp::Comparison(_) => Shape::Numbers(Arity::Several, Sort::bool()),
        IntsOp::Mod => of_ints(Arity::Two),
        IntsOp::Abs => of_ints(Arity::One),
        IntsOp::Divisible(0) => Shape::OutOfRange,
        IntsOp::Divisible(_) => Shape::Uniform(Arity::One, Sort::int(), Sort::bool()),
    }
}

/// The same of one that is applied from the left.
#[inline(always)]
pub(crate) fn shape_of_arithmetic(op: Arithmetic) -> Shape
    ensures { result ≡ ints_shape (ints.Arithmetic op) }
{
    match op {
        Arithmetic::Minus => Shape::Calculated(Arity::OneOrMore),
        Arithmetic::Plus | Arithmetic::Times => Shape::Calculated(Arity::Several),
        Arithmetic::Div => of_ints(Arity::Several),
    }
}

// So many integers, of which an integer is made.
#[inline(always)]
fn of_ints(arity: Arity) -> Shape
    ensures { result ≡ Uniform arity Int Int }
{
    Shape::Uniform(arity, Sort::int(), Sort::int())
}

/// The plain form of an operator on integers; `None` where it holds a number.
#[inline(always)]
pub(crate) fn plain_ints(op: IntsOp) -> Option<PlainOp>
    ensures same { IfSome result (λ plain. op_of_plain plain ≡ ops.Ints op) }
    ensures none { IfNone result (IsTrue (has_number (ops.Ints op))) }
{
    match op {
        IntsOp::Arithmetic(op) => Some(PlainOp::Arithmetic(op)),
        IntsOp::Comparison(op) => Some(PlainOp::Order(op)),
        IntsOp::Mod => Some(PlainOp::Mod),
        IntsOp::Abs => Some(PlainOp::Abs),
        IntsOp::Divisible(_) => None,
    }
}

/// The operator `(_ divisible index ..)`; `None` where the indexes are not one number that is not 0.
pub(crate) fn divisible(indexes: &[Index]) -> Option<Op>
    ensures { result ≡ divisible_by (map index_view indexes.now) }
{
    match indexes {
        [Index::Number(n)] if *n > 0 => Some(Op::Ints(IntsOp::Divisible(*n))),
        _ => None,
    }
}

/// The operator of Ints of this name, or of numbers, found as those of Core are.
#[inline(always)]
pub(crate) fn ints_op(symbol: &[u8]) -> Option<PlainOp>
    ensures { option_map op_of_plain result ≡ option_map ops.Ints (ints_named symbol.now) }
{
    if_named(symbol, ints_like(symbol.len(), byte_at(symbol, 0)))
}

#[inline(always)]
fn ints_like(length: usize, first: u8) -> Option<PlainOp>
    ensures { option_map op_of_plain result ≡ option_map ops.Ints (specs.ints_like length first) }
{
    match (length, first) {
        (1, b'-') => Some(PlainOp::Arithmetic(Arithmetic::Minus)),
        (1, b'+') => Some(PlainOp::Arithmetic(Arithmetic::Plus)),
        (1, b'*') => Some(PlainOp::Arithmetic(Arithmetic::Times)),
        (1, b'<') => Some(PlainOp::Order(Comparison::Less)),
        (1, b'>') => Some(PlainOp::Order(Comparison::Greater)),
        (2, b'<') => Some(PlainOp::Order(Comparison::AtMost)),
        (2, b'>') => Some(PlainOp::Order(Comparison::AtLeast)),
        (3, b'a') => Some(PlainOp::Abs),
        (3, b'd') => Some(PlainOp::Arithmetic(Arithmetic::Div)),
        (3, b'm') => Some(PlainOp::Mod),
        _ => None,
    }
}

/// The name of an operator that is applied from the left.
#[inline(always)]
pub(crate) fn arithmetic_name(op: Arithmetic) -> &'static [u8]
    ensures { result.now ≡ specs.ints_name (ints.Arithmetic op) }
{
    match op {
        Arithmetic::Minus => b"-",
        Arithmetic::Plus => b"+",
        Arithmetic::Times => b"*",
        Arithmetic::Div => b"div",
    }
}

/// The name of a relation.
#[inline(always)]
pub(crate) fn order_name(op: Comparison) -> &'static [u8]
    ensures { result.now ≡ specs.ints_name (ints.Comparison op) }
{
    match op {
        Comparison::AtMost => b"<=",
        Comparison::Less => b"<",
        Comparison::AtLeast => b">=",
        Comparison::Greater => b">",
    }
}
