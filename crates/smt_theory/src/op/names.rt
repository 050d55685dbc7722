//! Operators by their names and indexes. This file knows no logic, and gives no operator a rank.

ghost use Rattle.std.specs.Prelude.{map, ◌≡◌, option_map};
ghost use Rattle.smt_theory.specs.Index.{index_view};
ghost use Rattle.smt_theory.specs.Operators.{indexed_op, name_of, op_by, plain_op};
ghost use Rattle.smt_theory.specs.PlainOp.{op_of_plain};
ghost use Rattle.smt_theory.specs.Words.{if_named};

use crate::index::Index;
use crate::op::arrays_ops::arrays_op;
use crate::op::bits_ops::{
    added_op, binary_name, bits_op, comparison_name, folded_name, has_conversions, indexed_bits_op,
    unary_name,
};
use crate::op::core_ops::{core_name, core_op};
use crate::op::ints_ops::{arithmetic_name, divisible, order_name};
use crate::op::plain::PlainOp;
use crate::op::reals_ops::{number_op, reals_name, reals_op};
use crate::op::{Op, OpFault};
use crate::symbols::is_named;
use crate::theories::Theories;

/// The operator that these theories have for this symbol (without bars) with these indexes.
///
/// `Unknown` where they have no operator of that name in that form; `Index` where the indexes are wrong in
/// number, kind or range.
#[tactic(auto, using(crate::proofs::OperatorLemmas::op_by_indexed))]
pub fn op_of(theories: Theories, symbol: &[u8], indexes: &[Index]) -> Result<Op, OpFault>
    ensures { result ≡ op_by theories symbol.now (map index_view indexes.now) }
{
    if indexes.is_empty() {
        match plain_op_of(theories, symbol) {
            Some(op) => Ok(op.op()),
            None => Err(OpFault::Unknown),
        }
    } else {
        indexed(theories, symbol, indexes)
    }
}

/// The operator without indexes that these theories have for this symbol (without bars); `None` where there
/// is none.
#[inline(always)]
pub fn plain_op_of(theories: Theories, symbol: &[u8]) -> Option<PlainOp>
    ensures { option_map op_of_plain result ≡ plain_op theories symbol.now }
{
    if let Some(op) = core_op(symbol) {
        return Some(op);
    }
    if let Some(op) = number_op(theories, symbol) {
        return Some(op);
    }
    if theories.bits
        && let Some(op) = bits_op(symbol)
    {
        return Some(op);
    }
    if let Some(op) = reals_op(theories, symbol) {
        return Some(op);
    }
    if let Some(op) = arrays_op(theories, symbol) {
        return Some(op);
    }
    added_op(theories, symbol)
}

fn indexed(theories: Theories, symbol: &[u8], indexes: &[Index]) -> Result<Op, OpFault>
    ensures { result ≡ indexed_op theories symbol.now (map index_view indexes.now) }
{
    if theories.ints && is_named(symbol, b"divisible") {
        divisible(indexes).ok_or(OpFault::Index)
    } else if theories.bits {
        match indexed_bits_op(has_conversions(theories), symbol, indexes) {
            Ok(op) => Ok(Op::Bits(op)),
            Err(fault) => Err(fault),
        }
    } else {
        Err(OpFault::Unknown)
    }
}

/// The operator that a name can be, where it has that name.
#[inline(always)]
pub(crate) fn if_named(symbol: &[u8], like: Option<PlainOp>) -> Option<PlainOp>
    ensures { result ≡ if_named (λ op. name_of (op_of_plain op)) symbol.now like }
{
    let op = like?;
    is_named(symbol, plain_name(op)).then_some(op)
}

// The name of an operator.
#[inline(always)]
fn plain_name(op: PlainOp) -> &'static [u8]
    ensures { result.now ≡ name_of (op_of_plain op) }
{
    match op {
        PlainOp::Core(op) => core_name(op),
        PlainOp::Arithmetic(op) => arithmetic_name(op),
        PlainOp::Order(op) => order_name(op),
        PlainOp::Mod => b"mod",
        PlainOp::Abs => b"abs",
        PlainOp::Reals(op) => reals_name(op),
        PlainOp::Concat => b"concat",
        PlainOp::Unary(op) => unary_name(op),
        PlainOp::Folded(op) => folded_name(op),
        PlainOp::Binary(op) => binary_name(op),
        PlainOp::BitsOrder(op) => comparison_name(op),
        PlainOp::Comp => b"bvcomp",
        PlainOp::Select => b"select",
        PlainOp::Store => b"store",
    }
}
