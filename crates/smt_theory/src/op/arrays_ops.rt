//! The theory ArraysEx: its operators, each with its shape, and `const`. This file knows no other theory.

ghost use Rattle.std.specs.Prelude.{◌≡◌, if◌then◌else◌, None, IfNone, IfSome, IsTrue, option_map};
ghost use Rattle.smt_theory.specs.Arrays.{arrays_named, arrays_number, arrays_shape};
ghost use Rattle.smt_theory.specs.PlainOp.{op_of_plain};
ghost use Rattle.smt_theory.specs.declared.op.Op.TheVariants as ops;

use crate::op::ArraysOp;
use crate::op::plain::PlainOp;
use crate::shapes::Shape;
use crate::symbols::is_named;
use crate::theories::Theories;

/// How an operator on arrays takes its arguments.
#[inline(always)]
pub(crate) fn shape_in_arrays(op: ArraysOp) -> Shape
    ensures { result ≡ arrays_shape op }
{
    match op {
        ArraysOp::Select => Shape::Selected,
        ArraysOp::Store => Shape::Stored,
        ArraysOp::Const(sort) => Shape::Filled(sort),
    }
}

/// The operator on arrays of this name, if these theories have arrays.
pub(crate) fn arrays_op(theories: Theories, symbol: &[u8]) -> Option<PlainOp>
    ensures { option_map op_of_plain result
        ≡ (if theories.arrays then option_map ops.Arrays (arrays_named symbol.now) else None) }
{
    if !theories.arrays {
        None
    } else if is_named(symbol, b"select") {
        Some(PlainOp::Select)
    } else if is_named(symbol, b"store") {
        Some(PlainOp::Store)
    } else {
        None
    }
}

/// The plain form of an operator on arrays; `None` where it holds its sort.
#[inline(always)]
pub(crate) fn plain_arrays(op: ArraysOp) -> Option<PlainOp>
    ensures same { IfSome result (λ plain. op_of_plain plain ≡ ops.Arrays op) }
    ensures none { IfNone result (IsTrue (arrays_number op)) }
{
    match op {
        ArraysOp::Select => Some(PlainOp::Select),
        ArraysOp::Store => Some(PlainOp::Store),
        ArraysOp::Const(_) => None,
    }
}
