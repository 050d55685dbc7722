//! Operators that hold no number and no sort, in two bytes. This file finds no operator by its name, and gives none a
//! rank.

ghost use Rattle.std.specs.Prelude.{◌≡◌, IfSome, IfNone, IsTrue};
ghost use Rattle.smt_theory.specs.PlainOp.{has_number, op_of_plain};

use crate::op::arrays_ops::plain_arrays;
use crate::op::bits_ops::plain_bits;
use crate::op::ints_ops::plain_ints;
use crate::op::{
    Arithmetic, ArraysOp, BitsBinary, BitsComparison, BitsFolded, BitsOp, BitsUnary, Comparison,
    CoreOp, IntsOp, Op, RealsOp,
};

/// An operator that holds no number and no sort. It has two bytes, where an `Op` has 64.
#[derive(Clone, Copy)]
pub enum PlainOp {
    Core(CoreOp),
    Arithmetic(Arithmetic),
    Order(Comparison),
    Mod,
    Abs,
    Reals(RealsOp),
    Concat,
    Unary(BitsUnary),
    Folded(BitsFolded),
    Binary(BitsBinary),
    BitsOrder(BitsComparison),
    Comp,
    Select,
    Store,
}

impl PlainOp {
    /// This operator as an `Op`.
    pub fn op(self) -> Op
        ensures { result ≡ op_of_plain self }
    {
        match self {
            PlainOp::Core(op) => Op::Core(op),
            PlainOp::Arithmetic(op) => Op::Ints(IntsOp::Arithmetic(op)),
            PlainOp::Order(op) => Op::Ints(IntsOp::Comparison(op)),
            PlainOp::Mod => Op::Ints(IntsOp::Mod),
            PlainOp::Abs => Op::Ints(IntsOp::Abs),
            PlainOp::Reals(op) => Op::Reals(op),
            PlainOp::Concat => Op::Bits(BitsOp::Concat),
            PlainOp::Unary(op) => Op::Bits(BitsOp::Unary(op)),
            PlainOp::Folded(op) => Op::Bits(BitsOp::Folded(op)),
            PlainOp::Binary(op) => Op::Bits(BitsOp::Binary(op)),
            PlainOp::BitsOrder(op) => Op::Bits(BitsOp::Comparison(op)),
            PlainOp::Comp => Op::Bits(BitsOp::Comp),
            PlainOp::Select => Op::Arrays(ArraysOp::Select),
            PlainOp::Store => Op::Arrays(ArraysOp::Store),
        }
    }

    /// The plain form of an operator; `None` where it holds a number.
    #[inline(always)]
    pub fn from_op(op: Op) -> Option<PlainOp>
        ensures same { IfSome result (λ plain. op_of_plain plain ≡ op) }
        ensures none { IfNone result (IsTrue (has_number op)) }
    {
        match op {
            Op::Core(op) => Some(PlainOp::Core(op)),
            Op::Ints(op) => plain_ints(op),
            Op::Reals(op) => Some(PlainOp::Reals(op)),
            Op::Bits(op) => plain_bits(op),
            Op::Arrays(op) => plain_arrays(op),
        }
    }
}
