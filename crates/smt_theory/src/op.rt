//! Operators by theory, and why an identifier is none. This file finds no operator by its name, and gives
//! none a rank.

pub(crate) mod arrays_ops;
pub(crate) mod bits_ops;
pub(crate) mod core_ops;
pub(crate) mod ints_ops;
pub(crate) mod names;
pub(crate) mod plain;
pub(crate) mod reals_ops;

ghost use Rattle.std.specs.Prelude.{◌≡◌, IsTrue};
ghost use Rattle.smt_theory.specs.Operators.{is_choice};
ghost use Rattle.smt_theory.specs.declared.op.CoreOp.TheVariants.{Ite};
ghost use Rattle.smt_theory.specs.declared.op.Op.TheVariants.{Core};

use crate::sort::Sort;
use crate::width::Width;
use std::error::Error;
use std::fmt;

/// An operator of a theory, with its indexes.
#[derive(Clone, Copy)]
pub enum Op {
    Core(CoreOp),
    Ints(IntsOp),
    Reals(RealsOp),
    Bits(BitsOp),
    Arrays(ArraysOp),
}

impl Op {
    /// Whether it is `ite`, which needs the value of one branch alone.
    #[inline(always)]
    pub fn is_choice(&self) -> bool
        ensures exact { result ≡ is_choice self.now }
        ensures choice { IsTrue result → self.now ≡ Core Ite }
    {
        matches!(self, Op::Core(CoreOp::Ite))
    }
}

/// An operator of the theory Core.
#[derive(Clone, Copy)]
pub enum CoreOp {
    True,
    False,
    Not,
    /// `=>`
    Implies,
    And,
    Or,
    Xor,
    /// `=`
    Equal,
    Distinct,
    /// `ite`
    Ite,
}

/// An operator of the theory Ints. Those on numbers, `-`, `+`, `*` and the relations, are of the theory Reals too.
#[derive(Clone, Copy)]
pub enum IntsOp {
    Arithmetic(Arithmetic),
    Comparison(Comparison),
    Mod,
    Abs,
    /// `(_ divisible n)`: an operator where n is 1 or more.
    Divisible(u64),
}

/// An operator on numbers, or on integers (`div`), that is applied from the left.
#[derive(Clone, Copy)]
pub enum Arithmetic {
    /// `-`, which negates where it has one argument.
    Minus,
    Plus,
    Times,
    Div,
}

/// A relation on numbers that is chained.
#[derive(Clone, Copy)]
pub enum Comparison {
    /// `<=`
    AtMost,
    /// `<`
    Less,
    /// `>=`
    AtLeast,
    /// `>`
    Greater,
}

/// An operator of the theory Reals, or one that the theory Reals_Ints adds.
#[derive(Clone, Copy)]
pub enum RealsOp {
    /// `/`
    Divide,
    /// `to_real`
    ToReal,
    /// `to_int`
    ToInt,
    /// `is_int`
    IsInt,
}

/// An operator of the theory ArraysEx, or `const`.
#[derive(Clone, Copy)]
pub enum ArraysOp {
    /// `select`
    Select,
    /// `store`
    Store,
    /// `(as const o)`: the array of the sort o that has one element everywhere; an operator where o is a sort of
    /// arrays.
    Const(Sort),
}

/// An operator of the theory FixedSizeBitVectors, one that the logic QF_BV adds, or one of SMT-LIB 2.7: whether a
/// result overflows, and integers to bit vectors and back.
#[derive(Clone, Copy)]
pub enum BitsOp {
    /// `(_ bvX n)`: the number X in n bits; an operator where X is below 2^n.
    Constant(u128, Width),
    Concat,
    /// `(_ extract i j)`: bits i down to j; an operator where j is at most i.
    Extract(u64, u64),
    Unary(BitsUnary),
    Folded(BitsFolded),
    Binary(BitsBinary),
    Comparison(BitsComparison),
    /// `bvcomp`
    Comp,
    /// `(_ repeat i)`: an operator where i is 1 or more.
    Repeat(u64),
    /// `(_ zero_extend i)`
    ZeroExtend(u64),
    /// `(_ sign_extend i)`
    SignExtend(u64),
    /// `(_ rotate_left i)`
    RotateLeft(u64),
    /// `(_ rotate_right i)`
    RotateRight(u64),
    /// `(_ int_to_bv n)`, which makes n bits of an integer.
    FromInt(Width),
    /// `(_ int2bv n)`, the older name of the same.
    FromIntOlder(Width),
}

/// An operator on one bit vector.
#[derive(Clone, Copy)]
pub enum BitsUnary {
    /// `bvnot`
    Not,
    /// `bvneg`
    Negate,
    /// `bvnego`: whether the negative does not fit.
    NegateOverflows,
    /// `ubv_to_int`, which makes an integer.
    ToInt,
    /// `bv2nat`, the older name of the same.
    ToIntOlder,
    /// `sbv_to_int`: the same of the signed reading.
    SignedToInt,
}

/// An operator on two or more bit vectors that is applied from the left.
#[derive(Clone, Copy)]
pub enum BitsFolded {
    /// `bvand`
    And,
    /// `bvor`
    Or,
    /// `bvxor`
    Xor,
    /// `bvadd`
    Add,
    /// `bvmul`
    Multiply,
}

/// An operator on two bit vectors whose result is a bit vector.
#[derive(Clone, Copy)]
pub enum BitsBinary {
    /// `bvnand`
    Nand,
    /// `bvnor`
    Nor,
    /// `bvxnor`
    Xnor,
    /// `bvsub`
    Subtract,
    /// `bvudiv`
    DivideUnsigned,
    /// `bvurem`
    RemainderUnsigned,
    /// `bvsdiv`
    DivideSigned,
    /// `bvsrem`
    RemainderSigned,
    /// `bvsmod`
    ModuloSigned,
    /// `bvshl`
    ShiftLeft,
    /// `bvlshr`
    ShiftRight,
    /// `bvashr`
    ShiftRightSigned,
}

/// A relation on two bit vectors. One whose name ends with `Overflows` holds where the exact result does not fit.
#[derive(Clone, Copy)]
pub enum BitsComparison {
    /// `bvult`
    UnsignedLess,
    /// `bvule`
    UnsignedAtMost,
    /// `bvugt`
    UnsignedGreater,
    /// `bvuge`
    UnsignedAtLeast,
    /// `bvslt`
    SignedLess,
    /// `bvsle`
    SignedAtMost,
    /// `bvsgt`
    SignedGreater,
    /// `bvsge`
    SignedAtLeast,
    /// `bvuaddo`
    UnsignedAddOverflows,
    /// `bvsaddo`
    SignedAddOverflows,
    /// `bvumulo`
    UnsignedMultiplyOverflows,
    /// `bvsmulo`
    SignedMultiplyOverflows,
    /// `bvusubo`
    UnsignedSubtractOverflows,
    /// `bvssubo`
    SignedSubtractOverflows,
    /// `bvsdivo`
    SignedDivideOverflows,
}

/// Why an identifier names no operator.
#[derive(Clone, Copy, Debug)]
pub enum OpFault {
    /// No operator has that name in that form: plain where there are no indexes, indexed where there are
    /// some.
    Unknown,
    /// The name is that of an indexed operator, and the indexes are wrong in number, kind or range.
    Index,
}

impl fmt::Display for OpFault {
    ghost use Rattle.std.specs.Prelude.{Some};
    ghost use Rattle.smt_theory.specs.Operators.{text_of_op_fault};

    ghost output = { λ x. Some (text_of_op_fault x) };

    fn fmt<W: fmt::Write>(&self, f: &mut fmt::Formatter<W>) -> fmt::Result {
        f.write_str(match self {
            OpFault::Unknown => "unknown operator",
            OpFault::Index => "wrong indexes",
        })
    }
}

impl Error for OpFault {}
