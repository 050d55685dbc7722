//! The theory FixedSizeBitVectors, with what the logic QF_BV and SMT-LIB 2.7 add: its operators by name and indexes,
//! each with its shape, and which of them there are. This file knows no bits.

ghost use Rattle.std.specs.Prelude.{◌≡◌, ◌==◌, IfNone, IfSome, IsTrue, map, option_map, bytes_eq, codes};
ghost use Rattle.std.specs.Option.{option_copied};
ghost use Rattle.smt_theory.specs.Bits.{bits_named, constant_by, extract_by, repeat_by};
ghost use Rattle.smt_theory.specs.Bits.{added_op, conversion_plain, has_conversions, indexed_bits, named_among};
ghost use Rattle.smt_theory.specs.Bits.{overflow_plain};
ghost use Rattle.smt_theory.specs.Bits as names;
ghost use Rattle.smt_theory.specs.declared.op.BitsOp.TheVariants as ops;
ghost use Rattle.smt_theory.specs.declared.op.Op.TheVariants.{Bits};
ghost use Rattle.smt_theory.specs.PlainOp.{has_number, op_of_plain};
ghost use Rattle.smt_theory.specs.declared.shapes.Arity.TheVariants.{Two};
ghost use Rattle.smt_theory.specs.declared.shapes.Made.TheVariants as made;
ghost use Rattle.smt_theory.specs.declared.shapes.Shape.TheVariants.{Vectors};
ghost use Rattle.smt_theory.specs.Index.{index_view};

use crate::index::Index;
use crate::numbers::{is_numeral, number};
use crate::op::names::if_named;
use crate::op::plain::PlainOp;
use crate::op::{BitsBinary, BitsComparison, BitsFolded, BitsOp, BitsUnary, OpFault};
use crate::shapes::{Arity, Made, Shape};
use crate::sort::Sort;
use crate::symbols::{byte_at, is_named};
use crate::theories::Theories;
use crate::width::Width;

/// How an operator on bit vectors takes its arguments.
#[inline(always)]
pub(crate) fn shape_in_bits(op: BitsOp) -> Shape
    ensures { result ≡ names.bits_shape op }
{
    match op {
        BitsOp::Constant(number, width) => shape_of_constant(number, width),
        BitsOp::Concat => Shape::Joined,
        BitsOp::Extract(i, j) => Shape::Vectors(Arity::One, Made::Slice(i, j)),
        BitsOp::Unary(op) => Shape::Vectors(Arity::One, made_of_one(op)),
        BitsOp::Folded(_) => Shape::Vectors(Arity::Several, Made::Same),
        BitsOp::Binary(_) => Shape::Vectors(Arity::Two, Made::Same),
        BitsOp::Comparison(_) => of_two_vectors(Sort::bool()),
        BitsOp::Comp => of_two_vectors(Sort::bits(Width::one())),
        BitsOp::Repeat(i) => Shape::Vectors(Arity::One, Made::Times(i)),
        BitsOp::ZeroExtend(i) | BitsOp::SignExtend(i) => Shape::Vectors(
            Arity::One,
            Made::Longer(i),
        ),
        BitsOp::RotateLeft(_) | BitsOp::RotateRight(_) => Shape::Vectors(Arity::One, Made::Same),
        BitsOp::FromInt(width) | BitsOp::FromIntOlder(width) => shape_from_int(width),
    }
}

#[inline(always)]
fn shape_from_int(width: Width) -> Shape
    ensures { result ≡ names.shape_from_int width }
{
    Shape::Uniform(Arity::One, Sort::int(), Sort::bits(width))
}

// What is made of one bit vector.
#[inline(always)]
fn made_of_one(op: BitsUnary) -> Made
    ensures { result ≡ names.made_of_one op }
{
    match op {
        BitsUnary::Not | BitsUnary::Negate => Made::Same,
        BitsUnary::NegateOverflows => Made::Given(Sort::bool()),
        BitsUnary::ToInt | BitsUnary::ToIntOlder | BitsUnary::SignedToInt => Made::Given(
            Sort::int(),
        ),
    }
}

fn shape_of_constant(number: u128, width: Width) -> Shape
    ensures { result ≡ names.bits_shape (ops.Constant number width) }
{
    if width.holds(number) {
        Shape::Constant(Sort::bits(width))
    } else {
        Shape::OutOfRange
    }
}

// Two bit vectors of one width, of which something of this sort is made.
#[inline(always)]
fn of_two_vectors(given: Sort) -> Shape
    ensures { result ≡ Vectors Two (made.Given given) }
{
    Shape::Vectors(Arity::Two, Made::Given(given))
}

/// The plain form of an operator on bit vectors; `None` where it holds a number.
#[inline(always)]
pub(crate) fn plain_bits(op: BitsOp) -> Option<PlainOp>
    ensures same { IfSome result (λ plain. op_of_plain plain ≡ Bits op) }
    ensures none { IfNone result (IsTrue (has_number (Bits op))) }
{
    match op {
        BitsOp::Concat => Some(PlainOp::Concat),
        BitsOp::Unary(op) => Some(PlainOp::Unary(op)),
        BitsOp::Folded(op) => Some(PlainOp::Folded(op)),
        BitsOp::Binary(op) => Some(PlainOp::Binary(op)),
        BitsOp::Comparison(op) => Some(PlainOp::BitsOrder(op)),
        BitsOp::Comp => Some(PlainOp::Comp),
        BitsOp::Constant(_, _) => None,
        BitsOp::Extract(_, _) => None,
        BitsOp::Repeat(_) => None,
        BitsOp::ZeroExtend(_) => None,
        BitsOp::SignExtend(_) => None,
        BitsOp::RotateLeft(_) => None,
        BitsOp::RotateRight(_) => None,
        BitsOp::FromInt(_) => None,
        BitsOp::FromIntOlder(_) => None,
    }
}

/// Whether integers become bit vectors in these theories, and bit vectors integers.
#[inline(always)]
pub(crate) fn has_conversions(theories: Theories) -> bool
    ensures { result ≡ has_conversions theories }
{
    theories.wide && theories.bits && theories.ints
}

/// The plain operator of this name that the profile Wide adds.
pub(crate) fn added_op(theories: Theories, symbol: &[u8]) -> Option<PlainOp>
    ensures { option_map op_of_plain result ≡ option_map Bits (added_op theories symbol.now) }
{
    if !theories.wide || !theories.bits {
        return None;
    }
    match overflow_op(symbol) {
        Some(op) => Some(op),
        None if theories.ints => conversion_op(symbol),
        None => None,
    }
}

// The operator of this name that tells whether a result overflows.
fn overflow_op(symbol: &[u8]) -> Option<PlainOp>
    ensures { option_map op_of_plain result ≡ option_map Bits (named_among overflow_plain symbol.now) }
{
    if is_named(symbol, b"bvnego") {
        Some(PlainOp::Unary(BitsUnary::NegateOverflows))
    } else if is_named(symbol, b"bvuaddo") {
        Some(PlainOp::BitsOrder(BitsComparison::UnsignedAddOverflows))
    } else if is_named(symbol, b"bvsaddo") {
        Some(PlainOp::BitsOrder(BitsComparison::SignedAddOverflows))
    } else if is_named(symbol, b"bvumulo") {
        Some(PlainOp::BitsOrder(BitsComparison::UnsignedMultiplyOverflows))
    } else if is_named(symbol, b"bvsmulo") {
        Some(PlainOp::BitsOrder(BitsComparison::SignedMultiplyOverflows))
    } else if is_named(symbol, b"bvusubo") {
        Some(PlainOp::BitsOrder(BitsComparison::UnsignedSubtractOverflows))
    } else if is_named(symbol, b"bvssubo") {
        Some(PlainOp::BitsOrder(BitsComparison::SignedSubtractOverflows))
    } else if is_named(symbol, b"bvsdivo") {
        Some(PlainOp::BitsOrder(BitsComparison::SignedDivideOverflows))
    } else {
        None
    }
}

// The operator of this name that makes an integer of a bit vector.
fn conversion_op(symbol: &[u8]) -> Option<PlainOp>
    ensures { option_map op_of_plain result ≡ option_map Bits (named_among conversion_plain symbol.now) }
{
    if is_named(symbol, b"ubv_to_int") {
        Some(PlainOp::Unary(BitsUnary::ToInt))
    } else if is_named(symbol, b"bv2nat") {
        Some(PlainOp::Unary(BitsUnary::ToIntOlder))
    } else if is_named(symbol, b"sbv_to_int") {
        Some(PlainOp::Unary(BitsUnary::SignedToInt))
    } else {
        None
    }
}

/// The plain operator of this name. There are many names: the length and three bytes single out the one
/// operator that it can be, whose name is then compared.
#[inline(always)]
pub(crate) fn bits_op(symbol: &[u8]) -> Option<PlainOp>
    ensures { option_map op_of_plain result ≡ option_map Bits (bits_named symbol.now) }
{
    let third = byte_at(symbol, 2);
    let fourth = byte_at(symbol, 3);
    let fifth = byte_at(symbol, 4);
    if_named(symbol, bits_like(symbol.len(), third, fourth, fifth))
}

// The one plain operator that a name of this length with these bytes can be.
#[inline(always)]
fn bits_like(length: usize, third: u8, fourth: u8, fifth: u8) -> Option<PlainOp>
    ensures { option_map op_of_plain result ≡ option_map Bits (names.bits_like length third fourth fifth) }
{
    if length == 5 {
        bits_of_five(third, fourth, fifth)
    } else if length == 6 {
        bits_of_six(third, fourth)
    } else if length == 4 && third == b'o' {
        Some(PlainOp::Folded(BitsFolded::Or))
    } else {
        None
    }
}

#[inline(always)]
fn bits_of_five(third: u8, fourth: u8, fifth: u8) -> Option<PlainOp>
    ensures { option_map op_of_plain result ≡ option_map Bits (names.bits_of_five third fourth fifth) }
{
    match (third, fourth, fifth) {
        (b'a', b'd', _) => Some(PlainOp::Folded(BitsFolded::Add)),
        (b'a', b'n', _) => Some(PlainOp::Folded(BitsFolded::And)),
        (b'm', _, _) => Some(PlainOp::Folded(BitsFolded::Multiply)),
        (b'n', b'e', _) => Some(PlainOp::Unary(BitsUnary::Negate)),
        (b'n', b'o', b't') => Some(PlainOp::Unary(BitsUnary::Not)),
        (b'n', b'o', b'r') => Some(PlainOp::Binary(BitsBinary::Nor)),
        (b's', b'h', _) => Some(PlainOp::Binary(BitsBinary::ShiftLeft)),
        (b's', b'u', _) => Some(PlainOp::Binary(BitsBinary::Subtract)),
        (b's', b'g', b'e') => Some(PlainOp::BitsOrder(BitsComparison::SignedAtLeast)),
        (b's', b'g', b't') => Some(PlainOp::BitsOrder(BitsComparison::SignedGreater)),
        (b's', b'l', b'e') => Some(PlainOp::BitsOrder(BitsComparison::SignedAtMost)),
        (b's', b'l', b't') => Some(PlainOp::BitsOrder(BitsComparison::SignedLess)),
        (b'u', b'g', b'e') => Some(PlainOp::BitsOrder(BitsComparison::UnsignedAtLeast)),
        (b'u', b'g', b't') => Some(PlainOp::BitsOrder(BitsComparison::UnsignedGreater)),
        (b'u', b'l', b'e') => Some(PlainOp::BitsOrder(BitsComparison::UnsignedAtMost)),
        (b'u', b'l', b't') => Some(PlainOp::BitsOrder(BitsComparison::UnsignedLess)),
        (b'x', _, _) => Some(PlainOp::Folded(BitsFolded::Xor)),
        _ => None,
    }
}

#[inline(always)]
fn bits_of_six(third: u8, fourth: u8) -> Option<PlainOp>
    ensures { option_map op_of_plain result ≡ option_map Bits (names.bits_of_six third fourth) }
{
    match (third, fourth) {
        (b'a', _) => Some(PlainOp::Binary(BitsBinary::ShiftRightSigned)),
        (b'c', _) => Some(PlainOp::Comp),
        (b'l', _) => Some(PlainOp::Binary(BitsBinary::ShiftRight)),
        (b'n', b'a') => Some(PlainOp::Binary(BitsBinary::Nand)),
        (b'n', b'c') => Some(PlainOp::Concat),
        (b's', b'd') => Some(PlainOp::Binary(BitsBinary::DivideSigned)),
        (b's', b'm') => Some(PlainOp::Binary(BitsBinary::ModuloSigned)),
        (b's', b'r') => Some(PlainOp::Binary(BitsBinary::RemainderSigned)),
        (b'u', b'd') => Some(PlainOp::Binary(BitsBinary::DivideUnsigned)),
        (b'u', b'r') => Some(PlainOp::Binary(BitsBinary::RemainderUnsigned)),
        (b'x', _) => Some(PlainOp::Binary(BitsBinary::Xnor)),
        _ => None,
    }
}

#[inline(always)]
pub(crate) fn unary_name(op: BitsUnary) -> &'static [u8]
    ensures { result.now ≡ names.bits_name (ops.Unary op) }
{
    match op {
        BitsUnary::Not => b"bvnot",
        BitsUnary::Negate => b"bvneg",
        BitsUnary::NegateOverflows => b"bvnego",
        BitsUnary::ToInt => b"ubv_to_int",
        BitsUnary::ToIntOlder => b"bv2nat",
        BitsUnary::SignedToInt => b"sbv_to_int",
    }
}

#[inline(always)]
pub(crate) fn folded_name(op: BitsFolded) -> &'static [u8]
    ensures { result.now ≡ names.bits_name (ops.Folded op) }
{
    match op {
        BitsFolded::And => b"bvand",
        BitsFolded::Or => b"bvor",
        BitsFolded::Xor => b"bvxor",
        BitsFolded::Add => b"bvadd",
        BitsFolded::Multiply => b"bvmul",
    }
}

#[inline(always)]
pub(crate) fn binary_name(op: BitsBinary) -> &'static [u8]
    ensures { result.now ≡ names.bits_name (ops.Binary op) }
{
    match op {
        BitsBinary::Nand => b"bvnand",
        BitsBinary::Nor => b"bvnor",
        BitsBinary::Xnor => b"bvxnor",
        BitsBinary::Subtract => b"bvsub",
        BitsBinary::DivideUnsigned => b"bvudiv",
        BitsBinary::RemainderUnsigned => b"bvurem",
        BitsBinary::DivideSigned => b"bvsdiv",
        BitsBinary::RemainderSigned => b"bvsrem",
        BitsBinary::ModuloSigned => b"bvsmod",
        BitsBinary::ShiftLeft => b"bvshl",
        BitsBinary::ShiftRight => b"bvlshr",
        BitsBinary::ShiftRightSigned => b"bvashr",
    }
}

#[inline(always)]
pub(crate) fn comparison_name(op: BitsComparison) -> &'static [u8]
    ensures { result.now ≡ names.bits_name (ops.Comparison op) }
{
    match op {
        BitsComparison::UnsignedLess => b"bvult",
        BitsComparison::UnsignedAtMost => b"bvule",
        BitsComparison::UnsignedGreater => b"bvugt",
        BitsComparison::UnsignedAtLeast => b"bvuge",
        BitsComparison::SignedLess => b"bvslt",
        BitsComparison::SignedAtMost => b"bvsle",
        BitsComparison::SignedGreater => b"bvsgt",
        BitsComparison::SignedAtLeast => b"bvsge",
        BitsComparison::UnsignedAddOverflows => b"bvuaddo",
        BitsComparison::SignedAddOverflows => b"bvsaddo",
        BitsComparison::UnsignedMultiplyOverflows => b"bvumulo",
        BitsComparison::SignedMultiplyOverflows => b"bvsmulo",
        BitsComparison::UnsignedSubtractOverflows => b"bvusubo",
        BitsComparison::SignedSubtractOverflows => b"bvssubo",
        BitsComparison::SignedDivideOverflows => b"bvsdivo",
    }
}

/// The operator of this name with these indexes, of which there is at least one; those that make bit vectors of
/// integers are asked for only where the theories convert.
pub(crate) fn indexed_bits_op(
    converts: bool,
    symbol: &[u8],
    indexes: &[Index],
) -> Result<BitsOp, OpFault>
    ensures { result ≡ indexed_bits converts symbol.now (map index_view indexes.now) }
{
    let op = if is_named(symbol, b"extract") {
        extract(indexes)
    } else if is_named(symbol, b"repeat") {
        repeat(indexes)
    } else if is_named(symbol, b"zero_extend") {
        only_number(indexes).map(BitsOp::ZeroExtend)
    } else if is_named(symbol, b"sign_extend") {
        only_number(indexes).map(BitsOp::SignExtend)
    } else if is_named(symbol, b"rotate_left") {
        only_number(indexes).map(BitsOp::RotateLeft)
    } else if is_named(symbol, b"rotate_right") {
        only_number(indexes).map(BitsOp::RotateRight)
    } else {
        return indexed_other(converts, symbol, indexes);
    };
    op.ok_or(OpFault::Index)
}

fn indexed_other(converts: bool, symbol: &[u8], indexes: &[Index]) -> Result<BitsOp, OpFault>
    ensures { result ≡ names.indexed_other converts symbol.now (map index_view indexes.now) }
{
    let op = if is_named(symbol, b"int_to_bv") && converts {
        only_width(indexes).map(BitsOp::FromInt)
    } else if is_named(symbol, b"int2bv") && converts {
        only_width(indexes).map(BitsOp::FromIntOlder)
    } else if let Some(digits) = constant_digits(symbol) {
        constant(digits, indexes)
    } else {
        return Err(OpFault::Unknown);
    };
    op.ok_or(OpFault::Index)
}

fn extract(indexes: &[Index]) -> Option<BitsOp>
    ensures { result ≡ extract_by (map index_view indexes.now) }
{
    match indexes {
        [Index::Number(i), Index::Number(j)] if *j <= *i => Some(BitsOp::Extract(*i, *j)),
        _ => None,
    }
}

fn repeat(indexes: &[Index]) -> Option<BitsOp>
    ensures { result ≡ repeat_by (map index_view indexes.now) }
{
    let i = only_number(indexes)?;
    (i > 0).then_some(BitsOp::Repeat(i))
}

// The width that is the only index.
fn only_width(indexes: &[Index]) -> Option<Width>
    ensures { result ≡ names.only_width (map index_view indexes.now) }
{
    Width::new(only_number(indexes)?)
}

fn constant(digits: &[u8], indexes: &[Index]) -> Option<BitsOp>
    ensures { result ≡ constant_by digits.now (map index_view indexes.now) }
{
    let width = only_width(indexes)?;
    let value = number(10, digits)?;
    width.holds(value).then_some(BitsOp::Constant(value, width))
}

// The digits X of a constant's name `bvX`.
fn constant_digits(symbol: &[u8]) -> Option<&[u8]>
    ensures { option_copied result ≡ names.constant_digits symbol.now }
{
    match symbol {
        [b'b', b'v', digits @ ..] if is_numeral(digits) => Some(digits),
        _ => None,
    }
}

fn only_number(indexes: &[Index]) -> Option<u64>
    ensures { result ≡ names.only_number (map index_view indexes.now) }
{
    match indexes {
        [Index::Number(i)] => Some(*i),
        _ => None,
    }
}
