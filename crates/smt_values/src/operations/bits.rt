//! The operators of the theory FixedSizeBitVectors, and those that the logic QF_BV and SMT-LIB 2.7 add, on elements of
//! which some may be open. This file computes no bits: `smt_bits` does.

ghost use Rattle.std.specs.Prelude.{◌≡◌, ◌∷◌, ◌%◌, ◌^◌, [], option_and_then, option_map, MatchOption};
ghost use Rattle.smt_theory.specs.declared.op.Op.TheVariants as ops;
ghost use Rattle.smt_bits.specs.BitVector.{vector};
ghost use Rattle.smt_bits.specs.Parts.{concatenation};
ghost use Rattle.smt_values.specs.BitOperations as meaning;
ghost use Rattle.smt_values.specs.Element.{known_element, known_elements};
ghost use Rattle.smt_values.specs.KnownBitOperations.{known_bits_of_int, known_folded, known_from_left, known_number};
ghost use Rattle.smt_values.specs.KnownBitOperations.{known_of_one, none_given, the_only, two_of_one_width};
ghost use Rattle.smt_values.specs.KnownOperations.{known_integers, known_step, known_vector, known_vectors};
ghost use Rattle.smt_values.specs.Lists.{steps_from};

use super::ints::integer;
use crate::integer::Integer;
use crate::value::Value;
use smt_bits::{Bits, arithmetic, bitwise, parts, shifts, signed};
use smt_theory::{BitsBinary, BitsComparison, BitsFolded, BitsOp, BitsUnary, Width};

#[inline(never)]
pub(crate) fn apply_bits(op: BitsOp, args: &[Option<Value>]) -> Option<Value>
    ensures { known_element result ≡ known_step (ops.Bits op) (known_elements args.now) }
{
    match op {
        BitsOp::Constant(number, width) => constant(number, width, args).map(Value::Bits),
        BitsOp::Concat => concatenated(args).map(Value::Bits),
        BitsOp::Extract(i, j) => parts::extract(i, j, only(args)?).map(Value::Bits),
        BitsOp::Unary(op) => unary(op, only(args)?),
        BitsOp::Folded(op) => folded(op, args).map(Value::Bits),
        BitsOp::Binary(op) => {
            let (s, t) = of_two(args)?;
            Some(Value::Bits(binary(op, s, t)))
        }
        BitsOp::Comparison(op) => {
            let (s, t) = of_two(args)?;
            Some(Value::Bool(is_related(op, s, t)))
        }
        BitsOp::Comp => {
            let (s, t) = of_two(args)?;
            Some(Value::Bits(signed::bvcomp(s, t)))
        }
        BitsOp::Repeat(i) => parts::repeat(i, only(args)?).map(Value::Bits),
        BitsOp::ZeroExtend(i) => parts::zero_extend(i, only(args)?).map(Value::Bits),
        BitsOp::SignExtend(i) => parts::sign_extend(i, only(args)?).map(Value::Bits),
        BitsOp::RotateLeft(i) => Some(Value::Bits(parts::rotate_left(i, only(args)?))),
        BitsOp::RotateRight(i) => Some(Value::Bits(parts::rotate_right(i, only(args)?))),
        BitsOp::FromInt(width) | BitsOp::FromIntOlder(width) => from_int(width, args),
    }
}

fn constant(number: u128, width: Width, args: &[Option<Value>]) -> Option<Bits>
    ensures { result ≡ option_and_then
        (λ vs. option_map (λ _. vector width (number % 2 ^ width)) (none_given vs))
        (known_vectors (known_elements args.now)) }
{
    match args {
        [] => Some(Bits::new(width, number)),
        _ => None,
    }
}

// The concatenation of the arguments, the first one highest.
fn concatenated(args: &[Option<Value>]) -> Option<Bits>
    ensures { result ≡ option_and_then (known_from_left concatenation)
        (known_vectors (known_elements args.now)) }
{
    match args {
        [first, rest @ ..] => joined(bits(first)?, rest),
        [] => None,
    }
}

fn joined(first: Bits, rest: &[Option<Value>]) -> Option<Bits>
    ensures { result ≡ option_and_then (steps_from concatenation first)
        (known_vectors (known_elements rest.now)) }
{
    let mut whole = first;
    for arg in rest {
        let next = bits(arg)?;
        whole = parts::concat(whole, next)?;
    }
    Some(whole)
}

// What an operator gives that is applied from the left.
fn folded(op: BitsFolded, args: &[Option<Value>]) -> Option<Bits>
    ensures { result ≡ option_and_then (known_from_left (known_folded op))
        (known_vectors (known_elements args.now)) }
{
    match args {
        [first, rest @ ..] => steps(op, bits(first)?, rest),
        [] => None,
    }
}

fn steps(op: BitsFolded, first: Bits, rest: &[Option<Value>]) -> Option<Bits>
    ensures { result ≡ option_and_then (steps_from (known_folded op) first)
        (known_vectors (known_elements rest.now)) }
{
    let mut total = first;
    for arg in rest {
        let next = bits(arg)?;
        total = combined(op, total, next)?;
    }
    Some(total)
}

fn combined(op: BitsFolded, s: Bits, t: Bits) -> Option<Bits>
    ensures { result ≡ known_folded op s t }
{
    if s.width() != t.width() {
        return None;
    }
    Some(match op {
        BitsFolded::And => bitwise::bvand(s, t),
        BitsFolded::Or => bitwise::bvor(s, t),
        BitsFolded::Xor => bitwise::bvxor(s, t),
        BitsFolded::Add => arithmetic::bvadd(s, t),
        BitsFolded::Multiply => arithmetic::bvmul(s, t),
    })
}

fn unary(op: BitsUnary, s: Bits) -> Option<Value>
    ensures { known_element result ≡ known_of_one op s }
{
    match op {
        BitsUnary::Not => Some(Value::Bits(bitwise::bvnot(s))),
        BitsUnary::Negate => Some(Value::Bits(arithmetic::bvneg(s))),
        BitsUnary::NegateOverflows => Some(Value::Bool(arithmetic::bvnego(s))),
        BitsUnary::ToInt | BitsUnary::ToIntOlder => number(s),
        BitsUnary::SignedToInt => Some(Value::Int(Integer::new(s.signed()))),
    }
}

// The number as an integer, if there is room for it.
fn number(s: Bits) -> Option<Value>
    ensures { known_element result ≡ known_number s }
{
    match i128::try_from(s.number()) {
        Ok(z) => Some(Value::Int(Integer::new(z))),
        Err(_) => None,
    }
}

// So many bits of the only argument, an integer.
fn from_int(width: Width, args: &[Option<Value>]) -> Option<Value>
    ensures { known_element result
        ≡ option_and_then (known_bits_of_int width) (known_integers (known_elements args.now)) }
{
    match args {
        [arg] => Some(Value::Bits(arithmetic::int_to_bv(width, integer(arg)?))),
        _ => None,
    }
}

fn binary(op: BitsBinary, s: Bits, t: Bits) -> Bits
    requires { s.width ≡ t.width }
    ensures { result ≡ meaning.binary_vector op s t }
{
    match op {
        BitsBinary::Nand => bitwise::bvnand(s, t),
        BitsBinary::Nor => bitwise::bvnor(s, t),
        BitsBinary::Xnor => bitwise::bvxnor(s, t),
        BitsBinary::Subtract => arithmetic::bvsub(s, t),
        BitsBinary::DivideUnsigned => arithmetic::bvudiv(s, t),
        BitsBinary::RemainderUnsigned => arithmetic::bvurem(s, t),
        BitsBinary::DivideSigned => signed::bvsdiv(s, t),
        BitsBinary::RemainderSigned => signed::bvsrem(s, t),
        BitsBinary::ModuloSigned => signed::bvsmod(s, t),
        BitsBinary::ShiftLeft => shifts::bvshl(s, t),
        BitsBinary::ShiftRight => shifts::bvlshr(s, t),
        BitsBinary::ShiftRightSigned => shifts::bvashr(s, t),
    }
}

fn is_related(op: BitsComparison, s: Bits, t: Bits) -> bool
    requires { s.width ≡ t.width }
    ensures { result ≡ meaning.are_compared op s t }
{
    match op {
        BitsComparison::UnsignedLess => s.number() < t.number(),
        BitsComparison::UnsignedAtMost => s.number() <= t.number(),
        BitsComparison::UnsignedGreater => s.number() > t.number(),
        BitsComparison::UnsignedAtLeast => s.number() >= t.number(),
        BitsComparison::SignedLess => s.signed() < t.signed(),
        BitsComparison::SignedAtMost => s.signed() <= t.signed(),
        BitsComparison::SignedGreater => s.signed() > t.signed(),
        BitsComparison::SignedAtLeast => s.signed() >= t.signed(),
        BitsComparison::UnsignedAddOverflows => arithmetic::bvuaddo(s, t),
        BitsComparison::SignedAddOverflows => arithmetic::bvsaddo(s, t),
        BitsComparison::UnsignedMultiplyOverflows => arithmetic::bvumulo(s, t),
        BitsComparison::SignedMultiplyOverflows => arithmetic::bvsmulo(s, t),
        BitsComparison::UnsignedSubtractOverflows => arithmetic::bvusubo(s, t),
        BitsComparison::SignedSubtractOverflows => arithmetic::bvssubo(s, t),
        BitsComparison::SignedDivideOverflows => arithmetic::bvsdivo(s, t),
    }
}

// The bit vector that the only argument is known to be.
fn only(args: &[Option<Value>]) -> Option<Bits>
    ensures { result ≡ option_and_then the_only (known_vectors (known_elements args.now)) }
{
    match args {
        [arg] => bits(arg),
        _ => None,
    }
}

// The bit vectors that two arguments of one width are known to be.
fn of_two(args: &[Option<Value>]) -> Option<(Bits, Bits)>
    ensures one_width { MatchOption result (Unit {0}) (λ p. p.0.width ≡ p.1.width) }
    ensures known { result ≡ option_and_then two_of_one_width (known_vectors (known_elements args.now)) }
{
    match args {
        [first, second] => of_one_width(bits(first)?, bits(second)?),
        _ => None,
    }
}

fn of_one_width(s: Bits, t: Bits) -> Option<(Bits, Bits)>
    ensures one_width { MatchOption result (Unit {0}) (λ p. p.0.width ≡ p.1.width) }
    ensures known { result ≡ two_of_one_width (s ∷ t ∷ []) }
{
    if s.width() == t.width() {
        Some((s, t))
    } else {
        None
    }
}

// The bit vector that the argument is known to be.
fn bits(arg: &Option<Value>) -> Option<Bits>
    ensures { result ≡ known_vector (known_element arg.now) }
{
    match arg {
        Some(Value::Bits(bits)) => Some(*bits),
        Some(Value::Bool(_) | Value::Int(_) | Value::Ratio(_) | Value::Abstract(_)) | None => None,
    }
}
