//! The operators of the theory Ints, on elements of which some may be open. This file knows no bit vector,
//! and gives no value by division by zero.

ghost use Rattle.std.specs.Prelude.{◌≡◌, option_and_then, option_map};
ghost use Rattle.smt_values.specs.Element.{Integer as Integral, known_element, known_elements};
ghost use Rattle.smt_values.specs.KnownOperations.{known_abs, known_arithmetic, known_divisible};
ghost use Rattle.smt_values.specs.KnownOperations.{known_from_left, known_integer, known_integers};
ghost use Rattle.smt_values.specs.KnownOperations.{known_ints, known_mod, known_remainder};
ghost use Rattle.smt_values.specs.Lists.{are_chained, steps_from};
ghost use Rattle.smt_values.specs.Operations.{compares};

use crate::integer::Integer;
use crate::value::Value;
use smt_theory::{Arithmetic, Comparison, IntsOp};

pub(crate) fn apply_ints(op: IntsOp, args: &[Option<Value>]) -> Option<Value>
    ensures { known_element result
        ≡ option_and_then (known_ints op) (known_integers (known_elements args.now)) }
{
    match op {
        IntsOp::Arithmetic(op) => value_of(from_left(op, args)),
        IntsOp::Comparison(op) => chain(op, args).map(Value::Bool),
        IntsOp::Mod => value_of(modulo(args)),
        IntsOp::Abs => value_of(absolute(args)),
        IntsOp::Divisible(n) => divisibility(n, args).map(Value::Bool),
    }
}

// The value that an integer is, if one is known.
fn value_of(integer: Option<i128>) -> Option<Value>
    ensures { known_element result ≡ option_map Integral integer }
{
    match integer {
        Some(z) => Some(Value::Int(Integer::new(z))),
        None => None,
    }
}

// What an operator gives that is applied from the left; `-` of one argument gives the negation.
fn from_left(op: Arithmetic, args: &[Option<Value>]) -> Option<i128>
    ensures { result ≡ option_and_then (known_from_left op) (known_integers (known_elements args.now)) }
{
    match args {
        [arg] => match op {
            Arithmetic::Minus => integer(arg)?.checked_neg(),
            Arithmetic::Plus | Arithmetic::Times | Arithmetic::Div => integer(arg),
        },
        [first, rest @ ..] => steps(op, integer(first)?, rest),
        [] => None,
    }
}

fn steps(op: Arithmetic, first: i128, rest: &[Option<Value>]) -> Option<i128>
    ensures { result ≡ option_and_then (steps_from (known_arithmetic op) first)
        (known_integers (known_elements rest.now)) }
{
    let mut total = first;
    for arg in rest {
        let next = integer(arg)?;
        total = combined(op, total, next)?;
    }
    Some(total)
}

fn combined(op: Arithmetic, a: i128, b: i128) -> Option<i128>
    ensures { result ≡ known_arithmetic op a b }
{
    match op {
        Arithmetic::Minus => a.checked_sub(b),
        Arithmetic::Plus => a.checked_add(b),
        Arithmetic::Times => a.checked_mul(b),
        Arithmetic::Div => a.checked_div_euclid(b),
    }
}

// Whether the relation holds between each argument and the next.
fn chain(op: Comparison, args: &[Option<Value>]) -> Option<bool>
    ensures { result ≡ option_map (are_chained (compares op)) (known_integers (known_elements args.now)) }
{
    let Some((first, rest)) = args.split_first() else {
        return Some(true);
    };
    let mut last = integer(first)?;
    let mut holds = true;
    for arg in rest {
        let next = integer(arg)?;
        holds = holds && is_related(op, last, next);
        last = next;
    }
    Some(holds)
}

fn is_related(op: Comparison, a: i128, b: i128) -> bool
    ensures { result ≡ compares op a b }
{
    match op {
        Comparison::AtMost => a <= b,
        Comparison::Less => a < b,
        Comparison::AtLeast => a >= b,
        Comparison::Greater => a > b,
    }
}

fn modulo(args: &[Option<Value>]) -> Option<i128>
    ensures { result ≡ option_and_then known_mod (known_integers (known_elements args.now)) }
{
    match args {
        [dividend, divisor] => remainder(integer(dividend)?, integer(divisor)?),
        _ => None,
    }
}

fn remainder(a: i128, n: i128) -> Option<i128>
    ensures { result ≡ known_remainder a n }
{
    if n == 0 {
        None
    } else {
        Some(a.wrapping_rem_euclid(n))
    }
}

fn absolute(args: &[Option<Value>]) -> Option<i128>
    ensures { result ≡ option_and_then known_abs (known_integers (known_elements args.now)) }
{
    match args {
        [arg] => integer(arg)?.checked_abs(),
        _ => None,
    }
}

// Whether n divides the argument; no number is divisible by 0.
fn divisibility(n: u64, args: &[Option<Value>]) -> Option<bool>
    ensures { result ≡ option_and_then (known_divisible n) (known_integers (known_elements args.now)) }
{
    match args {
        [arg] if n > 0 => Some(integer(arg)?.unsigned_abs() % u128::from(n) == 0),
        _ => None,
    }
}

// The integer that the argument is known to be.
pub(crate) fn integer(arg: &Option<Value>) -> Option<i128>
    ensures { result ≡ known_integer (known_element arg.now) }
{
    match arg {
        Some(Value::Int(z)) => Some(z.get()),
        Some(Value::Bool(_) | Value::Ratio(_) | Value::Bits(_) | Value::Abstract(_)) | None => None,
    }
}
