//! The operators on rational numbers, of which some may be open. This file gives no value by division by zero.

ghost use Rattle.std.specs.Prelude.{◌≡◌, option_and_then, option_map};
ghost use Rattle.std.specs.List.{list_any};
ghost use Rattle.smt_ratios.specs.Operators.{floor, is_integer};
ghost use Rattle.smt_ratios.specs.View.{known_rational, rational_of};
ghost use Rattle.smt_theory.specs.declared.op.Op.TheVariants.{Ints};
ghost use Rattle.smt_theory.specs.declared.op.IntsOp.TheVariants.{Arithmetic as Left};
ghost use Rattle.smt_theory.specs.declared.op.RealsOp.TheVariants.{Divide};
ghost use Rattle.smt_values.specs.Element.{Integer as Integral, Truth, element_of, known_element, known_elements};
ghost use Rattle.smt_values.specs.KnownNumbers.{is_known_fraction, known_calculated, known_division, known_mixed};
ghost use Rattle.smt_values.specs.KnownNumbers.{known_number, known_numbers, known_reals};
ghost use Rattle.smt_values.specs.KnownOperations.{known_step};
ghost use Rattle.smt_values.specs.Lists.{are_chained, only_one, steps_from};
ghost use Rattle.smt_values.specs.Numbers.{element_of_number, orders};

use super::ints::apply_ints;
use crate::integer::Integer;
use crate::value::Value;
use smt_ratios::{
    Number, difference, floor, is_at_most, is_integer, is_less, negative, product, quotient, sum,
};
use smt_theory::{Arithmetic, Comparison, IntsOp, RealsOp};

/// What an operator of Ints gives, which may be one of Reals too.
#[inline(never)]
pub(crate) fn apply_number_op(op: IntsOp, args: &[Option<Value>]) -> Option<Value>
    ensures { known_element result ≡ known_step (Ints op) (known_elements args.now) }
{
    match apply_ints(op, args) {
        Some(value) => Some(value),
        None => {
            if has_fraction(args) {
                apply_mixed(op, args)
            } else {
                None
            }
        }
    }
}

// Whether an argument is a fraction.
fn has_fraction(args: &[Option<Value>]) -> bool
    ensures { result ≡ list_any is_known_fraction (known_elements args.now) }
{
    some_are_fractions(args)
}

fn some_are_fractions(args: &[Option<Value>]) -> bool
    ensures { result ≡ list_any (λ arg. is_known_fraction (known_element arg)) args.now }
{
    args.iter().any(|arg| matches!(arg, Some(Value::Ratio(_))))
}

fn apply_mixed(op: IntsOp, args: &[Option<Value>]) -> Option<Value>
    ensures { known_element result
        ≡ option_and_then (known_mixed op) (known_numbers (known_elements args.now)) }
{
    match op {
        IntsOp::Arithmetic(op) => from_left(op, args).map(value_of),
        IntsOp::Comparison(op) => chain(op, args).map(Value::Bool),
        IntsOp::Mod | IntsOp::Abs | IntsOp::Divisible(_) => None,
    }
}

// What an operator gives that is applied from the left; `-` of one argument gives the negation.
fn from_left(op: Arithmetic, args: &[Option<Value>]) -> Option<Number>
    ensures { option_map element_of_number (known_rational result)
        ≡ option_and_then (known_mixed (Left op)) (known_numbers (known_elements args.now)) }
{
    match args {
        [arg] => match op {
            Arithmetic::Minus => negative(&number(arg)?),
            Arithmetic::Plus | Arithmetic::Times | Arithmetic::Div => number(arg),
        },
        [first, rest @ ..] => steps(op, number(first)?, rest),
        [] => None,
    }
}

fn steps(op: Arithmetic, first: Number, rest: &[Option<Value>]) -> Option<Number>
    ensures { known_rational result ≡ option_and_then (steps_from (known_calculated op) (rational_of first))
        (known_numbers (known_elements rest.now)) }
{
    let mut total = first;
    for arg in rest {
        let next = number(arg)?;
        total = combined(op, &total, &next)?;
    }
    Some(total)
}

fn combined(op: Arithmetic, a: &Number, b: &Number) -> Option<Number>
    ensures { known_rational result ≡ known_calculated op (rational_of a.now) (rational_of b.now) }
{
    match op {
        Arithmetic::Minus => difference(a, b),
        Arithmetic::Plus => sum(a, b),
        Arithmetic::Times => product(a, b),
        Arithmetic::Div => None,
    }
}

// Whether the relation holds between each argument and the next.
fn chain(op: Comparison, args: &[Option<Value>]) -> Option<bool>
    ensures { result ≡ option_map (are_chained (orders op)) (known_numbers (known_elements args.now)) }
{
    let Some((first, rest)) = args.split_first() else {
        return Some(true);
    };
    let mut last = number(first)?;
    let mut holds = true;
    for arg in rest {
        let next = number(arg)?;
        holds = holds && is_related(op, &last, &next);
        last = next;
    }
    Some(holds)
}

fn is_related(op: Comparison, a: &Number, b: &Number) -> bool
    ensures { result ≡ orders op (rational_of a.now) (rational_of b.now) }
{
    match op {
        Comparison::AtMost => is_at_most(a, b),
        Comparison::Less => is_less(a, b),
        Comparison::AtLeast => is_at_most(b, a),
        Comparison::Greater => is_less(b, a),
    }
}

/// What an operator of Reals alone gives.
#[inline(never)]
pub(crate) fn apply_reals(op: RealsOp, args: &[Option<Value>]) -> Option<Value>
    ensures { known_element result
        ≡ option_and_then (known_reals op) (known_numbers (known_elements args.now)) }
{
    match op {
        RealsOp::Divide => division(args).map(value_of),
        RealsOp::ToReal => only(args).map(value_of),
        RealsOp::ToInt => only(args).map(floor_of),
        RealsOp::IsInt => only(args).map(is_integral),
    }
}

fn division(args: &[Option<Value>]) -> Option<Number>
    ensures { option_map element_of_number (known_rational result)
        ≡ option_and_then (known_reals Divide) (known_numbers (known_elements args.now)) }
{
    let (first, rest) = args.split_first()?;
    divisions(number(first)?, rest)
}

fn divisions(first: Number, rest: &[Option<Value>]) -> Option<Number>
    ensures { known_rational result ≡ option_and_then (steps_from known_division (rational_of first))
        (known_numbers (known_elements rest.now)) }
{
    let mut total = first;
    for arg in rest {
        let next = number(arg)?;
        total = divided(&total, &next)?;
    }
    Some(total)
}

fn divided(a: &Number, b: &Number) -> Option<Number>
    ensures { known_rational result ≡ known_division (rational_of a.now) (rational_of b.now) }
{
    if b.numerator() == 0 {
        None
    } else {
        quotient(a, b)
    }
}

// The argument of an operator that takes one.
fn only(args: &[Option<Value>]) -> Option<Number>
    ensures { known_rational result ≡ option_and_then only_one (known_numbers (known_elements args.now)) }
{
    if args.len() == 1 {
        number(&args[0])
    } else {
        None
    }
}

fn floor_of(number: Number) -> Value
    ensures { element_of result ≡ Integral (floor (rational_of number)) }
{
    Value::Int(Integer::new(floor(&number)))
}

fn is_integral(number: Number) -> Value
    ensures { element_of result ≡ Truth (is_integer (rational_of number)) }
{
    Value::Bool(is_integer(&number))
}

/// The value that a number is.
pub(crate) fn value_of(number: Number) -> Value
    ensures { element_of result ≡ element_of_number (rational_of number) }
{
    match number {
        Number::Integer(z) => Value::Int(Integer::new(z)),
        Number::Ratio(ratio) => Value::Ratio(ratio),
    }
}

// The number that the argument is known to be.
pub(crate) fn number(arg: &Option<Value>) -> Option<Number>
    ensures { known_rational result ≡ known_number (known_element arg.now) }
{
    match arg {
        Some(Value::Int(z)) => Some(Number::Integer(z.get())),
        Some(Value::Ratio(ratio)) => Some(Number::Ratio(*ratio)),
        Some(Value::Bool(_) | Value::Bits(_) | Value::Abstract(_)) | None => None,
    }
}
