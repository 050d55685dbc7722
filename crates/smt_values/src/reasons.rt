//! Why an operator's result is what it is, or why it is open. This file computes no result.

ghost use Rattle.std.specs.Prelude.{◌≡◌, IsTrue, drop, is_none, is_some, position};
ghost use Rattle.smt_theory.specs.declared.op.CoreOp.TheVariants.{Distinct, Ite};
ghost use Rattle.smt_theory.specs.declared.op.Op.TheVariants.{Core};
ghost use Rattle.std.specs.List.{list_any};
ghost use Rattle.smt_values.specs.Element.{known_element, known_elements};
ghost use Rattle.smt_values.specs.KnownOperations.{is_known, known_step};
ghost use Rattle.smt_values.specs.Reasons.{deciding, deciding_core, divides_by_zero, implying, is_connective};
ghost use Rattle.smt_values.specs.Reasons.{is_core_connective, is_ratio_by_zero, is_zero};
ghost use Rattle.smt_values.specs.Reasons.{is_divided_by_zero, lacking, open_reason, reason, taken, taken_core};

use crate::operations::apply;
use crate::operations::bools::{all_are_known, is, truth};
use crate::operations::ints::integer;
use crate::value::Value;
use smt_theory::{Arithmetic, CoreOp, IntsOp, Op, RealsOp};

/// Why what is known of an operator's result is known, or why nothing is. Arguments are named by their places,
/// from 0.
#[derive(Clone, Copy, PartialEq, Eq)]
pub enum Reason {
    /// This argument alone gives the result, whatever the others are: the first false one of an `and`, the first true
    /// one of an `or`; of an implication the conclusion if it is true, or else the first false premise.
    Decided { argument: usize },
    /// The condition of an `ite` is known; this argument is the branch that it chooses, and the result.
    Branch { argument: usize },
    /// All arguments together give the result.
    All,
    /// The result is open.
    Open(OpenReason),
}

/// Why an operator's result is open.
#[derive(Clone, Copy, PartialEq, Eq)]
pub enum OpenReason {
    /// This argument is open: the branch that a known condition chooses, or else the first open argument.
    Argument { argument: usize },
    /// All arguments are known, and a divisor of `div`, `mod` or `/` is 0.
    DivisionByZero,
    /// All arguments are known and no divisor is 0: the result, or a partial result of an operator that is applied
    /// from the left, is an integer below -2^127 or above 2^127 - 1, or a fraction that has no room or takes too large
    /// steps.
    Range,
}

/// Why the result that [`apply`] gives for these arguments is known or open. It takes time in proportion to
/// the number of arguments.
///
/// The arguments are of sorts that the operator has a rank for; where they are not, an open result over known
/// arguments is [`OpenReason::Range`].
pub fn why(op: Op, args: &[Option<Value>]) -> Reason
    ensures { result ≡ reason op (known_elements args.now) }
{
    if !is_result_known(&op, args) {
        return Reason::Open(open_reason(&op, args));
    }
    match deciding(&op, args) {
        Some(argument) => Reason::Decided { argument },
        None => match taken(&op, args) {
            Some(argument) => Reason::Branch { argument },
            None => Reason::All,
        },
    }
}

/// Whether an operator makes truth values of truth values, argument by argument, so that a reason goes on in its
/// arguments: `not`, `and`, `or`, `=>`, and `ite`, whose branches may be of any sort (SMT-LIB 2.6, theory Core).
pub fn is_connective(op: Op) -> bool
    ensures { result ≡ is_connective op }
{
    match op {
        Op::Core(op) => is_core_connective(op),
        Op::Ints(_) => false,
        Op::Reals(_) => false,
        Op::Bits(_) => false,
        Op::Arrays(_) => false,
    }
}

fn is_core_connective(op: CoreOp) -> bool
    ensures { result ≡ is_core_connective op }
{
    match op {
        CoreOp::Not => true,
        CoreOp::And => true,
        CoreOp::Or => true,
        CoreOp::Implies => true,
        CoreOp::Ite => true,
        CoreOp::True => false,
        CoreOp::False => false,
        CoreOp::Xor => false,
        CoreOp::Equal => false,
        CoreOp::Distinct => false,
    }
}

// Whether the operator's result is known.
fn is_result_known(op: &Op, args: &[Option<Value>]) -> bool
    ensures { result ≡ is_some (known_step op.now (known_elements args.now)) }
{
    // (of a `distinct`, `apply` compares each argument with each)
    if is_distinct(op) {
        all_are_known(args)
    } else {
        apply(*op, args).is_some()
    }
}

fn is_distinct(op: &Op) -> bool
    ensures { IsTrue result → op.now ≡ Core Distinct }
{
    matches!(op, Op::Core(CoreOp::Distinct))
}

// The argument that alone gives the result.
fn deciding(op: &Op, args: &[Option<Value>]) -> Option<usize>
    ensures { result ≡ deciding op.now (known_elements args.now) }
{
    match op {
        Op::Core(op) => deciding_core(*op, args),
        Op::Ints(_) => None,
        Op::Reals(_) => None,
        Op::Bits(_) => None,
        Op::Arrays(_) => None,
    }
}

fn deciding_core(op: CoreOp, args: &[Option<Value>]) -> Option<usize>
    ensures { result ≡ deciding_core op (known_elements args.now) }
{
    match op {
        CoreOp::And => first(args, false),
        CoreOp::Or => first(args, true),
        CoreOp::Implies => implying(args),
        CoreOp::True => None,
        CoreOp::False => None,
        CoreOp::Not => None,
        CoreOp::Xor => None,
        CoreOp::Equal => None,
        CoreOp::Distinct => None,
        CoreOp::Ite => None,
    }
}

fn implying(args: &[Option<Value>]) -> Option<usize>
    ensures { result ≡ implying (known_elements args.now) }
{
    let Some((conclusion, premises)) = args.split_last() else {
        return None;
    };
    if is(conclusion, true) {
        Some(premises.len())
    } else {
        first(premises, false)
    }
}

// The first argument that is known to be this truth value.
fn first(args: &[Option<Value>], truth: bool) -> Option<usize>
    ensures { result ≡ position (is_known truth) (known_elements args.now) }
{
    place_of_known(args, truth)
}

fn place_of_known(args: &[Option<Value>], truth: bool) -> Option<usize>
    ensures { result ≡ position (λ arg. is_known truth (known_element arg)) args.now }
{
    args.iter().position(|arg| is(arg, truth))
}

// The branch that a known condition chooses.
fn taken(op: &Op, args: &[Option<Value>]) -> Option<usize>
    ensures { result ≡ taken op.now (known_elements args.now) }
{
    match op {
        Op::Core(op) => taken_core(*op, args),
        Op::Ints(_) => None,
        Op::Reals(_) => None,
        Op::Bits(_) => None,
        Op::Arrays(_) => None,
    }
}

fn taken_core(op: CoreOp, args: &[Option<Value>]) -> Option<usize>
    ensures { result ≡ taken_core op (known_elements args.now) }
{
    match op {
        CoreOp::Ite => taken_branch(args),
        CoreOp::True => None,
        CoreOp::False => None,
        CoreOp::Not => None,
        CoreOp::Implies => None,
        CoreOp::And => None,
        CoreOp::Or => None,
        CoreOp::Xor => None,
        CoreOp::Equal => None,
        CoreOp::Distinct => None,
    }
}

fn taken_branch(args: &[Option<Value>]) -> Option<usize>
    ensures { result ≡ taken_core Ite (known_elements args.now) }
{
    match args {
        [condition, _, _] => Some(if truth(condition)? { 1 } else { 2 }),
        _ => None,
    }
}

fn open_reason(op: &Op, args: &[Option<Value>]) -> OpenReason
    ensures { result ≡ open_reason op.now (known_elements args.now) }
{
    match lacking(op, args) {
        Some(argument) => OpenReason::Argument { argument },
        None => {
            if divides_by_zero(op, args) {
                OpenReason::DivisionByZero
            } else {
                OpenReason::Range
            }
        }
    }
}

// The open argument that keeps an open result open.
fn lacking(op: &Op, args: &[Option<Value>]) -> Option<usize>
    ensures { result ≡ lacking op.now (known_elements args.now) }
{
    match taken(op, args) {
        Some(argument) => Some(argument),
        None => first_open(args),
    }
}

fn first_open(args: &[Option<Value>]) -> Option<usize>
    ensures { result ≡ position is_none (known_elements args.now) }
{
    place_of_open(args)
}

fn place_of_open(args: &[Option<Value>]) -> Option<usize>
    ensures { result ≡ position (λ arg. is_none (known_element arg)) args.now }
{
    args.iter().position(|arg| is_open(arg))
}

fn is_open(arg: &Option<Value>) -> bool
    ensures { result ≡ is_none (known_element arg.now) }
{
    arg.is_none()
}

fn divides_by_zero(op: &Op, args: &[Option<Value>]) -> bool
    ensures { result ≡ divides_by_zero op.now (known_elements args.now) }
{
    match op {
        Op::Core(_) => false,
        Op::Ints(op) => is_divided_by_zero(op, args),
        Op::Reals(op) => is_ratio_by_zero(op, args),
        Op::Bits(_) => false,
        Op::Arrays(_) => false,
    }
}

fn is_divided_by_zero(op: &IntsOp, args: &[Option<Value>]) -> bool
    ensures { result ≡ is_divided_by_zero op.now (known_elements args.now) }
{
    match op {
        IntsOp::Arithmetic(Arithmetic::Div) => has_zero_divisor(args),
        IntsOp::Arithmetic(Arithmetic::Minus) => false,
        IntsOp::Arithmetic(Arithmetic::Plus) => false,
        IntsOp::Arithmetic(Arithmetic::Times) => false,
        IntsOp::Mod => has_zero_divisor(args),
        IntsOp::Comparison(_) => false,
        IntsOp::Abs => false,
        IntsOp::Divisible(_) => false,
    }
}

fn is_ratio_by_zero(op: &RealsOp, args: &[Option<Value>]) -> bool
    ensures { result ≡ is_ratio_by_zero op.now (known_elements args.now) }
{
    match op {
        RealsOp::Divide => has_zero_divisor(args),
        RealsOp::ToReal | RealsOp::ToInt | RealsOp::IsInt => false,
    }
}

// Whether an argument behind the first is zero.
fn has_zero_divisor(args: &[Option<Value>]) -> bool
    ensures { result ≡ list_any is_zero (drop 1 (known_elements args.now)) }
{
    match args.split_first() {
        Some((_, divisors)) => some_are_zero(divisors),
        None => false,
    }
}

fn some_are_zero(args: &[Option<Value>]) -> bool
    ensures { result ≡ list_any (λ arg. is_zero (known_element arg)) args.now }
{
    args.iter().any(|arg| is_zero(arg))
}

fn is_zero(arg: &Option<Value>) -> bool
    ensures { result ≡ is_zero (known_element arg.now) }
{
    match integer(arg) {
        Some(z) => z == 0,
        None => false,
    }
}
