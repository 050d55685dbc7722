//! The operators of the theory Core, on elements of which some may be open. This file computes with no
//! integer and no bit vector: it only compares them.

ghost use Rattle.std.specs.Prelude.{◌≡◌, ◌&&◌, ◌||◌, true, false, is_some};
ghost use Rattle.std.specs.List.{list_all, list_any};
ghost use Rattle.smt_values.specs.Element.{element_of, known_element, known_elements};
ghost use Rattle.smt_values.specs.Internal.Same.{is_same_known};
ghost use Rattle.smt_values.specs.KnownOperations.{as_disjunction, decided, is_known, known_choice};
ghost use Rattle.smt_values.specs.KnownOperations.{known_core, known_negation, known_truth};
ghost use Rattle.smt_values.specs.Lists.{are_chained, are_distinct};
ghost use Rattle.smt_values.specs.Operations as meaning;
ghost use Rattle.smt_values.specs.Operations.{exclusive_or};
ghost use Rattle.smt_theory.specs.declared.op.CoreOp.TheVariants.{Distinct, Equal, Xor};

use crate::value::Value;
use smt_theory::CoreOp;

#[inline(never)]
pub(crate) fn apply_core(op: CoreOp, args: &[Option<Value>]) -> Option<Value>
    ensures { known_element result ≡ known_core op (known_elements args.now) }
{
    match op {
        CoreOp::True => Some(Value::Bool(true)),
        CoreOp::False => Some(Value::Bool(false)),
        CoreOp::Not => negation(args),
        CoreOp::Implies => implication(args),
        CoreOp::And => junction(args, false),
        CoreOp::Or => junction(args, true),
        CoreOp::Xor => parity(args),
        CoreOp::Equal => equality(args),
        CoreOp::Distinct => distinctness(args),
        CoreOp::Ite => choice(args),
    }
}

fn negation(args: &[Option<Value>]) -> Option<Value>
    ensures { known_element result ≡ known_negation (known_elements args.now) }
{
    match args {
        [arg] => Some(Value::Bool(!truth(arg)?)),
        _ => None,
    }
}

fn choice(args: &[Option<Value>]) -> Option<Value>
    ensures { known_element result ≡ known_choice (known_elements args.now) }
{
    match args {
        [condition, chosen, other] => { if truth(condition)? { *chosen } else { *other } }
        _ => None,
    }
}

// The conjunction of the arguments where `decisive` is false, and the disjunction where it is true.
#[tactic(auto, using(crate::proofs::KnownLoopLemmas::tests))]
fn junction(args: &[Option<Value>], decisive: bool) -> Option<Value>
    ensures { known_element result ≡ decided decisive (known_elements args.now) }
{
    if some_are(args, decisive) {
        Some(Value::Bool(decisive))
    } else if all_are(args, !decisive) {
        Some(Value::Bool(!decisive))
    } else {
        None
    }
}

fn implication(args: &[Option<Value>]) -> Option<Value>
    ensures { known_element result ≡ decided true (as_disjunction (known_elements args.now)) }
{
    let Some((conclusion, premises)) = args.split_last() else {
        return Some(Value::Bool(false));
    };
    if is_met(premises, conclusion) {
        Some(Value::Bool(true))
    } else if is_missed(premises, conclusion) {
        Some(Value::Bool(false))
    } else {
        None
    }
}

// Whether the implication is known to be true: a premise is false or the conclusion true.
fn is_met(premises: &[Option<Value>], conclusion: &Option<Value>) -> bool
    ensures { result ≡ (list_any (λ premise. is_known false (known_element premise)) premises.now
        || is_known true (known_element conclusion.now)) }
{
    some_are(premises, false) || is(conclusion, true)
}

// Whether the implication is known to be false: the premises are all true and the conclusion false.
fn is_missed(premises: &[Option<Value>], conclusion: &Option<Value>) -> bool
    ensures { result ≡ (list_all (λ premise. is_known true (known_element premise)) premises.now
        && is_known false (known_element conclusion.now)) }
{
    all_are(premises, true) && is(conclusion, false)
}

fn parity(args: &[Option<Value>]) -> Option<Value>
    ensures { known_element result ≡ known_core Xor (known_elements args.now) }
{
    let mut odd = false;
    for arg in args {
        let is_true = truth(arg)?;
        odd = is_one_of(odd, is_true);
    }
    Some(Value::Bool(odd))
}

fn equality(args: &[Option<Value>]) -> Option<Value>
    ensures { known_element result ≡ known_core Equal (known_elements args.now) }
{
    if all_are_known(args) {
        Some(Value::Bool(are_all_same(args)))
    } else {
        None
    }
}

// Whether each is the same as the one after it.
#[tactic(auto, using(crate::proofs::KnownLoopLemmas::tests))]
fn are_all_same(args: &[Option<Value>]) -> bool
    ensures { result ≡ are_chained is_same_known (known_elements args.now) }
{
    let mut left = args;
    while let [first, second, ..] = left {
        if !are_both(first, second) {
            return false;
        }
        left = &left[1..];
    }
    true
}

pub(crate) fn distinctness(args: &[Option<Value>]) -> Option<Value>
    ensures { known_element result ≡ known_core Distinct (known_elements args.now) }
{
    if all_are_known(args) {
        Some(Value::Bool(are_all_distinct(args)))
    } else {
        None
    }
}

// Whether no two are the same.
#[tactic(auto, using(crate::proofs::KnownLoopLemmas::tests))]
fn are_all_distinct(args: &[Option<Value>]) -> bool
    ensures { result ≡ are_distinct is_same_known (known_elements args.now) }
{
    let mut left = args;
    while let Some((first, rest)) = left.split_first() {
        if is_among(first, rest) {
            return false;
        }
        left = rest;
    }
    true
}

fn is_among(value: &Option<Value>, others: &[Option<Value>]) -> bool
    ensures { result ≡ list_any
        (λ other. is_same_known (known_element value.now) (known_element other)) others.now }
{
    others.iter().any(|other| are_both(value, other))
}

// Whether both are known to be the same, or both open.
pub(crate) fn are_both(a: &Option<Value>, b: &Option<Value>) -> bool
    ensures { result ≡ is_same_known (known_element a.now) (known_element b.now) }
{
    match (a, b) {
        (Some(a), Some(b)) => is_same(a, b),
        (None, None) => true,
        (None, Some(_)) | (Some(_), None) => false,
    }
}

// Whether one of the two holds, and not both.
fn is_one_of(a: bool, b: bool) -> bool
    ensures { result ≡ exclusive_or a b }
{
    a != b
}

fn some_are(args: &[Option<Value>], truth: bool) -> bool
    ensures { result ≡ list_any (λ arg. is_known truth (known_element arg)) args.now }
{
    args.iter().any(|arg| is(arg, truth))
}

fn all_are(args: &[Option<Value>], truth: bool) -> bool
    ensures { result ≡ list_all (λ arg. is_known truth (known_element arg)) args.now }
{
    args.iter().all(|arg| is(arg, truth))
}

pub(crate) fn all_are_known(args: &[Option<Value>]) -> bool
    ensures { result ≡ list_all is_some args.now }
{
    args.iter().all(|arg| arg.is_some())
}

// Whether the argument is known to be this truth value.
pub(crate) fn is(arg: &Option<Value>, truth: bool) -> bool
    ensures { result ≡ is_known truth (known_element arg.now) }
{
    match arg {
        Some(Value::Bool(b)) => *b == truth,
        Some(Value::Int(_) | Value::Ratio(_) | Value::Bits(_) | Value::Abstract(_)) | None => false,
    }
}

fn is_same(a: &Value, b: &Value) -> bool
    ensures { result ≡ meaning.is_same (element_of a.now) (element_of b.now) }
{
    a == b
}

// The truth value that the argument is known to be.
pub(crate) fn truth(arg: &Option<Value>) -> Option<bool>
    ensures { result ≡ known_truth (known_element arg.now) }
{
    match arg {
        Some(Value::Bool(b)) => Some(*b),
        Some(Value::Int(_) | Value::Ratio(_) | Value::Bits(_) | Value::Abstract(_)) | None => None,
    }
}
