//! A term over a model's function and the script's own: its cost, and its value, twice by one machine. Memory
//! may be refused once (`rt try --test --fail-alloc N`).

use crate::{Machine, Tables, cost_of_term, costs};
use smt_faults::Memory;
use smt_nodes::{Node, Nodes, TermId};
use smt_theory::{Arithmetic, Comparison, CoreOp, IntsOp, LiteralKind, Op};
use smt_values::Value;
use std::alloc::Global;

const MINUS: Op = Op::Ints(IntsOp::Arithmetic(Arithmetic::Minus));

const LESS: Op = Op::Ints(IntsOp::Comparison(Comparison::Less));

const ITE: Op = Op::Core(CoreOp::Ite);

fn apply(nodes: &mut Nodes, op: Op, args: &[TermId]) -> Result<TermId, Memory> {
    nodes.push(&Node::Apply { op, args }, 0)
}

// `x` is 2, and `(f a)` is `(let ((b 1) (a a)) (- b a a))`: -3 for 2.
fn model(alloc: Global) -> Result<(Nodes, [TermId; 2]), Memory> {
    let mut nodes = Nodes::new(alloc);
    let x = nodes.push(&Node::Literal(LiteralKind::Numeral, b"2"), 0)?;
    let one = nodes.push(&Node::Literal(LiteralKind::Numeral, b"1"), 0)?;
    let a = nodes.push(&Node::Slot(0), 0)?;
    let inner_b = nodes.push(&Node::Slot(1), 0)?;
    let inner_a = nodes.push(&Node::Slot(2), 0)?;
    let body = apply(&mut nodes, MINUS, &[inner_b, inner_a, inner_a])?;
    let values = &[one, a];
    let f = nodes.push(&Node::Let { values, body }, 0)?;
    Ok((nodes, [x, f]))
}

// `(g a b)` is `(ite (< b a) (- b a) (f b))`, and `(f x)` is the last of the script's own nodes.
fn script(alloc: Global) -> Result<(Nodes, TermId, [TermId; 2]), Memory> {
    let mut nodes = Nodes::new(alloc);
    let a = nodes.push(&Node::Slot(0), 0)?;
    let b = nodes.push(&Node::Slot(1), 0)?;
    let less = apply(&mut nodes, LESS, &[b, a])?;
    let place = 1;
    let f_b = nodes.push(&Node::Declared { place, args: &[b] }, 0)?;
    let difference = apply(&mut nodes, MINUS, &[b, a])?;
    let g = apply(&mut nodes, ITE, &[less, difference, f_b])?;
    let x = nodes.push(
        &Node::Declared {
            place: 0,
            args: &[],
        },
        0,
    )?;
    let f_x = nodes.push(&Node::Declared { place, args: &[x] }, 0)?;
    Ok((nodes, g, [x, f_x]))
}

// The cost of the transient term `(g x (f x))`, its value, and what the second of two evaluations leaves of
// the cost.
fn value(alloc: Global) -> Result<(u64, Option<Value>, u64), Memory> {
    let (model, declared) = model(alloc)?;
    let (script, g, args) = script(alloc)?;
    let mut transient = Nodes::new(alloc);
    let call = Node::Defined {
        place: 0,
        args: &args,
    };
    let term = transient.push(&call, 0)?.behind(script.len())?;
    let tables = Tables {
        model: &model,
        model_bodies: &declared,
        script: &script,
        transient: &transient,
        script_bodies: &[g],
        declared: &declared,
    };
    let costs = costs(alloc, tables)?;
    let cost = cost_of_term(costs.as_slice(), tables, term);
    if cost > 1000 {
        return Ok((cost, None, 0));
    }
    let mut machine = Machine::new(alloc);
    let mut left = cost;
    machine.eval(tables, term, &mut left)?;
    left = cost;
    let value = machine.eval(tables, term, &mut left)?;
    Ok((cost, machine.plain(value), left))
}

fn is_integer(value: Option<Value>, integer: i128) -> bool {
    match value {
        Some(value) => value.integer() == Some(integer),
        None => false,
    }
}

// The second evaluation does not evaluate the body of `x` again, and no evaluation both branches of `ite`.
#[test]
fn a_term_has_its_cost_and_its_value(rt: HostRuntime) {
    let mut evaluated = false;
    for _ in 0..2 {
        if let Ok((cost, value, left)) = value(rt.alloc()) {
            assert_eq!(rt; cost, 29);
            assert!(rt; is_integer(value, -5));
            assert_eq!(rt; left, 11);
            evaluated = true;
        }
    }
    assert!(rt; evaluated);
}
