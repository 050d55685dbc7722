//! Small tables that are built and read twice; memory may be refused once (`rt try --test --fail-alloc N`).

use crate::{Node, NodeParts, Nodes};
use smt_faults::Memory;
use smt_theory::{Arithmetic, BitsOp, IntsOp, LiteralKind, Op};
use std::alloc::Global;

// `(! (! (+ x (! 1))))`, where `x` is the first variable in scope, and then one operator with a number on top.
fn sum(alloc: Global) -> Result<Nodes, Memory> {
    let mut nodes = Nodes::new(alloc);
    let x = nodes.push(&Node::Slot(0), 0)?;
    let one = nodes.push(&Node::Literal(LiteralKind::Numeral, b"1"), 1)?;
    let op = Op::Ints(IntsOp::Arithmetic(Arithmetic::Plus));
    let sum = nodes.push(
        &Node::Apply {
            op,
            args: &[x, one],
        },
        2,
    )?;
    let op = Op::Bits(BitsOp::Repeat(2));
    let _ = nodes.push(&Node::Apply { op, args: &[sum] }, 0)?;
    Ok(nodes)
}

// The number of arguments of an operator's node; 99 for another node.
fn arity(nodes: &Nodes, number: usize) -> usize {
    match nodes.get(number) {
        Some(Node::Apply { op: _, args }) => args.len(),
        _ => 99,
    }
}

// The number of arguments of an operator's node, by its parts alone.
fn arity_by_parts(nodes: &Nodes, number: usize) -> usize {
    match nodes.get_parts(number) {
        Some((NodeParts::Plain { args, .. } | NodeParts::Args(args), _)) => args.len(),
        _ => 99,
    }
}

// The numbers of three literals: one that has room in its row, one that has none and stands in two annotations, and
// one of 129 digits.
fn numbers(alloc: Global) -> Result<[Option<u128>; 3], Memory> {
    let mut nodes = Nodes::new(alloc);
    let _ = nodes.push(&Node::Literal(LiteralKind::Binary, b"101"), 0)?;
    let _ = nodes.push(&Node::Literal(LiteralKind::Hexadecimal, b"Ffffffff"), 1)?;
    let digits = [b'1'; 129];
    let _ = nodes.push(&Node::Literal(LiteralKind::Binary, &digits), 0)?;
    nodes.cut(1);
    let _ = nodes.push(&Node::Slot(0), 0)?;
    let large = nodes.push(&Node::Literal(LiteralKind::Hexadecimal, b"Ffffffff"), 2)?;
    let longest = nodes.push(&Node::Literal(LiteralKind::Binary, &digits), 0)?;
    Ok([
        nodes.literal(0),
        nodes.literal(large.number()),
        nodes.literal(longest.number()),
    ])
}

#[test]
fn literals_have_their_numbers(rt: HostRuntime) {
    let mut read = false;
    for _ in 0..2 {
        if let Ok(numbers) = numbers(rt.alloc()) {
            assert_eq!(rt; numbers, [Some(5), Some(4_294_967_295), None]);
            read = true;
        }
    }
    assert!(rt; read);
}

#[test]
fn a_sum_is_read(rt: HostRuntime) {
    let mut built = false;
    for _ in 0..2 {
        if let Ok(mut nodes) = sum(rt.alloc()) {
            assert_eq!(rt; nodes.len(), 4);
            assert_eq!(rt; arity(&nodes, 2), 2);
            assert_eq!(rt; arity(&nodes, 3), 1);
            assert_eq!(rt; arity_by_parts(&nodes, 2), 2);
            assert_eq!(rt; nodes.around(0), Some(0));
            assert_eq!(rt; nodes.around(1), Some(1));
            assert_eq!(rt; nodes.around(2), Some(2));
            nodes.cut(2);
            assert_eq!(rt; nodes.len(), 2);
            assert_eq!(rt; nodes.around(1), Some(1));
            assert_eq!(rt; nodes.around(2), None);
            built = true;
        }
    }
    assert!(rt; built);
}

// The numbers of three elements, two of one name of 40 bytes, where the first row alone stays between; and the length
// of the second's name.
fn elements(alloc: Global) -> Result<[Option<u32>; 5], Memory> {
    let mut nodes = Nodes::new(alloc);
    let long = [b'@'; 40];
    let first = nodes.push(&Node::Element(&long), 0)?;
    let _ = nodes.push(&Node::Element(b"@b"), 0)?;
    nodes.cut(1);
    let slot = nodes.push(&Node::Slot(0), 0)?;
    let same = nodes.push(&Node::Element(&long), 2)?;
    let third = nodes.push(&Node::Element(b"@c"), 0)?;
    let length = match nodes.element_name(0) {
        Some(name) => Some(name.len() as u32),
        None => None,
    };
    Ok([
        nodes.element(first.number()),
        nodes.element(slot.number()),
        nodes.element(same.number()),
        nodes.element(third.number()),
        length,
    ])
}

#[test]
fn elements_of_one_name_have_one_number(rt: HostRuntime) {
    let mut read = false;
    for _ in 0..2 {
        if let Ok(numbers) = elements(rt.alloc()) {
            assert_eq!(rt; numbers, [Some(0), None, Some(0), Some(2), Some(40)]);
            read = true;
        }
    }
    assert!(rt; read);
}
