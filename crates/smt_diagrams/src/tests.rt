//! Functions of numbers of two bits, stored and read; memory may be refused once (`rt try --test --fail-alloc N`).

use crate::{Diagram, Diagrams};
use smt_faults::Memory;
use std::alloc::Global;

// Whether a diagram has these elements at 0, 1, 2 and 3.
fn has(diagrams: &Diagrams, diagram: Diagram, a: u32, b: u32, c: u32, d: u32) -> bool {
    diagrams.select(2, diagram, 0) == a
        && diagrams.select(2, diagram, 1) == b
        && diagrams.select(2, diagram, 2) == c
        && diagrams.select(2, diagram, 3) == d
}

// 5 everywhere, then 1 at 2, 8 at 3, and 5 at 2 again: whether each is read, and the last is 8 at 3 alone.
fn stored(alloc: Global) -> Result<(bool, bool), Memory> {
    let mut diagrams = Diagrams::new(alloc);
    let all = Diagram::Leaf(5);
    let alone = diagrams.store(2, all, 3, 8)?;
    let one = diagrams.store(2, all, 2, 1)?;
    let two = diagrams.store(2, one, 3, 8)?;
    let back = diagrams.store(2, two, 2, 5)?;
    let read = has(&diagrams, two, 5, 5, 1, 8) && has(&diagrams, one, 5, 5, 1, 5);
    let same = back == alone && two != alone;
    Ok((read, same))
}

// What two diagrams have where they differ: 5 and 1 at 2, 8 and 5 at 3.
fn different(alloc: Global) -> Result<(u32, u32), Memory> {
    let mut diagrams = Diagrams::new(alloc);
    let all = Diagram::Leaf(5);
    let first = diagrams.store(2, all, 3, 8)?;
    let second = diagrams.store(2, all, 2, 1)?;
    let found = diagrams.differences(alloc, 2, first, second)?;
    match found.as_slice() {
        [even, odd] => Ok((even.second, odd.first)),
        _ => Ok((0, 0)),
    }
}

#[test]
fn stores_are_read_and_compared(rt: HostRuntime) {
    match stored(rt.alloc()) {
        Ok((read, same)) => {
            assert!(rt; read);
            assert!(rt; same);
        }
        Err(Memory) => {}
    }
}

#[test]
fn differences_are_found(rt: HostRuntime) {
    match different(rt.alloc()) {
        Ok((even, odd)) => {
            assert_eq!(rt; even, 1);
            assert_eq!(rt; odd, 8);
        }
        Err(Memory) => {}
    }
}
