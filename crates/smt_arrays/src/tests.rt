//! Arrays by integers, filled, written and read; memory may be refused once (`rt try --test --fail-alloc N`).

use crate::Arrays;
use smt_faults::Memory;
use smt_values::{Integer, Value};
use std::alloc::Global;

fn number(n: i128) -> Value {
    Value::Int(Integer::new(n))
}

fn filled(arrays: &mut Arrays, element: i128) -> Result<Option<Value>, Memory> {
    let element = number(element);
    if arrays.holds(&element) {
        return Ok(Some(arrays.fill(element)?));
    }
    Ok(None)
}

fn stored(
    arrays: &mut Arrays,
    array: &Option<Value>,
    index: i128,
    element: i128,
) -> Result<Option<Value>, Memory> {
    let index = number(index);
    let element = number(element);
    match array {
        Some(array) if arrays.holds(array) && arrays.holds(&index) && arrays.holds(&element) => {
            arrays.store(array, &index, &element)
        }
        _ => Ok(None),
    }
}

fn selected(arrays: &Arrays, array: &Option<Value>, index: i128) -> Option<Value> {
    let index = number(index);
    match array {
        Some(array) if arrays.holds(array) && arrays.holds(&index) => {
            arrays.select(array, &index)
        }
        _ => None,
    }
}

// What an array of 5s has at 1, 2 and 3, where 7 was written at 1, 8 at 2 and then 9 at 1; and what the first has at 1.
fn read(alloc: Global) -> Result<[Option<Value>; 4], Memory> {
    let mut arrays = Arrays::new(alloc);
    let all = filled(&mut arrays, 5)?;
    let one = stored(&mut arrays, &all, 1, 7)?;
    let two = stored(&mut arrays, &one, 2, 8)?;
    let three = stored(&mut arrays, &two, 1, 9)?;
    let at_1 = selected(&arrays, &three, 1);
    let at_2 = selected(&arrays, &three, 2);
    let at_3 = selected(&arrays, &three, 3);
    let before = selected(&arrays, &all, 1);
    Ok([at_1, at_2, at_3, before])
}

#[test]
fn the_last_write_is_read(rt: HostRuntime) {
    match read(rt.alloc()) {
        Ok(found) => {
            let told = [9, 8, 5, 5];
            for (value, told) in found.iter().zip(told) {
                assert!(rt; *value == Some(number(told)));
            }
        }
        Err(Memory) => {}
    }
}
