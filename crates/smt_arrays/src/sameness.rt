//! Whether elements are the same, where some are arrays: as far as that is known. This file adds no array.

ghost use Rattle.std.specs.Prelude.{◌≡◌, ◌&&◌, ◌<◌, ◌^◌, ℕ, [], IfSome, MatchOption, Some, is_none, length, map, not};
ghost use Rattle.std.specs.Prelude.{option_map, true};
ghost use Rattle.smt_values.specs.Element.{element_of};
ghost use Rattle.smt_values.specs.Operations.{is_same};
ghost use Rattle.smt_arrays.specs.Cells.{AreOlder, arrays_of};
ghost use Rattle.smt_arrays.specs.Element.{Plain};
ghost use Rattle.smt_arrays.specs.Internal.{IsLastWrite, both, elements_in, first_of, known_same_in, next_same};
ghost use Rattle.smt_arrays.specs.Internal.{value_or};
ghost use Rattle.smt_arrays.specs.Lookup.{AreLookups, IsServed};
ghost use Rattle.smt_arrays.specs.Known.{are_all_so, are_named, is_slow, known_alike, known_default, neighbours_same};
ghost use Rattle.smt_arrays.specs.Known.{pairs_different, unless_different};
ghost use Rattle.smt_arrays.specs.Reading.{are_all, both_indexes, default_of, has_vectors, indexes, is_among, read};
ghost use Rattle.smt_arrays.specs.Tables.{AreHeld, IsHeld, array_at, element_in, place_of_array};

use crate::arrays::{Cell, are_same, place_of};
use crate::lookup::{Kind, Lookups, Table, bits_of, default_in, element_at, table_at};
use smt_bits::Bits;
use smt_theory::Width;
use smt_values::Value;

// How deep arrays are looked into: the elements of an array may be arrays, and theirs are none.
const DEPTH: u32 = 2;

// Where an array was last written: the array before that, and the index.
#[derive(Clone, Copy)]
struct Write {
    array: u32,
    index: Value,
}

// ---- arguments

/// Whether each is the same as the one after it. The arguments are known.
pub(crate) fn are_neighbours_same(
    cells: &[Cell],
    lookups: &Lookups,
    args: &[Option<Value>],
) -> Option<bool>
    requires older { AreOlder 0 cells.now }
    requires lookups { AreLookups cells.now lookups.now }
    requires held { AreHeld (length cells.now) args.now }
    ensures { result ≡ are_all_so (neighbours_same (elements_in (arrays_of cells.now) args.now)) }
{
    let mut found = Some(true);
    let mut left = args;
    while let Some((first, rest)) = left.split_first() {
        found = both(found, is_next_same(cells, lookups, &value_or(first), rest));
        left = rest;
    }
    found
}

// Whether a value is the same as the first of these, if there is one.
fn is_next_same(
    cells: &[Cell],
    lookups: &Lookups,
    value: &Value,
    rest: &[Option<Value>],
) -> Option<bool>
    requires older { AreOlder 0 cells.now }
    requires lookups { AreLookups cells.now lookups.now }
    requires value { IsHeld (length cells.now) value.now }
    requires held { AreHeld (length cells.now) rest.now }
    ensures { result ≡ next_same (element_in (arrays_of cells.now) value.now)
        (elements_in (arrays_of cells.now) rest.now) }
{
    match rest.split_first() {
        Some((next, _)) => sameness(cells, lookups, DEPTH, value, &value_or(next)),
        None => Some(true),
    }
}

/// Whether each is different from each later one. The arguments are known.
pub(crate) fn are_pairs_different(
    cells: &[Cell],
    lookups: &Lookups,
    args: &[Option<Value>],
) -> Option<bool>
    requires older { AreOlder 0 cells.now }
    requires lookups { AreLookups cells.now lookups.now }
    requires held { AreHeld (length cells.now) args.now }
    ensures { result ≡ are_all_so (pairs_different (elements_in (arrays_of cells.now) args.now)) }
{
    let mut found = Some(true);
    let mut left = args;
    while let Some((first, rest)) = left.split_first() {
        found = both(found, is_different(cells, lookups, &value_or(first), rest));
        left = rest;
    }
    found
}

// Whether a value is different from each of these, which are known.
fn is_different(
    cells: &[Cell],
    lookups: &Lookups,
    value: &Value,
    others: &[Option<Value>],
) -> Option<bool>
    requires older { AreOlder 0 cells.now }
    requires lookups { AreLookups cells.now lookups.now }
    requires value { IsHeld (length cells.now) value.now }
    requires held { AreHeld (length cells.now) others.now }
    ensures { result ≡ are_all_so (map
        (λ e. option_map not (known_same_in 2 (element_in (arrays_of cells.now) value.now) e))
        (elements_in (arrays_of cells.now) others.now)) }
{
    let mut found = Some(true);
    let mut left = others;
    while let Some((first, rest)) = left.split_first() {
        found = both(
            found,
            opposite(sameness(cells, lookups, DEPTH, value, &value_or(first))),
        );
        left = rest;
    }
    found
}

/// The value of an argument that is known.
pub(crate) fn value_or(arg: &Option<Value>) -> Value
    ensures { result ≡ value_or arg.now }
{
    match arg {
        Some(value) => *value,
        None => Value::Bool(false),
    }
}

// Whether both are so.
fn both(first: Option<bool>, second: Option<bool>) -> Option<bool>
    ensures { result ≡ both first second }
{
    match (first, second) {
        (Some(false), _) | (None, Some(false)) => Some(false),
        (Some(true), found) => found,
        (None, _) => None,
    }
}

fn opposite(found: Option<bool>) -> Option<bool>
    ensures { result ≡ option_map not found }
{
    match found {
        Some(truth) => Some(!truth),
        None => None,
    }
}

// ---- two elements

// Whether two elements are the same, which are arrays in arrays at most so deep.
#[cycle(sameness)]
fn sameness(cells: &[Cell], lookups: &Lookups, depth: u32, a: &Value, b: &Value) -> Option<bool>
    requires older { AreOlder 0 cells.now }
    requires lookups { AreLookups cells.now lookups.now }
    requires a { IsHeld (length cells.now) a.now }
    requires b { IsHeld (length cells.now) b.now }
    ensures { result ≡ known_same_in depth (element_in (arrays_of cells.now) a.now)
        (element_in (arrays_of cells.now) b.now) }
{
    let (Some(first), Some(second)) = (place_of(a), place_of(b)) else {
        return Some(are_plain_and_same(a, b));
    };
    if depth == 0 {
        return Some(false);
    }
    are_alike(cells, lookups, depth - 1, first, second)
}

// Whether two arrays are the same, whose elements are arrays in arrays at most so deep.
#[cycle(sameness)]
fn are_alike(cells: &[Cell], lookups: &Lookups, depth: u32, a: u32, b: u32) -> Option<bool>
    requires older { AreOlder 0 cells.now }
    requires lookups { AreLookups cells.now lookups.now }
    ensures { result ≡ known_alike (known_same_in depth) (array_at (arrays_of cells.now) a)
        (array_at (arrays_of cells.now) b) }
{
    if let Some(alike) = alike_by_diagrams(cells, lookups, a, b) {
        return Some(alike);
    }
    let first = are_alike_where_written(cells, lookups, depth, a, a, b);
    let second = are_alike_where_written(cells, lookups, depth, b, a, b);
    both(
        default_sameness(cells, lookups, depth, a, b),
        both(first, second),
    )
}

// Whether two arrays are the same, by one comparison of their diagrams: where both have diagrams of one kind, and no
// element of theirs is an array.
fn alike_by_diagrams(cells: &[Cell], lookups: &Lookups, a: u32, b: u32) -> Option<bool>
    requires older { AreOlder 0 cells.now }
    requires lookups { AreLookups cells.now lookups.now }
    ensures { IfSome result (λ alike. (depth : ℕ) → known_alike (known_same_in depth)
        (array_at (arrays_of cells.now) a) (array_at (arrays_of cells.now) b) ≡ Some alike) }
{
    let first = table_at(lookups, a)?;
    let second = table_at(lookups, b)?;
    let kind = common_kind(&first, &second)?;
    if !lookups
        .diagrams
        .are_same(bits_of(kind), first.diagram, second.diagram)
    {
        return Some(false);
    }
    match kind {
        Kind::Truths | Kind::Vectors(_) => Some(true),
        Kind::Integers => Some(first.default == second.default),
    }
}

// The kind of the indexes of two arrays, if it is one, and no element is an array.
fn common_kind(first: &Table, second: &Table) -> Option<Kind>
    ensures { IfSome result (λ kind. IsServed first.now.kind kind × IsServed second.now.kind kind
        × (first.now.is_flat ≡ true) × (second.now.is_flat ≡ true)) }
{
    if !first.is_flat || !second.is_flat {
        return None;
    }
    match (first.kind, second.kind) {
        (Some(kind), None) | (None, Some(kind)) => Some(kind),
        (Some(kind), Some(other)) if kind == other => Some(kind),
        _ => None,
    }
}

// Whether two arrays have the same at each index that is written in an array.
#[cycle(sameness)]
fn are_alike_where_written(
    cells: &[Cell],
    lookups: &Lookups,
    depth: u32,
    array: u32,
    a: u32,
    b: u32,
) -> Option<bool>
    requires older { AreOlder 0 cells.now }
    requires lookups { AreLookups cells.now lookups.now }
    ensures { result ≡ are_all_so (map (λ i. known_same_in depth (read (array_at (arrays_of cells.now) a) i)
        (read (array_at (arrays_of cells.now) b) i)) (indexes (array_at (arrays_of cells.now) array))) }
{
    let mut found = Some(true);
    let mut at = array;
    while let Some(write) = last_write(cells, at) {
        let first = element_at(cells, lookups, a, &write.index);
        let second = element_at(cells, lookups, b, &write.index);
        found = both(found, sameness(cells, lookups, depth, &first, &second));
        at = write.array;
    }
    found
}

// Whether two arrays have the same at all indexes that are written in none of them, if there are any.
#[cycle(sameness)]
fn default_sameness(cells: &[Cell], lookups: &Lookups, depth: u32, a: u32, b: u32) -> Option<bool>
    requires older { AreOlder 0 cells.now }
    requires lookups { AreLookups cells.now lookups.now }
    ensures { result ≡ known_default (known_same_in depth) (array_at (arrays_of cells.now) a)
        (array_at (arrays_of cells.now) b) }
{
    if are_all_written(cells, a, b) {
        return Some(true);
    }
    let found = sameness(
        cells,
        lookups,
        depth,
        &default_in(cells, lookups, a),
        &default_in(cells, lookups, b),
    );
    if are_named(cells, a, b) {
        unless_different(found)
    } else {
        found
    }
}

// Whether two elements are the same, and no arrays.
fn are_plain_and_same(a: &Value, b: &Value) -> bool
    ensures { result ≡ (is_none (place_of_array a.now) && (is_none (place_of_array b.now)
        && is_same (element_of a.now) (element_of b.now))) }
{
    place_of(a).is_none() && (place_of(b).is_none() && are_same(a, b))
}

fn unless_different(found: Option<bool>) -> Option<bool>
    ensures { result ≡ unless_different found }
{
    match found {
        Some(false) => None,
        _ => found,
    }
}

// ---- indexes

// Whether two arrays are written, together, at all indexes that there are.
fn are_all_written(cells: &[Cell], a: u32, b: u32) -> bool
    requires older { AreOlder 0 cells.now }
    ensures { result ≡ are_all (both_indexes (array_at (arrays_of cells.now) a)
        (array_at (arrays_of cells.now) b)) }
{
    let Some(index) = first_index(cells, a, b) else {
        return false;
    };
    match &index {
        Value::Bool(_) => {
            is_written(cells, a, b, &Value::Bool(true))
                && is_written(cells, a, b, &Value::Bool(false))
        }
        Value::Bits(bits) => are_vectors_written(cells, a, b, bits.width()),
        Value::Int(_) | Value::Ratio(_) | Value::Abstract(_) => false,
    }
}

// Whether two arrays are written, together, at each vector of a width.
fn are_vectors_written(cells: &[Cell], a: u32, b: u32, width: Width) -> bool
    requires older { AreOlder 0 cells.now }
    ensures { result ≡ has_vectors width (2 ^ width) (both_indexes (array_at (arrays_of cells.now) a)
        (array_at (arrays_of cells.now) b)) }
{
    let mut number = u128::MAX >> (128 - width.bits());
    while is_written(cells, a, b, &Value::Bits(Bits::new(width, number))) {
        if number == 0 {
            return true;
        }
        number -= 1;
    }
    false
}

// Whether the indexes of two arrays are elements of a declared sort.
fn are_named(cells: &[Cell], a: u32, b: u32) -> bool
    requires older { AreOlder 0 cells.now }
    ensures { result ≡ are_named (both_indexes (array_at (arrays_of cells.now) a)
        (array_at (arrays_of cells.now) b)) }
{
    match first_index(cells, a, b) {
        Some(Value::Abstract(_)) => true,
        Some(Value::Bool(_) | Value::Int(_) | Value::Ratio(_) | Value::Bits(_)) | None => false,
    }
}

// An index at which one of two arrays is written.
fn first_index(cells: &[Cell], a: u32, b: u32) -> Option<Value>
    requires older { AreOlder 0 cells.now }
    ensures { option_map (λ i. Plain (element_of i)) result ≡ first_of (both_indexes
        (array_at (arrays_of cells.now) a) (array_at (arrays_of cells.now) b)) }
{
    match last_write(cells, a) {
        Some(write) => Some(write.index),
        None => last_index(cells, b),
    }
}

// The index at which an array is written last.
fn last_index(cells: &[Cell], array: u32) -> Option<Value>
    requires older { AreOlder 0 cells.now }
    ensures { option_map (λ i. Plain (element_of i)) result
        ≡ first_of (indexes (array_at (arrays_of cells.now) array)) }
{
    match last_write(cells, array) {
        Some(write) => Some(write.index),
        None => None,
    }
}

// Whether one of two arrays is written at an index.
fn is_written(cells: &[Cell], a: u32, b: u32, index: &Value) -> bool
    requires older { AreOlder 0 cells.now }
    ensures { result ≡ is_among (Plain (element_of index.now)) (both_indexes
        (array_at (arrays_of cells.now) a) (array_at (arrays_of cells.now) b)) }
{
    is_written_in(cells, a, index) || is_written_in(cells, b, index)
}

// Whether an array is written at an index.
fn is_written_in(cells: &[Cell], array: u32, index: &Value) -> bool
    requires older { AreOlder 0 cells.now }
    ensures { result ≡ is_among (Plain (element_of index.now)) (indexes (array_at (arrays_of cells.now) array)) }
{
    let mut at = array;
    while let Some(write) = last_write(cells, at) {
        if are_same(index, &write.index) {
            return true;
        }
        at = write.array;
    }
    false
}

// ---- cells

// Where an array was last written, if it was.
fn last_write(cells: &[Cell], array: u32) -> Option<Write>
    requires older { AreOlder 0 cells.now }
    ensures { MatchOption result (indexes (array_at (arrays_of cells.now) array) ≡ [])
        (λ write. IsLastWrite (arrays_of cells.now) array write.array write.index) }
{
    match cells.get(array as usize) {
        Some(
            Cell::Written {
                array: before,
                index,
                ..
            },
        ) => Some(Write {
            array: *before,
            index: *index,
        }),
        Some(Cell::Filled(_)) => None,
        None => None,
    }
}

/// What an array has at each index at which it is not written.
pub(crate) fn default_at(cells: &[Cell], array: u32) -> Value
    requires older { AreOlder 0 cells.now }
    ensures default { element_in (arrays_of cells.now) result ≡ default_of (array_at (arrays_of cells.now) array) }
    ensures held { IsHeld (length cells.now) result }
{
    let mut at = array;
    while let Some(cell) = cells.get(at as usize) {
        match cell {
            Cell::Filled(element) => return *element,
            Cell::Written { array, .. } => at = *array,
        }
    }
    Value::Bool(false)
}

/// Whether an array is compared place by place.
pub(crate) fn is_slow(cells: &[Cell], lookups: &Lookups, value: &Value) -> bool
    requires older { AreOlder 0 cells.now }
    requires lookups { AreLookups cells.now lookups.now }
    requires held { IsHeld (length cells.now) value.now }
    ensures { result ≡ is_slow (element_in (arrays_of cells.now) value.now) }
{
    match place_of(value) {
        Some(place) => is_slow_at(cells, lookups, place),
        None => false,
    }
}

// Whether the array at a place is compared place by place.
fn is_slow_at(cells: &[Cell], lookups: &Lookups, place: u32) -> bool
    requires older { AreOlder 0 cells.now }
    requires lookups { AreLookups cells.now lookups.now }
    requires held { place < length cells.now }
    ensures { result ≡ is_slow (array_at (arrays_of cells.now) place) }
{
    place_of(&default_in(cells, lookups, place)).is_some() || is_named(cells, place)
}

// Whether the indexes of an array are elements of a declared sort.
fn is_named(cells: &[Cell], array: u32) -> bool
    requires older { AreOlder 0 cells.now }
    ensures { result ≡ are_named (indexes (array_at (arrays_of cells.now) array)) }
{
    match last_index(cells, array) {
        Some(Value::Abstract(_)) => true,
        Some(Value::Bool(_) | Value::Int(_) | Value::Ratio(_) | Value::Bits(_)) | None => false,
    }
}
