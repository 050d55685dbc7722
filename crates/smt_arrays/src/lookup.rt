//! How arrays are looked up: by a diagram from the numbers of indexes to the numbers of elements. This file adds no
//! array.

ghost use Rattle.smt_arrays.specs.Cells.{AreOlder, arrays_of};
ghost use Rattle.smt_arrays.specs.Element.{Filled, Plain, Written};
ghost use Rattle.smt_arrays.specs.Elements.{AreDistinct, Extends, number_of, zigzag};
ghost use Rattle.smt_arrays.specs.Lookup.{AreLookups, IsServed, IsTableIfAny, bits_of, is_of_kind};
ghost use Rattle.smt_arrays.specs.Reading.{default_of, read};
ghost use Rattle.smt_arrays.specs.Tables.{IsHeld, array_at, element_in, place_of_array};
ghost use Rattle.smt_arrays.specs.declared.arrays.Cell.{Cell};
ghost use Rattle.smt_diagrams.specs.declared.diagram.Fork.{Fork};
ghost use Rattle.smt_values.specs.Element.{element_of};
ghost use Rattle.std.specs.Prelude.{◌≡◌, ◌==◌, ◌<◌, ◌≤◌, ◌^◌, List, IfOk, IfSome, None, Some};
ghost use Rattle.std.specs.Prelude.{◌&&◌, is_none, length, slice_get, true};

use crate::arrays::{Cell, place_of, read_at};
use crate::elements::Elements;
use crate::sameness::default_at;
use smt_diagrams::{Diagram, Diagrams};
use smt_faults::Memory;
use smt_values::{Bits, Value};

/// What the indexes of an array are.
#[derive(Clone, Copy, PartialEq, Eq)]
pub enum Kind {
    Truths,
    Integers,
    /// Bit vectors of a width.
    Vectors(u32),
}

/// The table of an array: the kind of its indexes, a diagram from their numbers to the numbers of what the array has
/// there, and the number of what it has wherever it is written nowhere.
#[derive(Clone, Copy)]
pub struct Table {
    /// `None` for an array that is written nowhere: its table serves each kind.
    pub kind: Option<Kind>,
    pub diagram: Diagram,
    pub default: u32,
    /// Whether no element is an array.
    pub is_flat: bool,
}

/// By what arrays are looked up: the table of each, if it has one, and what these are made of.
#[derive(Drop)]
pub struct Lookups {
    pub tables: Vec<Option<Table>>,
    pub diagrams: Diagrams,
    pub elements: Elements,
}

/// What the array at a place has at an index that is none.
pub(crate) fn element_at(cells: &[Cell], lookups: &Lookups, place: u32, index: &Value) -> Value
    requires older { AreOlder 0 cells.now }
    requires lookups { AreLookups cells.now lookups.now }
    requires plain { place_of_array index.now ≡ None }
    ensures read { element_in (arrays_of cells.now) result
        ≡ read (array_at (arrays_of cells.now) place) (Plain (element_of index.now)) }
    ensures held { IsHeld (length cells.now) result }
{
    let Some(table) = table_at(lookups, place) else {
        return read_at(cells, place, index);
    };
    let Some(kind) = kind_for(table.kind, index) else {
        return read_at(cells, place, index);
    };
    let Some(number) = number_in(kind, index) else {
        return read_at(cells, place, index);
    };
    let element = lookups
        .diagrams
        .select(bits_of(kind), table.diagram, number);
    lookups.elements.value(element)
}

/// What the array at a place has at each index at which it is not written.
pub(crate) fn default_in(cells: &[Cell], lookups: &Lookups, place: u32) -> Value
    requires older { AreOlder 0 cells.now }
    requires lookups { AreLookups cells.now lookups.now }
    ensures default { element_in (arrays_of cells.now) result ≡ default_of (array_at (arrays_of cells.now) place) }
    ensures held { IsHeld (length cells.now) result }
{
    match table_at(lookups, place) {
        Some(table) => lookups.elements.value(table.default),
        None => default_at(cells, place),
    }
}

/// The table of an array that will have an element at each index.
pub(crate) fn filled_table(
    elements: &mut Elements,
    element: &Value,
) -> Result<Option<Table>, Memory>
    ensures made { IfOk result (λ table. (cells : List Cell) (forks : List Fork) → AreOlder 0 cells
        → IsHeld (length cells) element.now
        → IsTableIfAny cells elements.new forks (Filled (element_in (arrays_of cells) element.now)) table) }
    ensures grown { Extends elements.old elements.new }
    ensures distinct { AreDistinct elements.new }
{
    let number = elements.number(element)?;
    Ok(Some(Table {
        kind: None,
        diagram: Diagram::Leaf(number),
        default: number,
        is_flat: is_plain(element),
    }))
}

/// The table of an array that will be an array with an element written at an index, unless it has none.
pub(crate) fn next_table(
    lookups: &mut Lookups,
    cells: &[Cell],
    array: u32,
    index: &Value,
    element: &Value,
) -> Result<Option<Table>, Memory>
    requires older { AreOlder 0 cells.now }
    requires lookups { AreLookups cells.now lookups.old }
    requires element { IsHeld (length cells.now) element.now }
    ensures lookups { AreLookups cells.now lookups.new }
    ensures made { IfOk result (λ table. IsTableIfAny cells.now lookups.new.elements lookups.new.diagrams
        (Written (array_at (arrays_of cells.now) array) (Plain (element_of index.now))
        (element_in (arrays_of cells.now) element.now)) table) }
{
    let Some(base) = table_at(lookups, array) else {
        return Ok(None);
    };
    let Some(kind) = kind_for(base.kind, index) else {
        return Ok(None);
    };
    let Some(number) = number_in(kind, index) else {
        return Ok(None);
    };
    smt_diagrams::laws::diagrams_stay();
    let leaf = lookups.elements.number(element)?;
    let diagram = lookups
        .diagrams
        .store(bits_of(kind), base.diagram, number, leaf)?;
    Ok(Some(Table {
        kind: Some(kind),
        diagram,
        default: base.default,
        is_flat: is_still_flat(base.is_flat, element),
    }))
}

// Whether no element of an array is one, where this was so or not, and an element is written.
fn is_still_flat(was_flat: bool, element: &Value) -> bool
    ensures { result ≡ (was_flat && is_none (place_of_array element.now)) }
{
    was_flat && is_plain(element)
}

// Whether an element is no array.
fn is_plain(element: &Value) -> bool
    ensures { result ≡ is_none (place_of_array element.now) }
{
    place_of(element).is_none()
}

/// The table of the array at a place, if it has one.
pub(crate) fn table_at(lookups: &Lookups, place: u32) -> Option<Table>
    ensures { IfSome result (λ table. slice_get lookups.now.tables.items place ≡ Some (Some table)) }
{
    match lookups.tables.get(place as usize) {
        Some(table) => *table,
        None => None,
    }
}

// ---- kinds, and the numbers of indexes

// The number of an index, if it is of this kind.
fn number_in(kind: Kind, index: &Value) -> Option<u128>
    ensures { IfSome result (λ number. (is_of_kind kind (element_of index.now) ≡ true)
        × (number ≡ number_of (element_of index.now)) × (number < 2 ^ bits_of kind) × (bits_of kind ≤ 128)) }
{
    match index {
        Value::Bool(truth) => match kind {
            Kind::Truths => Some(u128::from(*truth)),
            Kind::Integers | Kind::Vectors(_) => None,
        },
        Value::Int(integer) => match kind {
            Kind::Integers => Some(zigzag(integer.get())),
            Kind::Truths | Kind::Vectors(_) => None,
        },
        Value::Bits(bits) => match kind {
            Kind::Vectors(width) => number_of_vector(bits, width),
            Kind::Truths | Kind::Integers => None,
        },
        Value::Ratio(_) | Value::Abstract(_) => None,
    }
}

// The number of a vector, if it is of this width.
fn number_of_vector(bits: &Bits, width: u32) -> Option<u128>
    ensures { IfSome result (λ number. ((bits.now.width == width) ≡ true) × (number ≡ bits.now.number)
        × (number < 2 ^ width) × (width ≤ 128)) }
{
    if bits.width().bits() == u64::from(width) {
        Some(bits.number())
    } else {
        None
    }
}

// The kind that a table has, or that of an index: such a table serves it.
fn kind_for(own: Option<Kind>, index: &Value) -> Option<Kind>
    ensures { IfSome result (λ kind. IsServed own kind) }
{
    match own {
        Some(kind) => Some(kind),
        None => kind_of(index),
    }
}

// The kind of an index, if such have numbers.
fn kind_of(index: &Value) -> Option<Kind> {
    match index {
        Value::Bool(_) => Some(Kind::Truths),
        Value::Int(_) => Some(Kind::Integers),
        Value::Bits(bits) => Some(Kind::Vectors(bits.width().bits() as u32)),
        Value::Ratio(_) | Value::Abstract(_) => None,
    }
}

pub(crate) fn bits_of(kind: Kind) -> u32
    ensures { result ≡ bits_of kind }
{
    match kind {
        Kind::Truths => 1,
        Kind::Integers => 128,
        Kind::Vectors(width) => width,
    }
}

/// The natural number of an integer.
pub(crate) fn zigzag(z: i128) -> u128
    ensures { result ≡ zigzag z }
{
    if z < 0 {
        (z.unsigned_abs() - 1) * 2 + 1
    } else {
        z.unsigned_abs() * 2
    }
}
