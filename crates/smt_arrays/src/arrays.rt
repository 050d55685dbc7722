//! Arrays, each by its place.

ghost use Rattle.smt_arrays.specs.Cells.{AreOlder, IsOlder, arrays_of, made};
ghost use Rattle.smt_arrays.specs.Element.{Filled, Plain, known_plain};
ghost use Rattle.smt_arrays.specs.Internal.{IsKnownIn, elements_in, is_array_value, size_up_to_limit, sizes_of};
ghost use Rattle.smt_arrays.specs.Internal.{takes_values, unless_array};
ghost use Rattle.smt_arrays.specs.Known.{known_arrays, is_slow, is_too_much, size, known_step};
ghost use Rattle.smt_arrays.specs.Reading.{read};
ghost use Rattle.smt_arrays.specs.Tables.{IsAdded, IsAddedIfKnown, IsHeld, array_at, element_in, place_of_array};
ghost use Rattle.smt_arrays.specs.Tables.{AreHeld, Grows, IsHeldIfKnown, all_known_in, known_in};
ghost use Rattle.smt_theory.specs.Sort.{Sort};
ghost use Rattle.smt_theory.specs.declared.op.ArraysOp.TheVariants.{Select, Store, Const};
ghost use Rattle.smt_theory.specs.declared.op.Op.TheVariants.{Arrays as OnArrays, Core};
ghost use Rattle.smt_values.specs.Element.{element_of, known_element};
ghost use Rattle.smt_values.specs.Operations.{is_same};
ghost use Rattle.smt_values.specs.declared.value.Value.TheVariants.{Bool as BoolValue};
ghost use Rattle.std.specs.List.{list_all, list_any, sum};
ghost use Rattle.std.specs.Prelude.{◌≡◌, ◌++◌, [], ◌∷◌, IfOk, IfSome, None, OnErr, if◌then◌else◌, is_none, length};
ghost use Rattle.std.specs.Prelude.{option_map, ◌+◌, get_or, is_some, map, min, suc, IsTrue, ◌↔◌};

use crate::elements::Elements;
use crate::lookup::{Lookups, Table, element_at, filled_table, next_table};
use crate::sameness::{are_neighbours_same, are_pairs_different, is_slow, value_or};
use smt_diagrams::Diagrams;
use smt_faults::Memory;
use smt_theory::{ArraysOp, CoreOp, Op};
use smt_values::{ElementNumber, Value, apply_in_place};
use std::alloc::Global;
use std::marker::Model;

// How much may be written in arrays that are compared place by place.
const MOST_WRITTEN: u32 = 256;

/// What an array is made of: the element that it has at each index; or another array, at an earlier place, and what it
/// has at one index instead.
#[derive(Clone, Copy)]
pub enum Cell {
    Filled(Value),
    Written {
        array: u32,
        index: Value,
        element: Value,
    },
}

/// Arrays, each at its place. A contract sees them in that order; a value that is an array is the one at its place.
///
/// There are at most 2^32 - 1 arrays, of about 110 bytes each, at most 2^26 forks of diagrams, of which a store takes
/// up to 128, and at most 2^32 - 1 distinct elements. Beyond that want of memory is reported.
///
/// An array by truth values, integers or bit vectors is read in at most 128 steps, and any other in as many as there
/// were writes. Two of the former, whose elements are no arrays, are compared in one step.
#[derive(Drop)]
pub struct Arrays {
    cells: Vec<Cell>,
    // the size of each array, as far as it counts
    sizes: Vec<u32>,
    // by what the arrays are looked up
    lookups: Lookups,
}

impl Model for Arrays {
    ghost use Rattle.smt_arrays.specs.Cells.{AreOlder, arrays_of};
    ghost use Rattle.smt_arrays.specs.Internal.{sizes_of};
    ghost use Rattle.smt_arrays.specs.Lookup.{AreLookups};
    ghost use Rattle.smt_arrays.specs.declared.arrays.Cell.{Cell};
    ghost use Rattle.std.specs.Prelude.{◌≡◌, List};

    ghost Value = { List Cell };

    ghost view = { λ a. a.cells.items };

    ghost invariant = { λ a. AreOlder 0 a.cells.items × (a.sizes.items ≡ sizes_of (arrays_of a.cells.items))
        × AreLookups a.cells.items a.lookups };
}

impl Arrays {
    /// No arrays, which asks for no memory.
    pub fn new(alloc: Global) -> Arrays
        ensures { result ≡ [] }
    {
        Arrays {
            cells: Vec::new(alloc),
            sizes: Vec::new(alloc),
            lookups: Lookups {
                tables: Vec::new(alloc),
                diagrams: Diagrams::new(alloc),
                elements: Elements::new(alloc),
            },
        }
    }

    /// The array that has an element at each index (SMT-LIB 2.6, theory ArraysEx, `const`, as solvers print it).
    ///
    /// The only error is want of memory, and then nothing changes.
    pub fn fill(&mut self, element: Value) -> Result<Value, Memory>
        requires held { IsHeld (length self.old) element }
        ensures added { IfOk result (λ array. IsAdded (arrays_of self.old) (arrays_of self.new)
            (Filled (element_in (arrays_of self.old) element)) array) }
        ensures unchanged { OnErr result (self.new ≡ self.old) }
    {
        let size = one_more(self.size_of(&element), 0);
        let table = filled_table(&mut self.lookups.elements, &element)?;
        let cell = Cell::Filled(element);
        add_with_table(
            &mut self.cells,
            &mut self.sizes,
            &mut self.lookups.tables,
            cell,
            size,
            table,
        )
    }

    /// The array that has an element at an index, and elsewhere what an array has (`store`); `None` where the first
    /// value is no array, or the index is one.
    ///
    /// The only error is want of memory, and then nothing changes.
    pub fn store(
        &mut self,
        array: &Value,
        index: &Value,
        element: &Value,
    ) -> Result<Option<Value>, Memory>
        requires array { IsHeld (length self.old) array.now }
        requires index { IsHeld (length self.old) index.now }
        requires element { IsHeld (length self.old) element.now }
        ensures added { IfOk result (λ made. IsAddedIfKnown (arrays_of self.old) (arrays_of self.new)
            (known_arrays Store (element_in (arrays_of self.old) array.now ∷ element_in (arrays_of self.old) index.now
            ∷ element_in (arrays_of self.old) element.now ∷ [])) made) }
        ensures unchanged { OnErr result (self.new ≡ self.old) }
    {
        let size = one_more(self.size_of(array), self.size_of(element));
        let Some(place) = array_of(array, index) else {
            return Ok(None);
        };
        let table = next_table(
            &mut self.lookups,
            self.cells.as_slice(),
            place,
            index,
            element,
        )?;
        let cell = Cell::Written {
            array: place,
            index: *index,
            element: *element,
        };
        Ok(Some(add_with_table(
            &mut self.cells,
            &mut self.sizes,
            &mut self.lookups.tables,
            cell,
            size,
            table,
        )?))
    }

    /// What an array has at an index (`select`); `None` where the first value is no array, or the index is one.
    pub fn select(&self, array: &Value, index: &Value) -> Option<Value>
        requires array { IsHeld (length self.now) array.now }
        requires index { IsHeld (length self.now) index.now }
        ensures known { option_map (element_in (arrays_of self.now)) result
            ≡ known_arrays Select (element_in (arrays_of self.now) array.now ∷ element_in (arrays_of self.now) index.now
            ∷ []) }
        ensures held { IfSome result (λ element. IsHeld (length self.now) element) }
    {
        match array_of(array, index) {
            Some(place) => Some(element_at(self.cells.as_slice(), &self.lookups, place, index)),
            None => None,
        }
    }

    /// What is known of an operator's result for these arguments; `None` is an open argument, and an open result. The
    /// arguments may change places. Arrays are added, and those that are there stay.
    ///
    /// The only error is want of memory, and then nothing changes.
    #[inline(always)]
    pub fn operate(&mut self, op: Op, args: &mut [Option<Value>]) -> Result<Option<Value>, Memory>
        requires held { AreHeld (length self.old) args.old }
        ensures known { IfOk result (λ v. known_in (arrays_of self.new) v
            ≡ known_step op (all_known_in (arrays_of self.old) args.old)) }
        ensures held { IfOk result (λ v. IsHeldIfKnown (length self.new) v) }
        ensures grown { Grows (arrays_of self.old) (arrays_of self.new) }
        ensures unchanged { OnErr result (self.new ≡ self.old) }
    {
        let without_arrays = self.cells.as_slice().is_empty();
        if takes_values(without_arrays, &op) {
            Ok(apply_in_place(op, args))
        } else {
            self.operate_on_arrays(op, args)
        }
    }

    // What is known of an operator's result, where arrays may be among the arguments.
    #[inline(never)]
    fn operate_on_arrays(
        &mut self,
        op: Op,
        args: &mut [Option<Value>],
    ) -> Result<Option<Value>, Memory>
        requires held { AreHeld (length self.old) args.old }
        ensures known { IfOk result (λ v. IsKnownIn (arrays_of self.old) (arrays_of self.new)
            (known_step op (all_known_in (arrays_of self.old) args.old)) v) }
        ensures unchanged { OnErr result (self.new ≡ self.old) }
    {
        match op {
            Op::Arrays(op) => self.read_or_made(op, args),
            Op::Core(op) => Ok(self.compared(op, args)),
            _ => Ok(apply_in_place(op, args)),
        }
    }

    // What an operator on arrays gives, where the arguments are known.
    fn read_or_made(
        &mut self,
        op: ArraysOp,
        args: &[Option<Value>],
    ) -> Result<Option<Value>, Memory>
        requires held { AreHeld (length self.old) args.now }
        ensures known { IfOk result (λ v. IsKnownIn (arrays_of self.old) (arrays_of self.new)
            (known_step (OnArrays op) (all_known_in (arrays_of self.old) args.now)) v) }
        ensures unchanged { OnErr result (self.new ≡ self.old) }
    {
        if !are_all_known(args) {
            return Ok(None);
        }
        match op {
            ArraysOp::Select => Ok(self.selected(args)),
            ArraysOp::Store => self.stored(args),
            ArraysOp::Const(_) => self.filled(args),
        }
    }

    // What `select` gives. The arguments are known.
    fn selected(&self, args: &[Option<Value>]) -> Option<Value>
        requires held { AreHeld (length self.now) args.now }
        ensures { IsKnownIn (arrays_of self.now) (arrays_of self.now)
            (known_arrays Select (elements_in (arrays_of self.now) args.now)) result }
    {
        if args.len() != 2 {
            return None;
        }
        self.select(&value_or(&args[0]), &value_or(&args[1]))
    }

    // What `store` gives. The arguments are known.
    fn stored(&mut self, args: &[Option<Value>]) -> Result<Option<Value>, Memory>
        requires held { AreHeld (length self.old) args.now }
        ensures known { IfOk result (λ v. IsKnownIn (arrays_of self.old) (arrays_of self.new)
            (known_arrays Store (elements_in (arrays_of self.old) args.now)) v) }
        ensures unchanged { OnErr result (self.new ≡ self.old) }
    {
        if args.len() != 3 {
            return Ok(None);
        }
        self.store(
            &value_or(&args[0]),
            &value_or(&args[1]),
            &value_or(&args[2]),
        )
    }

    // What `const` gives. The arguments are known.
    fn filled(&mut self, args: &[Option<Value>]) -> Result<Option<Value>, Memory>
        requires held { AreHeld (length self.old) args.now }
        ensures known { (sort : Sort) → IfOk result (λ v. IsKnownIn (arrays_of self.old) (arrays_of self.new)
            (known_arrays (Const sort) (elements_in (arrays_of self.old) args.now)) v) }
        ensures unchanged { OnErr result (self.new ≡ self.old) }
    {
        if args.len() != 1 {
            return Ok(None);
        }
        Ok(Some(self.fill(value_or(&args[0]))?))
    }

    // What `=` and `distinct`, and the other operators of Core, give.
    fn compared(&self, op: CoreOp, args: &mut [Option<Value>]) -> Option<Value>
        requires held { AreHeld (length self.now) args.old }
        ensures { IsKnownIn (arrays_of self.now) (arrays_of self.now)
            (known_step (Core op) (all_known_in (arrays_of self.now) args.old)) result }
    {
        let without_arrays = !has_array(args);
        if takes_values(without_arrays, &Op::Core(op)) {
            return apply_in_place(Op::Core(op), args);
        }
        if !are_all_known(args) {
            return None;
        }
        if self.is_too_much(args) {
            return None;
        }
        let cells = self.cells.as_slice();
        match op {
            CoreOp::Equal => truth_value(are_neighbours_same(cells, &self.lookups, args)),
            _ => truth_value(are_pairs_different(cells, &self.lookups, args)),
        }
    }

    // Whether too much is written in arrays that are compared place by place. The arguments are known.
    fn is_too_much(&self, args: &[Option<Value>]) -> bool
        requires held { AreHeld (length self.now) args.now }
        ensures { result ≡ is_too_much (elements_in (arrays_of self.now) args.now) }
    {
        self.is_one_slow(args) && self.total_size(args) > MOST_WRITTEN
    }

    // Whether one of the arguments, which are known, is an array that is compared place by place.
    fn is_one_slow(&self, args: &[Option<Value>]) -> bool
        requires held { AreHeld (length self.now) args.now }
        ensures { result ≡ list_any is_slow (elements_in (arrays_of self.now) args.now) }
    {
        let cells = self.cells.as_slice();
        let mut left = args;
        while let Some((first, rest)) = left.split_first() {
            if is_slow(cells, &self.lookups, &value_or(first)) {
                return true;
            }
            left = rest;
        }
        false
    }

    // The sizes of the arguments, which are known, added up as far as they count.
    fn total_size(&self, args: &[Option<Value>]) -> u32
        ensures { result ≡ min (sum (map size (elements_in (arrays_of self.now) args.now))) 257 }
    {
        let mut total = 0;
        let mut left = args;
        while let Some((first, rest)) = left.split_first() {
            total = sum_up_to_limit(total, self.size_of(&value_or(first)));
            left = rest;
        }
        total
    }

    // The size of an array, as far as it counts; of another value it is 0.
    fn size_of(&self, value: &Value) -> u32
        ensures { result ≡ size_up_to_limit (element_in (arrays_of self.now) value.now) }
    {
        match place_of(value) {
            Some(place) => size_at(self.sizes.as_slice(), place),
            None => 0,
        }
    }

    /// Whether the value, if it is an array, is among these.
    pub fn holds(&self, value: &Value) -> bool
        ensures { IsTrue result ↔ IsHeld (length self.now) value.now }
    {
        match place_of(value) {
            Some(place) => (place as usize) < self.cells.as_slice().len(),
            None => true,
        }
    }

    /// The value, where it is no array; an array is open.
    pub fn plain(&self, value: Option<Value>) -> Option<Value>
        ensures { known_element result ≡ known_plain (known_in (arrays_of self.now) value) }
    {
        let _ = &self.cells;
        unless_array(value)
    }

    /// Forgets all arrays, and keeps their memory.
    pub fn clear(&mut self)
        ensures { self.new ≡ [] }
    {
        self.cells.clear();
        self.sizes.clear();
        self.lookups.tables.clear();
        self.lookups.diagrams.clear();
        self.lookups.elements.clear();
    }
}

// The place of an array that has an index: the value is an array, and the index is none.
fn array_of(array: &Value, index: &Value) -> Option<u32>
    ensures place { result ≡ if is_none (place_of_array index.now) then place_of_array array.now else None }
{
    match (place_of(array), place_of(index)) {
        (place, None) => place,
        (_, Some(_)) => None,
    }
}

// The place of an array.
pub(crate) fn place_of(value: &Value) -> Option<u32>
    ensures { result ≡ place_of_array value.now }
{
    match value {
        Value::Abstract(number) => number.array_place(),
        Value::Bool(_) | Value::Int(_) | Value::Ratio(_) | Value::Bits(_) => None,
    }
}

// The value, where it is no array.
fn unless_array(value: Option<Value>) -> Option<Value>
    ensures { known_element result ≡ unless_array (known_element value) }
{
    let value = value?;
    match place_of(&value) {
        Some(_) => None,
        None => Some(value),
    }
}

// Whether an operator takes values alone: where there are no arrays, or in any case.
#[inline(always)]
fn takes_values(without_arrays: bool, op: &Op) -> bool
    ensures { result ≡ takes_values without_arrays op.now }
{
    match op {
        Op::Core(CoreOp::Equal | CoreOp::Distinct) => without_arrays,
        Op::Core(_) | Op::Ints(_) | Op::Reals(_) | Op::Bits(_) => true,
        Op::Arrays(_) => false,
    }
}

fn truth_value(found: Option<bool>) -> Option<Value>
    ensures { result ≡ option_map BoolValue found }
{
    match found {
        Some(truth) => Some(Value::Bool(truth)),
        None => None,
    }
}

fn has_array(args: &[Option<Value>]) -> bool
    ensures { result ≡ list_any is_array_value args.now }
{
    args.iter().any(is_array)
}

fn is_array(arg: &Option<Value>) -> bool
    ensures { result ≡ is_array_value arg.now }
{
    match arg {
        Some(value) => place_of(value).is_some(),
        None => false,
    }
}

fn are_all_known(args: &[Option<Value>]) -> bool
    ensures { result ≡ list_all is_some args.now }
{
    args.iter().all(|arg| arg.is_some())
}

fn size_at(sizes: &[u32], place: u32) -> u32
    ensures { result ≡ get_or sizes.now place 0 }
{
    match sizes.get(place as usize) {
        Some(size) => *size,
        None => 0,
    }
}

// One more than two sizes, as far as it counts.
fn one_more(first: u32, second: u32) -> u32
    ensures { result ≡ min (suc (first + second)) 257 }
{
    sum_up_to_limit(1, first.saturating_add(second))
}

fn sum_up_to_limit(first: u32, second: u32) -> u32
    ensures { result ≡ min (first + second) 257 }
{
    first.saturating_add(second).min(MOST_WRITTEN + 1)
}

// The array of a new cell, of this size, and with this table.
fn add_with_table(
    cells: &mut Vec<Cell>,
    sizes: &mut Vec<u32>,
    tables: &mut Vec<Option<Table>>,
    cell: Cell,
    size: u32,
    table: Option<Table>,
) -> Result<Value, Memory>
    requires before { AreOlder 0 cells.old.items }
    requires counted { sizes.old.items ≡ sizes_of (arrays_of cells.old.items) }
    requires older { IsOlder (length cells.old.items) cell }
    requires size { size ≡ size_up_to_limit (made (arrays_of cells.old.items) cell) }
    ensures added { IfOk result (λ value.
        IsAdded (arrays_of cells.old.items) (arrays_of cells.new.items) (made (arrays_of cells.old.items) cell) value) }
    ensures cells { IfOk result (λ _. cells.new.items ≡ cells.old.items ++ (cell ∷ [])) }
    ensures tables { IfOk result (λ _. tables.new.items ≡ tables.old.items ++ (table ∷ [])) }
    ensures older { AreOlder 0 cells.new.items }
    ensures counted { sizes.new.items ≡ sizes_of (arrays_of cells.new.items) }
    ensures unchanged { OnErr result (cells.new.items ≡ cells.old.items) }
    ensures tables_unchanged { OnErr result (tables.new.items ≡ tables.old.items) }
{
    tables.push(table)?;
    match add(cells, sizes, cell, size) {
        Ok(value) => Ok(value),
        Err(error) => {
            tables.pop();
            Err(error)
        }
    }
}

// The array of a new cell, of this size.
fn add(cells: &mut Vec<Cell>, sizes: &mut Vec<u32>, cell: Cell, size: u32) -> Result<Value, Memory>
    requires before { AreOlder 0 cells.old.items }
    requires counted { sizes.old.items ≡ sizes_of (arrays_of cells.old.items) }
    requires older { IsOlder (length cells.old.items) cell }
    requires size { size ≡ size_up_to_limit (made (arrays_of cells.old.items) cell) }
    ensures added { IfOk result (λ value.
        IsAdded (arrays_of cells.old.items) (arrays_of cells.new.items) (made (arrays_of cells.old.items) cell) value) }
    ensures cells { IfOk result (λ _. cells.new.items ≡ cells.old.items ++ (cell ∷ [])) }
    ensures older { AreOlder 0 cells.new.items }
    ensures counted { sizes.new.items ≡ sizes_of (arrays_of cells.new.items) }
    ensures unchanged { OnErr result (cells.new.items ≡ cells.old.items) }
{
    let Ok(place) = u32::try_from(cells.as_slice().len()) else {
        return Err(Memory);
    };
    sizes.push(size)?;
    match cells.push(cell) {
        Ok(()) => Ok(Value::Abstract(ElementNumber::array(place))),
        Err(error) => {
            sizes.pop();
            Err(Memory::from(error))
        }
    }
}

// What the array at a place has at an index that is none.
pub(crate) fn read_at(cells: &[Cell], place: u32, index: &Value) -> Value
    requires older { AreOlder 0 cells.now }
    requires plain { place_of_array index.now ≡ None }
    ensures read { element_in (arrays_of cells.now) result
        ≡ read (array_at (arrays_of cells.now) place) (Plain (element_of index.now)) }
    ensures held { IsHeld (length cells.now) result }
{
    let mut at = place;
    while let Some(cell) = cells.get(at as usize) {
        match cell {
            Cell::Filled(element) => return *element,
            Cell::Written {
                array,
                index: written,
                element,
            } => {
                if are_same(index, written) {
                    return *element;
                }
                at = *array;
            }
        }
    }
    Value::Bool(false)
}

// Whether two elements are the same, which are no arrays.
pub(crate) fn are_same(a: &Value, b: &Value) -> bool
    ensures { result ≡ is_same (element_of a.now) (element_of b.now) }
{
    a == b
}
