//! A machine's stacks, and how values move between them. This file fetches no node.

ghost use Rattle.std.proofs.Props.{props};
ghost use Rattle.std.specs.Prelude.{◌≡◌, ◌≤◌, ◌+◌, OnOk, length, vec_capacity, vec_len};
ghost use Rattle.smt_arrays.specs.Cells.{arrays_of};
ghost use Rattle.smt_arrays.specs.Tables.{AreHeld};
ghost use Rattle.smt_machine.specs.Internal.Held.{AreKeptHeld, held-prop};

use crate::items::{items_from, lesser};
use crate::kept::{FEW, Kept};
use crate::parts::{Part, Parts};
use crate::task::{Task, task_of};
use smt_arrays::Arrays;
use smt_faults::Memory;
use smt_theory::Op;
use smt_values::Value;
use std::alloc::Global;

/// Stacks for the evaluation of nodes, bounded by memory alone, the arrays that were made, and the values that were
/// found for closed nodes. One machine serves many evaluations over the same tables, and keeps its memory from one to
/// the next. A value that is an array means the one at its place among the machine's arrays.
#[derive(Drop)]
pub struct Machine {
    alloc: Global,
    values: Vec<Option<Value>>,
    frames: Vec<Option<Value>>,
    base: usize,
    tasks: Vec<Task>,
    kept: Kept,
    arrays: Arrays,
    ghost values_held: { AreHeld (length (arrays_of arrays)) values.items } by { Prim.hlevel (props, held-prop) },
    ghost frames_held: { AreHeld (length (arrays_of arrays)) frames.items } by { Prim.hlevel (props, held-prop) },
    ghost kept_held: { AreKeptHeld (length (arrays_of arrays)) kept } by { Prim.hlevel (props, held-prop) },
}

impl Machine {
    ghost use Rattle.std.specs.Prelude.{◌≡◌, ◌∷◌, [], ◌++◌, IfOk, IfSome, List, MatchOption, None, Some};
    ghost use Rattle.smt_arrays.specs.Element.{known_plain};
    ghost use Rattle.smt_arrays.specs.Known.{known_step};
    ghost use Rattle.smt_arrays.specs.Tables.{all_known_in, known_in};
    ghost use Rattle.smt_values.specs.Element.{known_element};
    ghost use Rattle.smt_machine.specs.Internal.States.{first_of, frame_of, last_of, state_of, with_frames};
    ghost use Rattle.smt_machine.specs.Internal.States.{with_base, with_last, with_moved, with_value};
    ghost use Rattle.smt_machine.specs.Internal.States.{without_last};
    ghost use Rattle.smt_machine.specs.Internal.Parts.{number_of, numbers_of};
    ghost use Rattle.smt_machine.specs.Internal.KeptView.{kept_at};
    ghost use Rattle.smt_machine.specs.Internal.Tasks.{IsAt, IsBegun, IsKeeping, IsPlanned, part_task, visits};
    ghost use Rattle.smt_machine.specs.Memory.{HasNoMemory, Holds, Remembers, arrays_in};
    ghost use Rattle.smt_machine.specs.Nodes.{Node, at_place};
    ghost use Rattle.smt_machine.specs.declared.task.Task.TheVariants.{Keep, Return, Unbind, Visit};

    /// A machine that has no memory yet, and may serve any tables.
    pub fn new(alloc: Global) -> Machine
        ensures memory { HasNoMemory result }
        ensures serves { (nodes : List Node) → Remembers result nodes }
        ensures arrays { arrays_in result ≡ [] }
    {
        Machine {
            alloc,
            values: Vec::new(alloc),
            frames: Vec::new(alloc),
            base: 0,
            tasks: Vec::new(alloc),
            kept: Kept::new(alloc),
            arrays: Arrays::new(alloc),
        }
    }

    /// Makes the machine serve any tables again, as a new one does: it has no arrays, and keeps memory that is not
    /// large.
    pub fn forget(&mut self)
        ensures serves { (nodes : List Node) → Remembers self.new nodes }
        ensures arrays { arrays_in self.new ≡ [] }
    {
        self.kept.forget();
        self.values.clear();
        self.frames.clear();
        self.arrays = Arrays::new(self.alloc);
        if self.values.capacity() > FEW {
            self.values = Vec::new(self.alloc);
        }
        if self.frames.capacity() > FEW {
            self.frames = Vec::new(self.alloc);
        }
        if self.tasks.capacity() > FEW {
            self.tasks = Vec::new(self.alloc);
        }
    }

    /// Empties the stacks, and plans one task.
    pub(crate) fn begin(&mut self, task: Task) -> Result<(), Memory>
        ensures { IfOk result (λ _. IsBegun task [] self.old self.new) }
    {
        self.values.clear();
        self.frames.clear();
        self.base = 0;
        self.tasks.clear();
        self.tasks.push(task)?;
        Ok(())
    }

    /// Empties the stacks but for the values of a frame's variables, and plans one task. A value that is an array which
    /// the machine does not have is open.
    pub(crate) fn begin_in(&mut self, frame: &[Option<Value>], task: Task) -> Result<(), Memory>
        ensures { IfOk result (λ _.
            IsBegun task (all_known_in (arrays_in self.old) frame.now) self.old self.new) }
    {
        self.begin(task)?;
        let mut left = frame;
        while let Some((value, rest)) = left.split_first() {
            let value = self.held(*value);
            self.frames.push(value)?;
            left = rest;
        }
        Ok(())
    }

    // The value; open where it is an array that the machine does not have.
    fn held(&self, value: Option<Value>) -> Option<Value>
        ensures known { known_in (arrays_in self.now) result ≡ known_in (arrays_in self.now) value }
        ensures held { Holds self.now result }
    {
        match value {
            Some(value) => {
                if self.arrays.holds(&value) {
                    Some(value)
                } else {
                    None
                }
            }
            None => None,
        }
    }

    /// The value, where it is no array; an array is open.
    pub fn plain(&self, value: Option<Value>) -> Option<Value>
        ensures { known_element result ≡ known_plain (known_in (arrays_in self.now) value) }
    {
        self.arrays.plain(value)
    }

    /// Takes the last task off the stack.
    #[inline(always)]
    pub(crate) fn take_task(&mut self) -> Option<Task>
        ensures state { state_of self.new ≡ state_of self.old }
        ensures kept { self.new.kept ≡ self.old.kept }
        ensures arrays { self.new.arrays ≡ self.old.arrays }
        ensures tasks { MatchOption result ((self.old.tasks.items ≡ []) × (self.new.tasks.items ≡ []))
            (λ task. self.old.tasks.items ≡ self.new.tasks.items ++ task ∷ []) }
    {
        self.tasks.pop()
    }

    /// Adds a value.
    #[inline(always)]
    pub(crate) fn leave(&mut self, value: Option<Value>) -> Result<(), Memory>
        requires { Holds self.old value }
        ensures { IfOk result (λ _.
            IsAt (with_value (known_in (arrays_in self.old) value) (state_of self.old)) self.old self.new) }
    {
        self.values.push(value)?;
        Ok(())
    }

    /// The value at a place of the frame.
    #[inline(always)]
    pub(crate) fn value_at(&self, place: usize) -> Option<Value>
        ensures known { known_in (arrays_in self.now) result ≡ at_place (frame_of (state_of self.now)) place }
        ensures held { Holds self.now result }
    {
        let frames = self.frames.as_slice();
        if place < frames.len().saturating_sub(self.base) {
            frames[self.base + place]
        } else {
            None
        }
    }

    /// Takes the last value off the stack.
    #[inline(always)]
    pub(crate) fn take_last(&mut self) -> Option<Value>
        ensures value { known_in (arrays_in self.old) result ≡ first_of (last_of 1 (state_of self.old).values) }
        ensures held { Holds self.old result }
        ensures rest { IsAt (without_last 1 (state_of self.old)) self.old self.new }
        ensures arrays { self.new.arrays ≡ self.old.arrays }
    {
        match self.values.pop() {
            Some(value) => value,
            None => None,
        }
    }

    /// Replaces the last `count` values by what an operator makes of them.
    #[inline(always)]
    pub(crate) fn operate(&mut self, op: Op, count: usize) -> Result<(), Memory>
        ensures { let before = state_of self.old in IfOk result (λ _.
            IsAt (with_last count (known_step op (last_of count before.values)) before) self.old self.new) }
    {
        let start = self.values.len().saturating_sub(count);
        let value = self.arrays.operate(op, &mut self.values[start..]);
        self.values.truncate(start);
        self.values.push(value?)?;
        Ok(())
    }

    /// The same as `operate`, out of line: most operators hold no number.
    #[inline(never)]
    pub(crate) fn operate_numbered(&mut self, op: &Op, count: usize) -> Result<(), Memory>
        ensures { let before = state_of self.old in IfOk result (λ _.
            IsAt (with_last count (known_step op.now (last_of count before.values)) before) self.old self.new) }
    {
        self.operate(*op, count)
    }

    /// Plans visits of the parts of a node, the first part first, and then a task.
    #[inline(always)]
    pub(crate) fn plan(&mut self, task: Task, number: usize, parts: Parts<'_>) -> Result<(), Memory>
        ensures { IfOk result (λ _. IsPlanned (task ∷ visits number (numbers_of parts.entry))
            (state_of self.old) self.old self.new) }
    {
        make_room(&mut self.tasks, 1)?;
        self.tasks.push_reserved(task);
        make_room(&mut self.tasks, parts.ids.len())?;
        let mut left = parts.ids;
        while let Some((last, rest)) = left.split_last() {
            let part = Part {
                id: *last,
                shift: parts.shift,
            };
            self.tasks.push_reserved(task_of(number, part));
            left = rest;
        }
        Ok(())
    }

    /// Plans one more task.
    #[inline(always)]
    pub(crate) fn plan_part(&mut self, task: Task) -> Result<(), Memory>
        ensures { IfOk result (λ _. IsPlanned (task ∷ []) (state_of self.old) self.old self.new) }
    {
        self.tasks.push(task)?;
        Ok(())
    }

    /// The value that is kept for a closed node.
    #[inline(always)]
    pub(crate) fn kept(&self, number: usize) -> Option<Option<Value>>
        ensures kept { result ≡ kept_at self.now.kept number }
        ensures held { IfSome result (λ value. Holds self.now value) }
    {
        self.kept.get(number)
    }

    /// Keeps the last value for a closed node.
    #[inline(always)]
    pub(crate) fn keep(&mut self, number: usize) -> Result<(), Memory>
        ensures { IfOk result (λ _. IsKeeping number self.old self.new) }
    {
        let value = self.last_value();
        self.kept.insert(number, value)
    }

    #[inline(always)]
    fn last_value(&self) -> Option<Value>
        ensures value { result ≡ first_of (last_of 1 self.now.values.items) }
        ensures held { Holds self.now result }
    {
        match self.values.as_slice().last() {
            Some(value) => *value,
            None => None,
        }
    }

    /// Plans a closed node in an empty frame, and the keeping of its value.
    #[inline(always)]
    pub(crate) fn enter_closed(&mut self, number: usize) -> Result<(), Memory>
        ensures { let before = state_of self.old in IfOk result (λ _.
            IsPlanned (Keep number ∷ Return before.base ∷ Visit number ∷ [])
            (with_base (length before.frames) before) self.old self.new) }
    {
        self.tasks.push(Task::Keep(number))?;
        self.tasks.push(Task::Return(self.base))?;
        self.tasks.push(Task::Visit(number))?;
        self.base = self.frames.as_slice().len();
        Ok(())
    }

    /// Makes the last values a frame of their own, and plans a body in it.
    #[inline(always)]
    pub(crate) fn enter(&mut self, number: usize, body: Part, count: usize) -> Result<(), Memory>
        ensures { let before = state_of self.old in IfOk result (λ _.
            IsPlanned (Return before.base ∷ part_task number (number_of body) ∷ [])
            (with_moved (length before.frames) count before) self.old self.new) }
    {
        self.tasks.push(Task::Return(self.base))?;
        let base = self.frames.as_slice().len();
        self.move_last(number, body, base, count)
    }

    /// Makes the last values the end of the frame, and plans a body in it.
    #[inline(always)]
    pub(crate) fn bind(&mut self, number: usize, body: Part, count: usize) -> Result<(), Memory>
        ensures { let before = state_of self.old in IfOk result (λ _.
            IsPlanned (Unbind (length before.frames) ∷ part_task number (number_of body) ∷ [])
            (with_moved before.base count before) self.old self.new) }
    {
        let len = self.frames.as_slice().len();
        self.tasks.push(Task::Unbind(len))?;
        let around = self.base;
        self.move_last(number, body, around, count)
    }

    // Moves the last values to the frames, of which the innermost begins at `base`, and plans a body there.
    #[inline(always)]
    fn move_last(
        &mut self,
        number: usize,
        body: Part,
        base: usize,
        count: usize,
    ) -> Result<(), Memory>
        ensures { IfOk result (λ _. IsPlanned (part_task number (number_of body) ∷ [])
            (with_moved base count (state_of self.old)) self.old self.new) }
    {
        let values = self.values.as_slice();
        let start = values.len().saturating_sub(count);
        self.frames.extend_from_slice(items_from(values, start))?;
        self.values.truncate(start);
        self.base = base;
        self.tasks.push(task_of(number, body))?;
        Ok(())
    }

    /// Makes the frame that began at `base` the innermost again.
    #[inline(always)]
    pub(crate) fn leave_frame(&mut self, base: usize)
        ensures { IsAt (with_frames base (state_of self.old).base (state_of self.old)) self.old self.new }
    {
        let len = self.base;
        self.shorten(base, len);
    }

    /// Cuts the frames to this length again.
    #[inline(always)]
    pub(crate) fn unbind(&mut self, len: usize)
        ensures { IsAt (with_frames (state_of self.old).base len (state_of self.old)) self.old self.new }
    {
        let base = self.base;
        self.shorten(base, len);
    }

    #[inline(always)]
    fn shorten(&mut self, base: usize, len: usize)
        ensures { IsAt (with_frames base len (state_of self.old)) self.old self.new }
    {
        self.frames.truncate(len);
        self.base = lesser(base, self.frames.as_slice().len());
    }
}

// Makes room for so many more tasks, where most often there is some.
#[inline(always)]
fn make_room(tasks: &mut Vec<Task>, count: usize) -> Result<(), Memory>
    ensures items { tasks.new.items ≡ tasks.old.items }
    ensures room { OnOk result (vec_len tasks.new + count ≤ vec_capacity tasks.new) }
{
    if tasks.capacity() - tasks.len() >= count {
        return Ok(());
    }
    more_room(tasks, count)
}

#[inline(never)]
fn more_room(tasks: &mut Vec<Task>, count: usize) -> Result<(), Memory>
    ensures items { tasks.new.items ≡ tasks.old.items }
    ensures room { OnOk result (vec_len tasks.new + count ≤ vec_capacity tasks.new) }
{
    tasks.reserve(count)?;
    Ok(())
}
