//! Evaluation of nodes, one task after another. This file touches no field of a machine, and no table of nodes.

ghost use Rattle.std.specs.Prelude.{◌≡◌, ◌≤◌, ◌<◌, ◌+◌, ℕ, [], IfOk, OnOk, IfSome, IsTrue, List, None, Option};
ghost use Rattle.std.specs.Prelude.{Some, ◌==◌, false, length, nat_lt};
ghost use Rattle.std.specs.Prelude.{if◌then◌else◌, option_map, slice_get};
ghost use Rattle.smt_theory.specs.declared.op.CoreOp.TheVariants.{Ite};
ghost use Rattle.smt_theory.specs.PlainOp.{op_of_plain};
ghost use Rattle.smt_theory.specs.declared.op.Op.{Op};
ghost use Rattle.smt_theory.specs.declared.op.Op.TheVariants.{Core};
ghost use Rattle.smt_nodes.specs.NodeView.{node_view};
ghost use Rattle.smt_nodes.specs.PartsView.{parts_view, IsWhole};
ghost use Rattle.smt_arrays.specs.Cells.{arrays_of};
ghost use Rattle.smt_arrays.specs.Element.{known_plain};
ghost use Rattle.smt_arrays.specs.Tables.{Grows, all_known_in, known_in};
ghost use Rattle.smt_arrays.specs.declared.arrays.Cell.{Cell};
ghost use Rattle.smt_values.specs.KnownOperations.{known_truth};
ghost use Rattle.smt_machine.specs.Costs.{cost};
ghost use Rattle.smt_machine.specs.Given.{given};
ghost use Rattle.smt_machine.specs.Least.{least};
ghost use Rattle.smt_machine.specs.Internal.States.{frame_of, state_of};
ghost use Rattle.smt_machine.specs.Internal.Parts.{found, found_node, found_parts, meaning, number_of};
ghost use Rattle.smt_machine.specs.Internal.Parts.{numbers_of};
ghost use Rattle.smt_machine.specs.Internal.Tasks.{IsBased, IsBefore, IsChoice, IsStep, branches_of};
ghost use Rattle.smt_machine.specs.Internal.Tasks.{charge};
ghost use Rattle.smt_machine.specs.Memory.{Holds, Remembers, arrays_in};
ghost use Rattle.smt_machine.specs.Nodes.{Apply, Call, Node as MachineNode};
ghost use Rattle.smt_machine.specs.Tables.{arounds_of, call, model_count, nodes_of, term_cost, term_least};
ghost use Rattle.smt_machine.specs.declared.task.Task.TheVariants.{Choose, Finish, Visit};

use crate::machine::Machine;
use crate::parts::{Part, Parts};
use crate::tables::{Place, Tables};
use crate::task::{Task, task_of};
use smt_faults::Memory;
use smt_nodes::{Node, NodeParts, TermId};
use smt_theory::{Op, PlainOp};
use smt_values::{Value, literal_of};

impl Machine {
    /// What is known of the value of a closed term of the script; `None` where the value is open. A value that is an
    /// array is one of the machine's; those that it had stay.
    ///
    /// The machine is new, or has evaluated terms over these tables alone. The call subtracts one from `left`
    /// for each node that it evaluates, and for each annotation round it; `left` is no less than the cost of
    /// the term. The only error is want of memory for the machine's growth.
    pub fn eval(
        &mut self,
        tables: Tables<'_>,
        term: TermId,
        left: &mut u64,
    ) -> Result<Option<Value>, Memory>
        requires remembers { Remembers self.old (nodes_of tables) }
        requires enough { term_cost tables term ≤ left.old }
        ensures serves { IfOk result (λ _. Remembers self.new (nodes_of tables.entry)) }
        ensures value { IfOk result (λ v. known_in (arrays_in self.new) v
            ≡ given (nodes_of tables.entry) (model_count tables.entry + term) []) }
        ensures held { IfOk result (λ v. Holds self.new v) }
        ensures grown { OnOk result (Grows (arrays_in self.old) (arrays_in self.new)) }
        ensures fewer { OnOk result (left.new < left.old) }
        ensures counted { OnOk result (left.new + term_least tables.entry term ≤ left.old) }
        ensures paid { OnOk result (left.old ≤ left.new + term_cost tables.entry term) }
    {
        match tables.shift().checked_add(term.number()) {
            Some(root) => self.run(&tables, root, left),
            // Memory has no room for so many nodes.
            None => Err(Memory),
        }
    }

    /// What is known of the value of a node over a frame, the values of variables by their places, of which some may
    /// be open, as is an array that the machine does not have; `None` where the value is open. The node is named by
    /// its number in both tables, the model's nodes first. Otherwise it is as `eval`: `left` is no less than the cost
    /// of the node.
    pub fn eval_in(
        &mut self,
        tables: Tables<'_>,
        frame: &[Option<Value>],
        node: usize,
        left: &mut u64,
    ) -> Result<Option<Value>, Memory>
        requires remembers { Remembers self.old (nodes_of tables) }
        requires enough { cost (nodes_of tables) (arounds_of tables) node ≤ left.old }
        ensures serves { IfOk result (λ _. Remembers self.new (nodes_of tables.entry)) }
        ensures value { IfOk result (λ v. known_in (arrays_in self.new) v
            ≡ given (nodes_of tables.entry) node (all_known_in (arrays_in self.old) frame.now)) }
        ensures held { IfOk result (λ v. Holds self.new v) }
        ensures grown { OnOk result (Grows (arrays_in self.old) (arrays_in self.new)) }
        ensures fewer { OnOk result (left.new < left.old) }
        ensures counted { OnOk result
            (left.new + least (nodes_of tables.entry) (arounds_of tables.entry) node ≤ left.old) }
        ensures paid { OnOk result
            (left.old ≤ left.new + cost (nodes_of tables.entry) (arounds_of tables.entry) node) }
    {
        self.begin_in(frame, Task::Visit(node))?;
        self.finish_tasks(&tables, node, left)
    }

    // What is known of the value of a closed node.
    #[inline(always)]
    fn run(
        &mut self,
        tables: &Tables<'_>,
        root: usize,
        left: &mut u64,
    ) -> Result<Option<Value>, Memory>
        requires remembers { Remembers self.old (nodes_of tables.now) }
        requires enough { cost (nodes_of tables.now) (arounds_of tables.now) root ≤ left.old }
        ensures serves { IfOk result (λ _. Remembers self.new (nodes_of tables.now)) }
        ensures value { IfOk result (λ v. known_in (arrays_in self.new) v ≡ given (nodes_of tables.now) root []) }
        ensures held { IfOk result (λ v. Holds self.new v) }
        ensures grown { OnOk result (Grows (arrays_in self.old) (arrays_in self.new)) }
        ensures fewer { OnOk result (left.new < left.old) }
        ensures counted { OnOk result
            (left.new + least (nodes_of tables.now) (arounds_of tables.now) root ≤ left.old) }
        ensures paid { OnOk result
            (left.old ≤ left.new + cost (nodes_of tables.now) (arounds_of tables.now) root) }
    {
        self.begin(Task::Visit(root))?;
        self.finish_tasks(tables, root, left)
    }

    // What is known of the value of the node that is planned, over the frame that is there.
    fn finish_tasks(
        &mut self,
        tables: &Tables<'_>,
        root: usize,
        left: &mut u64,
    ) -> Result<Option<Value>, Memory>
        requires before { IsBefore root self.old }
        requires remembers { Remembers self.old (nodes_of tables.now) }
        requires enough { cost (nodes_of tables.now) (arounds_of tables.now) root ≤ left.old }
        ensures serves { IfOk result (λ _. Remembers self.new (nodes_of tables.now)) }
        ensures value { IfOk result (λ v. known_in (arrays_in self.new) v
            ≡ given (nodes_of tables.now) root (frame_of (state_of self.old))) }
        ensures held { IfOk result (λ v. Holds self.new v) }
        ensures grown { OnOk result (Grows (arrays_in self.old) (arrays_in self.new)) }
        ensures fewer { OnOk result (left.new < left.old) }
        ensures counted { OnOk result
            (left.new + least (nodes_of tables.now) (arounds_of tables.now) root ≤ left.old) }
        ensures paid { OnOk result
            (left.old ≤ left.new + cost (nodes_of tables.now) (arounds_of tables.now) root) }
    {
        while let Some(task) = self.take_task() {
            self.act(tables, task, left)?;
        }
        Ok(self.take_last())
    }

    // Does a task that was taken off the stack, and subtracts from `left` what the task counts.
    #[inline(always)]
    fn act(&mut self, tables: &Tables<'_>, task: Task, left: &mut u64) -> Result<(), Memory>
        requires based { IsBased (state_of self.old) }
        requires enough { charge (arounds_of tables.now) task ≤ left.old }
        ensures step { IfOk result (λ _. IsStep (nodes_of tables.now) task self.old self.new) }
        ensures counted { left.new + charge (arounds_of tables.now) task ≡ left.old }
    {
        match task {
            Task::Visit(number) => self.visit(tables, number, left),
            Task::Open => self.leave(None),
            Task::Finish(number) => self.finish(tables, number),
            Task::Operate(op, count) => self.operate(op.op(), count),
            Task::Choose(number) => self.choose(tables, number),
            Task::Return(base) => {
                self.leave_frame(base);
                Ok(())
            }
            Task::Unbind(len) => {
                self.unbind(len);
                Ok(())
            }
            Task::Keep(number) => self.keep(number),
        }
    }

    // Counts a node, and leaves its value, or plans what has to come first.
    #[inline(always)]
    fn visit(&mut self, tables: &Tables<'_>, number: usize, left: &mut u64) -> Result<(), Memory>
        requires based { IsBased (state_of self.old) }
        requires enough { charge (arounds_of tables.now) (Visit number) ≤ left.old }
        ensures step { IfOk result (λ _. IsStep (nodes_of tables.now) (Visit number) self.old self.new) }
        ensures counted { left.new + charge (arounds_of tables.now) (Visit number) ≡ left.old }
    {
        let place = tables.place(number);
        *left -= 1;
        match place.annotated_parts() {
            Some((parts, around)) => {
                *left -= around as u64;
                self.visit_parts(tables, number, &place, &parts)
            }
            None => self.leave(None),
        }
    }

    // Plans a node after its parts, or visits it as a whole where the parts do not say what it is.
    #[inline(always)]
    fn visit_parts(
        &mut self,
        tables: &Tables<'_>,
        number: usize,
        from: &Place<'_>,
        parts: &NodeParts<'_>,
    ) -> Result<(), Memory>
        requires based { IsBased (state_of self.old) }
        requires whole { IsWhole parts.now (found_node from.now) }
        ensures { IfOk result (λ _. found_parts from.now ≡ Some (parts_view parts.now)
            → found from.now ≡ slice_get (nodes_of tables.now) number
            → IsStep (nodes_of tables.now) (Visit number) self.old self.new) }
    {
        match parts {
            NodeParts::Literal(kind, digits) => {
                self.leave(literal_of(*kind, from.literal(), *digits))
            }
            NodeParts::Slot(place) => {
                let value = self.value_at(*place);
                self.leave(value)
            }
            NodeParts::Plain { op, args } => self.visit_plain(number, *op, from.parts(*args)),
            NodeParts::Args(args) => self.visit_operator(tables, number, from.parts(*args)),
            NodeParts::Declared { place, args } => {
                self.visit_call(number, from.declared(*place), from.parts(*args))
            }
            NodeParts::Defined { place, args } => {
                self.visit_call(number, from.defined(*place), from.parts(*args))
            }
            NodeParts::Let { values, .. } => {
                self.plan(Task::Finish(number), number, from.parts(*values))
            }
        }
    }

    // Plans an operator that holds no number after its arguments, and a choice after its condition alone.
    #[inline(always)]
    fn visit_plain(&mut self, number: usize, op: PlainOp, args: Parts<'_>) -> Result<(), Memory>
        requires { IsBased (state_of self.old) }
        ensures { IfOk result (λ _. (nodes : List MachineNode)
            → Some (Apply (op_of_plain op) (numbers_of args.entry)) ≡ slice_get nodes number
            → IsStep nodes (Visit number) self.old self.new) }
    {
        match condition_of(&op.op(), args) {
            Some(condition) => self.plan(Task::Choose(number), number, condition),
            None => self.plan(Task::Operate(op, args.ids.len()), number, args),
        }
    }

    // Plans an operator after its arguments, where it has some, and not as many as a choice.
    #[inline(always)]
    fn visit_operator(
        &mut self,
        tables: &Tables<'_>,
        number: usize,
        args: Parts<'_>,
    ) -> Result<(), Memory>
        requires { IsBased (state_of self.old) }
        ensures { IfOk result (λ _. ((length (numbers_of args.entry) == 0) ≡ false
            → (op : Op) × (Some (Apply op (numbers_of args.entry)) ≡ slice_get (nodes_of tables.now) number))
            → IsStep (nodes_of tables.now) (Visit number) self.old self.new) }
    {
        if args.ids.is_empty() || args.ids.len() == 3 {
            return self.visit_whole(tables, number);
        }
        self.plan(Task::Finish(number), number, args)
    }

    // Leaves the value of a node, or plans what has to come first, from all that the node has.
    #[inline(never)]
    fn visit_whole(&mut self, tables: &Tables<'_>, number: usize) -> Result<(), Memory>
        requires { IsBased (state_of self.old) }
        ensures { IfOk result (λ _. IsStep (nodes_of tables.now) (Visit number) self.old self.new) }
    {
        let place = tables.place(number);
        match place.node() {
            Some(node) => self.visit_node(number, &place, &node),
            None => self.leave(None),
        }
    }

    #[inline(always)]
    fn visit_node(&mut self, number: usize, from: &Place<'_>, node: &Node<'_>) -> Result<(), Memory>
        requires based { IsBased (state_of self.old) }
        requires here { Some (node_view node.now) ≡ found_node from.now }
        ensures { IfOk result (λ _. (nodes : List MachineNode)
            → Some (meaning from.now node.now) ≡ slice_get nodes number
            → IsStep nodes (Visit number) self.old self.new) }
    {
        match node {
            Node::Literal(kind, digits) => self.leave(literal_of(*kind, from.literal(), *digits)),
            Node::Element(_) => self.leave(from.element()),
            Node::Slot(place) => {
                let value = self.value_at(*place);
                self.leave(value)
            }
            Node::Apply { op, args } => self.visit_args(number, op, from.parts(*args)),
            Node::Declared { place, args } => {
                self.visit_call(number, from.declared(*place), from.parts(*args))
            }
            Node::Defined { place, args } => {
                self.visit_call(number, from.defined(*place), from.parts(*args))
            }
            Node::Let { values, .. } => {
                self.plan(Task::Finish(number), number, from.parts(*values))
            }
        }
    }

    // Plans a body after its arguments, if there is a body; without arguments it is a constant's.
    #[inline(always)]
    fn visit_call(
        &mut self,
        number: usize,
        body: Option<Part>,
        args: Parts<'_>,
    ) -> Result<(), Memory>
        requires { IsBased (state_of self.old) }
        ensures { IfOk result (λ _. (nodes : List MachineNode)
            → Some (call (option_map number_of body) (numbers_of args.entry)) ≡ slice_get nodes number
            → IsStep nodes (Visit number) self.old self.new) }
    {
        match body {
            Some(body) if args.ids.is_empty() => self.visit_constant(body.below(number)),
            Some(_) => self.plan(Task::Finish(number), number, args),
            None => self.leave(None),
        }
    }

    // Leaves the value of a constant with this body, or plans to find and keep it.
    #[inline(always)]
    fn visit_constant(&mut self, body: Option<usize>) -> Result<(), Memory>
        requires { IsBased (state_of self.old) }
        ensures { IfOk result (λ _. (nodes : List MachineNode) (number part : ℕ)
            → Some (Call part []) ≡ slice_get nodes number
            → body ≡ (if nat_lt part number then Some part else None)
            → IsStep nodes (Visit number) self.old self.new) }
    {
        match body {
            Some(body) => match self.kept(body) {
                Some(value) => self.leave(value),
                None => self.enter_closed(body),
            },
            None => self.leave(None),
        }
    }

    // Plans an operator after its arguments, and a choice after its condition alone.
    #[inline(always)]
    fn visit_args(&mut self, number: usize, op: &Op, args: Parts<'_>) -> Result<(), Memory>
        requires { IsBased (state_of self.old) }
        ensures { IfOk result (λ _. (nodes : List MachineNode)
            → Some (Apply op.now (numbers_of args.entry)) ≡ slice_get nodes number
            → IsStep nodes (Visit number) self.old self.new) }
    {
        match condition_of(op, args) {
            Some(condition) => self.plan(Task::Choose(number), number, condition),
            None => self.plan(Task::Finish(number), number, args),
        }
    }

    // Continues with a node whose arguments are the last values.
    #[inline(always)]
    fn finish(&mut self, tables: &Tables<'_>, number: usize) -> Result<(), Memory>
        requires { IsBased (state_of self.old) }
        ensures { IfOk result (λ _. IsStep (nodes_of tables.now) (Finish number) self.old self.new) }
    {
        let place = tables.place(number);
        match place.node() {
            Some(node) => self.finish_node(number, &place, &node),
            None => Ok(()),
        }
    }

    #[inline(always)]
    fn finish_node(
        &mut self,
        number: usize,
        from: &Place<'_>,
        node: &Node<'_>,
    ) -> Result<(), Memory>
        requires { IsBased (state_of self.old) }
        ensures { IfOk result (λ _. (nodes : List MachineNode)
            → Some (meaning from.now node.now) ≡ slice_get nodes number
            → IsStep nodes (Finish number) self.old self.new) }
    {
        match node {
            Node::Apply { op, args } => self.operate_numbered(op, args.len()),
            Node::Declared { place, args } => {
                self.finish_call(number, from.declared(*place), from.parts(*args))
            }
            Node::Defined { place, args } => {
                self.finish_call(number, from.defined(*place), from.parts(*args))
            }
            Node::Let { values, body } => {
                let body = Part {
                    id: *body,
                    shift: from.shift,
                };
                self.bind(number, body, values.len())
            }
            Node::Literal(_, _) => Ok(()),
            Node::Element(_) => Ok(()),
            Node::Slot(_) => Ok(()),
        }
    }

    // Continues with a body, if there is one.
    #[inline(always)]
    fn finish_call(
        &mut self,
        number: usize,
        body: Option<Part>,
        args: Parts<'_>,
    ) -> Result<(), Memory>
        requires { IsBased (state_of self.old) }
        ensures { IfOk result (λ _. (nodes : List MachineNode)
            → Some (call (option_map number_of body) (numbers_of args.entry)) ≡ slice_get nodes number
            → IsStep nodes (Finish number) self.old self.new) }
    {
        match body {
            Some(body) => self.enter(number, body, args.ids.len()),
            None => Ok(()),
        }
    }

    // Continues with a choice whose condition is the last value.
    #[inline(always)]
    fn choose(&mut self, tables: &Tables<'_>, number: usize) -> Result<(), Memory>
        requires { IsBased (state_of self.old) }
        ensures { IfOk result (λ _. IsStep (nodes_of tables.now) (Choose number) self.old self.new) }
    {
        let place = tables.place(number);
        match place.node() {
            Some(node) => self.choose_node(number, &place, &node),
            None => Ok(()),
        }
    }

    #[inline(always)]
    fn choose_node(
        &mut self,
        number: usize,
        from: &Place<'_>,
        node: &Node<'_>,
    ) -> Result<(), Memory>
        requires { IsBased (state_of self.old) }
        ensures { IfOk result (λ _. (nodes : List MachineNode)
            → Some (meaning from.now node.now) ≡ slice_get nodes number
            → IsStep nodes (Choose number) self.old self.new) }
    {
        match node {
            Node::Apply { op, args } => self.choose_among(number, op, from.parts(*args)),
            Node::Declared { .. } => Ok(()),
            Node::Defined { .. } => Ok(()),
            Node::Let { .. } => Ok(()),
            Node::Literal(_, _) => Ok(()),
            Node::Element(_) => Ok(()),
            Node::Slot(_) => Ok(()),
        }
    }

    #[inline(always)]
    fn choose_among(&mut self, number: usize, op: &Op, args: Parts<'_>) -> Result<(), Memory>
        requires { IsBased (state_of self.old) }
        ensures { IfOk result (λ _. (nodes : List MachineNode)
            → Some (Apply op.now (numbers_of args.entry)) ≡ slice_get nodes number
            → IsStep nodes (Choose number) self.old self.new) }
    {
        match branches(args) {
            Some((first, second)) => {
                let condition = self.take_last();
                match truth(&condition) {
                    Some(true) => self.plan_part(task_of(number, first)),
                    Some(false) => self.plan_part(task_of(number, second)),
                    None => self.leave(None),
                }
            }
            None => Ok(()),
        }
    }
}

// The condition alone, where an operator with its arguments is a choice.
#[inline(always)]
fn condition_of<'a>(op: &Op, args: Parts<'a>) -> Option<Parts<'a>>
    ensures { IfSome result (λ condition.
        IsChoice op.now (numbers_of args.entry) (numbers_of condition)) }
{
    if is_choice(op) && args.ids.len() == 3 {
        Some(Parts {
            ids: &args.ids[..1],
            shift: args.shift,
        })
    } else {
        None
    }
}

// Whether an operator is `ite`.
#[inline(always)]
fn is_choice(op: &Op) -> bool
    ensures { IsTrue result → op.now ≡ Core Ite }
{
    op.is_choice()
}

// The two branches after a condition.
#[inline(always)]
fn branches(args: Parts<'_>) -> Option<(Part, Part)>
    ensures { option_map (λ p. (number_of p.0, number_of p.1)) result ≡ branches_of (numbers_of args.entry) }
{
    let shift = args.shift;
    match args.ids {
        [_, first, second] => Some((Part { id: *first, shift }, Part { id: *second, shift })),
        _ => None,
    }
}

// The truth value that a value is.
#[inline(always)]
fn truth(value: &Option<Value>) -> Option<bool>
    ensures { (cells : List Cell)
        → result ≡ known_truth (known_plain (known_in (arrays_of cells) value.now)) }
{
    match value {
        Some(value) => value.truth(),
        None => None,
    }
}
