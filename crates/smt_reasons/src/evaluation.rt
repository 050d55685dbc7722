//! The values of parts of a claim, over the definitions of a model and a script. This file evaluates no term itself:
//! the values are those of the machine over the nodes.

ghost use Rattle.std.proofs.Props.{props};
ghost use Rattle.std.specs.Prelude.{◌≡◌, None, Some};
ghost use Rattle.smt_arrays.specs.Element.{element_set};
ghost use Rattle.smt_arrays.specs.Tables.{all_known_in, known_in};
ghost use Rattle.smt_machine.specs.Memory.{arrays_in};
ghost use Rattle.smt_machine.specs.Given.{given};
ghost use Rattle.smt_eval.specs.Interpretation.{Serves};
ghost use Rattle.smt_eval.specs.Parts.{nodes_in};
ghost use Rattle.smt_reasons.specs.declared.evaluation.Stop.TheVariants.{Memory as Refused};

use smt_eval::{Machine, Parts};
use smt_faults::Memory;
use smt_trees::Tree;
use smt_values::Value;
use std::alloc::Global;

/// A variable that a part sees: its value, and the term and the node that give the value.
#[derive(Drop)]
pub(crate) struct Bound<'a> {
    pub(crate) name: &'a [u8],
    pub(crate) value: Option<Value>,
    pub(crate) term: Tree<'a>,
    pub(crate) node: usize,
    /// The scope of the term, and the scope outside this variable. A scope is the number of its innermost variable,
    /// from 1; 0 is the empty scope.
    pub(crate) term_scope: usize,
    pub(crate) outer: usize,
}

/// The nodes, the machine that evaluates them, and the steps that are left for a check.
#[derive(Drop)]
pub(crate) struct Evaluator<'l> {
    alloc: Global,
    pub(crate) parts: Parts<'l>,
    machine: Machine,
    steps: u64,
    stop: Option<Stop>,
    ghost serves: { Serves machine parts.interpretation.now parts.library.now } by { Prim.hlevel (props, element_set) },
}

/// The variables of all scopes, and the values of one scope.
#[derive(Drop)]
pub(crate) struct Work<'a, 'l> {
    pub(crate) evaluator: Evaluator<'l>,
    pub(crate) bounds: Vec<Bound<'a>>,
    frame: Vec<Option<Value>>,
    scope: usize,
}

/// Why the explanation of a claim stops. From then on no value is known, and nothing is told.
#[derive(Clone, Copy)]
pub enum Stop {
    /// Memory is refused.
    Memory,
    /// The steps of the check are used up.
    Steps,
}

impl<'l> Evaluator<'l> {
    pub(crate) fn new(alloc: Global, parts: Parts<'l>, steps: u64) -> Evaluator<'l> {
        Evaluator {
            alloc,
            parts,
            machine: Machine::new(alloc),
            steps,
            stop: None,
        }
    }
}

impl Evaluator<'_> {
    /// The steps that are left.
    pub(crate) fn steps(&self) -> u64 {
        self.steps
    }

    /// Why it stopped, if it did.
    pub(crate) fn stop(&self) -> Option<Stop>
        ensures { result ≡ self.now.stop }
    {
        self.stop
    }

    /// Stops because memory is refused.
    pub(crate) fn refuse(&mut self)
        ensures stop { self.new.stop ≡ Some Refused }
        ensures parts { self.new.parts ≡ self.old.parts }
    {
        self.stop = Some(Stop::Memory);
    }

    /// Uses up this number of steps, and stops where fewer are left.
    pub(crate) fn take(&mut self, steps: u64)
        ensures parts { self.new.parts ≡ self.old.parts }
        ensures machine { self.new.machine ≡ self.old.machine }
    {
        if steps > self.steps {
            self.stop = Some(Stop::Steps);
        }
        self.steps = self.steps.saturating_sub(steps);
    }

    /// The value of a node over a frame; `None` where it is open. It uses up the steps that the node costs.
    pub(crate) fn value_in(&mut self, frame: &[Option<Value>], node: usize) -> Option<Value>
        ensures value { self.new.stop ≡ None → known_in (arrays_in self.new.machine) result
            ≡ given (nodes_in self.old.parts) node (all_known_in (arrays_in self.old.machine) frame.now) }
        ensures parts { self.new.parts ≡ self.old.parts }
    {
        let mut left = self.parts.cost(node);
        self.take(left);
        if left == u64::MAX {
            self.stop = Some(Stop::Steps);
        }
        if self.stop.is_some() {
            return None;
        }
        match self
            .parts
            .value_in(&mut self.machine, frame, node, &mut left)
        {
            Ok(value) => value,
            Err(Memory) => {
                self.machine = Machine::new(self.alloc);
                self.refuse();
                None
            }
        }
    }
}

impl<'a, 'l> Work<'a, 'l> {
    pub(crate) fn new(alloc: Global, evaluator: Evaluator<'l>) -> Work<'a, 'l> {
        Work {
            evaluator,
            bounds: Vec::new(alloc),
            frame: Vec::new(alloc),
            scope: 0,
        }
    }

    fn bound_at(&self, scope: usize) -> Option<&Bound<'a>> {
        self.bounds.get(scope.checked_sub(1)?)
    }

    /// The scope in which the innermost variable of this name is the innermost; 0 where a scope has none.
    pub(crate) fn scope_of(&self, scope: usize, name: &[u8]) -> usize {
        let mut scope = scope;
        while let Some(bound) = self.bound_at(scope) {
            if bound.name == name {
                return scope;
            }
            if bound.outer >= scope {
                return 0;
            }
            scope = bound.outer;
        }
        0
    }

    /// The innermost variable of this name in a scope.
    pub(crate) fn find(&self, scope: usize, name: &[u8]) -> Option<&Bound<'a>> {
        self.bound_at(self.scope_of(scope, name))
    }

    // Makes the values of a scope the frame, the outermost first.
    fn load(&mut self, scope: usize) {
        if scope == self.scope {
            return;
        }
        self.frame.clear();
        let mut left = scope;
        while let Some(bound) = self.bound_at(left) {
            let (value, outer) = (bound.value, bound.outer);
            if self.frame.push(value).is_err() {
                self.evaluator.refuse();
            }
            if outer >= left {
                break;
            }
            left = outer;
        }
        self.frame.as_mut_slice().reverse();
        self.scope = scope;
        self.evaluator.take(self.frame.len() as u64);
    }

    /// The value of a node that sees the variables of a scope; `None` where it is open.
    pub(crate) fn value_in(&mut self, scope: usize, node: usize) -> Option<Value> {
        self.load(scope);
        self.evaluator.value_in(self.frame.as_slice(), node)
    }
}
