//! The smallest parts of a claim that make it false, true or open. This file evaluates no term itself.

use crate::evaluation::{Bound, Evaluator, Stop, Work};
use crate::trees::each;
use crate::values::tell_part;
use crate::world::{Defined, Origin, World};
use smt_eval::Parts;
use smt_forms::{label_at, split_let};
use smt_machine::Look;
use smt_remarks::{MOST, Page};
use smt_report::Side;
use smt_terms::TermId;
use smt_trees::{Tree, Trees, Word};
use smt_values::Value;
use std::alloc::Global;

/// The value of a part, as far as it is known.
#[derive(Clone, Copy, PartialEq, Eq)]
pub enum Known {
    True,
    False,
    /// A value other than `true` and `false`.
    Else,
    Open,
}

impl Known {
    fn of(value: Option<Value>) -> Known {
        match value {
            None => Known::Open,
            Some(value) => match value.truth() {
                Some(true) => Known::True,
                Some(false) => Known::False,
                None => Known::Else,
            },
        }
    }
}

/// A part of a claim, with its scope and its value.
#[derive(Clone, Copy)]
pub(crate) struct Part<'a> {
    pub(crate) term: Tree<'a>,
    pub(crate) node: usize,
    pub(crate) scope: usize,
    pub(crate) value: Known,
    /// The name whose definition it is in; `None` in the claim itself.
    pub(crate) within: Option<&'a [u8]>,
    /// Where that definition or the claim begins.
    pub(crate) origin: Origin,
    /// Whether it decides which branch of an `ite` is taken.
    pub(crate) is_condition: bool,
}

/// An `ite`, with its condition and its branches.
#[derive(Clone, Copy)]
struct Choice<'a> {
    whole: Part<'a>,
    condition: Part<'a>,
    first: Part<'a>,
    second: Part<'a>,
}

/// The value of a condition of an `ite`.
#[derive(Clone, Copy)]
struct Condition {
    scope: usize,
    node: usize,
    value: Known,
}

/// A walk down from a claim to the parts that give it its value.
#[derive(Drop)]
pub struct Walk<'a, 'l> {
    pub(crate) alloc: Global,
    pub(crate) world: &'l World<'a>,
    pub(crate) work: Work<'a, 'l>,
    /// The parts that are left, the first on top.
    left: Vec<Part<'a>>,
    /// Conditions that were evaluated ahead, each inside the one behind it.
    conditions: Vec<Condition>,
}

impl<'a, 'l> Walk<'a, 'l> {
    /// A walk over these definitions and nodes, which may take this number of steps.
    pub fn new(alloc: Global, world: &'l World<'a>, parts: Parts<'l>, steps: u64) -> Walk<'a, 'l> {
        Walk {
            alloc,
            world,
            work: Work::new(alloc, Evaluator::new(alloc, parts, steps)),
            left: Vec::new(alloc),
            conditions: Vec::new(alloc),
        }
    }

    /// The steps that are left.
    pub fn steps(&self) -> u64 {
        self.work.evaluator.steps()
    }

    /// Why it stopped, if it did.
    pub fn stop(&self) -> Option<Stop> {
        self.work.evaluator.stop()
    }

    /// Whether a claim is false, as far as the steps go.
    pub fn is_false(&mut self, term: TermId) -> bool {
        let parts = self.work.evaluator.parts;
        let node = parts.root(term);
        Known::of(self.value(0, node)) == Known::False
    }

    /// What a walk sees of the node of a part.
    pub(crate) fn look(&self, node: usize) -> Look<'l> {
        self.work.evaluator.parts.look(node)
    }

    /// The value of a node in a scope; `None` where it is open, or the walk stopped.
    pub(crate) fn value(&mut self, scope: usize, node: usize) -> Option<Value> {
        self.work.value_in(scope, node)
    }

    /// Writes the smallest parts of a claim that give it its value, as far as lines and steps are left.
    /// The claim stands in the command that begins at this byte of the script.
    pub fn tell(
        &mut self,
        page: &mut Page<'_>,
        claim: Tree<'a>,
        start: u64,
        term: TermId,
        value: Known,
    ) {
        let parts = self.work.evaluator.parts;
        let node = parts.root(term);
        self.push(Part {
            term: claim,
            node,
            scope: 0,
            value,
            within: None,
            origin: Origin {
                side: Side::Script,
                start,
            },
            is_condition: false,
        });
        let mut turns = self.steps();
        while let Some(part) = self.left.pop() {
            self.work.evaluator.take(1);
            let before = self.left.len();
            self.go_down(part);
            if turns == 0 || self.stop().is_some() {
                return;
            }
            turns -= 1;
            // (A condition that is a literal says nothing.)
            if self.left.len() == before && !(part.is_condition && is_literal(part.term)) {
                if !page.has_room() {
                    return;
                }
                tell_part(page, self, part);
            }
        }
    }

    /// Stops because memory is refused.
    pub(crate) fn refuse(&mut self) {
        self.work.evaluator.refuse();
    }

    fn push(&mut self, part: Part<'a>) {
        if self.left.push(part).is_err() {
            self.refuse();
        }
    }

    // Adds the parts of a part that give it its value, the first on top. A smallest part has none.
    fn go_down(&mut self, part: Part<'a>) {
        match part.term {
            Tree::Symbol(name) => self.go_into_name(part, name),
            Tree::List(parts) => match parts.split_first() {
                Some((Tree::Reserved(Word::Bang), args)) => self.go_into_annotated(part, args),
                Some((Tree::Reserved(Word::Let), args)) => self.go_into_let(part, args),
                Some((Tree::Symbol(name), args)) => match self.world.find(name) {
                    Some(defined) => self.go_into_call(part, defined, args),
                    None => self.go_into_operator(part, name, args),
                },
                _ => {}
            },
            _ => {}
        }
    }

    fn go_into_name(&mut self, part: Part<'a>, name: &[u8]) {
        if let Some(bound) = self.work.find(part.scope, name) {
            let (term, node, scope) = (bound.term, bound.node, bound.term_scope);
            if !is_literal(term) {
                self.push(Part {
                    term,
                    node,
                    scope,
                    ..part
                });
            }
            return;
        }
        match self.world.find(name) {
            // (The item of a name is told as such, unless it leaves the value open.)
            Some(defined) if !defined.is_item() || part.value == Known::Open => {
                self.go_into_body(part, defined, 0)
            }
            _ => {}
        }
    }

    // Adds the body of the definition that a part calls, in a scope of its parameters.
    fn go_into_body(&mut self, part: Part<'a>, defined: Defined<'a>, scope: usize) {
        if let Some(node) = self.look(part.node).body {
            self.push(Part {
                term: defined.body,
                node,
                scope,
                value: part.value,
                within: Some(defined.name),
                origin: defined.origin,
                is_condition: part.is_condition,
            });
        }
    }

    // An annotated term with a label has the node of the label's name, and the term sees no variable from outside;
    // without a label it has the node of the term in it.
    fn go_into_annotated(&mut self, part: Part<'a>, args: Trees<'a>) {
        let Some((term, attributes)) = args.split_first() else {
            return;
        };
        if !has_label(attributes) {
            self.push(Part { term, ..part });
        } else if let Some(node) = self.look(part.node).body {
            self.push(Part {
                term,
                node,
                scope: 0,
                ..part
            });
        }
    }

    // Binds a name to the value that a part of this place has, inside a scope.
    fn bind(
        &mut self,
        part: Part<'a>,
        place: usize,
        name: &'a [u8],
        term: Tree<'a>,
        outer: usize,
    ) -> usize {
        let Some(node) = self.look(part.node).part(place) else {
            return outer;
        };
        let value = self.value(part.scope, node);
        let bound = Bound {
            name,
            value,
            term,
            node,
            term_scope: part.scope,
            outer,
        };
        match self.work.bounds.push(bound) {
            Ok(()) => self.work.bounds.len(),
            Err(_) => {
                self.refuse();
                outer
            }
        }
    }

    fn go_into_let(&mut self, part: Part<'a>, args: Trees<'a>) {
        let Some((bindings, body)) = split_let(args) else {
            return;
        };
        let mut scope = part.scope;
        for (place, binding, _) in each(bindings) {
            if let Some((name, term)) = named(binding) {
                scope = self.bind(part, place, name, term, scope);
            }
        }
        if let Some(node) = self.look(part.node).body {
            self.push(Part {
                term: body,
                node,
                scope,
                ..part
            });
        }
    }

    fn go_into_call(&mut self, part: Part<'a>, defined: Defined<'a>, args: Trees<'a>) {
        if defined.is_item() && part.value != Known::Open {
            return;
        }
        let mut scope = 0;
        let mut left = args;
        for (place, parameter, _) in each(defined.parameters) {
            let Some((term, rest)) = left.split_first() else {
                break;
            };
            left = rest;
            if let Some((name, _)) = named(parameter) {
                scope = self.bind(part, place, name, term, scope);
            }
        }
        self.go_into_body(part, defined, scope)
    }

    // Adds the arguments that give an operator its value. Only those are evaluated whose values do not follow from it.
    fn go_into_operator(&mut self, part: Part<'a>, name: &[u8], args: Trees<'a>) {
        let before = self.left.len();
        match (part.value, name) {
            (Known::Open, _) => self.push_one(part, args, Known::Open, 0),
            (Known::True, b"not") => self.push_all(part, args, Known::False, 0),
            (Known::False, b"not") => self.push_all(part, args, Known::True, 0),
            (Known::True, b"and") => self.push_all(part, args, Known::True, 0),
            (Known::False, b"or") => self.push_all(part, args, Known::False, 0),
            (Known::False, b"and") => self.push_one(part, args, Known::False, 0),
            (Known::True, b"or") => self.push_one(part, args, Known::True, 0),
            (Known::True | Known::False, b"=>") => self.push_implied(part, args),
            (Known::True | Known::False, b"ite") => self.push_branch(part),
            _ => {}
        }
        // (The part added last is on top, where the first has to be.)
        if let Some(added) = self.left.as_mut_slice().get_mut(before..) {
            added.reverse();
        }
    }

    // The argument of a part at a place, if the part has it as a node.
    fn argument(
        &self,
        part: Part<'a>,
        place: usize,
        term: Tree<'a>,
        value: Known,
    ) -> Option<Part<'a>> {
        let node = self.look(part.node).part(place)?;
        Some(Part {
            term,
            node,
            value,
            ..part
        })
    }

    fn known(&mut self, part: Part<'a>) -> Known {
        Known::of(self.value(part.scope, part.node))
    }

    // Adds all arguments but the last `without`, which have this value; no more than lines can tell of.
    fn push_all(&mut self, part: Part<'a>, args: Trees<'a>, value: Known, without: usize) {
        let count = args.len().saturating_sub(without);
        for (place, term, _) in each(args) {
            if place >= count || place >= MOST {
                break;
            }
            if let Some(inner) = self.argument(part, place, term, value) {
                self.push(inner);
            }
        }
    }

    // The place of the argument that costs most, but for the last `without`; of several the last one.
    fn costliest(&self, part: Part<'a>, count: usize) -> usize {
        let look = self.look(part.node);
        let mut most = 0;
        let mut found = 0;
        for place in 0..count {
            if let Some(node) = look.part(place)
                && self.work.evaluator.parts.cost(node) >= most
            {
                most = self.work.evaluator.parts.cost(node);
                found = place;
            }
        }
        found
    }

    // Adds the first argument, but for the last `without`, that is known to have this value. The one that costs most is
    // not evaluated: it is taken where no other has the value. So what is evaluated on the way down costs little more
    // than the claim.
    fn push_one(&mut self, part: Part<'a>, args: Trees<'a>, value: Known, without: usize) {
        let count = args.len().saturating_sub(without);
        let costliest = self.costliest(part, count);
        let mut last = None;
        for (place, term, _) in each(args) {
            let inner = self.argument(part, place, term, value);
            if place >= count {
                break;
            } else if place == costliest {
                last = inner;
            } else if let Some(inner) = inner
                && self.known(inner) == value
            {
                return self.push(inner);
            }
        }
        // (Of an open part every argument may be known.)
        if let Some(last) = last
            && (value != Known::Open || self.known(last) == Known::Open)
        {
            self.push(last);
        }
    }

    // Adds the arguments that decide an implication. Where it is true: its conclusion if that is true, otherwise a
    // false premise. Where it is false: the conclusion, and then the premises, which are true.
    fn push_implied(&mut self, part: Part<'a>, args: Trees<'a>) {
        let mut last = None;
        for (place, term, _) in each(args) {
            last = self.argument(part, place, term, part.value);
        }
        let Some(last) = last else {
            return;
        };
        if part.value == Known::False {
            self.push(last);
            self.push_all(part, args, Known::True, 1);
        } else if self.known(last) == Known::True {
            self.push(last);
        } else {
            self.push_one(part, args, Known::False, 1);
        }
    }

    fn push_branch(&mut self, part: Part<'a>) {
        let Some(choice) = self.choice(part) else {
            return;
        };
        let value = self.condition_value(choice.condition);
        match value {
            Known::True => self.push(choice.first),
            Known::False => self.push(choice.second),
            Known::Else | Known::Open => {}
        }
        self.push(Part {
            value,
            is_condition: true,
            ..choice.condition
        })
    }

    // The parts of a part that is an `ite`.
    fn choice(&self, part: Part<'a>) -> Option<Choice<'a>> {
        let Tree::List(parts) = part.term else {
            return None;
        };
        let Some((Tree::Symbol(b"ite"), args)) = parts.split_first() else {
            return None;
        };
        let (condition, rest) = args.split_first()?;
        let (first, rest) = rest.split_first()?;
        let (second, _) = rest.split_first()?;
        Some(Choice {
            whole: part,
            condition: self.argument(part, 0, condition, Known::Open)?,
            first: self.argument(part, 1, first, part.value)?,
            second: self.argument(part, 2, second, part.value)?,
        })
    }

    // The value of a condition. Where it is an `ite` too, the walk asks next for the condition in it. So conditions
    // that stand in one another are evaluated together, the innermost first, and no part of them is evaluated twice.
    fn condition_value(&mut self, condition: Part<'a>) -> Known {
        if let Some(value) = self.value_found(condition) {
            return value;
        }
        let mut choices = Vec::new(self.alloc);
        let mut inner = condition;
        while choices.len() < MOST {
            let Some(choice) = self.choice(inner) else {
                break;
            };
            if choices.push(choice).is_err() {
                self.refuse();
                break;
            }
            inner = choice.condition;
        }
        let mut value = self.known(inner);
        if !choices.is_empty() {
            self.conditions.clear();
            self.note(inner, value);
        }
        while let Some(choice) = choices.pop() {
            value = self.value_of_choice(choice, value);
            self.note(choice.whole, value);
        }
        value
    }

    fn value_found(&self, condition: Part<'a>) -> Option<Known> {
        for found in self.conditions.as_slice() {
            if found.node == condition.node && found.scope == condition.scope {
                return Some(found.value);
            }
        }
        None
    }

    fn note(&mut self, condition: Part<'a>, value: Known) {
        let found = Condition {
            scope: condition.scope,
            node: condition.node,
            value,
        };
        if self.conditions.push(found).is_err() {
            self.refuse();
        }
    }

    // The value of an `ite` whose condition has this value.
    fn value_of_choice(&mut self, choice: Choice<'a>, condition: Known) -> Known {
        match condition {
            Known::True => self.known(choice.first),
            Known::False => self.known(choice.second),
            Known::Else | Known::Open => self.known(choice.whole),
        }
    }
}

fn has_label(attributes: Trees<'_>) -> bool {
    each(attributes).any(|(_, attribute, rest)| label_at(attribute, rest).is_some())
}

// The name and what comes after it of a binding or a parameter.
pub(crate) fn named(tree: Tree<'_>) -> Option<(&[u8], Tree<'_>)> {
    let Tree::List(parts) = tree else {
        return None;
    };
    match parts.split_first() {
        Some((Tree::Symbol(name), rest)) => {
            let (term, _) = rest.split_first()?;
            Some((name, term))
        }
        _ => None,
    }
}

/// Whether a term is a literal: a constant as a text has it.
pub(crate) fn is_literal(term: Tree<'_>) -> bool {
    match term {
        Tree::Symbol(name) => matches!(name, b"true" | b"false"),
        Tree::List(parts) => match parts.split_first() {
            Some((Tree::Symbol(b"-"), rest)) => match rest.split_first() {
                Some((Tree::Numeral(_) | Tree::Decimal(_), rest)) => rest.split_first().is_none(),
                _ => false,
            },
            _ => false,
        },
        _ => true,
    }
}
