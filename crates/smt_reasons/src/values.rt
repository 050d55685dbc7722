//! The lines on a smallest part: its text, its place, and the values in it. This file evaluates no term itself.

use crate::parts::{Known, Part, Walk, is_literal};
use crate::reals::is_real;
use crate::show::{put_tree, text_of};
use crate::trees::{each, tree_from};
use crate::value_texts::{symbol_text, value_text};
use crate::world::Defined;
use smt_faults::Memory;
use smt_remarks::Page;
use smt_trees::{Tree, Word};
use smt_values::{OpenReason, Reason, Value, why};

/// Why a number is open.
const TOO_LARGE: &str = "an integer below -2^127 or over 2^127 - 1";

/// Why a real is open.
const NO_ROOM: &str = "a fraction too large, or a step to it below -2^127 or over 2^127 - 1";

/// Why it is open whether arrays are the same.
const ARRAYS: &str =
    "too much is written in the arrays, or the sort of their indexes may have no others";

/// What is said of a condition.
const CONDITION: &str = "it decides which branch of an ite is taken";

/// The most terms of a part whose values are looked at.
const MOST_VALUES: usize = 24;

/// Writes a smallest part, with the values in it.
pub(crate) fn tell_part<'a>(page: &mut Page<'_>, walk: &mut Walk<'a, '_>, part: Part<'a>) {
    let reason = reason(walk, part);
    if walk.stop().is_some() {
        return;
    }
    page.begin(match part.value {
        Known::True => "true",
        Known::False => "false",
        Known::Else => "value",
        Known::Open => "open",
    });
    page.set_spot(part.origin.side, part.origin.start);
    if let Some(name) = part.within {
        match symbol_text(page.alloc(), name) {
            Ok(name) => page.set_within(name.as_slice()),
            Err(Memory) => page.refuse(),
        }
    }
    put_tree(page, part.term);
    match reason {
        Some(reason) => page.set_reason(reason),
        None if part.is_condition => page.set_reason(CONDITION),
        None => {}
    }
    tell_values(page, walk, part);
}

// The reason why a smallest part is open.
fn reason(walk: &mut Walk<'_, '_>, part: Part<'_>) -> Option<&'static str> {
    if part.value != Known::Open {
        return None;
    }
    let look = walk.look(part.node);
    let too_large = match is_real(walk, part.term, part.scope) {
        Ok(true) => NO_ROOM,
        Ok(false) => TOO_LARGE,
        Err(Memory) => {
            walk.refuse();
            return None;
        }
    };
    let Some(op) = look.op() else {
        return Some(too_large);
    };
    let mut values = Vec::new(walk.alloc);
    if let Tree::List(parts) = part.term {
        for place in 0..parts.len() {
            if let Some(node) = look.part(place) {
                let value = walk.value(part.scope, node);
                if values.push(value).is_err() {
                    walk.refuse();
                }
            }
        }
    }
    match why(op, values.as_slice()) {
        Reason::Open(OpenReason::DivisionByZero) => Some("a division by zero"),
        _ if values.iter().any(is_array) => Some(ARRAYS),
        _ => Some(too_large),
    }
}

// Whether a value is an array.
fn is_array(value: &Option<Value>) -> bool {
    match value {
        Some(Value::Abstract(number)) => number.array_place().is_some(),
        _ => false,
    }
}

// A term whose value is to be written.
#[derive(Clone, Copy)]
struct Seen<'a> {
    term: Tree<'a>,
    scope: usize,
    /// Its node, unless it is a name in a larger term.
    node: Option<usize>,
}

// The terms whose values are to be written, and the items that give the values.
#[derive(Drop)]
struct Told<'a> {
    seen: Vec<Seen<'a>>,
    texts: Vec<Vec<u8>>,
    items: Vec<Defined<'a>>,
    is_refused: bool,
}

impl<'a> Told<'a> {
    fn see(&mut self, term: Tree<'a>, scope: usize, node: Option<usize>) {
        if self.seen.len() < MOST_VALUES && self.seen.push(Seen { term, scope, node }).is_err() {
            self.is_refused = true;
        }
    }

    // Adds the names in a term.
    fn see_names(&mut self, term: Tree<'a>, scope: usize) {
        let Tree::List(parts) = term else {
            return self.see(term, scope, None);
        };
        for before in 0..parts.size() {
            if self.seen.len() >= MOST_VALUES {
                return;
            }
            if let Some((tree, _)) = tree_from(parts, parts.size() - before)
                && let Tree::Symbol(_) = tree
            {
                self.see(tree, scope, None);
            }
        }
    }

    // Adds an item of the model, unless it is there.
    fn add_item(&mut self, defined: Defined<'a>) {
        if !defined.is_item() || self.has_item(defined.name) {
            return;
        }
        if self.items.push(defined).is_err() {
            self.is_refused = true;
        }
    }

    fn has_item(&self, name: &[u8]) -> bool {
        for item in self.items.as_slice() {
            if item.name == name {
                return true;
            }
        }
        false
    }

    fn has_text(&self, text: &[u8]) -> bool {
        for other in self.texts.as_slice() {
            if other.as_slice() == text {
                return true;
            }
        }
        false
    }
}

fn tell_values<'a>(page: &mut Page<'_>, walk: &mut Walk<'a, '_>, part: Part<'a>) {
    let alloc = walk.alloc;
    let mut told = Told {
        seen: Vec::new(alloc),
        texts: Vec::new(alloc),
        items: Vec::new(alloc),
        is_refused: false,
    };
    first_seen(walk, part, &mut told);
    for index in 0..MOST_VALUES {
        if let Some(next) = told.seen.get(index).copied() {
            tell_seen(page, walk, next, &mut told);
        }
    }
    tell_items(page, told.items.as_slice());
    if told.is_refused {
        walk.refuse();
    }
}

// Adds the arguments of a part that are no literals, or the part itself where it is no list.
fn first_seen<'a>(walk: &Walk<'a, '_>, part: Part<'a>, told: &mut Told<'a>) {
    let Tree::List(parts) = part.term else {
        return told.see(part.term, part.scope, Some(part.node));
    };
    let Some((head, args)) = parts.split_first() else {
        return;
    };
    let look = walk.look(part.node);
    for (place, arg, _) in each(args) {
        if place >= MOST_VALUES {
            break;
        }
        if !is_literal(arg) {
            told.see(arg, part.scope, look.part(place));
        }
    }
    told.see(head, part.scope, None)
}

// Writes the value of a term, unless its text is there already.
fn tell_seen<'a>(
    page: &mut Page<'_>,
    walk: &mut Walk<'a, '_>,
    next: Seen<'a>,
    told: &mut Told<'a>,
) {
    let Ok(text) = text_of(walk.alloc, next.term) else {
        return walk.refuse();
    };
    if told.has_text(text.as_slice()) || !has_value(walk, next) {
        return see_function(walk, next, told);
    }
    let value = value_of(walk, next);
    if walk.stop().is_some() {
        return;
    }
    tell_value(page, walk, next, text.as_slice(), value);
    see_more(walk, next, told);
    if told.texts.push(text).is_err() {
        walk.refuse();
    }
}

// Whether a term has a value: a list that is no attribute or index, a variable, or a name without parameters.
fn has_value(walk: &Walk<'_, '_>, seen: Seen<'_>) -> bool {
    match seen.term {
        Tree::Symbol(name) => {
            walk.work.find(seen.scope, name).is_some()
                || match walk.world.find(name) {
                    Some(defined) => defined.parameters.split_first().is_none(),
                    None => false,
                }
        }
        Tree::List(parts) => {
            !matches!(
                parts.split_first(),
                None | Some((Tree::Keyword(_) | Tree::Reserved(Word::Underscore), _))
            )
        }
        _ => false,
    }
}

// Adds the item of a function of the model that a name is.
fn see_function<'a>(walk: &Walk<'a, '_>, seen: Seen<'a>, told: &mut Told<'a>) {
    if let Tree::Symbol(name) = seen.term
        && let Some(defined) = walk.world.find(name)
        && walk.work.find(seen.scope, name).is_none()
    {
        told.add_item(defined);
    }
}

// The value of a term: of its node, of a variable, or of a name.
fn value_of(walk: &mut Walk<'_, '_>, next: Seen<'_>) -> Option<Value> {
    if let Some(node) = next.node {
        return walk.value(next.scope, node);
    }
    let Tree::Symbol(name) = next.term else {
        return None;
    };
    if let Some(bound) = walk.work.find(next.scope, name) {
        return bound.value;
    }
    match walk.work.evaluator.parts.body_of(name) {
        Some(node) => walk.value(0, node),
        None => None,
    }
}

fn tell_value<'a>(
    page: &mut Page<'_>,
    walk: &Walk<'a, '_>,
    next: Seen<'a>,
    text: &[u8],
    value: Option<Value>,
) {
    let Ok(value) = known_text(walk, next, value) else {
        return page.refuse();
    };
    match given_text(walk, next) {
        Ok(Some(given)) => page.add_value(text, Some(given.as_slice()), value.as_slice()),
        Ok(None) => page.add_value(text, None, value.as_slice()),
        Err(Memory) => page.refuse(),
    }
}

fn known_text(
    walk: &Walk<'_, '_>,
    seen: Seen<'_>,
    value: Option<Value>,
) -> Result<Vec<u8>, Memory> {
    match value {
        Some(value) => {
            let is_real = is_real(walk, seen.term, seen.scope)?;
            value_text(walk.alloc, walk.work.evaluator.parts, is_real, &value)
        }
        None => Ok(Vec::from_slice(walk.alloc, b"open")?),
    }
}

// The term that gives a variable its value, unless that is a literal, or its names mean something else here.
fn given_text(walk: &Walk<'_, '_>, next: Seen<'_>) -> Result<Option<Vec<u8>>, Memory> {
    if let Tree::Symbol(name) = next.term
        && let Some(bound) = walk.work.find(next.scope, name)
        && !is_literal(bound.term)
        && means_the_same(walk, next.scope, bound.term_scope, bound.term)
    {
        return Ok(Some(text_of(walk.alloc, bound.term)?));
    }
    Ok(None)
}

// Whether each name in a term is the same variable in two scopes, or no variable in both.
fn means_the_same(walk: &Walk<'_, '_>, here: usize, there: usize, term: Tree<'_>) -> bool {
    match term {
        Tree::Symbol(name) => is_same(walk, here, there, name),
        Tree::List(parts) => {
            for before in 0..parts.size() {
                if let Some((Tree::Symbol(name), _)) = tree_from(parts, parts.size() - before)
                    && !is_same(walk, here, there, name)
                {
                    return false;
                }
            }
            true
        }
        _ => true,
    }
}

fn is_same(walk: &Walk<'_, '_>, here: usize, there: usize, name: &[u8]) -> bool {
    walk.work.scope_of(here, name) == walk.work.scope_of(there, name)
}

// After a term whose value was written: adds the names in it, or the item of the model that gives its value.
fn see_more<'a>(walk: &Walk<'a, '_>, next: Seen<'a>, told: &mut Told<'a>) {
    let Tree::Symbol(name) = next.term else {
        return told.see_names(next.term, next.scope);
    };
    if let Some(bound) = walk.work.find(next.scope, name) {
        if let Tree::Symbol(inner) = bound.term
            && bound.term_scope == 0
            && let Some(defined) = walk.world.find(inner)
            && defined.is_item()
        {
            return told.add_item(defined);
        }
        return told.see_names(bound.term, bound.term_scope);
    }
    match walk.world.find(name) {
        Some(defined) if defined.is_item() => told.add_item(defined),
        Some(defined) => told.see_names(defined.body, 0),
        None => {}
    }
}

// Tells of the items of the model that give the written names their values.
fn tell_items(page: &mut Page<'_>, items: &[Defined<'_>]) {
    for item in items {
        match symbol_text(page.alloc(), item.name) {
            Ok(name) => page.add_item(name.as_slice(), item.origin.start),
            Err(Memory) => page.refuse(),
        }
    }
}
