//! Which terms are reals, as far as their heads tell. This file evaluates nothing.

use crate::parts::{Walk, named};
use crate::trees::each;
use smt_faults::Memory;
use smt_forms::split_let;
use smt_terms::{Found, Library};
use smt_theory::Sort;
use smt_trees::{Tree, Trees, Word};
use std::alloc::Global;

/// How many terms are looked at, and of a list or of bindings: others are taken for no reals.
const MOST: usize = 64;

/// A term that is looked at, in a scope, and the last of the variables that it sees of each `let` round it.
#[derive(Clone, Copy)]
struct Seen<'a> {
    term: Tree<'a>,
    scope: usize,
    last: usize,
}

/// A variable of a `let`: its term sees the variables up to `outer`, and the one bound before it is `before`. They are
/// numbered from 1; 0 is none.
#[derive(Drop)]
struct Variable<'a> {
    name: &'a [u8],
    term: Tree<'a>,
    outer: usize,
    before: usize,
}

/// Whether a term is of the sort `Real`, as its head tells, or that of an argument where all are numbers.
pub(crate) fn is_real<'a>(
    walk: &Walk<'a, '_>,
    term: Tree<'a>,
    scope: usize,
) -> Result<bool, Memory> {
    if !walk.work.evaluator.parts.library.theories().reals {
        return Ok(false);
    }
    let mut left = Vec::new(walk.alloc);
    let mut variables = Vec::new(walk.alloc);
    left.push(Seen {
        term,
        scope,
        last: 0,
    })?;
    for _term in 0..MOST {
        let Some(seen) = left.pop() else {
            return Ok(false);
        };
        if is_told(walk, seen, &mut left, &mut variables)? {
            return Ok(true);
        }
    }
    Ok(false)
}

// Whether the head of a term tells that it is real; or else adds the terms that may tell it.
fn is_told<'a>(
    walk: &Walk<'a, '_>,
    seen: Seen<'a>,
    left: &mut Vec<Seen<'a>, Global>,
    variables: &mut Vec<Variable<'a>, Global>,
) -> Result<bool, Memory> {
    match seen.term {
        Tree::Decimal(_) => return Ok(true),
        Tree::Numeral(_) => return Ok(!walk.work.evaluator.parts.library.theories().ints),
        Tree::Symbol(name) => {
            if let Some((term, last)) = variable_named(variables, seen.last, name) {
                left.push(Seen { term, last, ..seen })?;
            } else if let Some(bound) = walk.work.find(seen.scope, name) {
                left.push(Seen {
                    term: bound.term,
                    scope: bound.term_scope,
                    last: 0,
                })?;
            } else {
                return Ok(has_real_sort(walk, name));
            }
        }
        Tree::List(parts) => match parts.split_first() {
            Some((Tree::Symbol(b"/" | b"to_real"), _)) => return Ok(true),
            Some((Tree::Symbol(b"+" | b"-" | b"*" | b"ite"), args)) => {
                for (place, term, _) in each(args) {
                    if place >= MOST {
                        break;
                    }
                    left.push(Seen { term, ..seen })?;
                }
            }
            Some((Tree::Symbol(name), _)) => return Ok(has_real_sort(walk, name)),
            Some((Tree::Reserved(Word::Bang), args)) => {
                if let Some((term, _)) = args.split_first() {
                    left.push(Seen { term, ..seen })?;
                }
            }
            Some((Tree::Reserved(Word::Let), args)) => {
                if let Some((bindings, term)) = split_let(args) {
                    let last = bind(bindings, seen.last, variables)?;
                    left.push(Seen { term, last, ..seen })?;
                }
            }
            _ => {}
        },
        _ => {}
    }
    Ok(false)
}

// Adds the variables of a `let`, and gives the last one.
fn bind<'a>(
    bindings: Trees<'a>,
    outer: usize,
    variables: &mut Vec<Variable<'a>, Global>,
) -> Result<usize, Memory> {
    let mut last = outer;
    for (place, binding, _) in each(bindings) {
        if place >= MOST {
            break;
        }
        if let Some((name, term)) = named(binding) {
            variables.push(Variable {
                name,
                term,
                outer,
                before: last,
            })?;
            last = variables.len();
        }
    }
    Ok(last)
}

// The term of the innermost variable of this name, and the last variable that it sees.
fn variable_named<'a>(
    variables: &[Variable<'a>],
    last: usize,
    name: &[u8],
) -> Option<(Tree<'a>, usize)> {
    let mut at = last;
    for _variable in 0..MOST {
        let found = variables.get(at.checked_sub(1)?)?;
        if found.name == name {
            return Some((found.term, found.outer));
        }
        at = found.before;
    }
    None
}

// Whether a name of the script stands for a real, or for reals.
fn has_real_sort(walk: &Walk<'_, '_>, name: &[u8]) -> bool {
    match sort_of(walk.work.evaluator.parts.library, name) {
        Some(sort) => sort.is_same(Sort::real()),
        None => false,
    }
}

fn sort_of(library: &Library<'_>, name: &[u8]) -> Option<Sort> {
    match library.find(name)? {
        Found::Declared(place) => Some(library.declared().get(place)?.result),
        Found::Defined(place) => Some(library.definitions().get(place)?.result),
    }
}
