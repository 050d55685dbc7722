//! Where the walk over a term stopped, by the frames that it left. This file checks nothing.

ghost use Rattle.std.specs.Prelude.{◌<◌, IfSome};
ghost use Rattle.smt_trees.specs.Places.{size_of};

use crate::library::binders::has_label;
use crate::library::frames::Frame;
use smt_forms::{is_bang, split_let, split_named};
use smt_trees::{Tree, Trees};

// The innermost part that the walk was in, and how many arguments and terms of bindings of the parts around it wait:
// an atom, an identifier with indexes, or a list in which all parts that are lists are checked. No part is an annotated
// term without a label. `None` where the frames are not those of a walk over a list of these parts.
pub(super) fn stop_of<'t>(whole: Trees<'t>, frames: &[Frame]) -> Option<(Tree<'t>, usize)> {
    let Some((last, outer)) = frames.split_last() else {
        return Some((annotated_in(stripped(whole)), 0));
    };
    let Some((parts, around)) = list_in(whole, outer) else {
        return None;
    };
    part_in(parts, *last, around)
}

// The part for which a frame in a list of these parts waits, without annotations; so many arguments wait outside it.
fn part_in<'t>(parts: Trees<'t>, frame: Frame, around: usize) -> Option<(Tree<'t>, usize)> {
    let Some((part, before)) = waiting_for(stripped(parts), frame) else {
        return None;
    };
    Some((without_annotations(part), add(around, before)))
}

// The list for which the innermost of these frames waits, and how many arguments wait outside it.
fn list_in<'t>(whole: Trees<'t>, frames: &[Frame]) -> Option<(Trees<'t>, usize)> {
    let mut parts = whole;
    let mut waiting = 0;
    let mut left = frames;
    while let Some((frame, rest)) = left.split_first() {
        let Some((inner, before)) = list_waiting_for(parts, *frame) else {
            return None;
        };
        parts = inner;
        waiting = add(waiting, before);
        left = rest;
    }
    Some((parts, waiting))
}

fn add(a: usize, b: usize) -> usize {
    a.saturating_add(b)
}

// The list for which a frame in a list of these parts waits, and how many terms before it wait too.
fn list_waiting_for<'t>(parts: Trees<'t>, frame: Frame) -> Option<(Trees<'t>, usize)> {
    match waiting_for(stripped(parts), frame) {
        Some((Tree::List(inner), before)) => Some((inner, before)),
        _ => None,
    }
}

// The part for which a frame in a list of these parts waits, and how many terms before it wait too.
fn waiting_for<'t>(parts: Trees<'t>, frame: Frame) -> Option<(Tree<'t>, usize)> {
    let Some((_, args)) = parts.split_first() else {
        return None;
    };
    match frame {
        Frame::Argument {
            application,
            left,
            ..
        } => argument_before(args, left.saturating_sub(application.end) as usize),
        Frame::Binding { binder, left, .. } => {
            binding_before(args, left.saturating_sub(binder.body) as usize)
        }
        Frame::Body { .. } => body_of(args),
        Frame::Labelled(_) => first_of(args),
    }
}

// The term of the binding of a `let` behind which so many cells come, and how many bindings come before it.
fn binding_before<'t>(args: Trees<'t>, behind: usize) -> Option<(Tree<'t>, usize)> {
    let Some((bindings, _)) = split_let(args) else {
        return None;
    };
    term_before(bindings, behind)
}

// The body of a `let`, and how many bindings it has.
fn body_of<'t>(args: Trees<'t>) -> Option<(Tree<'t>, usize)> {
    let Some((bindings, body)) = split_let(args) else {
        return None;
    };
    Some((body, bindings.len()))
}

fn first_of<'t>(args: Trees<'t>) -> Option<(Tree<'t>, usize)> {
    let Some((term, _)) = args.split_first() else {
        return None;
    };
    Some((term, 0))
}

// The argument behind which so many cells come, and how many arguments come before it.
fn argument_before<'t>(args: Trees<'t>, behind: usize) -> Option<(Tree<'t>, usize)> {
    let mut left = args;
    let mut before = 0;
    while let Some((argument, rest)) = left.split_first() {
        if rest.size() == behind {
            return Some((argument, before));
        }
        before = add(before, 1);
        left = rest;
    }
    None
}

// The term of the binding behind which so many cells come, and how many bindings come before it.
fn term_before<'t>(bindings: Trees<'t>, behind: usize) -> Option<(Tree<'t>, usize)> {
    let mut left = bindings;
    let mut before = 0;
    while let Some((_, term, rest)) = split_named(left) {
        if rest.size() == behind {
            return Some((term, before));
        }
        before = add(before, 1);
        left = rest;
    }
    None
}

// ---- annotations

// A part without the annotations around it that have no label.
fn without_annotations<'t>(part: Tree<'t>) -> Tree<'t> {
    match part {
        Tree::List(parts) => annotated_in(stripped(parts)),
        _ => part,
    }
}

// The parts of a list without the annotations around it that have no label. An atom keeps the innermost one.
fn stripped<'t>(parts: Trees<'t>) -> Trees<'t> {
    let mut left = parts;
    while let Some(inner) = annotated_list(left) {
        left = inner;
    }
    left
}

// The parts of the list that a list of these parts annotates, without a label.
fn annotated_list<'t>(parts: Trees<'t>) -> Option<Trees<'t>>
    ensures { IfSome result (λ inner. size_of inner < size_of parts.entry) }
{
    let Some((head, args)) = parts.split_placed() else {
        return None;
    };
    if is_bang(head) {
        unlabelled_list(args)
    } else {
        None
    }
}

// The parts of the list that the first of these trees is, where the others give it no label.
fn unlabelled_list<'t>(args: Trees<'t>) -> Option<Trees<'t>>
    ensures { IfSome result (λ inner. size_of inner < size_of args.entry) }
{
    let Some((term, attributes)) = args.split_placed() else {
        return None;
    };
    match term {
        Tree::List(inner) => {
            if has_label(attributes) {
                None
            } else {
                Some(inner)
            }
        }
        _ => None,
    }
}

// The atom that a list of these parts annotates, without a label; or else the list itself.
fn annotated_in<'t>(parts: Trees<'t>) -> Tree<'t> {
    let Some((head, args)) = parts.split_first() else {
        return Tree::List(parts);
    };
    if is_bang(head) {
        unlabelled_of(args, parts)
    } else {
        Tree::List(parts)
    }
}

// The first of these trees, or a list of these parts where the others give it a label.
fn unlabelled_of<'t>(args: Trees<'t>, parts: Trees<'t>) -> Tree<'t> {
    let Some((term, attributes)) = args.split_first() else {
        return Tree::List(parts);
    };
    if has_label(attributes) {
        Tree::List(parts)
    } else {
        term
    }
}
