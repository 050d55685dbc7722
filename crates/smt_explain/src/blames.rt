//! The lines on what is to blame for a fault of a term, as the checker tells it. This file finds nothing.

use crate::dialogue::Dialogue;
use smt_reasons::{put_name, put_tree, sort_text};
use smt_remarks::Page;
use smt_terms::{Blame, Theory};
use smt_theory::{Sort, Wanted};
use smt_trees::Tree;

/// Writes what is to blame; `what` names the term as a whole. Of a name in use the caller tells by what.
pub(crate) fn tell_blame(
    page: &mut Page<'_>,
    dialogue: &Dialogue<'_>,
    what: &[u8],
    blame: &Blame<'_>,
) {
    match blame {
        Blame::Unknown { name } => tell_name(page, "unknown", *name),
        Blame::Lacks { part, theory } => tell_lacking(page, *part, *theory),
        Blame::Twice { name } => tell_name(page, "bound twice", *name),
        Blame::Label { .. } | Blame::InUse { .. } => {}
        Blame::Variable { part } => {
            tell_ill(page, *part);
            page.note(b"its head is a variable, which takes no arguments")
        }
        Blame::Misfit {
            part,
            place,
            argument,
            found,
            wanted,
        } => {
            tell_ill(page, *part);
            page.begin("argument");
            page.set_number(*place);
            put_tree(page, *argument);
            tell_misfit(page, dialogue, *found, *wanted)
        }
        Blame::Arity {
            part,
            given,
            wanted,
        } => {
            tell_ill(page, *part);
            tell_counts(page, "arguments needed", *wanted, *given)
        }
        Blame::Sorts { part, found } => {
            tell_ill(page, *part);
            tell_sorts(page, dialogue, found.as_slice())
        }
        Blame::Whole { found, wanted } => {
            page.note(what);
            tell_difference(page, dialogue, *found, *wanted)
        }
        Blame::Parameter {
            place,
            found,
            wanted,
        } => {
            page.begin("parameter");
            page.set_number(*place);
            page.put(b"it");
            tell_difference(page, dialogue, *found, *wanted)
        }
        Blame::Outcome { found, wanted } => {
            page.note(b"its result");
            tell_difference(page, dialogue, *found, *wanted)
        }
        Blame::Parameters { given, wanted } => {
            tell_counts(page, "parameters declared", *wanted, *given)
        }
    }
}

fn tell_name(page: &mut Page<'_>, kind: &'static str, name: &[u8]) {
    page.begin(kind);
    put_name(page, name)
}

fn tell_lacking(page: &mut Page<'_>, part: Tree<'_>, theory: Theory) {
    page.begin("lacking");
    put_tree(page, part);
    page.put(match theory {
        Theory::Integers => b" needs integers, which the logic lacks",
        Theory::Reals => b" needs reals, which the logic lacks",
        Theory::BitVectors => b" needs bit vectors, which the logic lacks",
        Theory::Arrays => b" needs arrays, which the logic lacks",
    })
}

fn tell_ill(page: &mut Page<'_>, part: Tree<'_>) {
    page.begin("ill sorted");
    put_tree(page, part)
}

// Goes on: it says which sort there is, and which is needed.
fn tell_difference(page: &mut Page<'_>, dialogue: &Dialogue<'_>, found: Sort, wanted: Sort) {
    tell_misfit(page, dialogue, found, Wanted::Only(wanted))
}

fn tell_misfit(page: &mut Page<'_>, dialogue: &Dialogue<'_>, found: Sort, wanted: Wanted) {
    page.put(b" is of sort ");
    put_sort(page, dialogue, found);
    page.put(b", and ");
    match wanted {
        Wanted::Only(sort) => put_sort(page, dialogue, sort),
        Wanted::AnyBits => page.put(b"a bit vector"),
        Wanted::AnyArray => page.put(b"an array"),
    }
    page.put(b" is needed")
}

fn tell_sorts(page: &mut Page<'_>, dialogue: &Dialogue<'_>, sorts: &[Sort]) {
    page.begin("sorts of its arguments");
    for (place, sort) in sorts.iter().enumerate() {
        page.put(if place == 0 { b"" } else { b" " });
        put_sort(page, dialogue, *sort);
    }
}

// Tells how many are needed, and how many there are.
fn tell_counts(page: &mut Page<'_>, kind: &'static str, needed: u64, given: u64) {
    page.begin(kind);
    page.put_number(needed);
    page.put(b", and there are ");
    page.put_number(given)
}

// Writes a sort. (Arrays are at most two deep.)
fn put_sort(page: &mut Page<'_>, dialogue: &Dialogue<'_>, sort: Sort) {
    let Some((index, element)) = sort.array_parts() else {
        return put_plain_sort(page, dialogue, sort);
    };
    let Some((inner, held)) = element.array_parts() else {
        return put_array_sort(page, dialogue, index, element);
    };
    page.put(b"(Array ");
    put_plain_sort(page, dialogue, index);
    page.put(b" ");
    put_array_sort(page, dialogue, inner, held);
    page.put(b")")
}

// Writes a sort of arrays of elements that are none.
fn put_array_sort(page: &mut Page<'_>, dialogue: &Dialogue<'_>, index: Sort, element: Sort) {
    page.put(b"(Array ");
    put_plain_sort(page, dialogue, index);
    page.put(b" ");
    put_plain_sort(page, dialogue, element);
    page.put(b")")
}

// Writes a sort of no arrays.
fn put_plain_sort(page: &mut Page<'_>, dialogue: &Dialogue<'_>, sort: Sort) {
    let text = match sort.command() {
        Some(command) => {
            let name = dialogue.declared_sort(u64::from(command));
            sort_text(page.alloc(), sort, name)
        }
        None => sort_text(page.alloc(), sort, b""),
    };
    page.put_text(text)
}
