//! The lines on an item of a model that has a fault, and the places of items. This file finds no fault: the line of the
//! report names it.

use crate::blames::tell_blame;
use crate::claims::nth;
use crate::dialogue::{Dialogue, tell_answer, tell_command};
use crate::faults::{meaning_of, tell_bringer, without_bars};
use smt_eval::blame_of_items;
use smt_faults::{Memory, TermFlaw};
use smt_forms::{item_form, sort_of_element};
use smt_reasons::{each, items_in};
use smt_remarks::Page;
use smt_terms::Blame;
use smt_text::{Span, bytes_at, tree_spans};
use smt_theory::Profile;
use smt_trees::Trees;
use std::alloc::Global;

/// Where the items of a model stand that stands there.
pub(crate) fn item_spans(
    alloc: Global,
    dialogue: &Dialogue<'_>,
    model: Span,
) -> Result<Vec<Span>, Memory> {
    let start = model.start.saturating_add(1);
    let end = model.end.saturating_sub(1);
    let inside = bytes_at(dialogue.texts.answers, Span { start, end });
    let mut spans = Vec::new(alloc);
    for span in tree_spans(alloc, inside, dialogue.max_depth())?.as_slice() {
        if !spans.is_empty() || without_bars(bytes_at(inside, *span)) != b"model".as_slice() {
            spans.push(Span {
                start: start.saturating_add(span.start),
                end: start.saturating_add(span.end),
            })?;
        }
    }
    Ok(spans)
}

/// Writes the place of an item of the model in turn, by its number, and why it is refused.
pub(crate) fn tell_item_fault(
    page: &mut Page<'_>,
    dialogue: &Dialogue<'_>,
    number: u64,
    flaw: TermFlaw,
) {
    let Some((model, span)) = dialogue.replay.answer() else {
        return;
    };
    let Ok(spans) = item_spans(page.alloc(), dialogue, span) else {
        return page.refuse();
    };
    tell_item(page, "item", spans.as_slice(), number);
    page.set_number(number);
    page.note(meaning_of(flaw));
    let items = items_in(model);
    match blame_of_items(dialogue.library(), items) {
        Ok(Some(blame)) => tell_item_blame(page, dialogue, &blame, items, spans.as_slice(), number),
        Ok(None) => {}
        Err(Memory) => page.refuse(),
    }
}

fn tell_item_blame(
    page: &mut Page<'_>,
    dialogue: &Dialogue<'_>,
    blame: &Blame<'_>,
    items: Trees<'_>,
    spans: &[Span],
    number: u64,
) {
    let name = match nth(items, number) {
        Some(item) => match item_form(item) {
            Ok(form) => form.name,
            Err(_) => b"",
        },
        None => b"",
    };
    match blame {
        Blame::InUse { name } => tell_in_use(page, dialogue, *name),
        Blame::Twice { name: twice } if *twice == name => match number_of(items, name) {
            Some(before) if before < number => { tell_item(page, "bound before", spans, before) }
            _ => tell_blame(page, dialogue, b"", blame),
        },
        Blame::Unknown { .. } | Blame::Lacks { .. } | Blame::Twice { .. } => {
            tell_blame(page, dialogue, b"", blame)
        }
        _ => {
            if let Some(command) = dialogue.bringer(name) {
                tell_command(page, dialogue, "declared", command);
            }
            tell_blame(page, dialogue, b"its body", blame)
        }
    }
}

fn tell_item(page: &mut Page<'_>, kind: &'static str, spans: &[Span], number: u64) {
    let index = usize::try_from(number)
        .unwrap_or(usize::MAX)
        .saturating_sub(1);
    match spans.get(index) {
        Some(span) => tell_answer(page, kind, *span),
        None => page.begin(kind),
    }
}

// The number of the first item of this name.
fn number_of(items: Trees<'_>, name: &[u8]) -> Option<u64> {
    for (place, item, _) in each(items) {
        if let Ok(form) = item_form(item)
            && form.name == name
        {
            return Some((place as u64).saturating_add(1));
        }
    }
    None
}

// Writes why no item may have a name: it is that of an element of a sort, or stands for something else.
fn tell_in_use(page: &mut Page<'_>, dialogue: &Dialogue<'_>, name: &[u8]) {
    if let Some(command) = element_sort(dialogue, name) {
        return tell_command(page, dialogue, "it is also the name of an element", command);
    }
    tell_bringer(page, dialogue, name)
}

// The command that declares the sort of which a name is also an element's.
fn element_sort(dialogue: &Dialogue<'_>, name: &[u8]) -> Option<u64> {
    if dialogue.texts.profile == Profile::Base {
        return None;
    }
    match dialogue.sort_bringer(sort_of_element(name)?)? {
        (command, true) => Some(command),
        _ => None,
    }
}
