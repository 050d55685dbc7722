//! The definitions of a model as trees. This file knows no nodes.

use smt_eval::Memory;
use smt_forms::{ItemForm, item_form};
use smt_plain::Definition;
use smt_terms::{Definition as Defined, Library};
use smt_trees::Trees;
use std::alloc::Global;

/// The definitions of a model with their bodies as trees, which a library of them does not keep.
pub(crate) fn plain_definitions<'a>(
    alloc: Global,
    library: &'a Library,
    model: Trees<'a>,
) -> Result<Vec<Definition<'a>>, Memory> {
    let mut definitions = Vec::new(alloc);
    let mut left = library.definitions();
    let mut items = model;
    while let Some((item, behind)) = items.split_first() {
        if let Ok(form) = item_form(item)
            && let Some((defined, rest)) = left.split_first()
        {
            push_definition(&mut definitions, defined, &form)?;
            left = rest;
        }
        items = behind;
    }
    Ok(definitions)
}

// Adds a definition after the others.
fn push_definition<'a>(
    definitions: &mut Vec<Definition<'a>>,
    defined: &'a Defined,
    form: &ItemForm<'a>,
) -> Result<(), Memory> {
    match definitions.push(Definition {
        name: form.name,
        params: defined.params.as_slice(),
        result: defined.result,
        body: form.body,
    }) {
        Ok(()) => Ok(()),
        Err(_) => Err(Memory),
    }
}
