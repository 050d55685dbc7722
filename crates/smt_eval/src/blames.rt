//! What is to blame for an item of a model that is refused. This file looks into no item: a library does.

ghost use Rattle.std.specs.Prelude.{List, IfOk};
ghost use Rattle.smt_terms.specs.Blame.{IsToldOf};
ghost use Rattle.smt_terms.specs.Items.{items_before};
ghost use Rattle.smt_terms.specs.Library.{ReadsModelsOf, StandsFor};
ghost use Rattle.smt_terms.specs.Signature.{Entry, Signature};

use crate::interpretation::items;
use smt_faults::Memory;
use smt_terms::{Blame, Library, TermFault};
use smt_trees::{Tree, Trees};

/// What is to blame for the first item of a model of the library's names that `Interpretation::read` refuses; `None`
/// where it refuses none, or for a fault of another kind than F3, F4, F6 and F7. It is the first such name or part, in
/// the order in which an item is read. The time is that of reading the items before it once more, and in proportion to
/// the item.
///
/// The only error is want of memory.
pub fn blame_of_items<'t>(
    declared: &Library<'_>,
    model: Trees<'t>,
) -> Result<Option<Blame<'t>>, Memory>
    ensures { (s : Signature) → StandsFor declared.now s
        → IfOk result (λ found. (es : List Entry) × IsToldOf s (items_before s es) found) }
{
    let items = items(model);
    let mut definitions = declared.for_model(items.size())?;
    let refused = take_items(declared, &mut definitions, items)?;
    match refused {
        Some(item) => definitions.blame_of_item(declared, item),
        None => Ok(None),
    }
}

// Adds the definitions that items make, up to the first that is refused, which it returns.
fn take_items<'t>(
    declared: &Library<'_>,
    definitions: &mut Library<'_>,
    items: Trees<'t>,
) -> Result<Option<Tree<'t>>, Memory>
    requires { ReadsModelsOf definitions.old declared.now }
    ensures { (s : Signature) (es : List Entry) → StandsFor declared.now s
        → StandsFor definitions.old (items_before s es)
        → (more : List Entry) × StandsFor definitions.new (items_before s more) }
{
    let mut left = items;
    while let Some((item, rest)) = left.split_first() {
        if let Err(fault) = definitions.define_item(declared, item) {
            return unless_memory(fault, item);
        }
        left = rest;
    }
    Ok(None)
}

fn unless_memory<'t>(fault: TermFault, item: Tree<'t>) -> Result<Option<Tree<'t>>, Memory> {
    if fault == TermFault::Memory {
        Err(Memory)
    } else {
        Ok(Some(item))
    }
}
