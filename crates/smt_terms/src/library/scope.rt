//! Variables with their sorts, in the order in which they are bound. This file knows no trees.

ghost use Rattle.std.specs.Prelude.{◌≡◌, ◌∷◌, ◌++◌, [], OnOk};
ghost use Rattle.smt_forms.specs.ScopeView.{scope_view};

use smt_faults::Memory;
use smt_forms::Variable;
use smt_theory::Sort;

// Adds a variable with its sort after the others.
pub(super) fn push_variable<'a>(
    variables: &mut Vec<Variable<'a, Sort>>,
    name: &'a [u8],
    value: Sort,
) -> Result<(), Memory>
    ensures { OnOk result (scope_view variables.new.items
        ≡ scope_view variables.old.items ++ (name.now, value) ∷ []) }
{
    match variables.push(Variable { name, value }) {
        Ok(()) => Ok(()),
        Err(_) => Err(Memory),
    }
}
