//! The variables that a term sees, with what is known of each. This file looks up no name, and evaluates
//! nothing.

ghost use Rattle.std.specs.Prelude.{◌≡◌, [], ◌∷◌, ◌++◌, map, IfOk, OnOk};
ghost use Rattle.std.specs.List.{zip};
ghost use Rattle.smt_plain.specs.PlainTerm.{known_single, known_singles};
ghost use Rattle.smt_plain.specs.Internal.PlainEvaluation.{known_scope};

use smt_faults::Memory;
use smt_forms::Variable;
use smt_theory::Sort;
use smt_values::Value;
use std::alloc::Global;

/// Appends a variable.
pub(crate) fn push_variable<'a>(
    variables: &mut Vec<Variable<'a, Option<Value>>>,
    name: &'a [u8],
    value: Option<Value>,
) -> Result<(), Memory>
    ensures { OnOk result (known_scope variables.new.items
        ≡ known_scope variables.old.items ++ (name.now, known_single value) ∷ []) }
{
    match variables.push(Variable { name, value }) {
        Ok(()) => Ok(()),
        Err(_) => Err(Memory),
    }
}

/// The parameters of a definition, each with what is known of the argument at its place.
pub(crate) fn bind<'a>(
    alloc: Global,
    params: &'a [(Vec<u8>, Sort)],
    args: &[Option<Value>],
) -> Result<Vec<Variable<'a, Option<Value>>>, Memory>
    ensures { IfOk result (λ variables. known_scope variables.items
        ≡ zip (map (λ p. p.0.items) params.now) (known_singles args.now)) }
{
    let mut variables = Vec::new(alloc);
    for place in 0..params.len().min(args.len()) {
        push_variable(&mut variables, params[place].0.as_slice(), args[place])?;
    }
    Ok(variables)
}
