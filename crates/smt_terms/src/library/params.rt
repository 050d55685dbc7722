//! The parameters of definitions, with their sorts. This file knows no bodies.

ghost use Rattle.std.specs.Prelude.{◌≡◌, [], Ok, Err, map, IfOk};
ghost use Rattle.smt_trees.specs.View.{sexps_of};
ghost use Rattle.smt_forms.specs.Bindings.{named_trees};
ghost use Rattle.smt_terms.specs.Definitions.{parameters_named};
ghost use Rattle.smt_terms.specs.Internal.LibraryView.{sort_names};
ghost use Rattle.smt_forms.specs.ParamView.{param_view};
ghost use Rattle.smt_forms.specs.ScopeView.{scope_view};
ghost use Rattle.smt_faults.specs.Outcome.{IsOutcome};

use crate::library::scope::push_variable;
use crate::sorts::SortNames;
use smt_faults::{Memory, TermFault};
use smt_forms::{NameSet, Param, Variable, params_of};
use smt_theory::Sort;
use smt_trees::Trees;
use std::alloc::Global;

// The parameters as variables with their sorts, or the first fault. Of each parameter the sort is checked first,
// and then whether an earlier one has its name.
pub(super) fn sorted_params<'a>(
    alloc: Global,
    sorts: &SortNames,
    params: &[Param<'a>],
) -> Result<Vec<Variable<'a, Sort>>, TermFault>
    ensures { IsOutcome (λ variables. scope_view variables.items)
        (parameters_named (sort_names sorts.now) [] (map param_view params.now)) result }
{
    let mut variables = Vec::new(alloc);
    push_sorted(alloc, &mut variables, sorts, params)?;
    Ok(variables)
}

// Adds the parameters, as variables with their sorts, to an empty vector.
fn push_sorted<'a>(
    alloc: Global,
    variables: &mut Vec<Variable<'a, Sort>>,
    sorts: &SortNames,
    params: &[Param<'a>],
) -> Result<(), TermFault>
    requires { variables.old.items ≡ [] }
    ensures { IsOutcome (λ _. scope_view variables.new.items)
        (parameters_named (sort_names sorts.now) [] (map param_view params.now)) result }
{
    let mut names = NameSet::new(alloc);
    for param in params {
        let value = sorts.sort_of(alloc, param.sort)?;
        if names.contains(param.name) {
            return Err(TermFault::BoundTwice);
        }
        names.insert(param.name)?;
        push_variable(variables, param.name, value)?;
    }
    Ok(())
}

// The parameters in a list of trees, as variables with their sorts, or the first fault. The first tree that is no
// parameter ends them.
pub(super) fn sorted_params_of<'a>(
    alloc: Global,
    sorts: &SortNames,
    trees: Trees<'a>,
) -> Result<Vec<Variable<'a, Sort>>, TermFault>
    ensures { IsOutcome (λ variables. scope_view variables.items)
        (parameters_named (sort_names sorts.now) [] (named_trees (sexps_of trees.entry))) result }
{
    let params = params_of(alloc, trees)?;
    sorted_params(alloc, sorts, params.as_slice())
}

// Variables as the parameters of a definition, with copies of their names.
pub(super) fn named_parameters(
    alloc: Global,
    variables: &[Variable<'_, Sort>],
) -> Result<Vec<(Vec<u8>, Sort)>, Memory>
    ensures { IfOk result (λ params. map (λ p. (p.0.items, p.1)) params.items ≡ scope_view variables.now) }
{
    let mut params = Vec::new(alloc);
    for variable in variables {
        let name = Vec::from_slice(alloc, variable.name)?;
        params.push((name, variable.value))?;
    }
    Ok(params)
}

// The sorts of variables, in order.
pub(super) fn sorts_of_variables(
    alloc: Global,
    variables: &[Variable<'_, Sort>],
) -> Result<Vec<Sort>, Memory>
    ensures { IfOk result (λ sorts. sorts.items ≡ map (λ p. p.1) (scope_view variables.now)) }
{
    let mut sorts = Vec::new(alloc);
    for variable in variables {
        sorts.push(variable.value)?;
    }
    Ok(sorts)
}
