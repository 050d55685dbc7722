//! Terms as the nodes of a library that declares the names of a model. This file prints nothing.

ghost use Rattle.std.specs.Prelude.{◌<◌, ◌-◌, ◌^◌};
ghost use Rattle.smt_trees.specs.Sexp.{Sexp};
ghost use Rattle.smt_eval.specs.Interpretation.{Fits, HoldsScript, KnowsCosts};
ghost use Rattle.smt_terms.specs.Library.{IsTerm, StandsFor};
ghost use Rattle.smt_terms.specs.Signature.{Signature};

use crate::trees::{flaw_of, parts};
use anyhow::{Result, bail};
use smt_eval::{Interpretation, cost, eval};
use smt_faults::TermFlaw;
use smt_forms::{item_form, params_of};
use smt_terms::laws::held_terms_are_terms;
use smt_terms::{Library, TermId};
use smt_trees::{OwnedTree, Tape, Tree, Trees};
use smt_values::Value;
use std::alloc::Global;

/// Declares each name that a model defines. The number of its command is its place in the model, from 1.
pub(crate) fn declare_items(alloc: Global, script: &mut Library<'_>, model: Trees<'_>) -> Result<()>
    requires { HoldsScript script.old }
    ensures { HoldsScript script.new }
{
    let mut left = model;
    for command in 1..u64::MAX {
        let Some((item, rest)) = left.split_first() else {
            break;
        };
        declare_item(alloc, script, command, item)?;
        left = rest;
    }
    Ok(())
}

fn declare_item(alloc: Global, script: &mut Library<'_>, command: u64, item: Tree<'_>) -> Result<()>
    ensures { HoldsScript script.old → HoldsScript script.new }
{
    let Ok(form) = item_form(item) else {
        bail!("an item of the model is no definition");
    };
    let sorts = sorts_of(alloc, form.parameters)?;
    match script.declare(command, form.name, parts(&sorts), form.sort) {
        Ok(()) => Ok(()),
        Err(_) => bail!("a name that the model defines can't be declared"),
    }
}

// A list with copies of the sorts of parameters.
fn sorts_of(alloc: Global, parameters: Trees<'_>) -> Result<OwnedTree> {
    let Ok(params) = params_of(alloc, parameters) else {
        bail!("out of memory");
    };
    let mut sorts = Tape::new(alloc);
    sorts.begin_list()?;
    for param in &params {
        sorts.add_tree(param.sort)?;
    }
    Ok(sorts.take(alloc)?)
}

/// The known value of a term, found by its node over a model that is read after the term; or the flaw of the term.
pub(crate) fn known_by_node(
    script: &mut Library<'_>,
    model: Trees<'_>,
    tree: Tree<'_>,
) -> Result<Result<Option<Value>, TermFlaw>>
    requires { HoldsScript script.old }
    ensures { (s : Signature) → StandsFor script.old s → StandsFor script.new s }
{
    held_terms_are_terms();
    let mut left = u64::MAX - 1;
    match script.check(tree) {
        Ok((term, _)) => match known_over(script, model, term, &mut left)? {
            Some(known) => Ok(Ok(known)),
            None => bail!("the term is too long"),
        },
        Err(fault) => Ok(Err(flaw_of(fault)?)),
    }
}

/// How many of the given steps are left after the evaluation of a term over a model; `None` where it costs more.
pub(crate) fn left_of(
    script: &mut Library<'_>,
    model: Trees<'_>,
    tree: Tree<'_>,
    steps: u64,
) -> Result<Option<u64>>
    requires stands { HoldsScript script.old }
    requires steps { steps < 2 ^ 64 - 1 }
    ensures { (s : Signature) → StandsFor script.old s → StandsFor script.new s }
{
    held_terms_are_terms();
    let mut left = steps;
    match script.check(tree) {
        Ok((term, _)) => match known_over(script, model, term, &mut left)? {
            Some(_) => Ok(Some(left)),
            None => Ok(None),
        },
        Err(fault) => bail!("{}", flaw_of(fault)?),
    }
}

// The known value of a term over a model; `None` for a term that costs more steps than are left.
fn known_over(
    script: &Library<'_>,
    model: Trees<'_>,
    term: TermId,
    left: &mut u64,
) -> Result<Option<Option<Value>>>
    requires stands { HoldsScript script.now }
    requires term { (t : Sexp) × IsTerm script.now term t }
    requires below { left.old < 2 ^ 64 - 1 }
{
    let Ok(mut interpretation) = Interpretation::read(script, model) else {
        bail!("the model has a fault");
    };
    let Ok(()) = interpretation.count(script) else {
        bail!("out of memory");
    };
    known_in(script, &interpretation, term, left)
}

fn known_in(
    script: &Library<'_>,
    interpretation: &Interpretation,
    term: TermId,
    left: &mut u64,
) -> Result<Option<Option<Value>>>
    requires fits { Fits interpretation.now script.now }
    requires counted { KnowsCosts interpretation.now script.now }
    requires term { (t : Sexp) × IsTerm script.now term t }
    requires below { left.old < 2 ^ 64 - 1 }
{
    let steps = cost(script, interpretation, term);
    if steps > *left {
        return Ok(None);
    }
    match eval(script, interpretation, term, left) {
        Ok(known) => Ok(Some(known)),
        Err(_) => bail!("out of memory"),
    }
}
