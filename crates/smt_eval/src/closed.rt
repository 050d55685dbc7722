//! Terms that a library has checked, as numbered nodes. This file looks into no node.

ghost use Rattle.std.specs.Prelude.{◌≡◌, ◌≤◌, ◌<◌, ◌+◌, ◌-◌, ◌*◌, ◌^◌, ℕ, length, IfOk, IfSome, OnOk};
ghost use Rattle.smt_trees.specs.Sexp.{Sexp, weight};
ghost use Rattle.smt_values.specs.Element.{known_element};
ghost use Rattle.smt_arrays.specs.Element.{known_plain};
ghost use Rattle.smt_machine.specs.Costs.{capped, within};
ghost use Rattle.smt_machine.specs.Tables.{arounds_of, model_count, nodes_of};
ghost use Rattle.smt_terms.specs.Library.{IsTerm, StandsFor, element_names_of, held_terms_of, terms_of};
ghost use Rattle.smt_terms.specs.Signature.{Signature};
ghost use Rattle.smt_terms.specs.TermsOf.{AreTermsOf};
ghost use Rattle.smt_eval.specs.Cost.{cost_over};
ghost use Rattle.smt_eval.specs.Interpretation.{CostsAtMost, Fits, IsInterpretation, KeepsCosts, KnowsCosts};
ghost use Rattle.smt_eval.specs.Interpretation.{Serves, numbers_of, rate_of};
ghost use Rattle.smt_eval.specs.Known.{known_over};
ghost use Rattle.smt_eval.specs.Least.{least_over};
ghost use Rattle.smt_eval.specs.NodeValues.{arounds_over, nodes_over};
ghost use Rattle.smt_eval.specs.Numbering.{in_numbers};
ghost use Rattle.smt_eval.specs.Structure.{structure_of};

use crate::interpretation::Interpretation;
use crate::laws::{
    nodes_give_the_values_of_their_terms, nodes_have_the_costs_of_their_terms,
    nodes_take_the_least_of_their_terms, numbers_stand_for_names, terms_cost_by_their_sizes,
};
use crate::tables::tables;
use smt_faults::Memory;
use smt_machine::{Machine, Tables, cost_of_term, greatest_cost};
use smt_nodes::laws::elements_have_numbers;
use smt_terms::{Library, TermId};
use smt_values::Value;

/// The cost of evaluating a term of the library over the structure that an interpretation gives to its names;
/// 2^64 - 1 where it is that or more.
///
/// The interpretation was read over the library as it is now, and counted. So the call looks a number up, and
/// asks for no memory.
pub fn cost(library: &Library<'_>, interpretation: &Interpretation<'_>, term: TermId) -> u64
    requires term { (t : Sexp) × IsTerm library.now term t }
    requires fits { Fits interpretation.now library.now }
    requires counted { KnowsCosts interpretation.now library.now }
    ensures { (script definitions : Signature) (t : Sexp) → StandsFor library.now script
        → IsInterpretation interpretation.now script definitions → IsTerm library.now term t
        → result ≡ capped (cost_over (structure_of script definitions) t) }
{
    nodes_have_the_costs_of_their_terms();
    cost_of_term(
        interpretation.costs.as_slice(),
        tables_of(library, interpretation),
        term,
    )
}

/// The cost of evaluating a term, as `cost` gives it, where it is at most a limit; `None` where it is more.
///
/// The limit is below 2^64 - 1. Where the interpretation was counted, the call looks the cost up; otherwise
/// it counts from the term down, as far as the limit. The only error is want of memory.
pub fn cost_within(
    library: &Library<'_>,
    interpretation: &Interpretation<'_>,
    term: TermId,
    limit: u64,
) -> Result<Option<u64>, Memory>
    requires term { (t : Sexp) × IsTerm library.now term t }
    requires fits { Fits interpretation.now library.now }
    requires costs { KeepsCosts interpretation.now library.now }
    requires below { limit < 2 ^ 64 - 1 }
    ensures { (script definitions : Signature) (t : Sexp) → StandsFor library.now script
        → IsInterpretation interpretation.now script definitions → IsTerm library.now term t
        → IfOk result (λ cost. cost ≡ within limit (cost_over (structure_of script definitions) t)) }
{
    nodes_have_the_costs_of_their_terms();
    if interpretation.costs.is_empty() {
        let tables = tables_of(library, interpretation);
        return smt_machine::cost_within(library.alloc(), tables, term, limit);
    }
    let cost = cost(library, interpretation, term);
    Ok(if cost <= limit { Some(cost) } else { None })
}

/// What the evaluation of a term costs at most for each atom and list in it, over the structure that an interpretation
/// gives to the names of a library: one more than the greatest cost of a node of the model. `None` where the library
/// has definitions, or where that is 2^64 or more.
///
/// The interpretation was read over the library as it is now. The call makes one pass over the model's nodes. The only
/// error is want of memory.
pub fn cost_by_size(
    library: &Library<'_>,
    interpretation: &Interpretation<'_>,
) -> Result<Option<u64>, Memory>
    requires fits { Fits interpretation.now library.now }
    ensures rate { IfOk result (λ rate. rate ≡ rate_of interpretation.now library.now) }
    ensures bound { (script definitions : Signature) (i : ℕ) (t u : Sexp) → StandsFor library.now script
        → IsInterpretation interpretation.now script definitions → IsTerm library.now i t → IsTerm library.now i u
        → IfOk result (λ rate. IfSome rate (λ n. cost_over (structure_of script definitions) t ≤ weight u * n)) }
{
    nodes_have_the_costs_of_their_terms();
    terms_cost_by_their_sizes();
    if !library.definitions().is_empty() {
        return Ok(None);
    }
    let most = greatest_cost(library.alloc(), tables_of(library, interpretation))?;
    Ok(most.checked_add(1))
}

/// What is known of a term of the library over the structure that an interpretation gives to its names;
/// `None` where the value is open, or an array. An element of a declared sort is known under the number that its name
/// has among those of the model's definitions.
///
/// The term is closed, and a term of this library. The interpretation is one of a model of the names that the
/// library has now. The call subtracts one from `left` for each term that it evaluates, parts and the bodies
/// of names among them; `left` is no less than the cost of the term. The only error is want of memory.
pub fn eval(
    library: &Library<'_>,
    interpretation: &Interpretation<'_>,
    term: TermId,
    left: &mut u64,
) -> Result<Option<Value>, Memory>
    requires term { (t : Sexp) × IsTerm library.now term t }
    requires fits { Fits interpretation.now library.now }
    requires enough { CostsAtMost left.old library.now interpretation.now term }
    ensures fewer { OnOk result (left.new < left.old) }
    ensures counted { (script definitions : Signature) (t : Sexp) → StandsFor library.now script
        → IsInterpretation interpretation.now script definitions → IsTerm library.now term t
        → OnOk result (left.new + least_over (structure_of script definitions) t ≤ left.old) }
    ensures paid { (script definitions : Signature) (t : Sexp) → StandsFor library.now script
        → IsInterpretation interpretation.now script definitions → IsTerm library.now term t
        → OnOk result (left.old ≤ left.new + cost_over (structure_of script definitions) t) }
    ensures known { (script definitions : Signature) (t : Sexp) → StandsFor library.now script
        → IsInterpretation interpretation.now script definitions → IsTerm library.now term t
        → IfOk result (λ v. known_element v
        ≡ known_plain (in_numbers (element_names_of interpretation.now.definitions)
        (known_over (structure_of script definitions) t))) }
{
    eval_by(
        &mut Machine::new(library.alloc()),
        library,
        interpretation,
        term,
        left,
    )
}

/// What is known of a term, as `eval` gives it, by a machine that serves one term after another and keeps the
/// values of constants.
///
/// The machine is new, or has evaluated terms of this library over this interpretation alone.
pub fn eval_by(
    machine: &mut Machine,
    library: &Library<'_>,
    interpretation: &Interpretation<'_>,
    term: TermId,
    left: &mut u64,
) -> Result<Option<Value>, Memory>
    requires term { (t : Sexp) × IsTerm library.now term t }
    requires fits { Fits interpretation.now library.now }
    requires enough { CostsAtMost left.old library.now interpretation.now term }
    requires serves { Serves machine.old interpretation.now library.now }
    ensures serves { IfOk result (λ _. Serves machine.new interpretation.now library.now) }
    ensures fewer { OnOk result (left.new < left.old) }
    ensures counted { (script definitions : Signature) (t : Sexp) → StandsFor library.now script
        → IsInterpretation interpretation.now script definitions → IsTerm library.now term t
        → OnOk result (left.new + least_over (structure_of script definitions) t ≤ left.old) }
    ensures paid { (script definitions : Signature) (t : Sexp) → StandsFor library.now script
        → IsInterpretation interpretation.now script definitions → IsTerm library.now term t
        → OnOk result (left.old ≤ left.new + cost_over (structure_of script definitions) t) }
    ensures known { (script definitions : Signature) (t : Sexp) → StandsFor library.now script
        → IsInterpretation interpretation.now script definitions → IsTerm library.now term t
        → IfOk result (λ v. known_element v
        ≡ known_plain (in_numbers (element_names_of interpretation.now.definitions)
        (known_over (structure_of script definitions) t))) }
{
    nodes_give_the_values_of_their_terms();
    numbers_stand_for_names();
    elements_have_numbers();
    nodes_have_the_costs_of_their_terms();
    nodes_take_the_least_of_their_terms();
    let value = machine.eval(tables_of(library, interpretation), term, left)?;
    Ok(machine.plain(value))
}

// The tables of the model and of the script.
fn tables_of<'a>(library: &'a Library<'a>, interpretation: &'a Interpretation<'a>) -> Tables<'a>
    ensures nodes { nodes_of result ≡ nodes_over (numbers_of interpretation.now)
        (held_terms_of interpretation.now.definitions) (terms_of library.now) interpretation.now.declared.items }
    ensures arounds { arounds_of result ≡ arounds_over (held_terms_of interpretation.now.definitions)
        (terms_of library.now) }
    ensures count { model_count result ≡ length (held_terms_of interpretation.now.definitions).rows }
    ensures named { (s : Signature) → StandsFor library.now s → AreTermsOf (terms_of library.now) s }
{
    tables(
        library,
        &interpretation.definitions,
        interpretation.declared.as_slice(),
    )
}
