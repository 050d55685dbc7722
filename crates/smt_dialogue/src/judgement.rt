//! Judges a model under what is in force. This file knows no windows, and no lines of a report.

ghost use Rattle.std.specs.Prelude.{◌≡◌, ◌≤◌, ◌+◌, ◌*◌, ℕ, List, Some, true, false, IfOk, IfSome, IsTrue, MatchOption};
ghost use Rattle.smt_values.specs.Element.{Truth, known_element};
ghost use Rattle.smt_values.specs.KnownOperations.{is_known};
ghost use Rattle.smt_machine.specs.Costs.{within};
ghost use Rattle.smt_terms.specs.Library.{terms_of};
ghost use Rattle.smt_terms.specs.Library as libraries;
ghost use Rattle.smt_terms.specs.Signature.{Signature};
ghost use Rattle.smt_eval.specs.Interpretation.{Fits, IsInterpretation, KeepsCosts, Serves};
ghost use Rattle.smt_eval.specs.Structure.{structure_of};
ghost use Rattle.smt_script.specs.Stack.{Numbered, signature_in_force};
ghost use Rattle.smt_script.specs.StackView.{StandsFor, profile_of};
ghost use Rattle.smt_trees.specs.Owned.{sexp_of};
ghost use Rattle.smt_trees.specs.Sexp.{Items, Sexps};
ghost use Rattle.smt_dialogue.specs.Answers.{is_list};
ghost use Rattle.smt_dialogue.specs.Internal.Claims.{AreClaimed, HaveSizes, claims_in_force, claims_left};
ghost use Rattle.smt_dialogue.specs.Judgement as spec;
ghost use Rattle.smt_dialogue.specs.Judgement.{Claimed, claims_cost, judged_over, judged_within};
ghost use Rattle.smt_dialogue.specs.Judgement.{judgement_of};
ghost use Rattle.smt_dialogue.specs.declared.judgement.Judgement.TheVariants.{TooLong};

use crate::claims::Claims;
use crate::options::Limit;
use smt_eval::{Interpretation, Machine, Memory, ModelFlaw, cost_by_size, cost_within, eval_by};
use smt_faults::TermFlaw;
use smt_report::Claim;
use smt_script::Stack;
use smt_terms::Library;
use smt_trees::{OwnedTree, Tree};
use smt_values::Value;
use std::mem;

// How many nodes a pass over all nodes counts in the time of one step of a walk.
const NODES_A_STEP: u64 = 16;

/// The judgement on a model. Commands, and items of a model, count from 1.
#[derive(Clone, Copy)]
pub enum Judgement {
    /// The first item with a flaw.
    ItemFault { item: u64, flaw: TermFlaw },
    /// The declaration of the first name that no item defines.
    Lacks { declaration: u64 },
    /// The evaluation of all claims costs more than the limit.
    TooLong,
    /// The first claim that is known to be false.
    Refuted { claim: Claim },
    /// The first claim that is open, where none is known to be false.
    NotDecided { claim: Claim },
    /// Every claim is known to be true.
    Confirmed,
}

/// Judges a model, which is a list, under what is in force. The claims are evaluated only where all together cost at
/// most the limit. Of what it evaluated before, the machine keeps nothing but its memory.
pub(crate) fn judge(
    machine: &mut Machine,
    stack: &Stack,
    model: OwnedTree,
    limit: Limit,
) -> Result<Judgement, Memory>
    requires stands { (commands : List Numbered) × StandsFor stack.now commands }
    requires list { is_list (sexp_of model) ≡ true }
    ensures { (commands : List Numbered) (items : Sexps) → StandsFor stack.now commands
        → sexp_of model ≡ Items items
        → IfOk result (λ j. j ≡ judgement_of limit.steps (signature_in_force (profile_of stack.now) commands)
        (claims_in_force (profile_of stack.now) commands) items) }
{
    let library = stack.library();
    let Tree::List(items) = model.view() else {
        unreachable!()
    };
    let read = Interpretation::read(library, items);
    // (frees the trees of the model before its evaluation)
    drop(model);
    match read {
        Ok(mut interpretation) => {
            let claims = Claims::new(stack);
            let judgement = judge_read(machine, library, &mut interpretation, claims, limit);
            drop(interpretation);
            judgement
        }
        Err(fault) => match fault.flaw() {
            Some(flaw) => Ok(judgement_of_flaw(flaw)),
            None => Err(Memory),
        },
    }
}

fn judgement_of_flaw(flaw: ModelFlaw) -> Judgement
    ensures { result ≡ spec.judgement_of_flaw flaw }
{
    match flaw {
        ModelFlaw::Item { number, flaw } => Judgement::ItemFault { item: number, flaw },
        ModelFlaw::Lacks { command } => Judgement::Lacks {
            declaration: command,
        },
    }
}

// Judges a model that was read. Where the sizes of the claims tell that the limit is enough, nothing else is counted.
// A walk from the claims down is enough where they cost little, whatever else is in the script. Otherwise a pass counts
// all nodes, if that takes no longer than the limit lets a walk take.
fn judge_read(
    machine: &mut Machine,
    library: &Library<'_>,
    interpretation: &mut Interpretation<'_>,
    claims: Claims<'_>,
    limit: Limit,
) -> Result<Judgement, Memory>
    requires terms { (all : List Claimed) × AreClaimed (terms_of library.now) (claims_left claims) all }
    requires sized { HaveSizes (terms_of library.now) (claims_left claims) }
    requires fits { Fits interpretation.old library.now }
    requires costs { KeepsCosts interpretation.old library.now }
    ensures { (script definitions : Signature) (all : List Claimed)
        → libraries.StandsFor library.now script → IsInterpretation interpretation.old script definitions
        → AreClaimed (terms_of library.now) (claims_left claims.entry) all
        → IfOk result (λ j. j
        ≡ judged_within limit.steps all (structure_of script definitions)) }
{
    if let Some(steps) = steps_by_sizes(library, interpretation, claims, limit)? {
        return judge_counted(machine, library, interpretation, claims, steps);
    }
    let nodes = library.nodes().len() as u64;
    let few = few_of(limit, nodes);
    let judgement = judge_within(machine, library, interpretation, claims, few)?;
    if is_decided(&judgement) || limit.steps <= few.steps {
        return Ok(judgement);
    }
    if nodes > limit.steps {
        return judge_within(machine, library, interpretation, claims, limit);
    }
    interpretation.count(library)?;
    judge_within(machine, library, interpretation, claims, limit)
}

// Steps that are enough for all claims by the sizes of their terms, and no more than the limit; `None` where the sizes
// tell of none.
fn steps_by_sizes(
    library: &Library<'_>,
    interpretation: &Interpretation<'_>,
    claims: Claims<'_>,
    limit: Limit,
) -> Result<Option<u64>, Memory>
    requires fits { Fits interpretation.now library.now }
    requires sized { HaveSizes (terms_of library.now) (claims_left claims) }
    ensures { (script definitions : Signature) (all : List Claimed)
        → libraries.StandsFor library.now script → IsInterpretation interpretation.now script definitions
        → AreClaimed (terms_of library.now) (claims_left claims.entry) all
        → IfOk result (λ steps. IfSome steps (λ n. (n ≤ limit.steps)
        × (claims_cost (structure_of script definitions) all ≤ n))) }
{
    let Some(rate) = cost_by_size(library, interpretation)? else {
        return Ok(None);
    };
    let mut steps: u64 = 0;
    let mut left = claims;
    while let Some(next) = left.next() {
        let Some(sum) = steps_with(steps, next.size, rate) else {
            return Ok(None);
        };
        steps = sum;
    }
    Ok(if steps <= limit.steps {
        Some(steps)
    } else {
        None
    })
}

// So many steps, and those for a term of this size; `None` where the size is not known, or from 2^64 on.
fn steps_with(steps: u64, size: Option<u32>, rate: u64) -> Option<u64>
    ensures { IfSome result (λ sum. (n : ℕ) × (size ≡ Some n) × (sum ≡ steps + n * rate)) }
{
    let more = u64::from(size?).checked_mul(rate)?;
    steps.checked_add(more)
}

// The limit, but no more steps than a walk makes in the time of one pass over so many nodes.
fn few_of(limit: Limit, nodes: u64) -> Limit
    ensures { result.steps ≤ limit.steps }
{
    let steps = nodes / NODES_A_STEP;
    if steps < limit.steps {
        Limit { steps }
    } else {
        limit
    }
}

// Whether a judgement is final: `false` where the limit is not enough.
fn is_decided(judgement: &Judgement) -> bool
    ensures { IsTrue result → judgement.now ≡ TooLong → ⊥ }
{
    !matches!(judgement, Judgement::TooLong)
}

// Judges claims over the definitions of a model and the script's own. It evaluates nothing before it knows that
// the limit is enough for all.
fn judge_within(
    machine: &mut Machine,
    library: &Library<'_>,
    interpretation: &Interpretation<'_>,
    claims: Claims<'_>,
    limit: Limit,
) -> Result<Judgement, Memory>
    requires terms { (all : List Claimed) × AreClaimed (terms_of library.now) (claims_left claims) all }
    requires fits { Fits interpretation.now library.now }
    requires costs { KeepsCosts interpretation.now library.now }
    ensures { (script definitions : Signature) (all : List Claimed)
        → libraries.StandsFor library.now script → IsInterpretation interpretation.now script definitions
        → AreClaimed (terms_of library.now) (claims_left claims.entry) all
        → IfOk result (λ j. j
        ≡ judged_within limit.steps all (structure_of script definitions)) }
{
    let Some(steps) = cost_of_all(library, interpretation, claims, limit)? else {
        return Ok(Judgement::TooLong);
    };
    judge_counted(machine, library, interpretation, claims, steps)
}

// Judges claims as `judge_claims` does, with a machine that is a local while it evaluates: so its fields are held
// in registers. The steps are enough for all claims.
fn judge_counted(
    machine: &mut Machine,
    library: &Library<'_>,
    interpretation: &Interpretation<'_>,
    claims: Claims<'_>,
    steps: u64,
) -> Result<Judgement, Memory>
    requires terms { (all : List Claimed) × AreClaimed (terms_of library.now) (claims_left claims) all }
    requires fits { Fits interpretation.now library.now }
    requires enough { (script definitions : Signature) (all : List Claimed)
        → libraries.StandsFor library.now script → IsInterpretation interpretation.now script definitions
        → AreClaimed (terms_of library.now) (claims_left claims) all
        → claims_cost (structure_of script definitions) all ≤ steps }
    ensures { (script definitions : Signature) (all : List Claimed)
        → libraries.StandsFor library.now script → IsInterpretation interpretation.now script definitions
        → AreClaimed (terms_of library.now) (claims_left claims.entry) all
        → IfOk result (λ j. j ≡ judged_over all (structure_of script definitions)) }
{
    let mut left = steps;
    let mut own = mem::replace(machine, Machine::new(library.alloc()));
    own.forget();
    let judgement = judge_claims(&mut own, library, interpretation, claims, &mut left);
    *machine = own;
    judgement
}

// The cost of evaluating all claims; `None` where it is more than the limit.
fn cost_of_all(
    library: &Library<'_>,
    interpretation: &Interpretation<'_>,
    claims: Claims<'_>,
    limit: Limit,
) -> Result<Option<u64>, Memory>
    requires terms { (all : List Claimed) × AreClaimed (terms_of library.now) (claims_left claims) all }
    requires fits { Fits interpretation.now library.now }
    requires costs { KeepsCosts interpretation.now library.now }
    ensures { (script definitions : Signature) (all : List Claimed)
        → libraries.StandsFor library.now script → IsInterpretation interpretation.now script definitions
        → AreClaimed (terms_of library.now) (claims_left claims.entry) all
        → IfOk result (λ cost. cost
        ≡ within limit.steps (claims_cost (structure_of script definitions) all)) }
{
    let mut steps = limit.steps;
    let mut left = claims;
    while let Some(next) = left.next() {
        let Some(cost) = cost_within(library, interpretation, next.term, steps)? else {
            return Ok(None);
        };
        steps -= cost;
    }
    Ok(Some(limit.steps - steps))
}

// Finds the first claim that is false over the definitions of a model and the script's own, else the first that
// is open. The steps are enough for all claims.
fn judge_claims(
    machine: &mut Machine,
    library: &Library<'_>,
    interpretation: &Interpretation<'_>,
    claims: Claims<'_>,
    steps: &mut u64,
) -> Result<Judgement, Memory>
    requires terms { (all : List Claimed) × AreClaimed (terms_of library.now) (claims_left claims) all }
    requires fits { Fits interpretation.now library.now }
    requires enough { (script definitions : Signature) (all : List Claimed)
        → libraries.StandsFor library.now script → IsInterpretation interpretation.now script definitions
        → AreClaimed (terms_of library.now) (claims_left claims) all
        → claims_cost (structure_of script definitions) all ≤ steps.old }
    requires serves { Serves machine.old interpretation.now library.now }
    ensures { (script definitions : Signature) (all : List Claimed)
        → libraries.StandsFor library.now script → IsInterpretation interpretation.now script definitions
        → AreClaimed (terms_of library.now) (claims_left claims.entry) all
        → IfOk result (λ j. j ≡ judged_over all (structure_of script definitions)) }
{
    let mut first_open = None;
    let mut left = claims;
    while let Some(next) = left.next() {
        let value = eval_by(machine, library, interpretation, next.term, steps)?;
        match truth_of(value) {
            Some(true) => {}
            Some(false) => return Ok(Judgement::Refuted { claim: next.claim }),
            None => {
                if first_open.is_none() {
                    first_open = Some(next.claim);
                }
            }
        }
    }
    Ok(match first_open {
        Some(claim) => Judgement::NotDecided { claim },
        None => Judgement::Confirmed,
    })
}

// Which truth value a formula is known to have; `None` says that it is open.
fn truth_of(value: Option<Value>) -> Option<bool>
    ensures { MatchOption result
        ((is_known false (known_element value) ≡ false) × (is_known true (known_element value) ≡ false))
        (λ truth. known_element value ≡ Some (Truth truth)) }
{
    match value {
        Some(value) => value.truth(),
        None => None,
    }
}
