//! The answer that a command accepts from the answers so far. This file knows nothing that is in force.

ghost use Rattle.std.specs.Prelude.{◌≡◌, List, ℕ, IfOk, MatchOption, Some, None, true, false};
ghost use Rattle.smt_text.specs.Reader.{bytes_fed, depth_limit, is_finished};
ghost use Rattle.smt_trees.specs.Sexp.{Sexps};
ghost use Rattle.smt_trees.specs.Owned.{sexp_of};
ghost use Rattle.smt_dialogue.specs.Answers as answers;
ghost use Rattle.smt_dialogue.specs.FirstFault.{TextSoFar};
ghost use Rattle.smt_dialogue.specs.Internal.AnswerView.{AreKnown};
ghost use Rattle.smt_dialogue.specs.Internal.NextAnswerView.{IsFound, IsKnown, IsTaken};
ghost use Rattle.smt_dialogue.specs.Internal.TreeQueueView.{HasQueue};

use crate::answer::{TakenAnswer, answer_of};
use crate::need::{AnswerForm, Need};
use crate::tree_queue::{Ahead, TreeQueue};
use smt_eval::Memory;
use smt_faults::TextFlaw;

/// What a command finds in the answers so far.
#[derive(Drop)]
pub enum NextAnswer {
    /// It accepts the next answer, or none.
    Takes(Option<TakenAnswer>),
    /// It waits for more of the answers.
    Waits,
    /// It needs an answer, and none comes. With the fault after the last answer, if there is one.
    Missing(Option<TextFlaw>),
    /// It needs an answer, and the next one does not have the form that it needs.
    Unexpected,
}

/// Finds the answer of a command that needs this, and takes it out of the queue where the command accepts it.
pub(crate) fn take_answer(need: Need, answers: &mut TreeQueue) -> Result<NextAnswer, Memory>
    ensures taken { IfOk result (λ found. (bytes : List ℕ) (text : TextSoFar) (rest : Sexps)
        → HasQueue answers.old bytes text rest → IsTaken found need text rest bytes answers.new) }
    ensures known { IfOk result (λ found. IsKnown found) }
    ensures fed { bytes_fed answers.new.reader ≡ bytes_fed answers.old.reader }
    ensures finished { is_finished answers.new.reader ≡ is_finished answers.old.reader }
    ensures limit { depth_limit answers.new.reader ≡ depth_limit answers.old.reader }
{
    match need {
        Need::Nothing => Ok(NextAnswer::Takes(None)),
        Need::Optional(form) => match answers.look()? {
            Ahead::Tree => Ok(NextAnswer::Takes(take_if(form, answers))),
            Ahead::Wait => Ok(NextAnswer::Waits),
            Ahead::End(_) => Ok(NextAnswer::Takes(None)),
        },
        Need::Needed(form) => match answers.look()? {
            Ahead::Tree => match take_if(form, answers) {
                Some(answer) => Ok(NextAnswer::Takes(Some(answer))),
                None => Ok(NextAnswer::Unexpected),
            },
            Ahead::Wait => Ok(NextAnswer::Waits),
            Ahead::End(fault) => Ok(NextAnswer::Missing(fault)),
        },
    }
}

// Takes the ready answer out of the queue, where it has this form.
fn take_if(form: AnswerForm, answers: &mut TreeQueue) -> Option<TakenAnswer>
    ensures taken { (bytes : List ℕ) (text : TextSoFar) (rest : Sexps)
        → HasQueue answers.old bytes text rest
        → IsFound form result answers.old.next text rest bytes answers.new }
    ensures known { AreKnown result }
    ensures fed { bytes_fed answers.new.reader ≡ bytes_fed answers.old.reader }
    ensures finished { is_finished answers.new.reader ≡ is_finished answers.old.reader }
    ensures limit { depth_limit answers.new.reader ≡ depth_limit answers.old.reader }
{
    let Some(tree) = &answers.next else {
        return None;
    };
    let says = answer_of(tree.view());
    if !says.has(form) {
        return None;
    }
    let tree = answers.take()?;
    Some(TakenAnswer { says, tree })
}
