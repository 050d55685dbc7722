//! What an answer says. Each command that may accept a tree classifies it once. This file knows no pairs, and
//! nothing that is in force.

ghost use Rattle.std.specs.Prelude.{◌≡◌, option_map};
ghost use Rattle.smt_trees.specs.View.{sexp_of};
ghost use Rattle.smt_dialogue.specs.Answers as answers;
ghost use Rattle.smt_dialogue.specs.Internal.AnswerView as view;
ghost use Rattle.smt_dialogue.specs.Internal.AnswerView.{AreKnown, tree_of};

use crate::need::AnswerForm;
use smt_report::CheckAnswer;
use smt_trees::{OwnedTree, Tree};

/// What an answer says (SMT-LIB 2.6, section 3.9.1).
#[derive(Clone, Copy)]
pub enum Answer {
    Success,
    Unsupported,
    /// A list of the symbol `error` and a string.
    Error,
    Sat,
    Unsat,
    Unknown,
    /// A list that is no error.
    List,
    /// A string.
    Text,
    /// None of these.
    Other,
}

/// An answer that a command accepted: what it says, and its tree.
#[derive(Drop)]
pub struct TakenAnswer {
    pub says: Answer,
    pub tree: OwnedTree,
}

impl Answer {
    /// Whether the answer has a form.
    pub(crate) fn has(self, form: AnswerForm) -> bool
        ensures { result ≡ view.has form self }
    {
        match form {
            AnswerForm::General => matches!(self, Answer::Success) || self.refuses(),
            AnswerForm::Success => matches!(self, Answer::Success),
            AnswerForm::Unsupported => matches!(self, Answer::Unsupported),
            AnswerForm::Check => {
                matches!(self, Answer::Sat | Answer::Unsat | Answer::Unknown) || self.refuses()
            }
            AnswerForm::Model => matches!(self, Answer::List | Answer::Error | Answer::Unsupported),
            AnswerForm::Echo => matches!(self, Answer::Text) || self.refuses(),
            AnswerForm::Other => !matches!(self, Answer::Success),
        }
    }

    /// Whether the answer says that its command took no effect (SMT-LIB 2.6, section 3.9.1).
    pub(crate) fn refuses(self) -> bool
        ensures { result ≡ view.refuses self }
    {
        matches!(self, Answer::Unsupported | Answer::Error)
    }

    /// What a report says of a check with this answer; `None` for `sat`, and for what is no answer to a check.
    pub(crate) fn unchecked(self) -> Option<CheckAnswer>
        ensures { result ≡ view.unchecked self }
    {
        match self {
            Answer::Unsat => Some(CheckAnswer::Unsat),
            Answer::Unknown => Some(CheckAnswer::Unknown),
            Answer::Unsupported => Some(CheckAnswer::Unsupported),
            Answer::Error => Some(CheckAnswer::Error),
            Answer::Success | Answer::Sat | Answer::List | Answer::Text | Answer::Other => None,
        }
    }
}

/// What a tree says as an answer.
pub(crate) fn answer_of(tree: Tree<'_>) -> Answer
    ensures { result ≡ view.answer_of (sexp_of tree.entry) }
{
    if tree.is_symbol(b"success") {
        Answer::Success
    } else if tree.is_symbol(b"unsupported") {
        Answer::Unsupported
    } else if tree.is_symbol(b"sat") {
        Answer::Sat
    } else if tree.is_symbol(b"unsat") {
        Answer::Unsat
    } else if tree.is_symbol(b"unknown") {
        Answer::Unknown
    } else if is_error(tree) {
        Answer::Error
    } else {
        other_answer(tree)
    }
}

// Whether an answer is an error: a list of the symbol `error` and a string (SMT-LIB 2.6, section 3.9.1).
fn is_error(answer: Tree<'_>) -> bool
    ensures { result ≡ answers.is_error (sexp_of answer.entry) }
{
    let Tree::List(parts) = answer else {
        return false;
    };
    let Some((first, rest)) = parts.split_first() else {
        return false;
    };
    match rest.split_first() {
        Some((Tree::Text(_), rest)) => rest.split_first().is_none() && first.is_symbol(b"error"),
        _ => false,
    }
}

// What a tree says as an answer, where it is neither an error nor one of the symbols in `answer_of`.
fn other_answer(tree: Tree<'_>) -> Answer
    ensures { result ≡ view.other_answer (sexp_of tree.entry) }
{
    match tree {
        Tree::List(_) => Answer::List,
        Tree::Text(_) => Answer::Text,
        _ => Answer::Other,
    }
}

/// Whether a command with this answer, or with none, took effect.
pub(crate) fn took_effect(answer: &Option<TakenAnswer>) -> bool
    requires { AreKnown answer.now }
    ensures { result ≡ answers.is_effective_with (option_map tree_of answer.now) }
{
    match answer {
        Some(answer) => !answer.says.refuses(),
        None => true,
    }
}
