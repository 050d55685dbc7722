//! Usual mistakes, each found by a line of the report. This file knows no file.

use smt_dialogue::{CheckAnswer, Line};
use smt_faults::{CommandFlaw, TermFlaw, TextFlaw};

/// What a user may have done wrong, as a line of the report suggests.
#[derive(Clone, Copy, PartialEq, Eq)]
pub(crate) enum Hint {
    /// The solver prints no `success`.
    NoSuccess,
    /// The solver prints `success`.
    Success,
    /// The files are exchanged.
    Exchanged,
    /// A file is compressed or in another encoding.
    Coded,
    /// The model has items for labels or defined constants.
    Labels,
    /// The script asks for a model after `unsat`.
    ModelBehindUnsat,
    /// The other profile takes what is refused.
    Wide,
}

impl Hint {
    /// The text of the hint: what to do.
    pub(crate) fn text(self) -> &'static str {
        match self {
            Hint::NoSuccess => {
                "hint: z3, cvc5, cvc4 and bitwuzla print no `success`: add --print-success off"
            }
            Hint::Success => "hint: the solver prints `success`: leave --print-success off out",
            Hint::Exchanged =>
                "hint: are the files exchanged? SCRIPT comes first, and then ANSWERS",
            Hint::Coded => {
                "hint: a compressed file, a byte order mark and UTF-16 are no text that is read here"
            }
            Hint::Labels => {
                "hint: z3 prints labels and defined constants in its models: take --profile wide, or run z3 with model.user_functions=false"
            }
            Hint::ModelBehindUnsat => {
                "hint: some solvers print nothing for a (get-model) behind `unsat`: leave it out there"
            }
            Hint::Wide => "hint: --profile wide takes what is refused here",
        }
    }
}

/// The mistake that a line looks like; `after_unsat` says whether the line before reports an `unsat`.
pub(crate) fn hint_of(line: &Line, after_unsat: bool) -> Option<Hint> {
    match line {
        Line::UnexpectedAnswer { answer: 1, .. } => Some(Hint::NoSuccess),
        Line::CommandFault {
            command: 1,
            flaw: CommandFlaw::Form,
        } => Some(Hint::Exchanged),
        Line::TextFault {
            flaw: TextFlaw::Byte { place: 0 },
            ..
        } => Some(Hint::Coded),
        Line::ItemFault {
            flaw: TermFlaw::NotFresh,
            ..
        } => Some(Hint::Labels),
        Line::MissingAnswer { .. } if after_unsat => Some(Hint::ModelBehindUnsat),
        _ => None,
    }
}

/// The hint, if the setting for `success` and the beginnings of both texts, where they are known, agree with it. In
/// place of `NoSuccess` it may return `Success`.
pub(crate) fn confirmed(
    hint: Hint,
    script: Option<&[u8]>,
    answers: Option<&[u8]>,
    prints_success: bool,
) -> Option<Hint> {
    let holds = match hint {
        Hint::NoSuccess => {
            let begins = begins_with_success(answers);
            if !prints_success {
                return if begins { Some(Hint::Success) } else { None };
            }
            !begins
        }
        Hint::Exchanged => match (script, answers) {
            (Some(script), Some(answers)) => begins_as_answer(script) && begins_as_command(answers),
            _ => false,
        },
        Hint::Coded => is_coded(script) || is_coded(answers),
        _ => true,
    };
    if holds { Some(hint) } else { None }
}

/// Whether a line refuses something which another profile may take: a command, an answer, an item, or a deep list.
pub(crate) fn refuses(line: &Line) -> bool {
    match line {
        Line::CommandFault { .. } | Line::UnexpectedAnswer { .. } | Line::ItemFault { .. } => true,
        Line::TextFault {
            flaw: TextFlaw::Deep { .. },
            ..
        } => true,
        _ => false,
    }
}

/// Whether the report with these lines takes what a line of another report on the same texts refuses. It may refuse
/// something after it.
pub(crate) fn takes(lines: &[Line], refused: &Line) -> bool {
    match refused {
        Line::ItemFault { check, item, .. } => takes_item(lines, *check, *item),
        Line::TextFault { .. } => !has_fault(lines, None),
        _ => !has_fault(lines, command_of(refused)),
    }
}

// Whether a line reports this check, and refuses no item of its model up to this one.
fn takes_item(lines: &[Line], wanted: u64, last: u64) -> bool {
    for line in lines {
        match line {
            Line::ItemFault { check, item, .. } if *check == wanted => return *item > last,
            Line::Confirmed { check, .. }
            | Line::Lacks { check, .. }
            | Line::TooLong { check, .. }
            | Line::Refuted { check, .. }
            | Line::NotDecided { check, .. }
                if *check == wanted => {
                return true;
            }
            _ => {}
        }
    }
    false
}

// Whether a line reports a fault that is not at a later command than this one.
fn has_fault(lines: &[Line], last: Option<u64>) -> bool {
    for line in lines {
        if line.is_fault() {
            return match (command_of(line), last) {
                (Some(command), Some(last)) => command <= last,
                _ => true,
            };
        }
    }
    false
}

// The command that a fault stands at.
fn command_of(line: &Line) -> Option<u64> {
    match line {
        Line::CommandFault { command, .. } | Line::UnexpectedAnswer { command, .. } => {
            Some(*command)
        }
        Line::MissingAnswer { command } => Some(*command),
        _ => None,
    }
}

// Whether a text begins with a byte that can begin no text, or its beginning is not known.
fn is_coded(text: Option<&[u8]>) -> bool {
    match text {
        Some(text) => match text.first() {
            Some(byte) => !matches!(*byte, b' '..=b'~' | b'\t' | b'\n' | b'\r'),
            None => false,
        },
        None => true,
    }
}

fn begins_with_success(answers: Option<&[u8]>) -> bool {
    match answers {
        Some(answers) => behind_gaps(answers).starts_with(b"success"),
        None => false,
    }
}

/// Whether a line reports a check answered by `unsat`.
pub(crate) fn is_unsat(line: &Line) -> bool {
    match line {
        Line::Unchecked {
            answer: CheckAnswer::Unsat,
            ..
        } => true,
        _ => false,
    }
}

fn begins_as_answer(text: &[u8]) -> bool {
    let text = behind_gaps(text);
    for word in [
        b"sat".as_slice(),
        b"unsat",
        b"unknown",
        b"success",
        b"unsupported",
        b"(error",
        b"((",
        b"(model",
    ] {
        if text.starts_with(word) {
            return true;
        }
    }
    false
}

fn begins_as_command(text: &[u8]) -> bool {
    let text = behind_gaps(text);
    for word in [
        b"(set-".as_slice(),
        b"(declare-",
        b"(define-",
        b"(assert",
        b"(check-sat",
        b"(push",
        b"(echo",
        b"(get-",
        b"(reset",
    ] {
        if text.starts_with(word) {
            return true;
        }
    }
    false
}

// The text after leading white space and comments.
fn behind_gaps(text: &[u8]) -> &[u8] {
    let mut left = text;
    let mut comment = false;
    for _ in 0..text.len() {
        let Some((first, rest)) = left.split_first() else {
            break;
        };
        match *first {
            b'\n' | b'\r' => comment = false,
            b' ' | b'\t' => {}
            b';' => comment = true,
            _ if comment => {}
            _ => return left,
        }
        left = rest;
    }
    left
}
