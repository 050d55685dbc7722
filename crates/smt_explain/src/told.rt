//! The explanation of a report, line by line. This file finds no line itself: it is given the lines.

ghost use Rattle.std.specs.Prelude.{◌≡◌, ◌≤◌, ◌+◌, ◌*◌, IfOk, length, true};
ghost use Rattle.smt_remarks.specs.Lines.{count_in, is_lined};
ghost use Rattle.smt_explain.specs.InForce.{IsInForce};

use crate::claims::{Claimed, LEAST, tell_claim, tell_cost, tell_model};
use crate::dialogue::{Dialogue, Texts, tell_answer, tell_command};
use crate::faults::{tell_command_fault, tell_pairing, tell_text_fault};
use crate::items::tell_item_fault;
use smt_faults::Memory;
use smt_reasons::Known;
use smt_remarks::{Form, Page};
use smt_report::{Line, Verdict};
use smt_text::Span;
use std::alloc::Global;

/// Explains the lines of a report on a dialogue: each check that is not confirmed, and the fault. As text, each line
/// has at most 200 bytes of printable ASCII before its line feed, and for each line of the report there are at most 200
/// such lines. As JSON, each line of the report has an object, the verdict too. It refuses no text and no line: the
/// only error is `Memory`.
pub fn explain(
    alloc: Global,
    texts: Texts<'_>,
    lines: &[Line],
    form: Form,
) -> Result<Vec<u8>, Memory>
    ensures lines { IfOk result (λ text. is_lined form text.items ≡ true) }
    ensures few { IfOk result (λ text. count_in form text.items ≤ 200 * length lines.now) }
{
    let mut out = Vec::new(alloc);
    let mut page = Page::new(alloc, texts.script_file(), texts.answers_file());
    let mut dialogue = Dialogue::new(alloc, texts);
    form.begin(&mut out)?;
    tell_all(&mut page, &mut dialogue, lines, form, &mut out)?;
    form.end(&mut out)?;
    Ok(out)
}

// Explains lines, each at the command that decides it, and the others at the end of the dialogue.
fn tell_all(
    page: &mut Page<'_>,
    dialogue: &mut Dialogue<'_>,
    lines: &[Line],
    form: Form,
    out: &mut Vec<u8>,
) -> Result<(), Memory>
    requires told { is_lined form out.old.items ≡ true }
    requires in_force { IsInForce dialogue.old.replay }
    ensures lines { is_lined form out.new.items ≡ true }
    ensures few { IfOk result
        (λ _. count_in form out.new.items ≤ count_in form out.old.items + 200 * length lines.now) }
{
    let mut budget = LEAST
        .saturating_add(dialogue.texts.script.len() as u64)
        .saturating_add(dialogue.texts.answers.len() as u64);
    let mut left = lines;
    while is_any_told(left) && dialogue.advance()? {
        let number = dialogue.number();
        let told = tell_due(page, dialogue, left, number, &mut budget, form, out)?;
        left = left.get(told..).unwrap_or(&[]);
    }
    let next = dialogue.replay.next_answer()?;
    tell_rest(page, dialogue, left, next, form, out)
}

// Explains the first lines, up to one that a command behind the one of this number decides. Returns how many these are.
fn tell_due(
    page: &mut Page<'_>,
    dialogue: &Dialogue<'_>,
    lines: &[Line],
    number: u64,
    budget: &mut u64,
    form: Form,
    out: &mut Vec<u8>,
) -> Result<usize, Memory>
    requires told { is_lined form out.old.items ≡ true }
    requires in_force { IsInForce dialogue.now.replay }
    ensures lines { is_lined form out.new.items ≡ true }
    ensures few { IfOk result (λ told. count_in form out.new.items ≤ count_in form out.old.items + 200 * told) }
    ensures most { IfOk result (λ told. told ≤ length lines.now) }
{
    for (place, line) in lines.iter().enumerate() {
        if !is_due(line, number) {
            return Ok(place);
        }
        tell_line(page, dialogue, line, budget);
        page.finish(out, check_of(line), outcome_of(line), form)?;
    }
    Ok(lines.len())
}

// Explains lines that the end of the dialogue decides. `next` is where an answer stands that no command took.
fn tell_rest(
    page: &mut Page<'_>,
    dialogue: &Dialogue<'_>,
    lines: &[Line],
    next: Option<Span>,
    form: Form,
    out: &mut Vec<u8>,
) -> Result<(), Memory>
    requires { is_lined form out.old.items ≡ true }
    ensures lines { is_lined form out.new.items ≡ true }
    ensures few { count_in form out.new.items ≤ count_in form out.old.items + 200 * length lines.now }
{
    for line in lines {
        tell_end(page, dialogue, line, next);
        page.finish(out, check_of(line), outcome_of(line), form)?;
    }
    Ok(())
}

// Whether lines are left for which there is anything to tell.
fn is_any_told(lines: &[Line]) -> bool {
    lines.iter().any(|line| !matches!(line, Line::Confirmed { .. } | Line::Verdict { .. }))
}

// Whether a line is explained at the command of this number, or has no explanation.
fn is_due(line: &Line, number: u64) -> bool {
    match *line {
        Line::Confirmed { .. } | Line::Verdict { .. } => true,
        Line::Unchecked { command, .. }
        | Line::NoModel { command, .. }
        | Line::CommandFault { command, .. } => command <= number,
        Line::ItemFault { model, .. }
        | Line::Lacks { model, .. }
        | Line::TooLong { model, .. }
        | Line::Refuted { model, .. }
        | Line::NotDecided { model, .. } => model <= number,
        Line::MissingAnswer { .. }
        | Line::UnexpectedAnswer { .. }
        | Line::ExtraAnswer { .. }
        | Line::TextFault { .. } => false,
    }
}

// The check of a line.
fn check_of(line: &Line) -> Option<u64> {
    match *line {
        Line::Unchecked { check, .. }
        | Line::Confirmed { check, .. }
        | Line::NoModel { check, .. }
        | Line::ItemFault { check, .. }
        | Line::Lacks { check, .. }
        | Line::TooLong { check, .. }
        | Line::Refuted { check, .. }
        | Line::NotDecided { check, .. } => Some(check),
        _ => None,
    }
}

// What a line says, in a word; of the last line the verdict.
fn outcome_of(line: &Line) -> &'static str {
    match *line {
        Line::Unchecked { .. } => "unchecked",
        Line::Confirmed { .. } => "confirmed",
        Line::NoModel { .. } => "no-model",
        Line::ItemFault { .. } => "item-fault",
        Line::Lacks { .. } => "lacks",
        Line::TooLong { .. } => "too-long",
        Line::Refuted { .. } => "refuted",
        Line::NotDecided { .. } => "not-decided",
        Line::TextFault { .. } => "text-fault",
        Line::CommandFault { .. } => "command-fault",
        Line::MissingAnswer { .. } => "missing-answer",
        Line::UnexpectedAnswer { .. } => "unexpected-answer",
        Line::ExtraAnswer { .. } => "extra-answer",
        Line::Verdict { verdict, .. } => verdict_word(verdict),
    }
}

fn verdict_word(verdict: Verdict) -> &'static str {
    match verdict {
        Verdict::Valid => "valid",
        Verdict::Invalid => "invalid",
        Verdict::NotDecided => "not-decided",
        Verdict::Refused => "refused",
    }
}

// Explains a line at the command that decides it.
fn tell_line(page: &mut Page<'_>, dialogue: &Dialogue<'_>, line: &Line, budget: &mut u64)
    requires { IsInForce dialogue.now.replay }
{
    match *line {
        Line::CommandFault { command, flaw } => {
            tell_command_fault(page, dialogue, command, flaw)
        }
        Line::Unchecked { check, command, .. }
        | Line::NoModel { check, command }
        | Line::ItemFault { check, command, .. }
        | Line::Lacks { check, command, .. }
        | Line::TooLong { check, command, .. }
        | Line::Refuted { check, command, .. }
        | Line::NotDecided { check, command, .. } => {
            tell_command(page, dialogue, "check", command);
            page.set_number(check);
            tell_check(page, dialogue, line, budget)
        }
        _ => {}
    }
}

// Writes why a check is not confirmed.
fn tell_check(page: &mut Page<'_>, dialogue: &Dialogue<'_>, line: &Line, budget: &mut u64)
    requires { IsInForce dialogue.now.replay }
{
    match *line {
        Line::Unchecked { .. } => {
            if let Some((_, span)) = dialogue.replay.answer() {
                tell_answer(page, "answer", span);
            }
        }
        Line::NoModel { .. } => {
            page.begin("no model");
            page.put(b"no (get-model) was answered by a model before the next check or change")
        }
        Line::ItemFault { item, flaw, .. } => tell_item_fault(page, dialogue, item, flaw),
        Line::Lacks { declaration, .. } => {
            tell_command(page, dialogue, "lacks", declaration);
            tell_model(page, dialogue)
        }
        Line::TooLong { .. } => {
            tell_cost(page, dialogue);
            tell_model(page, dialogue)
        }
        Line::Refuted { command, claim, .. } => {
            let claimed = Claimed {
                check: command,
                claim,
                value: Known::False,
            };
            tell_claim(page, dialogue, claimed, budget)
        }
        Line::NotDecided { command, claim, .. } => {
            let claimed = Claimed {
                check: command,
                claim,
                value: Known::Open,
            };
            tell_claim(page, dialogue, claimed, budget)
        }
        _ => {}
    }
}

// Explains a line that the end of the dialogue decides. `next` is where an answer stands that no command took.
fn tell_end(page: &mut Page<'_>, dialogue: &Dialogue<'_>, line: &Line, next: Option<Span>) {
    match *line {
        Line::TextFault { side, flaw } => {
            tell_text_fault(page, dialogue.texts.profile, side, flaw)
        }
        _ => tell_pairing(page, dialogue, line, next),
    }
}
