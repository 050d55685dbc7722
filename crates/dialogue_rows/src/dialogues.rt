//! Rows of dialogues: each with its report and the exit status, and what differs where its texts come in pieces.
//! This file looks into no report.

pub(crate) mod pieces;
mod seen;

use crate::dialogues::pieces::{Dialogue, print_other};
use anyhow::{Result, bail};
use row_texts::{Field, is_on, want_key};
use smt_dialogue::{Limit, Options, Profile, Report, validate};
use std::alloc::{AllocError, Global};
use std::io;
use std::io::Write;

/// Prints the report on a dialogue, and the exit status. Where the texts come in pieces, it prints the first line
/// that differs, if one does.
pub(crate) fn print<W: Write>(
    alloc: Global,
    out: &mut W,
    title: &Field,
    fields: &[Field],
) -> Result<()> {
    let [script, answers, print_success, rest @ ..] = fields else {
        bail!(
            "line {}: a dialogue has a script, answers and a start",
            title.line
        );
    };
    want_key(script, "script")?;
    want_key(answers, "answers")?;
    want_key(print_success, "start")?;
    let (profile, rest) = split_profile(rest)?;
    let options = Options {
        print_success: is_on(print_success)?,
        profile,
        limit: limit_of(rest)?,
    };
    print_dialogue(alloc, out, script, answers, options)
}

/// The program's limit on steps, if its command line names none.
pub(crate) fn usual_limit() -> Limit {
    Limit { steps: 10_000_000 }
}

// The profile that the first field names, and the fields after it. Without one it is `base`.
fn split_profile<'a, 'b>(fields: &'b [Field<'a>]) -> Result<(Profile, &'b [Field<'a>])> {
    match fields.split_first() {
        Some((first, rest)) if first.key == "profile" => match first.text.as_str() {
            "base" => Ok((Profile::Base, rest)),
            "wide" => Ok((Profile::Wide, rest)),
            _ => bail!("line {}: this is no profile", first.line),
        },
        _ => Ok((Profile::Base, fields)),
    }
}

// The limit on steps that a field names, or the usual one.
fn limit_of(fields: &[Field]) -> Result<Limit> {
    match fields {
        [] => Ok(usual_limit()),
        [steps] => {
            want_key(steps, "steps")?;
            match steps.text.parse::<u64>() {
                Ok(steps) if steps < u64::MAX => Ok(Limit { steps }),
                _ => bail!("line {}: no number of steps", steps.line),
            }
        }
        _ => bail!("a dialogue has no further fields"),
    }
}

fn print_dialogue<W: Write>(
    alloc: Global,
    out: &mut W,
    script: &Field,
    answers: &Field,
    options: Options,
) -> Result<()> {
    let script = script.bytes(alloc)?;
    let answers = answers.bytes(alloc)?;
    let dialogue = Dialogue {
        script: script.as_slice(),
        answers: answers.as_slice(),
        options,
    };
    print_told(alloc, out, dialogue)
}

// Prints the report on the whole texts, and the first line that differs where they come in pieces.
fn print_told<W: Write>(alloc: Global, out: &mut W, dialogue: Dialogue) -> Result<()> {
    match &validate(alloc, dialogue.script, dialogue.answers, dialogue.options) {
        Ok(report) => {
            write_report(out, report)?;
            let lines = texts_of(alloc, report)?;
            print_other(alloc, out, dialogue, lines.as_slice())
        }
        Err(_) => bail!("out of memory"),
    }
}

// The texts of the lines of a report.
fn texts_of(alloc: Global, report: &Report) -> Result<Vec<String>, AllocError> {
    let mut texts = Vec::new(alloc);
    for line in &report.lines {
        texts.push(format!(in alloc; "{line}")?)?;
    }
    Ok(texts)
}

fn write_report<W: Write>(out: &mut W, report: &Report) -> io::Result<()> {
    for line in &report.lines {
        writeln!(out, "{line}")?;
    }
    writeln!(out, "status {}", report.verdict.status())
}
