//! Rows of sessions: both texts come piece by piece, and a row asks in places for the lines decided so far. This
//! file looks into no line.

ghost use Rattle.std.specs.Prelude.{◌≡◌, false, IfOk};
ghost use Rattle.smt_dialogue.specs.History.{History};
ghost use Rattle.smt_dialogue.specs.Session.{StandsFor, is_answers_ended, is_script_ended};

use crate::dialogues::usual_limit;
use anyhow::{Result, bail};
use row_texts::{Field, is_on, want_key};
use smt_dialogue::{Failed, Line, Options, Profile, Session};
use std::alloc::Global;
use std::io;
use std::io::Write;

// Which of the two texts has ended.
#[derive(Clone, Copy)]
struct Ended {
    script: bool,
    answers: bool,
}

/// Prints what a session is fed, in order, and the decided lines where a field asks for them.
pub(crate) fn print<W: Write>(
    alloc: Global,
    out: &mut W,
    title: &Field,
    fields: &[Field],
) -> Result<()> {
    let Some((start, fields)) = fields.split_first() else {
        bail!("line {}: a session has a start", title.line);
    };
    want_key(start, "start")?;
    let options = Options {
        print_success: is_on(start)?,
        profile: Profile::Base,
        limit: usual_limit(),
    };
    let mut session = Session::new(alloc, options);
    let outcome = print_fields(alloc, out, &mut session, fields);
    drop(session);
    outcome
}

// Feeds a new session what each field says.
fn print_fields<W: Write>(
    alloc: Global,
    out: &mut W,
    session: &mut Session,
    fields: &[Field],
) -> Result<()>
    requires stands { (h : History) × StandsFor session.old h }
    requires script { is_script_ended session.old ≡ false }
    requires answers { is_answers_ended session.old ≡ false }
{
    let mut ended = Ended {
        script: false,
        answers: false,
    };
    for field in fields {
        ended = print_field(alloc, out, session, ended, field)?;
    }
    Ok(())
}

fn print_field<W: Write>(
    alloc: Global,
    out: &mut W,
    session: &mut Session,
    ended: Ended,
    field: &Field,
) -> Result<Ended>
    requires stands { (h : History) × StandsFor session.old h }
    requires script { is_script_ended session.old ≡ ended.script }
    requires answers { is_answers_ended session.old ≡ ended.answers }
    ensures stands { IfOk result (λ _. (h : History) × StandsFor session.new h) }
    ensures script { IfOk result (λ behind. is_script_ended session.new ≡ behind.script) }
    ensures answers { IfOk result (λ behind. is_answers_ended session.new ≡ behind.answers) }
{
    match field.key {
        "script" if !ended.script => {
            tell_script(alloc, out, session, field)?;
            Ok(ended)
        }
        "answers" if !ended.answers => {
            tell_answers(alloc, out, session, field)?;
            Ok(ended)
        }
        "end" => tell_end(out, session, ended, field),
        "lines" => {
            print_lines(out, session)?;
            Ok(ended)
        }
        _ => bail!(
            "line {}: no field of a session, or a text that has ended",
            field.line
        ),
    }
}

fn tell_script<W: Write>(
    alloc: Global,
    out: &mut W,
    session: &mut Session,
    field: &Field,
) -> Result<()>
    requires stands { (h : History) × StandsFor session.old h }
    requires script { is_script_ended session.old ≡ false }
    ensures stands { IfOk result (λ _. (h : History) × StandsFor session.new h) }
    ensures script { IfOk result (λ _. is_script_ended session.new ≡ false) }
    ensures answers { IfOk result
        (λ _. is_answers_ended session.new ≡ is_answers_ended session.old) }
{
    let piece = field.bytes(alloc)?;
    writeln!(out, "script {}", field.text)?;
    went(out, session.script(piece.as_slice()))
}

fn tell_answers<W: Write>(
    alloc: Global,
    out: &mut W,
    session: &mut Session,
    field: &Field,
) -> Result<()>
    requires stands { (h : History) × StandsFor session.old h }
    requires answers { is_answers_ended session.old ≡ false }
    ensures stands { IfOk result (λ _. (h : History) × StandsFor session.new h) }
    ensures script { IfOk result
        (λ _. is_script_ended session.new ≡ is_script_ended session.old) }
    ensures answers { IfOk result (λ _. is_answers_ended session.new ≡ false) }
{
    let piece = field.bytes(alloc)?;
    writeln!(out, "answers {}", field.text)?;
    went(out, session.answers(piece.as_slice()))
}

// Ends the text that a field names.
fn tell_end<W: Write>(
    out: &mut W,
    session: &mut Session,
    ended: Ended,
    field: &Field,
) -> Result<Ended>
    requires stands { (h : History) × StandsFor session.old h }
    requires script { is_script_ended session.old ≡ ended.script }
    requires answers { is_answers_ended session.old ≡ ended.answers }
    ensures stands { IfOk result (λ _. (h : History) × StandsFor session.new h) }
    ensures script { IfOk result (λ behind. is_script_ended session.new ≡ behind.script) }
    ensures answers { IfOk result (λ behind. is_answers_ended session.new ≡ behind.answers) }
{
    writeln!(out, "end {}", field.text)?;
    match field.text.as_str() {
        "script" if !ended.script => {
            went(out, session.end_script())?;
            Ok(Ended {
                script: true,
                answers: ended.answers,
            })
        }
        "answers" if !ended.answers => {
            went(out, session.end_answers())?;
            Ok(Ended {
                script: ended.script,
                answers: true,
            })
        }
        _ => bail!(
            "line {}: the end is that of `script` or of `answers`, once",
            field.line
        ),
    }
}

// Prints that a session has failed, if it has. A failed session returns the same failure ever after.
fn went<W: Write>(out: &mut W, told: Result<(), Failed>) -> Result<()> {
    match told {
        Ok(()) => {}
        Err(Failed::Memory) => writeln!(out, "=> out of memory")?,
        Err(Failed::Long) => writeln!(out, "=> too long")?,
    }
    Ok(())
}

// Prints the decided lines that were not yet returned, or `none`.
fn print_lines<W: Write>(out: &mut W, session: &mut Session) -> io::Result<()>
    ensures stands { (h : History) → StandsFor session.old h
        → (g : History) × StandsFor session.new g }
    ensures script { is_script_ended session.new ≡ is_script_ended session.old }
    ensures answers { is_answers_ended session.new ≡ is_answers_ended session.old }
{
    let lines = session.take_lines();
    let outcome = write_lines(out, lines.as_slice());
    drop(lines);
    outcome
}

fn write_lines<W: Write>(out: &mut W, lines: &[Line]) -> io::Result<()> {
    if lines.is_empty() {
        return writeln!(out, "=> none");
    }
    for line in lines {
        writeln!(out, "=> {line}")?;
    }
    Ok(())
}
