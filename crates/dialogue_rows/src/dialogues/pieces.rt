//! Dialogues whose texts come piece by piece: however both texts are cut, the lines are those of the report. This
//! file looks into no line.

ghost use Rattle.std.specs.Prelude.{◌≡◌, ◌<◌, false};
ghost use Rattle.smt_dialogue.specs.History.{History};
ghost use Rattle.smt_dialogue.specs.Session.{StandsFor, is_answers_ended, is_script_ended};

use crate::dialogues::seen::Seen;
use anyhow::{Result, bail};
use smt_dialogue::{Failed, Options, Session};
use std::alloc::{AllocError, Global};
use std::io::Write;

// The most bytes of a text that is cut at every place, and of one that is cut at some twenty places.
const EVERY: usize = 600;

const SOME: usize = 60_000;

/// Both texts of a dialogue, and its options.
#[derive(Clone, Copy)]
pub(crate) struct Dialogue<'a> {
    pub script: &'a [u8],
    pub answers: &'a [u8],
    pub options: Options,
}

/// Feeds the dialogue to sessions in pieces, and prints the first line that differs from that of the report, if
/// there is one.
pub(crate) fn print_other<W: Write>(
    alloc: Global,
    out: &mut W,
    dialogue: Dialogue,
    report: &[String],
) -> Result<()> {
    if !print_other_cut(alloc, out, dialogue, report)? {
        print_other_bytes(alloc, out, dialogue, report)?;
    }
    Ok(())
}

// The text whose piece comes first each time.
#[derive(Clone, Copy, PartialEq, Eq)]
enum First {
    Script,
    Answers,
}

// Cuts both texts at each place in turn, or at some places. Returns whether a line differed.
fn print_other_cut<W: Write>(
    alloc: Global,
    out: &mut W,
    dialogue: Dialogue,
    report: &[String],
) -> Result<bool> {
    let most = length_of(dialogue);
    let step = step_of(most);
    for place in (step / 2..most).step_by(step) {
        if print_other_at(alloc, out, dialogue, report, place)? {
            return Ok(true);
        }
    }
    Ok(false)
}

// Cuts both texts at one place. Long texts are fed only with the script first.
fn print_other_at<W: Write>(
    alloc: Global,
    out: &mut W,
    dialogue: Dialogue,
    report: &[String],
    place: usize,
) -> Result<bool> {
    for first in [First::Script, First::Answers] {
        if first == First::Script || length_of(dialogue) <= SOME {
            let seen = tell_cut(alloc, dialogue, report, place, first)?;
            if seen.is_other() {
                write!(out, "cut at {place}, {} first: ", name_of(first))?;
                seen.write(out)?;
                return Ok(true);
            }
        }
    }
    Ok(false)
}

// Feeds both texts one byte at a time. Short texts are fed with either of them first in turn.
fn print_other_bytes<W: Write>(
    alloc: Global,
    out: &mut W,
    dialogue: Dialogue,
    report: &[String],
) -> Result<()> {
    let is_short = length_of(dialogue) <= EVERY;
    for first in [First::Script, First::Answers] {
        if first == First::Script || is_short {
            let seen = tell_bytes(alloc, dialogue, report, first)?;
            if seen.is_other() {
                write!(out, "byte by byte, {} first: ", name_of(first))?;
                return Ok(seen.write(out)?);
            }
        }
    }
    Ok(())
}

// The number of bytes of the longer text.
fn length_of(dialogue: Dialogue) -> usize {
    dialogue.script.len().max(dialogue.answers.len())
}

// The distance between the places where texts of this length are cut. The longest texts are cut once.
fn step_of(most: usize) -> usize
    ensures { 0 < result }
{
    if most <= EVERY {
        1
    } else if most <= SOME {
        most / 20
    } else {
        most
    }
}

fn name_of(first: First) -> &'static str {
    match first {
        First::Script => "script",
        First::Answers => "answers",
    }
}

// Feeds each text in two pieces, cut at one place.
fn tell_cut<'a>(
    alloc: Global,
    dialogue: Dialogue,
    report: &'a [String],
    place: usize,
    first: First,
) -> Result<Seen<'a>> {
    let (script, script_rest) = split(dialogue.script, place);
    let (answers, answers_rest) = split(dialogue.answers, place);
    let mut seen = Seen::new(alloc, report);
    let mut session = Session::new(alloc, dialogue.options);
    tell_both(&mut session, &mut seen, script, answers, first)?;
    tell_both(&mut session, &mut seen, script_rest, answers_rest, first)?;
    end_both(&mut session, &mut seen, first)?;
    drop(session);
    Ok(seen)
}

// Feeds each text one byte at a time. After the end of the shorter one its pieces are empty.
fn tell_bytes<'a>(
    alloc: Global,
    dialogue: Dialogue,
    report: &'a [String],
    first: First,
) -> Result<Seen<'a>> {
    let mut seen = Seen::new(alloc, report);
    let mut session = Session::new(alloc, dialogue.options);
    tell_each(&mut session, &mut seen, dialogue, first)?;
    end_both(&mut session, &mut seen, first)?;
    drop(session);
    Ok(seen)
}

fn tell_each(session: &mut Session, seen: &mut Seen, dialogue: Dialogue, first: First) -> Result<()>
    requires stands { (h : History) × StandsFor session.old h }
    requires script { is_script_ended session.old ≡ false }
    requires answers { is_answers_ended session.old ≡ false }
    ensures stands { (h : History) × StandsFor session.new h }
    ensures script { is_script_ended session.new ≡ false }
    ensures answers { is_answers_ended session.new ≡ false }
{
    for place in 0..length_of(dialogue) {
        let script = byte_at(dialogue.script, place);
        let answers = byte_at(dialogue.answers, place);
        tell_both(session, seen, script, answers, first)?;
    }
    Ok(())
}

// The bytes before a place, and those from there on.
fn split(text: &[u8], place: usize) -> (&[u8], &[u8]) {
    text.split_at(place.min(text.len()))
}

// The byte at a place, or none after the end.
fn byte_at(text: &[u8], place: usize) -> &[u8] {
    if place < text.len() {
        &text[place..place + 1]
    } else {
        &[]
    }
}

// Feeds a piece of each text, one of them first.
fn tell_both(
    session: &mut Session,
    seen: &mut Seen,
    script: &[u8],
    answers: &[u8],
    first: First,
) -> Result<()>
    requires stands { (h : History) × StandsFor session.old h }
    requires script { is_script_ended session.old ≡ false }
    requires answers { is_answers_ended session.old ≡ false }
    ensures stands { (h : History) × StandsFor session.new h }
    ensures script { is_script_ended session.new ≡ false }
    ensures answers { is_answers_ended session.new ≡ false }
{
    match first {
        First::Script => {
            tell_script(session, seen, script)?;
            tell_answers(session, seen, answers)
        }
        First::Answers => {
            tell_answers(session, seen, answers)?;
            tell_script(session, seen, script)
        }
    }
}

fn tell_script(session: &mut Session, seen: &mut Seen, piece: &[u8]) -> Result<()>
    requires stands { (h : History) × StandsFor session.old h }
    requires script { is_script_ended session.old ≡ false }
    ensures stands { (h : History) × StandsFor session.new h }
    ensures script { is_script_ended session.new ≡ false }
    ensures answers { is_answers_ended session.new ≡ is_answers_ended session.old }
{
    let told = session.script(piece);
    see(session, seen)?;
    went(told)
}

fn tell_answers(session: &mut Session, seen: &mut Seen, piece: &[u8]) -> Result<()>
    requires stands { (h : History) × StandsFor session.old h }
    requires answers { is_answers_ended session.old ≡ false }
    ensures stands { (h : History) × StandsFor session.new h }
    ensures script { is_script_ended session.new ≡ is_script_ended session.old }
    ensures answers { is_answers_ended session.new ≡ false }
{
    let told = session.answers(piece);
    see(session, seen)?;
    went(told)
}

// Ends each text, one of them first.
fn end_both(session: &mut Session, seen: &mut Seen, first: First) -> Result<()>
    requires stands { (h : History) × StandsFor session.old h }
    requires script { is_script_ended session.old ≡ false }
    requires answers { is_answers_ended session.old ≡ false }
{
    match first {
        First::Script => {
            end_script(session, seen)?;
            end_answers(session, seen)?;
        }
        First::Answers => {
            end_answers(session, seen)?;
            end_script(session, seen)?;
        }
    }
    seen.end();
    Ok(())
}

fn end_script(session: &mut Session, seen: &mut Seen) -> Result<()>
    requires stands { (h : History) × StandsFor session.old h }
    requires script { is_script_ended session.old ≡ false }
    ensures stands { (h : History) × StandsFor session.new h }
    ensures answers { is_answers_ended session.new ≡ is_answers_ended session.old }
{
    let told = session.end_script();
    see(session, seen)?;
    went(told)
}

fn end_answers(session: &mut Session, seen: &mut Seen) -> Result<()>
    requires stands { (h : History) × StandsFor session.old h }
    requires answers { is_answers_ended session.old ≡ false }
    ensures stands { (h : History) × StandsFor session.new h }
    ensures script { is_script_ended session.new ≡ is_script_ended session.old }
{
    let told = session.end_answers();
    see(session, seen)?;
    went(told)
}

// Takes out the decided lines, and compares them.
fn see(session: &mut Session, seen: &mut Seen) -> Result<(), AllocError>
    ensures stands { (h : History) → StandsFor session.old h
        → (g : History) × StandsFor session.new g }
    ensures script { is_script_ended session.new ≡ is_script_ended session.old }
    ensures answers { is_answers_ended session.new ≡ is_answers_ended session.old }
{
    let lines = session.take_lines();
    let outcome = seen.take(lines.as_slice());
    drop(lines);
    outcome
}

// Ends the program where a session has failed: by refused memory, since no row has a text of 2^64 bytes.
fn went(told: Result<(), Failed>) -> Result<()> {
    match told {
        Ok(()) => Ok(()),
        Err(Failed::Memory) => bail!("out of memory"),
        Err(Failed::Long) => bail!("a text is too long"),
    }
}
