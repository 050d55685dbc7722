//! The program's work on files. This file knows no word of the command line, and judges nothing.

ghost use Rattle.std.specs.Prelude.{◌<◌, ◌-◌, ◌^◌, None, IfOk};
ghost use Rattle.smtcheck.specs.ExitStatus.{IsSummaryOn};

use crate::hints::{Hint, confirmed, takes};
use crate::inputs::{Noted, STANDARD_INPUT, closed_input, open};
use crate::line_notes::LineNotes;
use crate::recorded::Recorded;
use smt_dialogue::{Limit, Line, Options, Profile, RunFault, Summary, validate};
use smt_explain::{Form as WrittenForm, Memory, Texts, explain};
use smt_streams::{Device, Source, put_all};
use smtcheck_command_line::{Form, Settings};
use std::alloc::Global;
use std::io::{Input, Read, Write};
use std::rt::Files;
use std::{fs, io};

/// The most bytes of a file that are read for a hint.
const BEGINNING: usize = 4096;

/// The outcome of a run.
#[derive(Clone, Copy)]
pub(crate) struct Ran {
    pub(crate) summary: Summary,
    /// The usual mistake that a line of the report looks like.
    pub(crate) hint: Option<Hint>,
    /// The first line that refuses something which another profile may take.
    refused: Option<Line>,
    /// Whether the user asked for an explanation that could not be made or written.
    pub(crate) unexplained: bool,
}

/// Why there is no summary.
#[derive(Clone, Copy)]
pub(crate) struct Failure {
    pub(crate) fault: RunFault,
    /// Why a text could not be opened or read, or a line not be written, where the system told.
    pub(crate) reason: Option<io::Error>,
}

/// Checks the dialogue in two texts. It prints the lines of the report as `smt_dialogue::run` puts them, and then
/// the explanation, if `settings` ask for one; as JSON or SARIF the explanation alone. It reads both files again for a
/// hint only where `hints` says so. A file that can't be opened is `RunFault::Script` or `RunFault::Answers`; so are
/// answers on standard input where the script is there.
pub(crate) fn run<R: Files + Input + AllocGlobal + Print>(
    rt: &R,
    settings: Settings,
    hints: bool,
) -> Result<Ran, Failure>
    requires { settings.steps < 2 ^ 64 - 1 }
    ensures { IfOk result (λ ran. IsSummaryOn settings.entry None None ran.summary) }
{
    let closed = if settings.script == STANDARD_INPUT || settings.answers == STANDARD_INPUT {
        closed_input(rt)
    } else {
        None
    };
    let script = match open(rt, settings.script, closed) {
        Ok(script) => Noted::new(script),
        Err(error) => return Err(failed(RunFault::Script, error)),
    };
    if settings.script == STANDARD_INPUT && settings.answers == STANDARD_INPUT {
        return Err(failed(
            RunFault::Answers,
            io::Error::other("standard input is the script"),
        ));
    }
    let answers = match open(rt, settings.answers, closed) {
        Ok(answers) => Noted::new(answers),
        Err(error) => return Err(failed(RunFault::Answers, error)),
    };
    let mut ran = run_noted(rt, script, answers, settings)?;
    ran.hint = if hints {
        hint_for(rt, ran, settings)
    } else {
        None
    };
    Ok(ran)
}

// Checks the dialogue in two open texts, and says why where it can't.
fn run_noted<R: AllocGlobal + Print, S: Read + Drop, A: Read + Drop>(
    rt: &R,
    script: Noted<S>,
    answers: Noted<A>,
    settings: Settings,
) -> Result<Ran, Failure>
    requires { settings.steps < 2 ^ 64 - 1 }
    ensures { IfOk result (λ ran. IsSummaryOn settings.entry None None ran.summary) }
{
    let mut script = script;
    let mut answers = answers;
    let mut out = Noted::new(io::writer(rt));
    let mut told = Noted::new(io::writer(rt));
    match run_in_form(rt, &mut script, &mut answers, &mut out, &mut told, settings) {
        Ok(ran) => Ok(ran),
        Err(fault) => Err(Failure {
            fault,
            reason: match fault {
                RunFault::Script => script.failure(),
                RunFault::Answers => answers.failure(),
                RunFault::Output => out.failure().or(told.failure()),
                RunFault::Memory | RunFault::Long => None,
            },
        }),
    }
}

fn failed(fault: RunFault, error: io::Error) -> Failure {
    Failure {
        fault,
        reason: Some(error),
    }
}

// The hint to the usual mistake that a line looks like, if the files agree with it, or else to the other profile.
fn hint_for<R: Files + AllocGlobal>(rt: &R, ran: Ran, settings: Settings) -> Option<Hint> {
    if let Some(hint) = ran.hint {
        let found = usual_hint(rt, hint, settings);
        if found.is_some() {
            return found;
        }
    }
    wide_hint(rt, &ran.refused?, settings)
}

// The hint, if the profile and the beginnings of both files agree with it.
fn usual_hint<R: Files + AllocGlobal>(rt: &R, hint: Hint, settings: Settings) -> Option<Hint> {
    if hint == Hint::Labels && matches!(settings.profile, Profile::Wide) {
        return None;
    }
    let script = beginning(rt, settings.script);
    let answers = beginning(rt, settings.answers);
    confirmed(
        hint,
        script.as_deref(),
        answers.as_deref(),
        settings.print_success,
    )
}

// The hint to the other profile, if it takes what a line of the report refuses.
fn wide_hint<R: Files + AllocGlobal>(rt: &R, refused: &Line, settings: Settings) -> Option<Hint> {
    if matches!(settings.profile, Profile::Wide)
        || !is_file(rt, settings.script)
        || !is_file(rt, settings.answers)
    {
        return None;
    }
    let script = fs::read(rt, settings.script).ok()?;
    let answers = fs::read(rt, settings.answers).ok()?;
    let options = Options {
        print_success: settings.print_success,
        profile: Profile::Wide,
        // No model is evaluated.
        limit: Limit { steps: 0 },
    };
    let report = validate(rt.alloc(), script.as_slice(), answers.as_slice(), options).ok()?;
    if takes(report.lines.as_slice(), refused) {
        Some(Hint::Wide)
    } else {
        None
    }
}

// Whether a text is a regular file: the bytes of a pipe and of standard input are gone once they are read.
fn is_file<R: Files>(rt: &R, name: &str) -> bool {
    match fs::metadata(rt, name) {
        Ok(found) => name != STANDARD_INPUT && found.is_file(),
        Err(_) => false,
    }
}

// The beginning of a regular file.
fn beginning<R: Files + AllocGlobal>(rt: &R, name: &str) -> Option<Vec<u8>> {
    if !is_file(rt, name) {
        return None;
    }
    let file = fs::open(rt, name).ok()?;
    let mut block = [0u8; BEGINNING];
    let count = Device::new(file).pull(&mut block).ok()?;
    Vec::from_slice(rt.alloc(), &block[..count.min(BEGINNING)]).ok()
}

// Checks the dialogue in two open texts. Where the explanation is for programs, it stands in place of the report.
fn run_in_form<R: AllocGlobal, S: Read, A: Read, W: Write, T: Write>(
    rt: &R,
    script: &mut S,
    answers: &mut A,
    out: &mut W,
    told: &mut T,
    settings: Settings,
) -> Result<Ran, RunFault>
    requires { settings.steps < 2 ^ 64 - 1 }
    ensures { IfOk result (λ ran.
        IsSummaryOn settings.entry (S.remaining script.old) (A.remaining answers.old) ran.summary) }
{
    match settings.explain {
        Some(Form::Json | Form::Sarif) => {
            run_open(rt, script, answers, &mut io::sink(), told, settings)
        }
        _ => run_open(rt, script, answers, out, told, settings),
    }
}

// Checks the dialogue in two open texts. Lines of the report go to `out`, and then the explanation to `told`. Without
// the report an explanation that can't be made or written is a fault of the run.
fn run_open<R: AllocGlobal, S: Read, A: Read, W: Write, T: Write>(
    rt: &R,
    script: &mut S,
    answers: &mut A,
    out: &mut W,
    told: &mut T,
    settings: Settings,
) -> Result<Ran, RunFault>
    requires { settings.steps < 2 ^ 64 - 1 }
    ensures { IfOk result (λ ran.
        IsSummaryOn settings.entry (S.remaining script.old) (A.remaining answers.old) ran.summary) }
{
    let options = Options {
        print_success: settings.print_success,
        profile: settings.profile,
        limit: Limit {
            steps: settings.steps,
        },
    };
    let mut script = Recorded::new(rt.alloc(), Device::new(script), settings.explain.is_some());
    let mut answers = Recorded::new(rt.alloc(), Device::new(answers), settings.explain.is_some());
    let mut out = Device::new(out);
    let mut notes = LineNotes::new(rt.alloc(), settings.explain.is_some());
    let summary = smt_dialogue::run(
        rt.alloc(),
        &mut script,
        &mut answers,
        &mut out,
        &mut notes,
        options,
    )?;
    let unexplained = tell(
        rt.alloc(),
        told,
        script.bytes(),
        answers.bytes(),
        notes.lines(),
        settings,
    )?;
    Ok(Ran {
        summary,
        hint: notes.hint(),
        refused: notes.refused(),
        unexplained,
    })
}

// Writes the explanation of a dialogue, if `settings` ask for one. Returns whether it could not be made or written;
// where it stands alone that is a fault of the run.
fn tell<W: Write>(
    alloc: Global,
    out: &mut W,
    script: Option<&[u8]>,
    answers: Option<&[u8]>,
    lines: Option<&[Line]>,
    settings: Settings,
) -> Result<bool, RunFault> {
    let Some(form) = settings.explain else {
        return Ok(false);
    };
    let fault = match explanation(alloc, script, answers, lines, settings, form) {
        Ok(text) => match put_all(&mut Device::new(out), text.as_slice()) {
            Ok(()) => return Ok(false),
            Err(_) => RunFault::Output,
        },
        Err(Memory) => RunFault::Memory,
    };
    match form {
        Form::Text => Ok(true),
        Form::Json | Form::Sarif => Err(fault),
    }
}

// The explanation of a dialogue; the error is also that the texts or the lines were not kept.
fn explanation(
    alloc: Global,
    script: Option<&[u8]>,
    answers: Option<&[u8]>,
    lines: Option<&[Line]>,
    settings: Settings,
    form: Form,
) -> Result<Vec<u8>, Memory> {
    let (Some(script), Some(answers), Some(lines)) = (script, answers, lines) else {
        return Err(Memory);
    };
    let texts = Texts {
        script,
        answers,
        script_name: settings.script,
        answers_name: settings.answers,
        prints_success: settings.print_success,
        profile: settings.profile,
        steps: settings.steps,
    };
    let form = match form {
        Form::Text => WrittenForm::Text,
        Form::Json => WrittenForm::Json,
        Form::Sarif => WrittenForm::Sarif,
    };
    explain(alloc, texts, lines, form)
}
