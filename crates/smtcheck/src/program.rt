//! The program: from the words of the command line to the exit status. This file opens no file, and knows no
//! verdict.

ghost use Rattle.std.specs.Prelude.{◌≡◌, ◌<◌, ◌-◌, ◌^◌, ◌⊎◌};
ghost use Rattle.smtcheck.specs.ExitStatus.{IsStatusOfReport};

use crate::files::{Failure, Ran, run};
use crate::inputs::STANDARD_INPUT;
use crate::room::has_room;
use smt_dialogue::RunFault;
use smtcheck_command_line::{LineFault, Settings, settings};
use std::alloc::{AllocError, Global};
use std::io::Input;
use std::rt::{Env, Files};
use std::{env, io};

/// The status where there is no report.
const NO_REPORT: u8 = 4;

/// The status of a command line that was refused or asked for help.
const REFUSED: u8 = 5;

/// Runs the program, and returns its exit status: 0 to 3 by the verdict, and 4 where there is no report. It is 5
/// where the command line was refused or asked for help, and 0 where it asked for the version. The program hints at
/// a usual mistake on standard error as the command line says; else if that is a terminal, or an explanation is
/// asked for.
pub(crate) fn run_program<R: Files + Env + Input + AllocGlobal + Print + Eprint>(
    rt: &R,
    on_terminal: bool,
) -> u8 {
    let words = match words(rt) {
        Ok(words) => words,
        Err(error) if error.kind() == io::ErrorKind::InvalidData => {
            let _ = eprintln!(rt; "error: invalid UTF-8 was detected in one or more arguments");
            return REFUSED;
        }
        Err(_) => return tell_fault(rt, RunFault::Memory),
    };
    match as_strs(rt.alloc(), words.as_slice()) {
        Ok(words) => run_words(rt, words.as_slice(), on_terminal),
        Err(_) => tell_fault(rt, RunFault::Memory),
    }
}

/// Runs the program on these words, the program's name first, and returns its exit status.
pub(crate) fn run_words<R: Files + Input + AllocGlobal + Print + Eprint>(
    rt: &R,
    words: &[&str],
    on_terminal: bool,
) -> u8 {
    match settings(rt.alloc(), words) {
        Ok(_) if !has_room(rt) => tell_fault(rt, RunFault::Memory),
        Ok(settings) => run_settings(rt, settings, on_terminal),
        Err(fault) => refuse(rt, fault),
    }
}

// Runs the program as the command line asks.
fn run_settings<R: Files + Input + AllocGlobal + Print + Eprint>(
    rt: &R,
    settings: Settings,
    on_terminal: bool,
) -> u8
    requires { settings.steps < 2 ^ 64 - 1 }
    ensures { (result ≡ 4) ⊎ IsStatusOfReport settings.entry result }
{
    let hints = settings
        .hints
        .unwrap_or(settings.explain.is_some() || on_terminal);
    match run(rt, settings, hints) {
        Ok(ran) => {
            tell_beside(rt, ran);
            ran.summary.status(settings.strict)
        }
        Err(failure) => tell_failure(rt, failure, settings),
    }
}

// Writes on standard error why there is no report, and then which text it was and what the system says of it. Returns
// the status for that.
fn tell_failure<R: Eprint>(rt: &R, failure: Failure, settings: Settings) -> u8
    ensures { result ≡ 4 }
{
    let status = tell_fault(rt, failure.fault);
    if let Some(reason) = failure.reason {
        let name = match failure.fault {
            RunFault::Script => named(settings.script),
            RunFault::Answers => named(settings.answers),
            _ => "standard output",
        };
        let _ = eprintln!(rt; "{name}: {reason}");
    }
    status
}

// What a text is called.
fn named(name: &str) -> &str {
    if name == STANDARD_INPUT {
        "standard input"
    } else {
        name
    }
}

// Writes on standard error what the report does not say: that an explanation is missing, and a hint.
fn tell_beside<R: Eprint>(rt: &R, ran: Ran) {
    if ran.unexplained {
        let _ = eprintln!(rt; "smtcheck: the explanation could not be made, or not be written");
    }
    if let Some(hint) = ran.hint {
        let text = hint.text();
        let _ = eprintln!(rt; "{text}");
    }
}

// Prints why a command line was refused, or what it asked for, and returns the exit status.
fn refuse<R: Print + Eprint>(rt: &R, fault: LineFault) -> u8 {
    let is_version = fault.asks_for_version();
    match fault {
        LineFault::Memory => tell_fault(rt, RunFault::Memory),
        LineFault::Refused(error) => {
            let _ = error.print(rt);
            if is_version { 0 } else { REFUSED }
        }
    }
}

// Writes on standard error why there is no report, and returns the status for that.
fn tell_fault<R: Eprint>(rt: &R, fault: RunFault) -> u8
    ensures { result ≡ 4 }
{
    let _ = eprintln!(rt; "{fault}");
    NO_REPORT
}

// The words of the command line, the program's name first.
fn words<R: Env + AllocGlobal>(rt: &R) -> io::Result<Vec<String>> {
    Ok(env::args(rt)?.collect(rt.alloc())?)
}

fn as_strs<'a>(alloc: Global, words: &'a [String]) -> Result<Vec<&'a str>, AllocError> {
    let mut texts = Vec::with_capacity(alloc, words.len())?;
    for word in words {
        texts.push(word.as_str())?;
    }
    Ok(texts)
}
