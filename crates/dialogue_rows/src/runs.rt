//! Rows of runs: a dialogue over two readers and a writer. One of them fails, at each of its calls in turn. This
//! file looks into no line.

mod devices;

use crate::dialogues::pieces::Dialogue;
use crate::dialogues::usual_limit;
use crate::runs::devices::{Calls, Narrow, Text};
use anyhow::{Result, bail};
use row_texts::{Field, is_on, want_key};
use smt_dialogue::{Options, Profile, RunFault, Summary, run, validate};
use smt_streams::Device;
use std::alloc::Global;
use std::io::Write;

// The limit on the runs of a field.
const MOST: u64 = 10_000;

// What fails in a run.
#[derive(Clone, Copy, PartialEq, Eq)]
enum Failing {
    Script,
    Answers,
    Output,
    /// A write accepts no byte.
    Stops,
}

// The outcome of a run.
#[derive(Drop)]
struct Ran {
    outcome: Result<Summary, RunFault>,
    written: Vec<u8>,
    /// Whether the run made the call that fails.
    met: bool,
    /// The number of calls to the script's reader, the answers' reader and the writer.
    calls: [u64; 3],
}

/// Prints the report on a dialogue, and its size in bytes. Each further field says what fails: at its first call in
/// one run, at its second in another, and so on, until a run makes no such call.
pub(crate) fn print<W: Write>(
    alloc: Global,
    out: &mut W,
    title: &Field,
    fields: &[Field],
) -> Result<()> {
    let [script, answers, print_success, failures @ ..] = fields else {
        bail!(
            "line {}: a run has a script, answers and a start",
            title.line
        );
    };
    want_key(script, "script")?;
    want_key(answers, "answers")?;
    want_key(print_success, "start")?;
    let options = Options {
        print_success: is_on(print_success)?,
        profile: Profile::Base,
        limit: usual_limit(),
    };
    let script = script.bytes(alloc)?;
    let answers = answers.bytes(alloc)?;
    let dialogue = Dialogue {
        script: script.as_slice(),
        answers: answers.as_slice(),
        options,
    };
    print_dialogue(alloc, out, dialogue, failures)
}

fn print_dialogue<W: Write>(
    alloc: Global,
    out: &mut W,
    dialogue: Dialogue,
    failures: &[Field],
) -> Result<()> {
    let report = report_of(alloc, dialogue)?;
    out.write_all(report.as_slice())?;
    writeln!(out, "{} bytes", report.len())?;
    for field in failures {
        print_runs(alloc, out, dialogue, report.as_slice(), field)?;
    }
    Ok(())
}

// The text of the report on a dialogue.
fn report_of(alloc: Global, dialogue: Dialogue) -> Result<Vec<u8>> {
    match &validate(alloc, dialogue.script, dialogue.answers, dialogue.options) {
        Ok(report) => {
            let mut text = Vec::new(alloc);
            for line in &report.lines {
                writeln!(text, "{line}")?;
            }
            Ok(text)
        }
        Err(_) => bail!("out of memory"),
    }
}

// Prints the outcomes of the runs in which the device of a field fails.
fn print_runs<W: Write>(
    alloc: Global,
    out: &mut W,
    dialogue: Dialogue,
    report: &[u8],
    field: &Field,
) -> Result<()> {
    let failing = failing_of(field)?;
    for number in 1..MOST {
        let ran = run_failing(alloc, dialogue, failing, number, report.len())?;
        write_ran(out, field, number, report, &ran)?;
        if !ran.met {
            return Ok(());
        }
    }
    bail!("line {}: a run makes too many calls", field.line)
}

fn failing_of(field: &Field) -> Result<Failing> {
    match (field.key, field.text.as_str()) {
        ("fails" | "counts", "script") => Ok(Failing::Script),
        ("fails" | "counts", "answers") => Ok(Failing::Answers),
        ("fails" | "counts", "output") => Ok(Failing::Output),
        ("stops", "output") => Ok(Failing::Stops),
        _ => bail!("line {}: no device of a run fails so", field.line),
    }
}

// A run in which the call of this number fails, and the writer has `room` bytes of space.
fn run_failing(
    alloc: Global,
    dialogue: Dialogue,
    failing: Failing,
    number: u64,
    room: usize,
) -> Result<Ran> {
    let mut script = Text::new(
        dialogue.script,
        calls_of(failing == Failing::Script, number),
    );
    let mut answers = Text::new(
        dialogue.answers,
        calls_of(failing == Failing::Answers, number),
    );
    let is_output = failing == Failing::Output || failing == Failing::Stops;
    let bytes = Vec::with_capacity(alloc, room)?;
    let mut out = Narrow::new(
        bytes,
        calls_of(is_output, number),
        failing == Failing::Stops,
    );
    let outcome = run_over(alloc, &mut script, &mut answers, &mut out, dialogue.options);
    let met = script.is_failed() || answers.is_failed() || out.is_failed();
    let calls = [script.made(), answers.made(), out.made()];
    Ok(Ran {
        outcome,
        written: out.into_bytes(),
        met,
        calls,
    })
}

// The calls of a device: the one of this number fails, or none does.
fn calls_of(fails: bool, number: u64) -> Calls {
    if fails {
        Calls::failing(number)
    } else {
        Calls::sound()
    }
}

fn run_over(
    alloc: Global,
    script: &mut Text,
    answers: &mut Text,
    out: &mut Narrow,
    options: Options,
) -> Result<Summary, RunFault> {
    let mut script = Device::new(script);
    let mut answers = Device::new(answers);
    let mut out = Device::new(out);
    run(alloc, &mut script, &mut answers, &mut out, &mut (), options)
}

// Writes why a run ended, and how many bytes of the report it wrote. Where memory was refused to the run, the
// program ends.
fn write_ran<W: Write>(
    out: &mut W,
    field: &Field,
    number: u64,
    report: &[u8],
    ran: &Ran,
) -> Result<()> {
    if !report.starts_with(ran.written.as_slice()) {
        bail!("what was written is no beginning of the report");
    }
    if let Err(RunFault::Memory) = &ran.outcome {
        bail!("out of memory");
    }
    let device = field.text.as_str();
    if ran.met {
        let verb = if field.key == "counts" {
            "fails"
        } else {
            field.key
        };
        write!(out, "{device}, call {number} {verb}: ")?;
    } else {
        write!(out, "{device}, no call {number}: ")?;
    }
    match &ran.outcome {
        Ok(summary) => write!(out, "status {}", summary.status(false))?,
        Err(fault) => write!(out, "{fault}")?,
    }
    write!(out, ", {} bytes", ran.written.len())?;
    if field.key == "counts" {
        let [script, answers, output] = ran.calls;
        write!(
            out,
            ", calls: script {script}, answers {answers}, output {output}"
        )?;
    }
    writeln!(out)?;
    Ok(())
}
