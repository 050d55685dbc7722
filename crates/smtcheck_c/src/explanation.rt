//! The explanation of a report, for C. This file decides nothing.

ghost use Rattle.std.specs.Prelude.{◌≡◌, ◌<◌, ◌≤◌, ◌-◌, ◌^◌, ◌↔◌, ◌⊎◌, IfOk, IfSome, MatchOption};
ghost use Rattle.smtcheck_c.specs.Given.{number_of_form};
ghost use Rattle.smtcheck_c.specs.Told.{IsExplained, IsNumbered};

use crate::options::{SmtcheckOptions, options_of};
use crate::outcome::{MEMORY, OPTIONS, number_of};
use crate::text::put_text;
use smt_dialogue::{Memory, Options, validate};
use smt_explain::{Form, Texts, explain};
use std::alloc::Global;

/// The number of a verdict, and the text of its explanation.
#[derive(Drop)]
pub(crate) struct Explained {
    pub(crate) number: u32,
    pub(crate) text: Vec<u8>,
}

/// Explains the report on a solver's dialogue, as the program does with `--explain`. The explanation says where each
/// check that is not confirmed is, where the fault is, and why. It calls the texts `script` and `answers`. `form` is 0
/// for lines of text, 1 for an object of JSON on each line, and 2 for a document of SARIF 2.1.0.
///
/// It returns the number of the verdict, from 0 to 3, as `smtcheck_validate` does. Then `wanted` has the number of
/// bytes of the explanation. `text` begins with it if it has room for all of it, and otherwise stays as it was.
///
/// It returns 4 where memory was refused, and 5 exactly where the limit of the options is 2^64 - 1 or the form is over
/// 2. Then `text` and `wanted` stay as they were.
#[unsafe(no_mangle)]
pub extern "C" fn smtcheck_explain(
    alloc: Global,
    script: &[u8],
    answers: &[u8],
    options: &SmtcheckOptions,
    form: u32,
    text: &mut [u8],
    wanted: &mut usize,
) -> u32
    ensures told { result < 4
        → IsExplained options.now script.now answers.now result wanted.new text.old text.new }
    ensures outcome { result ≤ 5 }
    ensures options { (result ≡ 5) ↔ ((options.now.steps ≡ 2 ^ 64 - 1) ⊎ (3 ≤ form)) }
    ensures text { 4 ≤ result → text.new ≡ text.old }
    ensures wanted { 4 ≤ result → wanted.new ≡ wanted.old }
{
    let Some(given) = options_of(options) else {
        return OPTIONS;
    };
    let Some(form) = form_of(form) else {
        return OPTIONS;
    };
    match tell_why(alloc, script, answers, given, form) {
        Ok(explained) => {
            *wanted = put_text(explained.text.as_slice(), text);
            let number = explained.number;
            drop(explained);
            number
        }
        Err(Memory) => MEMORY,
    }
}

// The form of this number; `None` where there is none.
fn form_of(number: u32) -> Option<Form>
    ensures known { MatchOption result (3 ≤ number) (λ _. number < 3) }
    ensures form { IfSome result (λ form. number_of_form form ≡ number) }
{
    match number {
        0 => Some(Form::Text),
        1 => Some(Form::Json),
        2 => Some(Form::Sarif),
        _ => None,
    }
}

// Checks a dialogue, and explains its report in this form. Returns the number of the verdict and the explanation.
fn tell_why(
    alloc: Global,
    script: &[u8],
    answers: &[u8],
    options: Options,
    form: Form,
) -> Result<Explained, Memory>
    ensures numbered { IfOk result (λ e. IsNumbered options script.now answers.now e.number) }
    ensures below { IfOk result (λ e. e.number < 4) }
{
    let report = validate(alloc, script, answers, options)?;
    let number = number_of(report.verdict);
    let texts = Texts {
        script,
        answers,
        script_name: "script",
        answers_name: "answers",
        prints_success: options.print_success,
        profile: options.profile,
        steps: options.limit.steps,
    };
    let text = explain(alloc, texts, report.lines.as_slice(), form);
    drop(report);
    Ok(Explained {
        number,
        text: text?,
    })
}
