//! The report on a whole script and whole answers, for C. This file decides nothing.

ghost use Rattle.std.specs.Prelude.{◌≡◌, ◌<◌, ◌≤◌, ◌-◌, ◌^◌, ◌↔◌, IfOk, string_bytes};
ghost use Rattle.smtcheck_c.specs.Told.{IsInvalidBy, IsTelling, IsTold, IsValidBy};

use crate::options::{SmtcheckOptions, options_of};
use crate::outcome::{MEMORY, OPTIONS, number_of};
use crate::summary::{SmtcheckSummary, summary_of};
use crate::text::{put_text, text_of_lines};
use smt_dialogue::{Memory, Options, validate};
use std::alloc::Global;

/// The results of a dialogue, before C gets any of them.
#[derive(Drop)]
pub(crate) struct Telling {
    /// The number of its verdict.
    pub(crate) number: u32,
    pub(crate) summary: SmtcheckSummary,
    /// The text of its report.
    pub(crate) text: String,
}

/// Checks a solver's dialogue: the script that it read, and the answers that it printed, in order.
///
/// It returns the number of the verdict, as the program's exit status: 0 for valid, 1 for invalid, 2 for not decided,
/// 3 for refused. Then `summary` has the counts, and `wanted` the number of bytes of the report's text. `text` begins
/// with that text if it has room for all of it, and otherwise stays as it was.
///
/// It returns 4 where memory was refused, and 5 exactly where the limit of the options is 2^64 - 1. Then `summary`,
/// `text` and `wanted` stay as they were.
#[unsafe(no_mangle)]
pub extern "C" fn smtcheck_validate(
    alloc: Global,
    script: &[u8],
    answers: &[u8],
    options: &SmtcheckOptions,
    summary: &mut SmtcheckSummary,
    text: &mut [u8],
    wanted: &mut usize,
) -> u32
    ensures told { result < 4
        → IsTold options.now script.now answers.now result summary.new wanted.new text.old text.new }
    ensures valid { result ≡ 0 → IsValidBy options.now script.now answers.now }
    ensures invalid { result ≡ 1 → IsInvalidBy options.now script.now answers.now }
    ensures outcome { result ≤ 5 }
    ensures options { (result ≡ 5) ↔ (options.now.steps ≡ 2 ^ 64 - 1) }
    ensures summary { 4 ≤ result → summary.new ≡ summary.old }
    ensures text { 4 ≤ result → text.new ≡ text.old }
    ensures wanted { 4 ≤ result → wanted.new ≡ wanted.old }
{
    let Some(given) = options_of(options) else {
        return OPTIONS;
    };
    match tell(alloc, script, answers, given) {
        Ok(telling) => {
            *summary = telling.summary;
            *wanted = put_text(telling.text.as_bytes(), text);
            let number = telling.number;
            drop(telling);
            number
        }
        Err(Memory) => MEMORY,
    }
}

// Checks a dialogue, and collects the results for C.
fn tell(alloc: Global, script: &[u8], answers: &[u8], options: Options) -> Result<Telling, Memory>
    ensures telling { IfOk result (λ t.
        IsTelling options script.now answers.now t.number t.summary (string_bytes t.text)) }
    ensures below { IfOk result (λ t. t.number < 4) }
{
    let report = validate(alloc, script, answers, options)?;
    let number = number_of(report.verdict);
    let summary = summary_of(report.lines.as_slice());
    let text = text_of_lines(alloc, report.lines.as_slice());
    drop(report);
    Ok(Telling {
        number,
        summary,
        text: text?,
    })
}
