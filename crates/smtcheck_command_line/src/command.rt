//! The words that a command line accepts, the texts of help on them, and the reading of the words. This file opens
//! no file, and prints nothing.

ghost use Rattle.std.specs.Prelude.{◌≡◌, ◌<◌, ◌-◌, ◌^◌, IfErr, IfOk, None, [], true, false};
ghost use Rattle.clap.specs.Walk.{texts};
ghost use Rattle.clap.specs.Words.{IsPlainArg, app_of, first_value, found_of, rule_of, takes};
ghost use Rattle.smtcheck_command_line.specs.Settings.{AllPlaces, AreSettings, HasSteps, IsFaultOf, NeedsFiles};
ghost use Rattle.smtcheck_command_line.specs.Settings.{OfCommand, Places, TakesOptions, explain_rule, file_rule};
ghost use Rattle.smtcheck_command_line.specs.Settings.{flag_rule, form_of, gives_form, has_form, hints_rule, is_given};
ghost use Rattle.smtcheck_command_line.specs.Settings.{prints_success, profile_named, profile_rule, profile_taken};
ghost use Rattle.smtcheck_command_line.specs.Settings.{smtcheck_app, solver_of, solver_rule, steps_rule, success_rule};
ghost use Rattle.smtcheck_command_line.specs.Settings.{switch_of, text_of, word_rule};

use crate::arguments::{Form, LineFault, Settings, Solver};
use clap::builder::ValueParser;
use clap::error::ErrorKind;
use clap::{Arg, ArgAction, ArgMatches, Command};
use smt_theory::Profile;
use std::alloc::{AllocError, Global};

/// The version of the program and the kit that proves it, which `--version` prints after the program's name.
const VERSION: &str = "0.13.1 (rattle-kit-13f logic dac8208d650f15bf)";

const ABOUT: &str = "Checks the models that an SMT solver printed.

SCRIPT is the SMT-LIB 2.6 script that the solver read, and ANSWERS the text that it printed for it. Each \
answer is paired with its command, and every `sat` is checked by evaluating the printed model in each \
assertion that was in force. One of the two may be `-`, which is standard input.";

const SOLVER: &str =
    "Which solver printed ANSWERS: z3, cvc5, cvc4, bitwuzla, boolector or smtinterpol. Where --profile is not given, \
it is wide; where --print-success is not given, it is what the solver does by default: on for smtinterpol, and off for \
the others.";

const PRINT_SUCCESS: &str =
    "Whether the solver prints `success`, from the start, for each command that has no answer of its own.

off: for z3, cvc5, cvc4 and bitwuzla, which print it only once the script says (set-option :print-success true)
on:  for SMTInterpol and others that keep to the default of SMT-LIB, and for a run that was told to print \
it, such as `z3 smtlib2_compliant=true` or `cvc5 --print-success`

A script's own (set-option :print-success ..) is followed from there on.

[default: on]";

const PROFILE: &str = "Which language is taken; docs/LANGUAGE.md has both.

base: scripts over truth values, integers and bit vectors, in the forms of SMT-LIB 2.6
wide: the same, reals, operators of SMT-LIB 2.7 on bit vectors, and forms that real scripts and models have \
besides: (push) and (pop) without a numeral, define-const, declare-sort, terms as assumptions, the names of more \
logics, `unsupported` as answer to a set-logic of another name, and items of a model that repeat a label or a \
definition of the script or tell of declared sorts, as z3 prints them

[default: base]";

const STEPS: &str =
    "How many steps the evaluation of a model may take, from 0 to 18446744073709551614. All assertions in \
force and all assumptions count together, and a model that costs more is told as `too long`, and is not \
evaluated.

A step is one term that is evaluated. Its parts count as well, the body of a name counts at each use of the \
name, and each annotation `!` is one step more.

The cost grows with the text, so the models of a large script may need more. About 10,000,000 steps are \
enough for some 25 to 70 MB of usual script.";

const EXPLAIN: &str =
    "Say of each check that is not confirmed, and of the fault, where it stands in the files, by line and column, and \
why: of an assertion or an assumption that is false the part that makes it so, with the values of what stands in it.

As text, which --explain alone means too, it is for people and follows the report. As json (an object for each line \
of the report) or sarif (a document for code review) it stands in place of the report. The status stays the same. \
Both texts are kept in memory until then.";

const HINTS: &str =
    "Whether standard error gets a hint at a usual mistake, as at exchanged files or a missing option. Without this \
option there are hints where standard error is a terminal, and with --explain.";

const STRICT: &str =
    "End with status 2 in place of 0 where a check was answered otherwise than by a confirmed `sat`, or where there \
is no check. The report stays the same.";

const VERDICTS: &str =
    "The last line of the report is the verdict, and the exit status says the same:
  0  valid: every `sat` is confirmed by the models printed for it
  1  invalid: some model makes an assertion or an assumption false
  2  not decided: no model refutes a `sat`, and some `sat` is not confirmed
  3  refused: the script or the answers have a fault
  4  a file could not be opened, read or written, or memory was refused: standard error says which
  5  the command line was refused, or help was asked for

A fault is named by a letter and a number: the manual page and docs/LANGUAGE.md say what each means, its \
likely cause, and what to do. Seen most often is `fault P2 at command 1, answer 1`: the solver prints no \
`success`, and --solver or --print-success off is missing.";

/// The command line of the program. Its option `--explain` takes a form only if the words give it one.
pub(crate) fn smtcheck_command<'a>(
    alloc: Global,
    takes_form: bool,
) -> Result<Command<'a>, AllocError>
    ensures app { IfOk result (λ c. (places : AllPlaces) × (app_of c ≡ smtcheck_app takes_form places)) }
    ensures needs { IfOk result NeedsFiles }
    ensures steps { IfOk result HasSteps }
{
    let script = file(alloc, "SCRIPT", "the script that the solver read");
    let answers = file(alloc, "ANSWERS", "what the solver printed");
    let strict = flag(
        alloc,
        "strict",
        "end with status 2 where a check was not confirmed",
        STRICT,
    );
    Command::new(alloc, "smtcheck")
        .version(VERSION)
        .about(ABOUT)
        .bin_name("smtcheck")?
        .after_help(VERDICTS)
        .arg(script)?
        .arg(answers)?
        .arg(solver(alloc))?
        .arg(print_success(alloc))?
        .arg(profile(alloc))?
        .arg(steps(alloc))?
        .arg(explain(alloc, takes_form)?)?
        .arg(hints(alloc))?
        .arg(strict)
}

// The argument that names a file.
fn file<'a>(alloc: Global, id: &'a str, help: &'a str) -> Arg<'a>
    ensures rule { rule_of result ≡ file_rule id.entry.now }
    ensures plain { IsPlainArg result }
    ensures local { result.global ≡ false }
    ensures undivided { result.val_delim ≡ None }
{
    Arg::new(alloc, id)
        .required(true)
        .action(ArgAction::Set)
        .help(help)
}

// An option without a value, which is false where it is missing.
fn flag<'a>(alloc: Global, id: &'a str, help: &'a str, long_help: &'a str) -> Arg<'a>
    ensures rule { rule_of result ≡ flag_rule id.entry.now }
    ensures plain { IsPlainArg result }
    ensures local { result.global ≡ false }
{
    Arg::new(alloc, id)
        .long(id)
        .action(ArgAction::SetTrue)
        .help(help)
        .long_help(long_help)
}

// An option with one of some words, shown as `form`, which has no word where it is missing.
fn choice<'a>(alloc: Global, id: &'a str, form: &'a str, words: &'a [&'a str]) -> Arg<'a>
    ensures rule { (places : Places)
        × (rule_of result ≡ word_rule id.entry.now (texts words.entry.now) places) }
    ensures plain { IsPlainArg result }
    ensures local { result.global ≡ false }
{
    Arg::new(alloc, id)
        .long(id)
        .action(ArgAction::Set)
        .value_name(form)
        .value_parser(words)
        .hide_possible_values(true)
}

// The option that names the solver.
fn solver<'a>(alloc: Global) -> Arg<'a>
    ensures rule { (places : Places) × (rule_of result ≡ solver_rule places) }
    ensures plain { IsPlainArg result }
    ensures local { result.global ≡ false }
{
    let words: &'a [&'a str] = &["z3", "cvc5", "cvc4", "bitwuzla", "boolector", "smtinterpol"];
    choice(alloc, "solver", "NAME", words)
        .help("which solver printed ANSWERS: sets the next two, where they are not given")
        .long_help(SOLVER)
}

// The option that says whether the solver prints `success` before the script sets `:print-success`.
fn print_success<'a>(alloc: Global) -> Arg<'a>
    ensures rule { (places : Places) × (rule_of result ≡ success_rule places) }
    ensures plain { IsPlainArg result }
    ensures local { result.global ≡ false }
{
    let words: &'a [&'a str] = &["on", "off"];
    choice(alloc, "print-success", "on|off", words)
        .help("whether the solver printed `success` from the start [default: on]")
        .long_help(PRINT_SUCCESS)
}

// The option for the profile of the language.
fn profile<'a>(alloc: Global) -> Arg<'a>
    ensures rule { (places : Places) × (rule_of result ≡ profile_rule places) }
    ensures plain { IsPlainArg result }
    ensures local { result.global ≡ false }
{
    let words: &'a [&'a str] = &["base", "wide"];
    choice(alloc, "profile", "base|wide", words)
        .help("which language is taken [default: base]")
        .long_help(PROFILE)
}

// The option that asks for an explanation. Its form stands behind a `=`, so that no next word is taken for one. clap
// has that as `require_equals`, but promises nothing of what a command with it makes of the words. So the option takes
// no form where the words give none. Then its alias is what is read, and its long name is what help shows.
fn explain<'a>(alloc: Global, takes_form: bool) -> Result<Arg<'a>, AllocError>
    ensures rule { IfOk result (λ r. (places : Places) × (rule_of r ≡ explain_rule takes_form places)) }
    ensures plain { IfOk result IsPlainArg }
    ensures local { IfOk result (λ r. r.global ≡ false) }
{
    let words: &'a [&'a str] = &["text", "json", "sarif"];
    let option = choice(alloc, "explain", "FORM", words)
        .num_args(0..=1)
        .default_missing_value("text")
        .help("say where what is not confirmed stands, and why")
        .long_help(EXPLAIN);
    if takes_form {
        return Ok(option);
    }
    option.long("explain[=<FORM>]").num_args(0).alias("explain")
}

// The option that says whether the program hints at usual mistakes.
fn hints<'a>(alloc: Global) -> Arg<'a>
    ensures rule { (places : Places) × (rule_of result ≡ hints_rule places) }
    ensures plain { IsPlainArg result }
    ensures local { result.global ≡ false }
{
    let words: &'a [&'a str] = &["on", "off"];
    choice(alloc, "hints", "on|off", words)
        .help("whether there are hints at usual mistakes")
        .long_help(HINTS)
}

// The option for the most steps that the evaluation of a model may cost.
fn steps<'a>(alloc: Global) -> Arg<'a>
    ensures rule { rule_of result ≡ steps_rule }
    ensures plain { IsPlainArg result }
    ensures local { result.global ≡ false }
    ensures undivided { result.val_delim ≡ None }
    ensures unconditional { result.default_vals_ifs.items ≡ [] }
{
    Arg::new(alloc, "steps")
        .long("steps")
        .action(ArgAction::Set)
        .value_name("N")
        .value_parser(ValueParser::unsigned(0, u64::MAX - 1))
        .default_value("10000000")
        .help("how many steps the evaluation of a model may take")
        .long_help(STEPS)
}

/// Reads the words of a command line, the program's name first. It refuses words that are not in form, and requests
/// for help or the version, each with a text to print (`LineFault::Refused`). Where memory is refused, the error is
/// `LineFault::Memory`.
pub fn settings<'a>(alloc: Global, words: &'a [&'a str]) -> Result<Settings<'a>, LineFault>
    ensures ok { IfOk result (λ s. OfCommand (texts words.entry.now) (AreSettings (texts words.entry.now) s)) }
    ensures given { TakesOptions (texts words.entry.now) result }
    ensures limited { IfOk result (λ s. s.steps < 2 ^ 64 - 1) }
    ensures taken { IfOk result
        (λ _. OfCommand (texts words.entry.now) (λ a. takes a (texts words.entry.now) ≡ true)) }
    ensures refused { IfErr result (λ f. OfCommand (texts words.entry.now) (IsFaultOf (texts words.entry.now) f)) }
    ensures memory { IfErr result
        (λ f. OfCommand (texts words.entry.now) (λ a. takes a (texts words.entry.now) ≡ true → f ≡ LineFault.Memory)) }
{
    let Ok(command) = smtcheck_command(alloc, gives_form(words)) else {
        return Err(LineFault::Memory);
    };
    let matches = match command.try_get_matches_from(words) {
        Ok(matches) => matches,
        Err(error) if error.kind() == ErrorKind::OutOfMemory => return Err(LineFault::Memory),
        Err(error) => return Err(LineFault::Refused(error)),
    };
    let solver = matches.get_str("solver");
    Ok(Settings {
        script: matches.get_str("SCRIPT").unwrap(),
        answers: matches.get_str("ANSWERS").unwrap(),
        print_success: prints_success(matches.get_str("print-success"), solver),
        profile: profile_taken(matches.get_str("profile"), solver),
        steps: matches.get_one::<u64>("steps").unwrap(),
        explain: form_of(matches.get_str("explain")),
        hints: switch(matches.get_str("hints")),
        strict: is_given_in(&matches, "strict"),
    })
}

// Whether a word gives `--explain` a form.
fn gives_form(words: &[&str]) -> bool
    ensures { result ≡ gives_form (texts words.entry.now) }
{
    match words.split_first() {
        Some((_, behind)) => has_form(behind),
        None => false,
    }
}

// Whether one of the words behind the program's name does. Behind `--` each word names a file.
fn has_form(words: &[&str]) -> bool
    ensures { result ≡ has_form (texts words.entry.now) }
{
    for word in words {
        if *word == "--" {
            return false;
        }
        if word.as_bytes().starts_with(b"--explain=") {
            return true;
        }
    }
    false
}

// Whether the solver prints `success` from the start, by the option's word, else by the solver's name.
fn prints_success(word: Option<&str>, solver: Option<&str>) -> bool
    ensures { result ≡ prints_success (text_of word.entry) (text_of solver.entry) }
{
    match switch(word) {
        Some(prints) => prints,
        None => match solver_of(solver) {
            Some(solver) => solver.prints_success(),
            None => true,
        },
    }
}

// The profile, by the option's word, else by the solver's name.
fn profile_taken(word: Option<&str>, solver: Option<&str>) -> Profile
    ensures { result ≡ profile_taken (text_of word.entry) (text_of solver.entry) }
{
    match word {
        Some(word) => profile_of(word),
        None => match solver_of(solver) {
            Some(_) => Profile::Wide,
            None => Profile::Base,
        },
    }
}

// The solver that an option names, if it is given.
fn solver_of(word: Option<&str>) -> Option<Solver>
    ensures { result ≡ solver_of (text_of word.entry) }
{
    match word {
        Some(word) => Solver::named(word),
        None => None,
    }
}

// Whether an option says `on`, if it is given.
fn switch(word: Option<&str>) -> Option<bool>
    ensures { result ≡ switch_of (text_of word.entry) }
{
    match word {
        Some(word) => Some(word == "on"),
        None => None,
    }
}

// The form that the option's word names, if it is given.
fn form_of(word: Option<&str>) -> Option<Form>
    ensures { result ≡ form_of (text_of word.entry) }
{
    match word {
        Some("json") => Some(Form::Json),
        Some("sarif") => Some(Form::Sarif),
        Some(_) => Some(Form::Text),
        None => None,
    }
}

// The profile that a word of the option names.
fn profile_of(word: &str) -> Profile
    ensures { result ≡ profile_named word.now }
{
    if word == "wide" {
        Profile::Wide
    } else {
        Profile::Base
    }
}

// Whether an option without a value is given. (The contract of `get_flag` covers only the two values that clap
// gives such an option.)
fn is_given_in(matches: &ArgMatches, id: &str) -> bool
    ensures { result ≡ is_given (first_value (found_of matches.now) id.now) }
{
    match matches.get_str(id) {
        Some(value) => value == "true",
        None => false,
    }
}
