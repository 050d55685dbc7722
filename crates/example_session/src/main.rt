//! example_session: feeds a session by hand, and prints each line of the report once it is decided.
//!
//! A tool that runs a solver does the same with the pieces that it sends and receives. This program judges nothing,
//! and uses no crate but `smt_dialogue`.
#![tactic(auto)]

ghost use Rattle.std.specs.Prelude.{◌≡◌, false};
ghost use Rattle.smt_dialogue.specs.History.{History};
ghost use Rattle.smt_dialogue.specs.Session.{StandsFor, is_answers_ended, is_script_ended};

use smt_dialogue::{Failed, Limit, Options, Profile, Session, Verdict};
use std::process::ExitCode;

fn main(rt: HostRuntime) -> ExitCode {
    // (z3, cvc5 and cvc4 print no `success` by default.)
    let options = Options {
        print_success: false,
        profile: Profile::Base,
        limit: Limit { steps: 10_000_000 },
    };
    let mut session = Session::new(rt.alloc(), options);
    let told = follow(&rt, &mut session);
    let verdict = session.verdict();
    drop(session);
    match (told, verdict) {
        (Ok(()), Some(Verdict::Valid)) => ExitCode::SUCCESS,
        _ => ExitCode::FAILURE,
    }
}

// Feeds both texts, a command and its answer at a time, and then ends them.
fn follow<R: Print>(rt: &R, session: &mut Session) -> Result<(), Failed>
    requires stands { (h : History) × StandsFor session.old h }
    requires script { is_script_ended session.old ≡ false }
    requires answers { is_answers_ended session.old ≡ false }
{
    let commands = b"(declare-const p Bool)(assert p)(check-sat)(get-model)";
    tell_script(rt, session, commands, "a check is asked")?;
    let model = b"sat ((define-fun p () Bool true))";
    tell_answers(rt, session, model, "its model has come")?;
    let change = b"(assert (not p))";
    tell_script(rt, session, change, "an assertion ends its window")?;
    tell_script(rt, session, b"(check-sat)", "another check is asked")?;
    tell_answers(rt, session, b"unsat\n", "it is answered")?;
    end_both(rt, session)
}

// Feeds a piece of the script, and prints the lines decided since.
fn tell_script<R: Print>(
    rt: &R,
    session: &mut Session,
    piece: &[u8],
    told: &str,
) -> Result<(), Failed>
    requires stands { (h : History) × StandsFor session.old h }
    requires script { is_script_ended session.old ≡ false }
    ensures stands { (h : History) × StandsFor session.new h }
    ensures script { is_script_ended session.new ≡ false }
    ensures answers { is_answers_ended session.new ≡ is_answers_ended session.old }
{
    let outcome = session.script(piece);
    print_lines(rt, session, told);
    outcome
}

// Feeds a piece of the answers, and prints the lines decided since.
fn tell_answers<R: Print>(
    rt: &R,
    session: &mut Session,
    piece: &[u8],
    told: &str,
) -> Result<(), Failed>
    requires stands { (h : History) × StandsFor session.old h }
    requires answers { is_answers_ended session.old ≡ false }
    ensures stands { (h : History) × StandsFor session.new h }
    ensures script { is_script_ended session.new ≡ is_script_ended session.old }
    ensures answers { is_answers_ended session.new ≡ false }
{
    let outcome = session.answers(piece);
    print_lines(rt, session, told);
    outcome
}

// Ends both texts, and prints the lines decided since.
fn end_both<R: Print>(rt: &R, session: &mut Session) -> Result<(), Failed>
    requires stands { (h : History) × StandsFor session.old h }
    requires script { is_script_ended session.old ≡ false }
    requires answers { is_answers_ended session.old ≡ false }
{
    session.end_script()?;
    session.end_answers()?;
    print_lines(rt, session, "both texts have ended");
    Ok(())
}

// Prints what has just happened, and the lines decided since.
fn print_lines<R: Print>(rt: &R, session: &mut Session, told: &str)
    ensures stands { (h : History) → StandsFor session.old h
        → (g : History) × StandsFor session.new g }
    ensures script { is_script_ended session.new ≡ is_script_ended session.old }
    ensures answers { is_answers_ended session.new ≡ is_answers_ended session.old }
{
    let _ = println!(rt; "{told}:");
    let lines = session.take_lines();
    for line in &lines {
        let _ = println!(rt; "  {line}");
    }
    drop(lines);
}
