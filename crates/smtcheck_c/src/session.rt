//! Sessions to which C feeds a dialogue piece by piece, through a handle. This file decides nothing.

ghost use Rattle.std.specs.Prelude.{◌≡◌, ◌≢◌, ◌<◌, ◌≤◌, ◌-◌, ◌^◌, ◌⊎◌, ◌↔◌, None, Some, false, true};
ghost use Rattle.smt_dialogue.specs.History.{History, with_answers, with_answers_end, with_script};
ghost use Rattle.smt_dialogue.specs.History.{with_script_end};
ghost use Rattle.smt_dialogue.specs.Session.{failure_of};
ghost use Rattle.smtcheck_c.specs.Feed.{AreEndsOf, AreGivenLines, AreNextLines, HasBegun, Holds, HoldsThen, IfHeld};
ghost use Rattle.smtcheck_c.specs.Feed.{IsNumberHeld, IsTellingNumber, StaysFailed, is_answers_over, is_script_over};
ghost use Rattle.smtcheck_c.specs.declared.feed.Feed.{Feed as Fed};

use crate::feed::Feed;
use crate::options::{SmtcheckOptions, options_of};
use crate::outcome::{MEMORY, OPEN, OPTIONS};
use crate::session_handle::{SmtcheckSession, put, take};
use smt_dialogue::Memory;
use std::alloc::Global;

/// Begins a session of two texts of which nothing has come, in a handle that has none. It returns 6, and the handle
/// has the session. Or it returns 5 where the limit of the options is 2^64 - 1, and else 4 where memory was refused;
/// then the handle has none.
#[unsafe(no_mangle)]
pub extern "C" fn smtcheck_session_new(
    alloc: Global,
    options: &SmtcheckOptions,
    session: &mut SmtcheckSession,
) -> u32
    requires { session.old.feed ≡ None }
    ensures begun { result ≡ 6 → HasBegun options.now session.new.feed }
    ensures script { IfHeld session.new.feed (λ f. is_script_over f ≡ false) }
    ensures answers { IfHeld session.new.feed (λ f. is_answers_over f ≡ false) }
    ensures failure { IfHeld session.new.feed (λ f. failure_of f.session ≡ None) }
    ensures none { result ≢ 6 → session.new.feed ≡ None }
    ensures outcome { (result ≡ 4) ⊎ ((result ≡ 5) ⊎ (result ≡ 6)) }
    ensures options { (result ≡ 5) ↔ (options.now.steps ≡ 2 ^ 64 - 1) }
{
    let Some(given) = options_of(options) else {
        return OPTIONS;
    };
    match Box::new(alloc, Feed::new(alloc, given)) {
        Ok(feed) => {
            put(session, feed);
            OPEN
        }
        Err(_) => MEMORY,
    }
}

/// Accepts the next piece of the script, whose end was not reported before. It returns the number of the verdict if it
/// is decided, and 6 if it is not. It returns 4 where memory was refused, and 7 where a text has more than 2^64 - 1
/// bytes; then every later call that feeds the session returns the same.
#[unsafe(no_mangle)]
pub extern "C" fn smtcheck_session_script(
    alloc: Global,
    session: &mut SmtcheckSession,
    piece: &[u8],
) -> u32
    requires feeds { (h : History) × Holds session.old.feed h }
    requires open { IfHeld session.old.feed (λ f. is_script_over f ≡ false) }
    ensures feeds { HoldsThen session.old.feed session.new.feed (λ h. with_script h piece.now) }
    ensures outcome { IsNumberHeld result session.new.feed }
    ensures failed { IfHeld session.new.feed (λ f. IsTellingNumber result (failure_of f.session)) }
    ensures stays { IfHeld session.old.feed (λ f. IfHeld session.new.feed (StaysFailed f)) }
    ensures over { IfHeld session.new.feed (λ f. is_script_over f ≡ false) }
    ensures other { IfHeld session.new.feed (λ f.
        IfHeld session.old.feed (λ g. is_answers_over f ≡ is_answers_over g)) }
{
    let mut feed = take(alloc, session);
    let outcome = feed.script(piece);
    put(session, feed);
    outcome
}

/// Accepts the next piece of the answers, whose end was not reported before. It returns a number as
/// `smtcheck_session_script` does.
#[unsafe(no_mangle)]
pub extern "C" fn smtcheck_session_answers(
    alloc: Global,
    session: &mut SmtcheckSession,
    piece: &[u8],
) -> u32
    requires feeds { (h : History) × Holds session.old.feed h }
    requires open { IfHeld session.old.feed (λ f. is_answers_over f ≡ false) }
    ensures feeds { HoldsThen session.old.feed session.new.feed (λ h. with_answers h piece.now) }
    ensures outcome { IsNumberHeld result session.new.feed }
    ensures failed { IfHeld session.new.feed (λ f. IsTellingNumber result (failure_of f.session)) }
    ensures stays { IfHeld session.old.feed (λ f. IfHeld session.new.feed (StaysFailed f)) }
    ensures over { IfHeld session.new.feed (λ f. is_answers_over f ≡ false) }
    ensures other { IfHeld session.new.feed (λ f.
        IfHeld session.old.feed (λ g. is_script_over f ≡ is_script_over g)) }
{
    let mut feed = take(alloc, session);
    let outcome = feed.answers(piece);
    put(session, feed);
    outcome
}

/// Accepts the end of the script, which was not reported before. It returns a number as `smtcheck_session_script` does.
#[unsafe(no_mangle)]
pub extern "C" fn smtcheck_session_end_script(alloc: Global, session: &mut SmtcheckSession) -> u32
    requires feeds { (h : History) × Holds session.old.feed h }
    requires open { IfHeld session.old.feed (λ f. is_script_over f ≡ false) }
    ensures feeds { HoldsThen session.old.feed session.new.feed with_script_end }
    ensures outcome { IsNumberHeld result session.new.feed }
    ensures failed { IfHeld session.new.feed (λ f. IsTellingNumber result (failure_of f.session)) }
    ensures stays { IfHeld session.old.feed (λ f. IfHeld session.new.feed (StaysFailed f)) }
    ensures over { IfHeld session.new.feed (λ f. is_script_over f ≡ true) }
    ensures other { IfHeld session.new.feed (λ f.
        IfHeld session.old.feed (λ g. is_answers_over f ≡ is_answers_over g)) }
{
    let mut feed = take(alloc, session);
    let outcome = feed.end_script();
    put(session, feed);
    outcome
}

/// Accepts the end of the answers, which was not reported before. It returns a number as `smtcheck_session_script`
/// does.
#[unsafe(no_mangle)]
pub extern "C" fn smtcheck_session_end_answers(alloc: Global, session: &mut SmtcheckSession) -> u32
    requires feeds { (h : History) × Holds session.old.feed h }
    requires open { IfHeld session.old.feed (λ f. is_answers_over f ≡ false) }
    ensures feeds { HoldsThen session.old.feed session.new.feed with_answers_end }
    ensures outcome { IsNumberHeld result session.new.feed }
    ensures failed { IfHeld session.new.feed (λ f. IsTellingNumber result (failure_of f.session)) }
    ensures stays { IfHeld session.old.feed (λ f. IfHeld session.new.feed (StaysFailed f)) }
    ensures over { IfHeld session.new.feed (λ f. is_answers_over f ≡ true) }
    ensures other { IfHeld session.new.feed (λ f.
        IfHeld session.old.feed (λ g. is_script_over f ≡ is_script_over g)) }
{
    let mut feed = take(alloc, session);
    let outcome = feed.end_answers();
    put(session, feed);
    outcome
}

/// The number of the verdict, from 0 to 3, if it is decided, and 6 if it is not, also where the session has failed.
#[unsafe(no_mangle)]
pub extern "C" fn smtcheck_session_verdict(alloc: Global, session: &mut SmtcheckSession) -> u32
    requires { (f : Fed) × (session.old.feed ≡ Some f) }
    ensures outcome { IsNumberHeld result session.new.feed }
    ensures range { (result < 4) ⊎ (result ≡ 6) }
    ensures same { session.new.feed ≡ session.old.feed }
{
    let feed = take(alloc, session);
    let outcome = feed.verdict();
    put(session, feed);
    outcome
}

/// Gives the text of the next decided lines that no earlier call gave; `wanted` becomes its length in bytes, 0 where
/// there is no line. If `text` has room for all of it, the text is at the front of `text`, and its lines are given.
/// Otherwise `text` stays as it was, and the next call has the same lines.
///
/// It returns a number as `smtcheck_session_verdict` does, or 4 where memory was refused. Then it gives nothing, `text`
/// and `wanted` stay as they were, and the next call has the same lines. The session does not fail by it.
#[unsafe(no_mangle)]
pub extern "C" fn smtcheck_session_text(
    alloc: Global,
    session: &mut SmtcheckSession,
    text: &mut [u8],
    wanted: &mut usize,
) -> u32
    requires { (f : Fed) × (session.old.feed ≡ Some f) }
    ensures held { (f : Fed) × (session.new.feed ≡ Some f) }
    ensures given { result ≢ 4 → IfHeld session.old.feed (λ f.
        IfHeld session.new.feed (λ g. AreGivenLines f g wanted.new text.old text.new)) }
    ensures outcome { result ≢ 4 → IsNumberHeld result session.new.feed }
    ensures range { (result ≤ 4) ⊎ (result ≡ 6) }
    ensures kept { result ≡ 4 → HoldsThen session.old.feed session.new.feed (λ h. h) }
    ensures left { result ≡ 4 → IfHeld session.old.feed (λ f.
        IfHeld session.new.feed (λ g. AreNextLines f g.waiting.items)) }
    ensures text { result ≡ 4 → text.new ≡ text.old }
    ensures wanted { result ≡ 4 → wanted.new ≡ wanted.old }
    ensures over { IfHeld session.old.feed (λ f. IfHeld session.new.feed (λ g. AreEndsOf f g)) }
    ensures failure { IfHeld session.old.feed (λ f. IfHeld session.new.feed (λ g.
        failure_of g.session ≡ failure_of f.session)) }
{
    let mut feed = take(alloc, session);
    let given = feed.give(alloc, text);
    let outcome = feed.verdict();
    put(session, feed);
    match given {
        Ok(length) => {
            *wanted = length;
            outcome
        }
        Err(Memory) => MEMORY,
    }
}

/// Gives the memory of a session back. The handle then has no session.
#[unsafe(no_mangle)]
pub extern "C" fn smtcheck_session_free(alloc: Global, session: &mut SmtcheckSession)
    requires { (f : Fed) × (session.old.feed ≡ Some f) }
    ensures { session.new.feed ≡ None }
{
    drop(take(alloc, session));
}
