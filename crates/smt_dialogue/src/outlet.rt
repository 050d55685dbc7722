//! Where decided lines go while a session is fed its texts: into a sink and then to a visitor, or they wait in the
//! session. This file decides nothing.

ghost use Rattle.std.specs.Prelude.{◌≡◌, ◌<◌, ℕ, Bool, List, [], None, Option, Some, true, false, take};
ghost use Rattle.std.specs.Prelude.{IfErr, IfOk, MatchResult, OnErr, OnOk, string_bytes};
ghost use Rattle.std.specs.Io.KnownBytes.{Appends};
ghost use Rattle.smt_dialogue.specs.History.{History, with_taken};
ghost use Rattle.smt_dialogue.specs.Run as runs;
ghost use Rattle.smt_dialogue.specs.Run.{Devices, HasStopped};
ghost use Rattle.smt_dialogue.specs.Session.{StandsFor, failure_of, lines_waiting};
ghost use Rattle.smt_dialogue.specs.Internal.RunStep.{HasSettled, IsAtRest, IsFailure, IsFedRun, IsOutputFailure};
ghost use Rattle.smt_dialogue.specs.Internal.RunStep.{IsPutFault, IsPutRun, IsVisiting};
ghost use Rattle.smt_dialogue.specs.Internal.SessionStep.{IsFed, IsGoingOn, SameTexts, StaysFailed, turns_left};
ghost use Rattle.smt_dialogue.specs.declared.options.Options.{Options as Given};
ghost use Rattle.smt_dialogue.specs.declared.session.Session.{Session as State};

use crate::runs::RunFault;
use crate::session::{Failed, Session};
use smt_eval::Memory;
use smt_report::{Line, LineVisitor};
use smt_streams::{Sink, put_all};
use std::alloc::Global;

// Before a model is judged, each of the first `EARLY` puts needs one waiting line, and every later put needs `MANY`.
// So a run that takes long shows what it has decided, and a long report costs few calls.
const EARLY: u64 = 4096;

const MANY: usize = 64;

/// Where decided lines go.
pub(crate) trait Outlet {
    /// The bytes that were put, where they are known.
    ghost taken: { Self → Option (List ℕ) };

    /// Whether a put has failed.
    ghost is_broken: { Self → Bool };

    /// The name of the reference to what the lines go to.
    ghost reference: { Self → ℕ };

    /// No line of the session is left to put.
    ghost is_done: { State → Type 0 };

    /// Takes turns as far as both texts have come. The decided lines go out and are visited, or wait in the session.
    fn settle<V: LineVisitor>(
        &mut self,
        alloc: Global,
        session: &mut Session,
        visitor: &mut V,
    ) -> Result<(), RunFault>
        requires fed { (h : History) × IsFed session.old h }
        requires sound { is_broken self.old ≡ false }
        ensures settled { (options : Given) (before now : Devices)
            → IsFedRun (V.has_visited visitor.old) options before (record now { out = taken self.old })
            session.old
            → HasSettled (V.has_visited visitor.new) result options before
            (record now { out = taken self.new }) session.new }
        ensures blamed { IfErr result (λ fault. IsPutFault fault (is_broken self.new)) }
        ensures rest { OnOk result (IsAtRest is_done session.new) }
        ensures sound { OnOk result (is_broken self.new ≡ false) }
        ensures stays { StaysFailed session.old session.new }
        ensures texts { SameTexts session.old session.new }
        ensures same_reference { reference self.new ≡ reference self.old };
}

/// Lines wait in the session.
#[derive(Clone, Copy)]
pub(crate) struct Kept;

impl Outlet for Kept {
    ghost taken = { λ _. Some [] };

    ghost is_broken = { λ _. false };

    ghost reference = { λ _. 0 };

    ghost is_done = { λ _. Unit {0} };

    fn settle<V: LineVisitor>(
        &mut self,
        _alloc: Global,
        session: &mut Session,
        _visitor: &mut V,
    ) -> Result<(), RunFault> {
        match session.rest() {
            Ok(()) => Ok(()),
            Err(failed) => Err(fault_of(failed)),
        }
    }
}

/// Lines are put into a sink, each followed by byte 10, and then visited. `puts` counts the puts before a model.
#[derive(Drop)]
pub(crate) struct Put<'o, W> {
    pub(crate) out: &'o mut W,
    pub(crate) puts: u64,
}

impl<W: Sink> Outlet for Put<'_, W> {
    ghost taken = { λ put. W.taken put.out.now };

    ghost is_broken = { λ put. W.is_broken put.out.now };

    ghost reference = { λ put. put.out.ghost_name };

    ghost is_done = { λ session. lines_waiting session ≡ [] };

    fn settle<V: LineVisitor>(
        &mut self,
        alloc: Global,
        session: &mut Session,
        visitor: &mut V,
    ) -> Result<(), RunFault> {
        loop {
            match put_some(alloc, session, enough(self.puts), self.out, visitor) {
                Ok(true) => self.puts = self.puts.saturating_add(1),
                Ok(false) => return Ok(()),
                Err(fault) => return Err(fault),
            }
        }
    }
}

// How many waiting lines are enough for a put before a model is judged, after so many such puts.
fn enough(puts: u64) -> usize {
    if puts < EARLY { 1 } else { MANY }
}

// Takes turns until `enough` lines wait where a model may come next, or as far as both texts have come. Then it
// puts the lines. Returns whether turns may be left.
fn put_some<W: Sink, V: LineVisitor>(
    alloc: Global,
    session: &mut Session,
    enough: usize,
    out: &mut W,
    visitor: &mut V,
) -> Result<bool, RunFault>
    requires fed { (h : History) × IsFed session.old h }
    requires sound { W.is_broken out.old ≡ false }
    ensures put { IfOk result (λ more. (options : Given) (before now : Devices)
        → IsFedRun (V.has_visited visitor.old) options before (record now { out = W.taken out.old }) session.old
        → IsPutRun (V.has_visited visitor.new) more options before (record now { out = W.taken out.new })
        session.new) }
    ensures stopped { IfErr result (λ fault. (options : Given) (before now : Devices)
        → IsFedRun (V.has_visited visitor.old) options before (record now { out = W.taken out.old }) session.old
        → HasStopped options before (record now { out = W.taken out.new }) (V.has_visited visitor.new) fault) }
    ensures fed { IfOk result (λ more. more ≡ true
        → (h : History) × IsFed session.new h) }
    ensures blamed { IfErr result (λ fault. IsPutFault fault (W.is_broken out.new)) }
    ensures unvisited { OnErr result (visitor.new ≡ visitor.old) }
    ensures failure { OnOk result (failure_of session.new ≡ None) }
    ensures stays { StaysFailed session.old session.new }
    ensures waiting { OnOk result (lines_waiting session.new ≡ []) }
    ensures sound { OnOk result (W.is_broken out.new ≡ false) }
    ensures texts { SameTexts session.old session.new }
    ensures smaller { IfOk result (λ more. more ≡ true
        → turns_left session.new < turns_left session.old) }
{
    match session.take_turns(Some(enough)) {
        Ok(more) => match put_lines(alloc, session, out, visitor) {
            Ok(()) => Ok(more),
            Err(fault) => Err(fault),
        },
        Err(failed) => Err(fault_of(failed)),
    }
}

// The fault of a run for a failure of its session.
fn fault_of(failed: Failed) -> RunFault
    ensures { IsFailure result (Some failed) }
{
    match failed {
        Failed::Memory => RunFault::Memory,
        Failed::Long => RunFault::Long,
    }
}

// Puts the decided lines that wait in the session. Where all are put, the visitor visits them.
fn put_lines<W: Sink, V: LineVisitor>(
    alloc: Global,
    session: &mut Session,
    out: &mut W,
    visitor: &mut V,
) -> Result<(), RunFault>
    requires sound { W.is_broken out.old ≡ false }
    ensures stands { (h : History) → StandsFor session.old h
        → StandsFor session.new (with_taken h (lines_waiting session.old)) }
    ensures going_on { (h : History) → IsGoingOn session.old h
        → IsGoingOn session.new (with_taken h (lines_waiting session.old)) }
    ensures none { lines_waiting session.new ≡ [] }
    ensures put { OnOk result
        (Appends (W.taken out.old) (W.taken out.new) (runs.text_of_lines
        (lines_waiting session.old))) }
    ensures visited { OnOk result (IsVisiting (V.has_visited visitor.old) (V.has_visited visitor.new)
        (lines_waiting session.old)) }
    ensures unvisited { OnErr result (visitor.new ≡ visitor.old) }
    ensures part { OnErr result ((count : ℕ)
        × Appends (W.taken out.old) (W.taken out.new)
        (take count (runs.text_of_lines (lines_waiting session.old)))) }
    ensures failed { MatchResult result (λ _. W.is_broken out.new ≡ false)
        (λ fault. IsOutputFailure fault (W.is_broken out.new)) }
    ensures failure { failure_of session.new ≡ failure_of session.old }
    ensures texts { SameTexts session.old session.new }
    ensures turns { turns_left session.new ≡ turns_left session.old }
{
    let lines = session.take_lines();
    let Ok(text) = text_of_lines(alloc, lines.as_slice()) else {
        return Err(RunFault::Memory);
    };
    match put_all(out, text.as_bytes()) {
        Ok(()) => {
            visit_all(visitor, lines.as_slice());
            Ok(())
        }
        Err(_) => Err(RunFault::Output),
    }
}

// Shows lines to a visitor.
fn visit_all<V: LineVisitor>(visitor: &mut V, lines: &[Line])
    ensures { IsVisiting (V.has_visited visitor.old) (V.has_visited visitor.new) lines.now }
{
    for line in lines {
        visitor.visit(line);
    }
}

// The text of lines, each followed by byte 10.
fn text_of_lines(alloc: Global, lines: &[Line]) -> Result<String, Memory>
    ensures { IfOk result (λ text. string_bytes text ≡ runs.text_of_lines lines.now) }
{
    let mut text = String::new(alloc);
    for line in lines {
        writeln!(text, "{line}")?;
    }
    Ok(text)
}
