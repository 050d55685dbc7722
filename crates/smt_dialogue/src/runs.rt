//! A session over two sources, a sink and a visitor: it pulls pieces of the text that the session waits for, and puts
//! the decided lines. This file decides nothing.

ghost use Rattle.std.specs.Prelude.{◌≡◌, ◌<◌, Bool, [], Some, false, length};
ghost use Rattle.std.specs.Prelude.{IfErr, IfOk, OnOk};
ghost use Rattle.smt_dialogue.specs.History.{History, begun, of_side, other_side};
ghost use Rattle.smt_dialogue.specs.Run.{Devices, HasRun, HasStopped, IsBlamed, devices, tap};
ghost use Rattle.smt_dialogue.specs.Session.{StandsFor, is_ended, lines_waiting};
ghost use Rattle.smt_dialogue.specs.Internal.RunStep.{AreAtEnd, HasStepped, IsAtRest, IsRunning, IsSound};
ghost use Rattle.smt_dialogue.specs.Internal.RunStep.{fault_at, with_tap};
ghost use Rattle.smt_dialogue.specs.Internal.SessionStep.{IsWanted, left_of};
ghost use Rattle.smt_dialogue.specs.Internal.StreamsView.{AreSound, IsBlamedIn, SameReferences, devices_of, tap_of};
ghost use Rattle.smt_dialogue.specs.declared.options.Options.{Options as Given};
ghost use Rattle.smt_dialogue.specs.declared.session.Session.{Session as State};

use crate::options::Options;
use crate::outlet::{Outlet, Put};
use crate::session::Session;
use smt_report::{LineVisitor, Side, Summary};
use smt_streams::{Sink, Source};
use std::alloc::Global;
use thiserror::Error;

/// The most bytes of a text in one pull: their trees are read while the bytes are in the processor's cache.
pub(crate) const PIECE: usize = 4096;

/// Why a run gives no summary.
#[derive(Clone, Copy, Debug, PartialEq, Eq, Error)]
pub enum RunFault {
    /// The script could not be read.
    #[error("smtcheck: script")]
    Script,
    /// The answers could not be read.
    #[error("smtcheck: answers")]
    Answers,
    /// A line could not be written.
    #[error("smtcheck: output")]
    Output,
    /// Memory was refused.
    #[error("smtcheck: memory")]
    Memory,
    /// A text has more than 2^64 - 1 bytes.
    #[error("smtcheck: long")]
    Long,
}

/// Checks a dialogue as it comes: pulls the script and the answers to their ends, and puts the lines of the report,
/// each followed by byte 10. `visitor`, which has visited no line, visits each line once it is put. The summary is
/// what the last line says.
///
/// The judgement of a model may take long. So `run` puts the decided lines before the next model is judged: the
/// first 4,096 times wherever a line waits, after that only where 64 lines or more wait. In any case it puts all
/// decided lines before it pulls again, and a pull returns at most 4,096 bytes.
///
/// Where a source fails, every line decided by then has been put and visited. At any other fault a beginning of the
/// text of those lines has been put, and the first of them have been visited. Nothing is pulled, put or visited after
/// a fault.
pub fn run<R1: Source, R2: Source, W: Sink, V: LineVisitor>(
    alloc: Global,
    script: &mut R1,
    answers: &mut R2,
    out: &mut W,
    visitor: &mut V,
    options: Options,
) -> Result<Summary, RunFault>
    requires script_sound { R1.is_broken script.old ≡ false }
    requires script_open { R1.has_ended script.old ≡ false }
    requires answers_sound { R2.is_broken answers.old ≡ false }
    requires answers_open { R2.has_ended answers.old ≡ false }
    requires out_sound { W.is_broken out.old ≡ false }
    requires fresh { V.has_visited visitor.old [] }
    ensures ran { IfOk result (λ summary. HasRun options
        (devices (tap (R1.to_come script.old) (R1.has_ended script.old))
        (tap (R2.to_come answers.old) (R2.has_ended answers.old)) (W.taken out.old))
        (devices (tap (R1.to_come script.new) (R1.has_ended script.new))
        (tap (R2.to_come answers.new) (R2.has_ended answers.new)) (W.taken out.new))
        (V.has_visited visitor.new) summary) }
    ensures stopped { IfErr result (λ fault. HasStopped options
        (devices (tap (R1.to_come script.old) (R1.has_ended script.old))
        (tap (R2.to_come answers.old) (R2.has_ended answers.old)) (W.taken out.old))
        (devices (tap (R1.to_come script.new) (R1.has_ended script.new))
        (tap (R2.to_come answers.new) (R2.has_ended answers.new)) (W.taken out.new))
        (V.has_visited visitor.new) fault) }
    ensures blamed { IfErr result (λ fault.
        IsBlamed fault (R1.is_broken script.new) (R2.is_broken answers.new) (W.is_broken out.new)) }
{
    let mut session = Session::new(alloc, options);
    let mut streams = Streams {
        script,
        answers,
        lines: Put { out, puts: 0 },
        visitor,
    };
    let outcome = summary_over(alloc, &mut session, &mut streams);
    drop(session);
    outcome
}

/// The two sources of a run, where its lines go, and who visits them.
#[derive(Drop)]
pub(crate) struct Streams<'s, 'a, 'v, R1, R2, L, V> {
    pub(crate) script: &'s mut R1,
    pub(crate) answers: &'a mut R2,
    pub(crate) lines: L,
    pub(crate) visitor: &'v mut V,
}

// Pulls both texts to their ends, and returns the summary. Every line is put.
fn summary_over<R1: Source, R2: Source, L: Outlet, V: LineVisitor>(
    alloc: Global,
    session: &mut Session,
    streams: &mut Streams<R1, R2, L, V>,
) -> Result<Summary, RunFault>
    requires stands { (options : Given) × StandsFor session.old (begun options) }
    requires rest { IsAtRest L.is_done session.old }
    requires sound { AreSound R1.Source R2.Source L.Outlet session.old streams.old }
    requires fresh { V.has_visited streams.old.visitor.now [] }
    requires all_put { (s : State) → L.is_done s → lines_waiting s ≡ [] }
    ensures ran { IfOk result (λ summary. (options : Given) → StandsFor session.old (begun options)
        → HasRun options (devices_of R1.Source R2.Source L.Outlet streams.old)
        (devices_of R1.Source R2.Source L.Outlet streams.new) (V.has_visited streams.new.visitor.now) summary) }
    ensures stopped { IfErr result (λ fault. (options : Given) → StandsFor session.old (begun options)
        → HasStopped options (devices_of R1.Source R2.Source L.Outlet streams.old)
        (devices_of R1.Source R2.Source L.Outlet streams.new) (V.has_visited streams.new.visitor.now) fault) }
    ensures blamed { IfErr result (λ fault.
        IsBlamedIn R1.Source R2.Source L.Outlet fault streams.new) }
    ensures same_references { SameReferences L.Outlet streams.old streams.new }
{
    match follow(alloc, session, streams) {
        Ok(()) => match session.summary() {
            Some(summary) => Ok(summary),
            None => unreachable!(),
        },
        Err(fault) => Err(fault),
    }
}

/// Pulls the text that the session waits for, a piece at a time, until both have ended. After each piece it settles
/// what the piece decides.
pub(crate) fn follow<R1: Source, R2: Source, L: Outlet, V: LineVisitor>(
    alloc: Global,
    session: &mut Session,
    streams: &mut Streams<R1, R2, L, V>,
) -> Result<(), RunFault>
    requires stands { (options : Given) × StandsFor session.old (begun options) }
    requires rest { IsAtRest L.is_done session.old }
    requires sound { AreSound R1.Source R2.Source L.Outlet session.old streams.old }
    requires fresh { V.has_visited streams.old.visitor.now [] }
    ensures followed { (options : Given) → StandsFor session.old (begun options)
        → HasStepped (V.has_visited streams.new.visitor.now) L.is_done result options
        (devices_of R1.Source R2.Source L.Outlet streams.old)
        (devices_of R1.Source R2.Source L.Outlet streams.new) session.new }
    ensures ends { OnOk result (AreAtEnd (devices_of R1.Source R2.Source L.Outlet streams.new)) }
    ensures rest { OnOk result (IsAtRest L.is_done session.new) }
    ensures blamed { IfErr result (λ fault.
        IsBlamedIn R1.Source R2.Source L.Outlet fault streams.new) }
    ensures same_references { SameReferences L.Outlet streams.old streams.new }
{
    let mut block = [0u8; PIECE];
    while let Some(side) = session.wanted() {
        match step(alloc, session, side, streams, &mut block) {
            Ok(()) => {}
            Err(fault) => return Err(fault),
        }
    }
    Ok(())
}

// Pulls the next piece of a text, or its end, and settles what it decides.
fn step<R1: Source, R2: Source, L: Outlet, V: LineVisitor>(
    alloc: Global,
    session: &mut Session,
    side: Side,
    streams: &mut Streams<R1, R2, L, V>,
    block: &mut [u8],
) -> Result<(), RunFault>
    requires wanted { IsWanted (Some side) session.old }
    requires stands { (h : History) × StandsFor session.old h }
    requires rest { IsAtRest L.is_done session.old }
    requires sound { AreSound R1.Source R2.Source L.Outlet session.old streams.old }
    requires room { 0 < length block.old }
    ensures stepped { (options : Given) (before : Devices)
        → IsRunning (V.has_visited streams.old.visitor.now) options before
        (devices_of R1.Source R2.Source L.Outlet streams.old) session.old
        → HasStepped (V.has_visited streams.new.visitor.now) L.is_done result options before
        (devices_of R1.Source R2.Source L.Outlet streams.new) session.new }
    ensures rest { OnOk result (IsAtRest L.is_done session.new) }
    ensures sound { OnOk result
        (AreSound R1.Source R2.Source L.Outlet session.new streams.new) }
    ensures blamed { IfErr result (λ fault.
        IsBlamedIn R1.Source R2.Source L.Outlet fault streams.new) }
    ensures smaller { OnOk result (left_of session.new < left_of session.old) }
    ensures same_references { SameReferences L.Outlet streams.old streams.new }
{
    let lines = &mut streams.lines;
    let visitor = &mut *streams.visitor;
    match side {
        Side::Script => step_text(
            alloc,
            session,
            Side::Script,
            streams.script,
            block,
            lines,
            visitor,
        ),
        Side::Answers => step_text(
            alloc,
            session,
            Side::Answers,
            streams.answers,
            block,
            lines,
            visitor,
        ),
    }
}

// Pulls the next piece of a text, or its end, from its source, and settles what the piece decides.
fn step_text<R: Source, L: Outlet, V: LineVisitor>(
    alloc: Global,
    session: &mut Session,
    side: Side,
    source: &mut R,
    block: &mut [u8],
    lines: &mut L,
    visitor: &mut V,
) -> Result<(), RunFault>
    requires stands { (h : History) × StandsFor session.old h }
    requires open { is_ended side session.old ≡ false }
    requires rest { IsAtRest L.is_done session.old }
    requires sound { R.is_broken source.old ≡ false }
    requires source_open { R.has_ended source.old ≡ false }
    requires lines_sound { L.is_broken lines.old ≡ false }
    requires room { 0 < length block.old }
    ensures stepped { (options : Given) (before all : Devices) → IsRunning (V.has_visited visitor.old) options before
        (with_tap side (tap_of R.Source source.old) (L.taken lines.old) all) session.old
        → HasStepped (V.has_visited visitor.new) L.is_done result options before
        (with_tap side (tap_of R.Source source.new) (L.taken lines.new) all) session.new }
    ensures blamed { IfErr result (λ fault. (other : Bool) → IsBlamed fault
        (of_side side (R.is_broken source.new) other) (of_side side other (R.is_broken source.new))
        (L.is_broken lines.new)) }
    ensures rest { OnOk result (IsAtRest L.is_done session.new) }
    ensures source { OnOk result (IsSound (is_ended side session.new) (tap_of R.Source source.new)
        (R.is_broken source.new)) }
    ensures other { is_ended (other_side side) session.new ≡ is_ended (other_side side) session.old }
    ensures lines_sound { OnOk result (L.is_broken lines.new ≡ false) }
    ensures smaller { OnOk result (left_of session.new < left_of session.old) }
    ensures same_reference { L.reference lines.new ≡ L.reference lines.old }
{
    match source.pull(block) {
        Ok(count) => {
            session.take_next(side, &block[..count]);
            lines.settle(alloc, session, visitor)
        }
        Err(_) => Err(source_fault(side)),
    }
}

// The fault of a run where the source of this side fails.
fn source_fault(side: Side) -> RunFault
    ensures { result ≡ fault_at side }
{
    match side {
        Side::Script => RunFault::Script,
        Side::Answers => RunFault::Answers,
    }
}
