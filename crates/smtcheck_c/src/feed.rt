//! A session, with the lines that it has returned and C has not got: C's buffer had no room for their text, or memory
//! was refused. This file knows no pointer.

ghost use Rattle.std.specs.Prelude.{◌≡◌, ◌≢◌, ◌<◌, ◌⊎◌, None, false, true, IfOk, OnErr};
ghost use Rattle.smt_dialogue.specs.History.{History, begun, with_answers, with_answers_end, with_script};
ghost use Rattle.smt_dialogue.specs.History.{with_script_end};
ghost use Rattle.smt_dialogue.specs.Session.{failure_of};
ghost use Rattle.smtcheck_c.specs.Feed.{AreEndsOf, AreGivenLines, AreNextLines, Feeds, FeedsThen, IsAnswerOf};
ghost use Rattle.smtcheck_c.specs.Feed.{IsNumberOf, IsTellingNumber, StaysFailed, is_answers_over, is_script_over};

use crate::outcome::{LONG, MEMORY, OPEN, number_of};
use crate::text::{put_text, text_of_lines};
use smt_dialogue::{Failed, Line, Memory, Options, Session};
use std::alloc::Global;

/// A session, with the lines that it has returned and C has not got.
#[derive(Drop)]
pub struct Feed {
    pub(crate) session: Session,
    pub(crate) waiting: Vec<Line>,
}

impl Feed {
    /// A session of two texts of which nothing has come.
    pub(crate) fn new(alloc: Global, options: Options) -> Feed
        ensures feeds { Feeds result (begun options) }
        ensures script { is_script_over result ≡ false }
        ensures answers { is_answers_over result ≡ false }
        ensures failure { failure_of result.session ≡ None }
    {
        Feed {
            session: Session::new(alloc, options),
            waiting: Vec::new(alloc),
        }
    }

    /// Accepts the next piece of the script, whose end was not reported before. Returns the number of the verdict if it
    /// is decided, and 6 if it is not. It returns 4 where memory was refused, and 7 where a text has more than 2^64 - 1
    /// bytes; then every later call that feeds the session returns the same.
    pub(crate) fn script(&mut self, piece: &[u8]) -> u32
        requires feeds { (h : History) × Feeds self.old h }
        requires open { is_script_over self.old ≡ false }
        ensures feeds { FeedsThen self.old self.new (λ h. with_script h piece.now) }
        ensures script { is_script_over self.new ≡ false }
        ensures answers { is_answers_over self.new ≡ is_answers_over self.old }
        ensures outcome { (h : History) → Feeds self.new h → IsNumberOf result self.new h }
        ensures failed { IsTellingNumber result (failure_of self.new.session) }
        ensures stays { StaysFailed self.old self.new }
    {
        let told = self.session.script(piece);
        self.outcome(told)
    }

    /// Accepts the next piece of the answers, whose end was not reported before. Returns a number as `script` does.
    pub(crate) fn answers(&mut self, piece: &[u8]) -> u32
        requires feeds { (h : History) × Feeds self.old h }
        requires open { is_answers_over self.old ≡ false }
        ensures feeds { FeedsThen self.old self.new (λ h. with_answers h piece.now) }
        ensures script { is_script_over self.new ≡ is_script_over self.old }
        ensures answers { is_answers_over self.new ≡ false }
        ensures outcome { (h : History) → Feeds self.new h → IsNumberOf result self.new h }
        ensures failed { IsTellingNumber result (failure_of self.new.session) }
        ensures stays { StaysFailed self.old self.new }
    {
        let told = self.session.answers(piece);
        self.outcome(told)
    }

    /// Accepts the end of the script, which was not reported before. Returns a number as `script` does.
    pub(crate) fn end_script(&mut self) -> u32
        requires feeds { (h : History) × Feeds self.old h }
        requires open { is_script_over self.old ≡ false }
        ensures feeds { FeedsThen self.old self.new with_script_end }
        ensures script { is_script_over self.new ≡ true }
        ensures answers { is_answers_over self.new ≡ is_answers_over self.old }
        ensures outcome { (h : History) → Feeds self.new h → IsNumberOf result self.new h }
        ensures failed { IsTellingNumber result (failure_of self.new.session) }
        ensures stays { StaysFailed self.old self.new }
    {
        let told = self.session.end_script();
        self.outcome(told)
    }

    /// Accepts the end of the answers, which was not reported before. Returns a number as `script` does.
    pub(crate) fn end_answers(&mut self) -> u32
        requires feeds { (h : History) × Feeds self.old h }
        requires open { is_answers_over self.old ≡ false }
        ensures feeds { FeedsThen self.old self.new with_answers_end }
        ensures script { is_script_over self.new ≡ is_script_over self.old }
        ensures answers { is_answers_over self.new ≡ true }
        ensures outcome { (h : History) → Feeds self.new h → IsNumberOf result self.new h }
        ensures failed { IsTellingNumber result (failure_of self.new.session) }
        ensures stays { StaysFailed self.old self.new }
    {
        let told = self.session.end_answers();
        self.outcome(told)
    }

    // The number of the outcome of a call that fed the session.
    fn outcome(&self, told: Result<(), Failed>) -> u32
        requires { IsAnswerOf told self.now }
        ensures number { (h : History) → Feeds self.now h → IsNumberOf result self.now h }
        ensures failed { IsTellingNumber result (failure_of self.now.session) }
    {
        match told {
            Ok(()) => self.verdict(),
            Err(Failed::Memory) => MEMORY,
            Err(Failed::Long) => LONG,
        }
    }

    /// The number of the verdict, from 0 to 3, if it is decided, and 6 if it is not.
    pub(crate) fn verdict(&self) -> u32
        ensures told { result ≢ 4 }
        ensures range { (result < 4) ⊎ (result ≡ 6) }
        ensures number { (h : History) → Feeds self.now h → IsNumberOf result self.now h }
    {
        match self.session.verdict() {
            Some(verdict) => number_of(verdict),
            None => OPEN,
        }
    }

    /// Writes the text of the next lines to `room`, if there is room for all of it, and returns its length in bytes.
    /// Otherwise `room` stays as it was, and the next call has the same lines. It fails with `Memory`; then it gives no
    /// line, and `room` stays as it was.
    pub(crate) fn give(&mut self, alloc: Global, room: &mut [u8]) -> Result<usize, Memory>
        ensures given { IfOk result (λ wanted.
            AreGivenLines self.old self.new wanted room.old room.new) }
        ensures kept { OnErr result (FeedsThen self.old self.new (λ h. h)) }
        ensures left { OnErr result (AreNextLines self.old self.new.waiting.items) }
        ensures room { OnErr result (room.new ≡ room.old) }
        ensures over { AreEndsOf self.old self.new }
        ensures failure { failure_of self.new.session ≡ failure_of self.old.session }
    {
        self.gather();
        let text = text_of_lines(alloc, self.waiting.as_slice())?;
        let wanted = put_text(text.as_bytes(), room);
        drop(text);
        if wanted <= room.len() {
            self.waiting = Vec::new(alloc);
        }
        Ok(wanted)
    }

    // Takes the lines that wait in the session, where none waits here.
    fn gather(&mut self)
        ensures feeds { FeedsThen self.old self.new (λ h. h) }
        ensures next { AreNextLines self.old self.new.waiting.items }
        ensures over { AreEndsOf self.old self.new }
        ensures failure { failure_of self.new.session ≡ failure_of self.old.session }
    {
        if self.waiting.is_empty() {
            self.waiting = self.session.take_lines();
        }
    }
}
