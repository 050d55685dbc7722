//! The reader: bytes in, S-expressions out. This file knows nothing of what a tree means.

ghost use Rattle.std.specs.Prelude.{◌≡◌, ◌≢◌, ℕ, ◌+◌, ◌<◌, ◌≤◌, ◌^◌, List, [], ◌∷◌, ◌++◌, length};
ghost use Rattle.std.specs.Prelude.{slice_index, take, true, false, None, Some, IfOk, MatchBool, MatchResult};
ghost use Rattle.smt_text.specs.Grammar.{max_depth, OpenParenthesis, CloseParenthesis};
ghost use Rattle.smt_text.specs.Reader.{is_finished, bytes_fed, depth_limit, end_of_trees, fault_of};
ghost use Rattle.smt_text.specs.Reader.{trees_waiting, Answers, EndStays, FewerWait, IsFound, KeepsEnds, StandsFor};
ghost use Rattle.smt_text.specs.Reader.{with_answer};
ghost use Rattle.smt_text.specs.Internal.LexerStates.{act, add_if, atom_of, finished, flush, lex, refusal_of};
ghost use Rattle.smt_text.specs.Internal.LexerStates.{settle, step};
ghost use Rattle.smt_text.specs.Internal.ReaderState.{levels_of, state_of, BeginsAtom, Ends, EndsTree, Goes};
ghost use Rattle.smt_text.specs.Internal.ReaderState.{GoesOn, GoesOver, GoesThrough, IfRead, IsBeside, Marks, Pushed};
ghost use Rattle.smt_text.specs.Internal.ReaderState.{KeepsText, PushedBy, UnlessRefused};
ghost use Rattle.smt_text.specs.Reading.{Reads};
ghost use Rattle.smt_trees.specs.Owned.{sexps_of};
ghost use Rattle.smt_trees.specs.Sexp.{Sexps, Nil};
ghost use Rattle.smt_trees.specs.TapeView.{text_of, Holds};
ghost use Rattle.smt_faults.specs.declared.text_fault.TextFault.{TextFault as Fault};
ghost use Rattle.smt_faults.specs.declared.text_fault.TextFault.TheVariants.{Memory as OutOfMemory};
ghost use Rattle.smt_faults.specs.declared.text_flaw.TextFlaw.{TextFlaw};
ghost use Rattle.smt_faults.specs.Faults.{flaw_in};
ghost use Rattle.smt_faults.specs.declared.failure.Failure.TheVariants as failures;
ghost use Rattle.smt_text.specs.declared.refusal.Refusal.TheVariants.{TooDeep, Unfit};
ghost use Rattle.smt_text.specs.declared.lexer.AtomState.TheVariants.{InComment, Name, Nothing};
ghost use Rattle.smt_text.specs.declared.lexer.LexerStep.TheVariants.{Push};

use crate::atoms::add_token;
use crate::builder::Builder;
use crate::byte_class::{is_letter, is_nonzero_digit, is_white};
use crate::lexer::{AtomState, LexerStep, comment_length};
use crate::mark::Mark;
use crate::refusal::Refusal;
use smt_faults::{Failure, Memory, TextFault, TextFlaw};
use smt_trees::OwnedTree;
use std::alloc::Global;
use std::mem;

/// As many bytes, at most, are offered to the builder at once.
const WINDOW: usize = 512;

/// How deep lists may nest in a text that [`read_trees`] reads. A list at the top is at depth 1.
pub const MAX_DEPTH: usize = 1000;

/// What a reader returns: the next tree, or why there is none.
#[derive(Drop)]
pub enum Next {
    /// The next tree, in the order of the text.
    Tree(OwnedTree),
    /// No complete tree is left, and more bytes may come.
    Wait,
    /// The text has ended without a fault, and no tree is left.
    End,
    /// No tree is left before the fault. Each later call returns it again.
    Fault(TextFault),
}

/// A reader of a text that comes in pieces (SMT-LIB 2.6, sections 3.1 and 3.2).
#[derive(Drop)]
pub struct Reader {
    /// How deep lists may nest.
    max_depth: usize,
    fed: u64,
    /// How many bytes the text has up to the end of the last tree that was returned.
    tree_end: u64,
    finished: bool,
    /// Where in a token the text is, and the bytes of the token so far.
    token: AtomState,
    bytes: Vec<u8>,
    builder: Builder,
    failure: Option<Failure<TextFlaw>>,
}

impl Reader {
    /// A reader that has been fed nothing, of a text whose lists nest no deeper than `max_depth`. A list at the
    /// top is at depth 1, so that with 0 no list is taken.
    pub fn new(alloc: Global, max_depth: usize) -> Self
        ensures stands { StandsFor result [] Nil }
        ensures finished { is_finished result ≡ false }
        ensures fault { fault_of result ≡ None }
        ensures fed { bytes_fed result ≡ 0 }
        ensures limit { depth_limit result ≡ max_depth }
        ensures end { end_of_trees result ≡ 0 }
        ensures ends { KeepsEnds result [] Nil }
    {
        Reader {
            max_depth,
            fed: 0,
            tree_end: 0,
            finished: false,
            token: AtomState::Nothing,
            bytes: Vec::new(alloc),
            builder: Builder::new(alloc),
            failure: None,
        }
    }

    /// Reads the next piece of the text, of any length, before `finish`. After a fault it only counts the
    /// bytes.
    pub fn feed(&mut self, piece: &[u8])
        requires unfinished { is_finished self.old ≡ false }
        requires room { bytes_fed self.old + length piece.now < 2 ^ 64 }
        ensures stands { (fed : List ℕ) (taken : Sexps) → StandsFor self.old fed taken
            → StandsFor self.new (fed ++ piece.now) taken }
        ensures finished { is_finished self.new ≡ false }
        ensures counted { bytes_fed self.new ≡ bytes_fed self.old + length piece.now }
        ensures limit { depth_limit self.new ≡ depth_limit self.old }
        ensures fault { (f : Fault) → fault_of self.old ≡ Some f → fault_of self.new ≡ Some f }
        ensures end { end_of_trees self.new ≡ end_of_trees self.old }
        ensures ends { (fed : List ℕ) (taken : Sexps) → StandsFor self.old fed taken
            → KeepsEnds self.old fed taken → KeepsEnds self.new (fed ++ piece.now) taken }
    {
        if self.failure.is_none() {
            self.builder.limit = self.fed + piece.len() as u64;
            self.failure = self.read(piece).err();
        }
        self.fed += piece.len() as u64;
    }

    /// The number of bytes fed so far, those after a fault among them.
    pub fn fed(&self) -> u64
        ensures count { result ≡ bytes_fed self.now }
        ensures stands { (fed : List ℕ) (taken : Sexps) → StandsFor self.now fed taken → result ≡ length fed }
    {
        self.fed
    }

    /// The number of bytes of the text up to the end of the last tree that `next` returned; 0 where it returned
    /// none. That tree stands between this place and the one before, after white space and comments.
    pub fn tree_end(&self) -> u64
        ensures end { result ≡ end_of_trees self.now }
        ensures reads { (fed : List ℕ) (taken : Sexps) → KeepsEnds self.now fed taken → (result ≤ length fed)
            × Reads (depth_limit self.now) true (take result fed) taken None }
    {
        self.tree_end
    }

    /// Ends the text: no more bytes come.
    pub fn finish(&mut self)
        requires unfinished { is_finished self.old ≡ false }
        ensures stands { (fed : List ℕ) (taken : Sexps) → StandsFor self.old fed taken
            → StandsFor self.new fed taken }
        ensures finished { is_finished self.new ≡ true }
        ensures counted { bytes_fed self.new ≡ bytes_fed self.old }
        ensures limit { depth_limit self.new ≡ depth_limit self.old }
        ensures fault { (f : Fault) → fault_of self.old ≡ Some f → fault_of self.new ≡ Some f }
        ensures end { end_of_trees self.new ≡ end_of_trees self.old }
        ensures ends { (fed : List ℕ) (taken : Sexps) → StandsFor self.old fed taken
            → KeepsEnds self.old fed taken → KeepsEnds self.new fed taken }
    {
        self.finished = true;
        if self.failure.is_none() {
            self.builder.limit = self.fed;
            self.failure = self.close_text().err();
        }
    }

    /// Returns the next tree, or why there is none. Once memory was refused, each call returns that fault.
    pub fn next(&mut self) -> Next
        ensures right { (fed : List ℕ) (taken : Sexps) → StandsFor self.old fed taken
            → Answers (depth_limit self.old) (is_finished self.old) fed taken result }
        ensures stands { (fed : List ℕ) (taken : Sexps) → StandsFor self.old fed taken
            → StandsFor self.new fed (with_answer taken result) }
        ensures finished { is_finished self.new ≡ is_finished self.old }
        ensures counted { bytes_fed self.new ≡ bytes_fed self.old }
        ensures limit { depth_limit self.new ≡ depth_limit self.old }
        ensures fault { fault_of self.new ≡ fault_of self.old }
        ensures found { IsFound (fault_of self.old) result }
        ensures refused { fault_of self.old ≡ Some OutOfMemory → result ≡ Next.Fault OutOfMemory }
        ensures fewer { FewerWait (trees_waiting self.old) (trees_waiting self.new) result }
        ensures end { EndStays (end_of_trees self.old) (end_of_trees self.new) result }
        ensures later { (fed : List ℕ) (taken : Sexps) → KeepsEnds self.old fed taken
            → end_of_trees self.old ≤ end_of_trees self.new }
        ensures ends { (fed : List ℕ) (taken : Sexps) → KeepsEnds self.old fed taken
            → KeepsEnds self.new fed (with_answer taken result) }
    {
        if self.is_refused() {
            return Next::Fault(TextFault::Memory);
        }
        if let Some(first) = self.builder.hand_out() {
            self.tree_end = first.end;
            return Next::Tree(first.tree);
        }
        match self.failure {
            Some(failure) => Next::Fault(TextFault::from(failure)),
            None if self.finished => Next::End,
            None => Next::Wait,
        }
    }

    /// Accepts a tree that is done with: a tree that is read later has its memory.
    pub fn give_back(&mut self, tree: OwnedTree)
        ensures stands { (fed : List ℕ) (taken : Sexps) → StandsFor self.old fed taken → StandsFor self.new fed taken }
        ensures ends { (fed : List ℕ) (taken : Sexps) → KeepsEnds self.old fed taken → KeepsEnds self.new fed taken }
        ensures finished { is_finished self.new ≡ is_finished self.old }
        ensures counted { bytes_fed self.new ≡ bytes_fed self.old }
        ensures limit { depth_limit self.new ≡ depth_limit self.old }
        ensures fault { fault_of self.new ≡ fault_of self.old }
        ensures waiting { trees_waiting self.new ≡ trees_waiting self.old }
        ensures end { end_of_trees self.new ≡ end_of_trees self.old }
    {
        self.builder.give_back(tree);
    }

    // Whether memory was refused.
    fn is_refused(&self) -> bool
        ensures { MatchBool result (self.now.failure ≡ Some failures.Memory)
            (self.now.failure ≢ Some failures.Memory) }
    {
        matches!(self.failure, Some(Failure::Memory))
    }

    // Reads a piece, where nothing has failed before.
    fn read(&mut self, piece: &[u8]) -> Result<(), Failure<TextFlaw>>
        requires { self.old.fed + length piece.now < 2 ^ 64 }
        ensures beside { IsBeside self.old self.new }
        ensures goes { GoesThrough self.old.max_depth (state_of self.old) self.old.fed piece.now result
            (state_of self.new) }
        ensures marks { UnlessRefused result
            (Marks self.old piece.now self.new) }
    {
        let mut place = 0;
        while place < piece.len() {
            match self.read_some(&piece[place..]) {
                Ok(count) => place += count,
                Err(Failure::Fault(refusal)) => {
                    return Err(Failure::Fault(refusal.at(self.fed + place as u64)));
                }
                Err(Failure::Memory) => return Err(Failure::Memory),
            }
        }
        Ok(())
    }

    // Reads some bytes of a text that is not empty, and returns how many.
    fn read_some(&mut self, text: &[u8]) -> Result<usize, Failure<Refusal>>
        requires { 0 < length text.now }
        ensures beside { IsBeside self.old self.new }
        ensures goes { GoesOver self.old.max_depth (state_of self.old) text.now result (state_of self.new) }
        ensures marks { UnlessRefused result (Marks self.old text.now self.new) }
    {
        match self.token {
            AtomState::Nothing if self.bytes.is_empty() => self.read_between(text),
            AtomState::InComment => self.read_comment(text),
            _ => self.read_run(text),
        }
    }

    // Reads on where no token has begun.
    fn read_between(&mut self, text: &[u8]) -> Result<usize, Failure<Refusal>>
        requires some { 0 < length text.now }
        requires token { self.old.token ≡ Nothing }
        requires bytes { self.old.bytes.items ≡ [] }
        ensures beside { IsBeside self.old self.new }
        ensures goes { GoesOver self.old.max_depth (state_of self.old) text.now result (state_of self.new) }
        ensures marks { UnlessRefused result (Marks self.old text.now self.new) }
    {
        let count = self.read_tokens(text)?;
        if count == 0 {
            return self.read_byte(text);
        }
        Ok(count)
    }

    // Reads the tokens that end within the first bytes of a text, and the white space between them.
    fn read_tokens(&mut self, text: &[u8]) -> Result<usize, Memory>
        requires token { self.old.token ≡ Nothing }
        requires bytes { self.old.bytes.items ≡ [] }
        ensures beside { IsBeside self.old self.new }
        ensures goes { IfOk result (λ count. GoesOn self.old text.now count self.new) }
        ensures marks { IfOk result (λ _. Marks self.old text.now self.new) }
    {
        let window = &text[..text.len().min(WINDOW)];
        let limit = self.builder.limit;
        // While the window is read, it is the piece.
        self.builder.limit = limit.saturating_sub((text.len() - window.len()) as u64);
        let result = self.read_window(window);
        self.builder.limit = limit;
        result
    }

    // Reads the tokens that end within a window, which is the rest of the piece, and the white space between them.
    fn read_window(&mut self, window: &[u8]) -> Result<usize, Memory>
        requires token { self.old.token ≡ Nothing }
        requires bytes { self.old.bytes.items ≡ [] }
        ensures beside { IsBeside self.old self.new }
        ensures goes { IfOk result (λ count. GoesOn self.old window.now count self.new) }
        ensures marks { IfOk result (λ _. Marks self.old window.now self.new) }
    {
        let mut at = self.builder.offer(window)?;
        let mut place = 0;
        while place < window.len() {
            let count = self.read_token(&window[place..], at)?;
            if count == 0 {
                return Ok(place);
            }
            place += count;
            at += count;
            // A list at the top takes the text with it.
            if self.builder.is_text_taken() {
                at = self.builder.offer(&window[place..])?;
            }
        }
        Ok(place)
    }

    // Reads an atom that ends, a parenthesis or white space at the beginning of a text that is not empty and that was
    // offered, at this place. It reads nothing where something else is there, or something rare.
    #[inline(always)]
    fn read_token(&mut self, text: &[u8], at: usize) -> Result<usize, Memory>
        requires some { 0 < length text.now }
        requires token { self.old.token ≡ Nothing }
        requires bytes { self.old.bytes.items ≡ [] }
        requires held { Holds self.old.builder.list at text.now }
        ensures beside { IsBeside self.old self.new }
        ensures goes { IfOk result (λ count. GoesOn self.old text.now count self.new) }
        ensures marks { IfOk result (λ _. Marks self.old text.now self.new) }
        ensures text { IfOk result (λ _. KeepsText self.old.builder self.new.builder) }
    {
        match text[0] {
            b'(' if self.builder.depth() < self.max_depth => {
                self.builder.begin_list()?;
                Ok(1)
            }
            first if is_letter(first) => self.read_atom(text, at, 0, 1, AtomState::Name),
            b' ' | b'\n' => Ok(1),
            b')' if self.builder.depth() > 0 => {
                self.builder.end_list(Mark {
                    left: text.len(),
                    read: 1,
                })?;
                Ok(1)
            }
            first if is_nonzero_digit(first) => {
                self.read_atom(text, at, 0, 1, AtomState::Digits)
            }
            b'#' => self.read_literal(text, at),
            b':' => self.read_atom(text, at, 1, 0, AtomState::KeywordName),
            _ => Ok(0),
        }
    }

    // Reads a literal of a bit vector, and the byte after it, where that ends it.
    #[inline(always)]
    fn read_literal(&mut self, text: &[u8], at: usize) -> Result<usize, Memory>
        requires some { 0 < length text.now }
        requires first { slice_index text.now 0 ≡ 35 }
        requires token { self.old.token ≡ Nothing }
        requires bytes { self.old.bytes.items ≡ [] }
        requires held { Holds self.old.builder.list at text.now }
        ensures beside { IsBeside self.old self.new }
        ensures goes { IfOk result (λ count. GoesOn self.old text.now count self.new) }
        ensures marks { IfOk result (λ _. Marks self.old text.now self.new) }
        ensures text { IfOk result (λ _. KeepsText self.old.builder self.new.builder) }
    {
        match text.get(1) {
            Some(b'x') => self.read_atom(text, at, 2, 0, AtomState::HexDigits),
            Some(b'b') => self.read_atom(text, at, 2, 0, AtomState::BinDigits),
            _ => Ok(0),
        }
    }

    // Reads an atom whose bytes come after a mark of this length, and the byte after it, where that ends it.
    // The first `known` bytes are known to be kept, and are not looked at again.
    #[inline(always)]
    fn read_atom(
        &mut self,
        text: &[u8],
        at: usize,
        mark: usize,
        known: usize,
        token: AtomState,
    ) -> Result<usize, Memory>
        requires within { mark + known ≤ length text.now }
        requires kept { (k : ℕ) → k < known → lex token (slice_index text.now (mark + k)) ≡ Push token }
        requires begins { BeginsAtom self.old.max_depth (state_of self.old) text.now mark token }
        requires token { self.old.token ≡ Nothing }
        requires bytes { self.old.bytes.items ≡ [] }
        requires held { Holds self.old.builder.list at text.now }
        ensures beside { IsBeside self.old self.new }
        ensures goes { IfOk result (λ count. GoesOn self.old text.now count self.new) }
        ensures marks { IfOk result (λ _. Marks self.old text.now self.new) }
        ensures text { IfOk result (λ _. KeepsText self.old.builder self.new.builder) }
    {
        let said = &text[mark..];
        let count = known + token.run_length(&said[known..]);
        let end = mark + count;
        if count == 0 || end >= text.len() {
            return Ok(0);
        }
        let closes = text[end] == b')' && self.builder.depth() > 0;
        if !closes && !is_white(text[end]) {
            return Ok(0);
        }
        let left = text.len();
        self.add_atom(token, said, count, at + mark, Mark { left, read: end })?;
        let read = end + 1;
        if closes {
            self.builder.end_list(Mark { left, read })?;
        }
        Ok(read)
    }

    // Adds the atom that a token of the first `count` bytes of a text is, if it is one. They were offered, at this
    // place. It ends at a mark.
    #[inline(always)]
    fn add_atom(
        &mut self,
        token: AtomState,
        text: &[u8],
        count: usize,
        at: usize,
        end: Mark,
    ) -> Result<(), Memory>
        requires within { count ≤ length text.now }
        requires held { Holds self.old.builder.list at (take count text.now) }
        ensures beside { IsBeside self.old self.new }
        ensures token { self.new.token ≡ self.old.token }
        ensures bytes { self.new.bytes ≡ self.old.bytes }
        ensures added { IfOk result (λ _. levels_of self.new.builder
            ≡ add_if (atom_of token (take count text.now)) (levels_of self.old.builder)) }
        ensures ready { IfOk result (λ _. EndsTree end self.old.builder self.new.builder) }
        ensures text { text_of self.new.builder.list ≡ text_of self.old.builder.list }
    {
        add_token(&mut self.builder, token, &text[..count], Some(at), end)
    }

    // Reads on in a comment.
    fn read_comment(&mut self, text: &[u8]) -> Result<usize, Failure<Refusal>>
        requires some { 0 < length text.now }
        requires token { self.old.token ≡ InComment }
        ensures beside { IsBeside self.old self.new }
        ensures goes { GoesOver self.old.max_depth (state_of self.old) text.now result (state_of self.new) }
        ensures marks { UnlessRefused result (Marks self.old text.now self.new) }
    {
        let count = comment_length(text);
        if count == 0 {
            return self.read_byte(text);
        }
        Ok(count)
    }

    // Reads on in a token that has begun.
    fn read_run(&mut self, text: &[u8]) -> Result<usize, Failure<Refusal>>
        requires { 0 < length text.now }
        ensures beside { IsBeside self.old self.new }
        ensures goes { GoesOver self.old.max_depth (state_of self.old) text.now result (state_of self.new) }
        ensures marks { UnlessRefused result (Marks self.old text.now self.new) }
    {
        let count = self.token.run_length(text);
        if count == 0 {
            return self.read_byte(text);
        }
        self.bytes.extend_from_slice(&text[..count])?;
        Ok(count)
    }

    // Reads the first byte of a text.
    fn read_byte(&mut self, text: &[u8]) -> Result<usize, Failure<Refusal>>
        requires { 0 < length text.now }
        ensures beside { IsBeside self.old self.new }
        ensures goes { GoesOver self.old.max_depth (state_of self.old) text.now result (state_of self.new) }
        ensures marks { UnlessRefused result (Marks self.old text.now self.new) }
    {
        self.advance(text[0], text.len())?;
        Ok(1)
    }

    // Reads one byte, the first of those left of a piece, where nothing has failed before.
    fn advance(&mut self, byte: u8, left: usize) -> Result<(), Failure<Refusal>>
        ensures beside { IsBeside self.old self.new }
        ensures goes { Goes (step self.old.max_depth (state_of self.old) byte) (refusal_of (lex self.old.token byte))
            (state_of self.old) result (state_of self.new) }
        ensures pushed { IfRead result self.old self.new (PushedBy left self.old self.new) }
    {
        match self.token.after(byte) {
            LexerStep::Push(token) => {
                self.bytes.push(byte)?;
                self.token = token;
                Ok(())
            }
            LexerStep::Skip(token) => {
                self.token = token;
                Ok(())
            }
            LexerStep::Finish(token) => {
                let read = token.own_end();
                self.finish_token(token, Mark { left, read })?;
                Ok(())
            }
            LexerStep::Open => self.begin_list(Mark { left, read: 0 }),
            LexerStep::Close => self.end_list(left),
            LexerStep::Stuck => Err(Failure::Fault(Refusal::Unfit)),
        }
    }

    // Ends the token that has begun, at a mark, and begins a list.
    fn begin_list(&mut self, end: Mark) -> Result<(), Failure<Refusal>>
        ensures beside { IsBeside self.old self.new }
        ensures goes { Goes (settle (act self.old.max_depth OpenParenthesis (flush (state_of self.old)))) TooDeep
            (state_of self.old) result (state_of self.new) }
        ensures pushed { IfRead result self.old self.new (Pushed end (state_of self.old) self.old self.new) }
    {
        if self.builder.depth() >= self.max_depth {
            return Err(Failure::Fault(Refusal::TooDeep));
        }
        self.finish_token(AtomState::Nothing, end)?;
        self.builder.begin_list()?;
        Ok(())
    }

    // Ends the token that has begun, and the innermost list, which ends with the first byte of those left of a
    // piece.
    fn end_list(&mut self, left: usize) -> Result<(), Failure<Refusal>>
        ensures beside { IsBeside self.old self.new }
        ensures goes { Goes (settle (act self.old.max_depth CloseParenthesis (flush (state_of self.old)))) Unfit
            (state_of self.old) result (state_of self.new) }
        ensures pushed { IfRead result self.old self.new
            (Pushed (record { left = left; read = 1 }) (state_of self.new) self.old self.new) }
    {
        if self.builder.depth() == 0 {
            return Err(Failure::Fault(Refusal::Unfit));
        }
        self.finish_token(AtomState::Nothing, Mark { left, read: 0 })?;
        self.builder.end_list(Mark { left, read: 1 })?;
        Ok(())
    }

    // Ends the token that has begun, at a mark, and adds its atom, if it has one.
    fn finish_token(&mut self, next: AtomState, end: Mark) -> Result<(), Memory>
        ensures beside { IsBeside self.old self.new }
        ensures finished { IfOk result (λ _. finished next (state_of self.old) ≡ state_of self.new) }
        ensures ready { IfOk result (λ _. EndsTree end self.old.builder self.new.builder) }
    {
        let token = mem::replace(&mut self.token, next);
        add_token(&mut self.builder, token, self.bytes.as_slice(), None, end)?;
        self.bytes.clear();
        Ok(())
    }

    // Ends the text.
    fn close_text(&mut self) -> Result<(), Failure<TextFlaw>>
        ensures beside { IsBeside self.old self.new }
        ensures ends { Ends (state_of self.old) self.old.fed result (state_of self.new) }
        ensures pushed { IfRead result self.old self.new (Pushed (record { left = 0; read = 0 })
            (state_of self.old) self.old self.new) }
    {
        if self.builder.depth() > 0 || !self.token.may_end() {
            return Err(Failure::Fault(TextFlaw::End { place: self.fed }));
        }
        let end = Mark { left: 0, read: 0 };
        self.finish_token(AtomState::Nothing, end)?;
        Ok(())
    }
}

/// The trees of a whole text; or its fault, or want of memory.
pub fn read_trees(alloc: Global, text: &[u8]) -> Result<Vec<OwnedTree>, TextFault>
    ensures { MatchResult result (λ trees. Reads max_depth true text.now (sexps_of trees.items) None)
        (λ fault. (flaw : TextFlaw) → flaw_in fault ≡ Some flaw
        → (trees : Sexps) × Reads max_depth true text.now trees (Some flaw)) }
{
    let mut reader = Reader::new(alloc, MAX_DEPTH);
    reader.feed(text);
    reader.finish();
    let mut trees = Vec::new(alloc);
    loop {
        match reader.next() {
            Next::Tree(tree) => trees.push(tree)?,
            Next::End => return Ok(trees),
            Next::Fault(fault) => return Err(fault),
            Next::Wait => unreachable!(),
        }
    }
}
