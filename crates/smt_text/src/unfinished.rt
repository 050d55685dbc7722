//! What is open at the end of a text that ends inside a tree. This file makes no tree.

ghost use Rattle.std.specs.Prelude.{◌≡◌, ◌+◌, ℕ, List, length, IfOk, OnOk};
ghost use Rattle.smt_text.specs.Internal.Scanning.{beginning_of, IsAt, IsScan};
ghost use Rattle.smt_text.specs.OpenPlaces.{AreOpenIn, IsOpenToken};

use crate::lexer::{AtomState, LexerStep};
use smt_faults::Memory;
use std::alloc::Global;

/// Where that begins which is open at the end of a text, in bytes from 0.
#[derive(Clone, Copy)]
pub struct OpenPlaces {
    /// The outermost list that is not closed.
    pub outermost: Option<u64>,
    /// The innermost list that is not closed.
    pub innermost: Option<u64>,
    /// The string or the quoted symbol that does not end.
    pub token: Option<u64>,
}

/// Where the lists and the token begin that are open at the end of a text, which ends inside a tree.
pub fn open_places(alloc: Global, text: &[u8]) -> Result<OpenPlaces, Memory>
    ensures { IfOk result (λ places. AreOpenIn text.now places) }
{
    let mut scan = Scan {
        token: AtomState::Nothing,
        begun: 0,
        lists: Vec::new(alloc),
    };
    for (place, byte) in text.iter().enumerate() {
        scan.take(*byte, place as u64)?;
    }
    Ok(scan.open())
}

/// How far the text was read.
#[derive(Drop)]
struct Scan {
    /// Where in a token the text is, and the place where the token began.
    token: AtomState,
    begun: u64,
    /// The places where the lists begin that are not closed, the outermost first.
    lists: Vec<u64>,
}

impl Scan {
    // Reads the byte at a place. One that cannot be there ends the token, as white space does.
    fn take(&mut self, byte: u8, place: u64) -> Result<(), Memory>
        ensures { (text : List ℕ) → IsAt text byte place → IsScan text place self.old
            → OnOk result (IsScan text (place + 1) self.new) }
    {
        let step = self.token.after(byte);
        self.begun = self.beginning(place);
        self.token = step.next();
        match step {
            LexerStep::Open => self.lists.push(place)?,
            LexerStep::Close => {
                let _closed = self.lists.pop();
            }
            LexerStep::Push(_) | LexerStep::Skip(_) | LexerStep::Finish(_) | LexerStep::Stuck => {}
        }
        Ok(())
    }

    // Where the token begins to which the byte at a place belongs.
    fn beginning(&self, place: u64) -> u64
        ensures { result ≡ beginning_of self.now.token self.now.begun place }
    {
        if matches!(self.token, AtomState::Nothing) {
            return place;
        }
        self.begun
    }

    // What is open.
    fn open(&self) -> OpenPlaces
        ensures { (text : List ℕ) → IsScan text (length text) self.now → AreOpenIn text result }
    {
        OpenPlaces {
            outermost: self.lists.first().copied(),
            innermost: self.lists.last().copied(),
            token: self.open_token(),
        }
    }

    // Where the string or the quoted symbol begins that has not ended.
    fn open_token(&self) -> Option<u64>
        ensures { (text : List ℕ) → IsScan text (length text) self.now → IsOpenToken text result }
    {
        match self.token {
            AtomState::InText | AtomState::InBars => Some(self.begun),
            _ => None,
        }
    }
}
