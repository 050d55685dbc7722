//! Where the atoms of a text stand, at every depth. This file makes no tree, and knows no kind of atom.

ghost use Rattle.std.specs.Prelude.{◌≡◌, ◌+◌, ◌-◌, ◌<◌, ◌^◌, ℕ, List, IfOk, OnOk};
ghost use Rattle.smt_text.specs.Atoms.{is_inside, AreAtoms};
ghost use Rattle.smt_text.specs.Internal.AtomScanning.{IsAtomScan};
ghost use Rattle.smt_text.specs.Internal.LexerStates.{own_end};
ghost use Rattle.smt_text.specs.Internal.Scanning.{IsAt};

use crate::lexer::AtomState;
use crate::span::Span;
use smt_faults::Memory;
use std::alloc::Global;

/// Where the atoms of a text stand that are complete, in their order, in lists too. One that cannot go on ends
/// before the byte that cannot be there.
pub fn atom_spans(alloc: Global, text: &[u8]) -> Result<Vec<Span>, Memory>
    ensures { IfOk result (λ spans. AreAtoms text.now spans.items) }
{
    let mut scan = AtomScan {
        token: AtomState::Nothing,
        begun: 0,
        spans: Vec::new(alloc),
    };
    for (place, byte) in text.iter().enumerate() {
        scan.take(*byte, place as u64)?;
    }
    Ok(scan.spans)
}

/// How far the text was read.
#[derive(Drop)]
struct AtomScan {
    /// Where in a token the text is, and the place where the last atom began.
    token: AtomState,
    begun: u64,
    /// Where the atoms stand that have ended.
    spans: Vec<Span>,
}

impl AtomScan {
    // Reads the byte at a place.
    fn take(&mut self, byte: u8, place: u64) -> Result<(), Memory>
        requires { place < 2 ^ 64 - 1 }
        ensures { (text : List ℕ) → IsAt text byte place → IsAtomScan text place self.old
            → OnOk result (IsAtomScan text (place + 1) self.new) }
    {
        let next = self.token.after(byte).next();
        if !is_inside(self.token) {
            self.begun = place;
        } else if !is_inside(next) {
            let end = place_behind(place, next);
            self.spans.push(Span {
                start: self.begun,
                end,
            })?;
        }
        self.token = next;
        Ok(())
    }
}

// Whether a text is in an atom.
fn is_inside(token: AtomState) -> bool
    ensures { result ≡ is_inside token }
{
    !matches!(
        token,
        AtomState::Nothing | AtomState::AfterBar | AtomState::InComment
    )
}

// Where an atom ends of which the byte at a place shows the end, after which the text goes on as this.
fn place_behind(place: u64, next: AtomState) -> u64
    requires { place < 2 ^ 64 - 1 }
    ensures { result ≡ place + own_end next }
{
    if next.own_end() == 0 {
        place
    } else {
        place + 1
    }
}
