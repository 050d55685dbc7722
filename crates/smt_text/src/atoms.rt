//! Atoms, as tokens spell them. This file knows no lists.

ghost use Rattle.std.specs.Prelude.{◌≡◌, IfOk, IfSome};
ghost use Rattle.smt_text.specs.Internal.LexerStates.{add, add_if, atom_of, name_or_word, word_named};
ghost use Rattle.smt_text.specs.Internal.ReaderState.{levels_of, EndsTree};
ghost use Rattle.smt_trees.specs.TapeView.{text_of, Holds};

use crate::builder::Builder;
use crate::lexer::AtomState;
use crate::mark::Mark;
use crate::reserved::word_of;
use smt_faults::Memory;
use smt_trees::Kind;

/// Adds the atom that a token of these bytes is, if it is one. The token ends at a mark. Its bytes may be among those
/// that were offered, at this place.
#[inline(always)]
pub(crate) fn add_token(
    builder: &mut Builder,
    token: AtomState,
    bytes: &[u8],
    at: Option<usize>,
    end: Mark,
) -> Result<(), Memory>
    requires { IfSome at (λ place. Holds builder.old.list place bytes.now) }
    ensures levels { IfOk result
        (λ _. levels_of builder.new ≡ add_if (atom_of token bytes.now) (levels_of builder.old)) }
    ensures ready { IfOk result (λ _. EndsTree end builder.old builder.new) }
    ensures limit { builder.new.limit ≡ builder.old.limit }
    ensures text { IfSome at (λ _. text_of builder.new.list ≡ text_of builder.old.list) }
{
    match token {
        AtomState::Name => add_name(builder, bytes, at, end),
        AtomState::Zero | AtomState::Digits => builder.add_atom(Kind::Numeral, bytes, at, end),
        AtomState::Fraction => builder.add_atom(Kind::Decimal, bytes, at, end),
        AtomState::HexDigits => builder.add_atom(Kind::Hex, bytes, at, end),
        AtomState::BinDigits => builder.add_atom(Kind::Bin, bytes, at, end),
        AtomState::KeywordName => builder.add_atom(Kind::Keyword, bytes, at, end),
        AtomState::TextQuote => builder.add_atom(Kind::Text, bytes, at, end),
        AtomState::InBars => builder.add_atom(Kind::Symbol, bytes, at, end),
        AtomState::Nothing
        | AtomState::Point
        | AtomState::Hash
        | AtomState::HexMark
        | AtomState::BinMark
        | AtomState::Colon
        | AtomState::InText
        | AtomState::AfterBar
        | AtomState::InComment => Ok(()),
    }
}

// Adds the reserved word or the simple symbol that these bytes spell.
#[inline(always)]
fn add_name(builder: &mut Builder, bytes: &[u8], at: Option<usize>, end: Mark) -> Result<(), Memory>
    requires { IfSome at (λ place. Holds builder.old.list place bytes.now) }
    ensures levels { IfOk result (λ _. levels_of builder.new
        ≡ add (name_or_word (word_named bytes.now) bytes.now) (levels_of builder.old)) }
    ensures ready { IfOk result (λ _. EndsTree end builder.old builder.new) }
    ensures limit { builder.new.limit ≡ builder.old.limit }
    ensures text { IfSome at (λ _. text_of builder.new.list ≡ text_of builder.old.list) }
{
    match word_of(bytes) {
        Some(word) => builder.add_word(word, end),
        None => builder.add_atom(Kind::Symbol, bytes, at, end),
    }
}
