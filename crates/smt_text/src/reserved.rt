//! The reserved word that some bytes spell. Length and first byte select the candidates, since every symbol
//! of a text is looked up. This file knows no text.

ghost use Rattle.std.specs.Prelude.{◌≡◌, ◌≢◌, MatchOption};
ghost use Rattle.smt_text.specs.Internal.LexerStates as machine;
ghost use Rattle.smt_text.specs.Internal.LexerStates.{word_named};
ghost use Rattle.smt_trees.specs.Reserved.{spelling_of};
ghost use Rattle.smt_trees.specs.declared.reserved.Word.{Word};

use smt_trees::{Word, spelling};

// The reserved words of this length that begin with this byte.
#[inline(always)]
fn words_like(length: usize, first: u8) -> &'static [Word]
    ensures { result.now ≡ machine.words_like length first }
{
    match (length, first) {
        (1, b'!') => &[Word::Bang],
        (1, b'_') => &[Word::Underscore],
        (2, b'a') => &[Word::As],
        (3, b'l') => &[Word::Let],
        (3, b'p') => &[Word::Par, Word::Pop],
        (4, b'e') => &[Word::Echo, Word::Exit],
        (4, b'p') => &[Word::Push],
        (5, b'm') => &[Word::Match],
        (5, b'r') => &[Word::Reset],
        (6, b'B') => &[Word::Binary],
        (6, b'S') => &[Word::String],
        (6, b'a') => &[Word::Assert],
        (6, b'e') => &[Word::Exists],
        (6, b'f') => &[Word::Forall],
        (7, b'D') => &[Word::Decimal],
        (7, b'N') => &[Word::Numeral],
        (8, b'g') => &[Word::GetInfo],
        (8, b's') => &[Word::SetInfo],
        (9, b'c') => &[Word::CheckSat],
        (9, b'g') => &[Word::GetModel, Word::GetProof, Word::GetValue],
        (9, b's') => &[Word::SetLogic],
        (10, b'd') => &[Word::DefineFun],
        (10, b'g') => &[Word::GetOption],
        (10, b's') => &[Word::SetOption],
        (11, b'H') => &[Word::Hexadecimal],
        (11, b'd') => &[Word::DeclareFun, Word::DefineSort],
        (12, b'd') => &[Word::DeclareSort],
        (13, b'd') => &[Word::DeclareConst],
        (14, b'd') => &[Word::DefineFunRec],
        (14, b'g') => &[Word::GetAssertions, Word::GetAssignment, Word::GetUnsatCore],
        (15, b'd') => &[Word::DefineFunsRec],
        (16, b'd') => &[Word::DeclareDatatype],
        (16, b'r') => &[Word::ResetAssertions],
        (17, b'd') => &[Word::DeclareDatatypes],
        (18, b'c') => &[Word::CheckSatAssuming],
        (21, b'g') => &[Word::GetUnsatAssumptions],
        _ => &[],
    }
}

/// The reserved word of this spelling, if there is one.
#[inline(always)]
pub(crate) fn word_of(bytes: &[u8]) -> Option<Word>
    ensures named { result ≡ word_named bytes.now }
    ensures written { MatchOption result ((word : Word) → bytes.now ≢ spelling_of word)
        (λ word. bytes.now ≡ spelling_of word) }
{
    let Some(first) = bytes.first() else {
        return None;
    };
    for word in words_like(bytes.len(), *first) {
        if spelling(*word) == bytes {
            return Some(*word);
        }
    }
    None
}
