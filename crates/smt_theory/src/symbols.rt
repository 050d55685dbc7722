//! Comparison of symbols with words. This file knows no operator and no logic.

ghost use Rattle.std.specs.Prelude.{◌≡◌, bytes_eq, get_or};

/// Whether the symbol is this word.
#[inline(always)]
pub(crate) fn is_named(symbol: &[u8], word: &[u8]) -> bool
    ensures { result ≡ bytes_eq symbol.now word.now }
{
    symbol == word
}

/// The byte at a place of the symbol, from 0; 0 after its end.
#[inline(always)]
pub(crate) fn byte_at(symbol: &[u8], place: usize) -> u8
    ensures { result ≡ get_or symbol.now place 0 }
{
    match symbol.get(place) {
        Some(byte) => *byte,
        None => 0,
    }
}
