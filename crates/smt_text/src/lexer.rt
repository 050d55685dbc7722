//! Tokens, byte by byte. This file knows no lists.

ghost use Rattle.std.specs.Prelude.{◌≡◌, ◌<◌, ◌≤◌, ℕ, true, length, slice_index};
ghost use Rattle.smt_text.specs.Internal.LexerStates as machine;
ghost use Rattle.smt_text.specs.Lexical.{is_line_end};
ghost use Rattle.smt_text.specs.declared.lexer.AtomState.TheVariants.{Zero, Digits, Hash, InText, InBars};
ghost use Rattle.smt_text.specs.declared.lexer.AtomState.TheVariants.{InComment};
ghost use Rattle.smt_text.specs.declared.lexer.LexerStep.TheVariants.{Push, Skip};

use crate::byte_class::{
    is_binary_digit, is_comment_byte, is_digit, is_hexadecimal_digit, is_letter, is_nonzero_digit,
    is_quoted_byte, is_symbol_byte, is_text_byte, is_white,
};
use memchr::memchr2;

/// The state of the lexer: where in a token (SMT-LIB 2.6, section 3.1) or in a comment the text is.
#[derive(Clone, Copy)]
pub enum AtomState {
    /// No token has begun.
    Nothing,
    /// `0`, which no digit may follow.
    Zero,
    /// Digits of a numeral that does not begin with `0`.
    Digits,
    /// The point of a decimal, which a digit must follow.
    Point,
    /// Digits after the point.
    Fraction,
    /// `#`
    Hash,
    /// `#x`, which a digit must follow.
    HexMark,
    HexDigits,
    /// `#b`, which a digit must follow.
    BinMark,
    BinDigits,
    /// A simple symbol or a reserved word.
    Name,
    /// `:`, which a name must follow.
    Colon,
    KeywordName,
    /// A string literal, after its first quote.
    InText,
    /// A quote in a string literal: its last one, or the first of two that stand for one.
    TextQuote,
    /// A quoted symbol, after its first bar.
    InBars,
    /// After the last bar of a quoted symbol, which is complete.
    AfterBar,
    InComment,
}

/// What a byte does to the token that has begun.
#[derive(Clone, Copy)]
pub enum LexerStep {
    /// The byte is kept, and the token goes on.
    Push(AtomState),
    /// The byte is not kept, and the token goes on.
    Skip(AtomState),
    /// The token has ended.
    Finish(AtomState),
    /// The token has ended, and a list begins.
    Open,
    /// The token has ended, and so does the innermost list.
    Close,
    /// No text continues with the byte.
    Stuck,
}

impl LexerStep {
    /// Where in a token the text is after the byte; where no text continues with it, in none.
    pub(crate) fn next(self) -> AtomState
        ensures { result ≡ machine.token_behind self }
    {
        match self {
            LexerStep::Push(next) | LexerStep::Skip(next) | LexerStep::Finish(next) => next,
            LexerStep::Open | LexerStep::Close | LexerStep::Stuck => AtomState::Nothing,
        }
    }
}

impl AtomState {
    /// What the next byte does.
    pub(crate) fn after(self, byte: u8) -> LexerStep
        ensures { result ≡ machine.lex self byte }
    {
        match self {
            AtomState::Nothing => begun_by(byte),
            AtomState::Zero => after_zero(byte),
            AtomState::Digits => after_digits(byte),
            AtomState::Point if is_digit(byte) => LexerStep::Push(AtomState::Fraction),
            AtomState::Fraction if is_digit(byte) => LexerStep::Push(AtomState::Fraction),
            AtomState::Hash => after_hash(byte),
            AtomState::HexMark if is_hexadecimal_digit(byte) => {
                LexerStep::Push(AtomState::HexDigits)
            }
            AtomState::HexDigits if is_hexadecimal_digit(byte) => {
                LexerStep::Push(AtomState::HexDigits)
            }
            AtomState::BinMark if is_binary_digit(byte) => LexerStep::Push(AtomState::BinDigits),
            AtomState::BinDigits if is_binary_digit(byte) => LexerStep::Push(AtomState::BinDigits),
            AtomState::Name if is_symbol_byte(byte) => LexerStep::Push(AtomState::Name),
            AtomState::Colon if is_symbol_byte(byte) => LexerStep::Push(AtomState::KeywordName),
            AtomState::KeywordName if is_symbol_byte(byte) => {
                LexerStep::Push(AtomState::KeywordName)
            }
            AtomState::InText => in_text(byte),
            AtomState::TextQuote if byte == b'"' => LexerStep::Push(AtomState::InText),
            AtomState::InBars => in_bars(byte),
            AtomState::InComment => in_comment(byte),
            AtomState::Point | AtomState::HexMark | AtomState::BinMark | AtomState::Colon => {
                LexerStep::Stuck
            }
            AtomState::Fraction
            | AtomState::HexDigits
            | AtomState::BinDigits
            | AtomState::Name
            | AtomState::KeywordName
            | AtomState::TextQuote
            | AtomState::AfterBar => separated(byte),
        }
    }

    /// 1 where the byte that ended a token, and after which the text goes on as this, belongs to the token, and
    /// else 0: the second bar of a quoted symbol does, white space and a semicolon do not.
    pub(crate) fn own_end(self) -> usize
        ensures { result ≡ machine.own_end self }
    {
        usize::from(matches!(self, AtomState::AfterBar))
    }

    /// The number of bytes at the beginning of a text that the token keeps without changing its state.
    #[inline]
    pub(crate) fn run_length(self, text: &[u8]) -> usize
        ensures within { result ≤ length text.now }
        ensures kept { (k : ℕ) → k < result → machine.lex self (slice_index text.now k) ≡ Push self }
    {
        for (i, byte) in text.iter().enumerate() {
            if !self.keeps(*byte) {
                return i;
            }
        }
        text.len()
    }

    #[inline]
    fn keeps(self, byte: u8) -> bool
        ensures { result ≡ true → machine.lex self byte ≡ Push self }
    {
        match self {
            AtomState::Name | AtomState::KeywordName => is_symbol_byte(byte),
            AtomState::InText => byte != b'"' && is_text_byte(byte),
            AtomState::InBars => is_quoted_byte(byte),
            AtomState::HexDigits => is_hexadecimal_digit(byte),
            AtomState::BinDigits => is_binary_digit(byte),
            AtomState::Digits | AtomState::Fraction => is_digit(byte),
            _ => false,
        }
    }

    /// Whether a text may end here.
    pub(crate) fn may_end(self) -> bool
        ensures { result ≡ machine.may_end self }
    {
        match self {
            AtomState::Point
            | AtomState::Hash
            | AtomState::HexMark
            | AtomState::BinMark
            | AtomState::Colon
            | AtomState::InText
            | AtomState::InBars => false,
            AtomState::Nothing
            | AtomState::Zero
            | AtomState::Digits
            | AtomState::Fraction
            | AtomState::HexDigits
            | AtomState::BinDigits
            | AtomState::Name
            | AtomState::KeywordName
            | AtomState::TextQuote
            | AtomState::AfterBar
            | AtomState::InComment => true,
        }
    }
}

// What the first byte of a token does, or a byte between tokens.
fn begun_by(byte: u8) -> LexerStep
    ensures { result ≡ machine.begun_by byte }
{
    if byte == b'0' {
        LexerStep::Push(AtomState::Zero)
    } else if is_nonzero_digit(byte) {
        LexerStep::Push(AtomState::Digits)
    } else if byte == b'"' {
        LexerStep::Skip(AtomState::InText)
    } else if byte == b'|' {
        LexerStep::Skip(AtomState::InBars)
    } else if byte == b'#' {
        LexerStep::Skip(AtomState::Hash)
    } else if byte == b':' {
        LexerStep::Skip(AtomState::Colon)
    } else if is_letter(byte) {
        LexerStep::Push(AtomState::Name)
    } else {
        separated(byte)
    }
}

// What a byte does that may end the token before it.
fn separated(byte: u8) -> LexerStep
    ensures { result ≡ machine.separated byte }
{
    if byte == b'(' {
        LexerStep::Open
    } else if byte == b')' {
        LexerStep::Close
    } else if byte == b';' {
        LexerStep::Finish(AtomState::InComment)
    } else if is_white(byte) {
        LexerStep::Finish(AtomState::Nothing)
    } else {
        LexerStep::Stuck
    }
}

fn after_zero(byte: u8) -> LexerStep
    ensures { result ≡ machine.lex Zero byte }
{
    if byte == b'.' {
        LexerStep::Push(AtomState::Point)
    } else {
        separated(byte)
    }
}

fn after_digits(byte: u8) -> LexerStep
    ensures { result ≡ machine.lex Digits byte }
{
    if is_digit(byte) {
        LexerStep::Push(AtomState::Digits)
    } else if byte == b'.' {
        LexerStep::Push(AtomState::Point)
    } else {
        separated(byte)
    }
}

fn after_hash(byte: u8) -> LexerStep
    ensures { result ≡ machine.lex Hash byte }
{
    if byte == b'x' {
        LexerStep::Skip(AtomState::HexMark)
    } else if byte == b'b' {
        LexerStep::Skip(AtomState::BinMark)
    } else {
        LexerStep::Stuck
    }
}

fn in_text(byte: u8) -> LexerStep
    ensures { result ≡ machine.lex InText byte }
{
    if byte == b'"' {
        LexerStep::Skip(AtomState::TextQuote)
    } else if is_text_byte(byte) {
        LexerStep::Push(AtomState::InText)
    } else {
        LexerStep::Stuck
    }
}

fn in_bars(byte: u8) -> LexerStep
    ensures { result ≡ machine.lex InBars byte }
{
    if is_quoted_byte(byte) {
        LexerStep::Push(AtomState::InBars)
    } else if byte == b'|' {
        LexerStep::Finish(AtomState::AfterBar)
    } else {
        LexerStep::Stuck
    }
}

fn in_comment(byte: u8) -> LexerStep
    ensures { result ≡ machine.lex InComment byte }
{
    if is_comment_byte(byte) {
        LexerStep::Skip(AtomState::InComment)
    } else {
        LexerStep::Finish(AtomState::Nothing)
    }
}

/// The number of bytes at the beginning of a text that belong to a comment that has begun.
pub(crate) fn comment_length(text: &[u8]) -> usize
    ensures within { result ≤ length text.now }
    ensures skipped { (k : ℕ) → k < result → machine.lex InComment (slice_index text.now k) ≡ Skip InComment }
    ensures stops { result < length text.now → is_line_end (slice_index text.now result) ≡ true }
{
    match memchr2(b'\n', b'\r', text) {
        Some(end) => end,
        None => text.len(),
    }
}
