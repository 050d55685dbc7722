//! Classes of bytes (SMT-LIB 2.6, section 3.1). This file knows no tokens.

ghost use Rattle.std.specs.Prelude.{◌≡◌};
ghost use Rattle.smt_text.specs.Internal.ByteKinds.{kinds};
ghost use Rattle.smt_text.specs.Lexical as lexical;

/// Whether the byte is white space: a tab, a line feed, a carriage return or a space.
pub(crate) fn is_white(byte: u8) -> bool
    ensures { result ≡ lexical.is_white byte }
{
    matches!(byte, b'\t' | b'\n' | b'\r' | b' ')
}

/// Whether the byte is `0` to `9`.
pub(crate) fn is_digit(byte: u8) -> bool
    ensures { result ≡ lexical.is_digit byte }
{
    matches!(byte, b'0'..=b'9')
}

/// Whether the byte is `1` to `9`.
pub(crate) fn is_nonzero_digit(byte: u8) -> bool
    ensures { result ≡ lexical.is_nonzero_digit byte }
{
    matches!(byte, b'1'..=b'9')
}

/// Whether the byte is `0` to `9`, `a` to `f` or `A` to `F`.
pub(crate) fn is_hexadecimal_digit(byte: u8) -> bool
    ensures { result ≡ lexical.is_hexadecimal_digit byte }
{
    matches!(byte, b'0'..=b'9' | b'a'..=b'f' | b'A'..=b'F')
}

/// Whether the byte is `0` or `1`.
pub(crate) fn is_binary_digit(byte: u8) -> bool
    ensures { result ≡ lexical.is_binary_digit byte }
{
    matches!(byte, b'0' | b'1')
}

// The class of each byte in simple symbols: `a` for a letter, `0` for a digit and a space for any other byte.
#[inline(always)]
fn kinds() -> &'static [u8]
    ensures { result.now ≡ kinds }
{
    b"                                 a  aaa   aa aaa0000000000  aaaaaaaaaaaaaaaaaaaaaaaaaaaaaaa   aa aaaaaaaaaaaaaaaaaaaaaaaaaa   a                                                                                                                                 "
}

/// Whether the byte may occur in a simple symbol, and is no digit.
#[inline(always)]
pub(crate) fn is_letter(byte: u8) -> bool
    ensures { result ≡ lexical.is_letter byte }
{
    kinds()[byte as usize] == b'a'
}

/// Whether the byte may occur in a simple symbol.
#[inline(always)]
pub(crate) fn is_symbol_byte(byte: u8) -> bool
    ensures { result ≡ lexical.is_symbol_byte byte }
{
    kinds()[byte as usize] != b' '
}

/// Whether the byte may occur between the quotes of a string literal: white space, or a byte that can be
/// printed.
pub(crate) fn is_text_byte(byte: u8) -> bool
    ensures { result ≡ lexical.is_text_byte byte }
{
    byte >= b' ' && byte != 127 || is_white(byte)
}

/// Whether the byte may occur between the bars of a quoted symbol.
pub(crate) fn is_quoted_byte(byte: u8) -> bool
    ensures { result ≡ lexical.is_quoted_byte byte }
{
    is_text_byte(byte) && byte != b'|' && byte != b'\\'
}

/// Whether the byte may occur in a comment: any byte but a line feed and a carriage return.
pub(crate) fn is_comment_byte(byte: u8) -> bool
    ensures { result ≡ lexical.is_comment_byte byte }
{
    byte != b'\n' && byte != b'\r'
}
