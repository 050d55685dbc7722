//! Parts of a text, by their places. This file knows no tokens.

ghost use Rattle.std.specs.Prelude.{◌≡◌};
ghost use Rattle.smt_text.specs.Spans.{bytes_in};

/// A part of a text, in bytes from 0.
#[derive(Clone, Copy)]
pub struct Span {
    /// The place of the first byte.
    pub start: u64,
    /// The place after the last byte.
    pub end: u64,
}

/// The bytes of a part of a text; none where the text has no such part.
pub fn bytes_at(text: &[u8], span: Span) -> &[u8]
    ensures { result.now ≡ bytes_in text.now span }
{
    if span.start <= span.end && span.end <= text.len() as u64 {
        &text[span.start as usize..span.end as usize]
    } else {
        &[]
    }
}
