//! Lines and columns of the bytes of a text. This file knows no tokens.

ghost use Rattle.std.specs.Prelude.{◌≡◌, [], ◌∷◌, take};
ghost use Rattle.smt_text.specs.Positions.{after, beginning, position_after};

/// The line and the column of a byte of a text, or of its end. Lines count from 1, and each ends with a line
/// feed, byte 10. Columns count the bytes of a line, from 1. A number over 2^64 - 1 is told as that.
#[derive(Clone, Copy)]
pub struct Position {
    pub line: u64,
    pub column: u64,
}

impl Position {
    /// The beginning of a text: line 1, column 1.
    pub fn first() -> Position
        ensures { result ≡ beginning }
    {
        Position { line: 1, column: 1 }
    }

    /// The position of a byte of a text, which counts from 0. Where the text has no such byte, the position of
    /// its end.
    pub fn of(text: &[u8], byte: u64) -> Position
        ensures { result ≡ position_after (take byte text.now) }
    {
        let before = byte.min(text.len() as u64) as usize;
        Position::first().after(&text[..before])
    }

    /// The position after bytes of which the first one stands here.
    pub fn after(self, bytes: &[u8]) -> Position
        ensures { result ≡ after self bytes.now }
    {
        let mut here = self;
        for byte in bytes {
            here = here.after_byte(*byte);
        }
        here
    }

    // The position after one byte that stands here.
    fn after_byte(self, byte: u8) -> Position
        ensures { result ≡ after self (byte ∷ []) }
    {
        if byte == b'\n' {
            Position {
                line: self.line.saturating_add(1),
                column: 1,
            }
        } else {
            Position {
                line: self.line,
                column: self.column.saturating_add(1),
            }
        }
    }
}
