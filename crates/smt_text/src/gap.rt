//! White space and comments (SMT-LIB 2.6, section 3.1). This file knows no tokens.

ghost use Rattle.std.specs.Prelude.{◌≡◌, ◌≤◌, ℕ, length, take, true, None};
ghost use Rattle.smt_text.specs.Reading.{Reads};
ghost use Rattle.smt_text.specs.Spans.{IsGapLength};
ghost use Rattle.smt_trees.specs.Sexp.{Nil};

use crate::byte_class::is_white;
use crate::lexer::comment_length;

/// How many bytes of white space and comments a text begins with. A comment reaches to the end of its line,
/// that included, or to that of the text.
pub fn gap_length(text: &[u8]) -> usize
    ensures gap { IsGapLength text.now result }
    ensures within { result ≤ length text.now }
    ensures reads { (max_depth : ℕ) → Reads max_depth true (take result text.now) Nil None }
{
    let mut place = 0;
    while place < text.len() {
        if is_white(text[place]) {
            place += 1;
        } else if text[place] == b';' {
            let end = place + comment_length(&text[place..]);
            if end == text.len() {
                return end;
            }
            place = end + 1;
        } else {
            return place;
        }
    }
    place
}
