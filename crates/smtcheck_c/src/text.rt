//! The text of lines, and texts in the caller's buffer. This file does not know what a line means.

ghost use Rattle.std.specs.Prelude.{◌≡◌, ◌<◌, ◌≤◌, ◌++◌, length, drop, IfOk, string_bytes};
ghost use Rattle.smt_dialogue.specs.Run as runs;
ghost use Rattle.smtcheck_c.specs.Told.{IsPut};

use smt_dialogue::{Line, Memory};
use std::alloc::Global;

/// The text of lines, each followed by byte 10.
pub(crate) fn text_of_lines(alloc: Global, lines: &[Line]) -> Result<String, Memory>
    ensures { IfOk result (λ text. string_bytes text ≡ runs.text_of_lines lines.now) }
{
    let mut text = String::new(alloc);
    for line in lines {
        let shown = format!(in alloc; "{line}\n")?;
        text.push_str(shown.as_str())?;
    }
    Ok(text)
}

/// Puts a text at the front of a buffer if there is room for all of it; otherwise the buffer stays as it was.
/// Returns how many bytes the text has.
pub(crate) fn put_text(text: &[u8], room: &mut [u8]) -> usize
    ensures wanted { result ≡ length text.now }
    ensures put { IsPut text.now room.old room.new }
{
    let wanted = text.len();
    if wanted <= room.len() {
        room[..wanted].copy_from_slice(text);
    }
    wanted
}
