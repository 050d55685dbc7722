//! Readers and writers of which one call fails. This file knows no dialogue.

use std::io;
use std::io::{ErrorKind, Read, Write};

/// The calls of a reader or a writer, and which of them fails.
#[derive(Clone, Copy)]
pub(crate) struct Calls {
    /// How many calls come before the one that fails.
    before: u64,
    /// Whether the call that fails was made.
    failed: bool,
    /// How many calls were made.
    made: u64,
}

impl Calls {
    /// Calls of which the one of this number fails, from 1.
    pub(crate) fn failing(number: u64) -> Calls {
        Calls {
            before: number.saturating_sub(1),
            failed: false,
            made: 0,
        }
    }

    /// Calls of which none fails in a run.
    pub(crate) fn sound() -> Calls {
        Calls {
            before: u64::MAX,
            failed: false,
            made: 0,
        }
    }

    // Counts a call, and returns whether it fails.
    fn fails(&mut self) -> bool {
        self.made = self.made.saturating_add(1);
        if self.before == 0 {
            self.failed = true;
            return true;
        }
        self.before -= 1;
        false
    }
}

/// A reader of a text that fills the buffer as far as the text goes.
#[derive(Drop)]
pub(crate) struct Text<'a> {
    left: &'a [u8],
    calls: Calls,
}

impl<'a> Text<'a> {
    pub(crate) fn new(text: &'a [u8], calls: Calls) -> Text<'a> {
        Text { left: text, calls }
    }

    /// Whether the call that fails was made.
    pub(crate) fn is_failed(&self) -> bool {
        self.calls.failed
    }

    /// How many calls were made.
    pub(crate) fn made(&self) -> u64 {
        self.calls.made
    }
}

impl Read for Text<'_> {
    fn read(&mut self, buf: &mut [u8]) -> io::Result<usize> {
        if self.calls.fails() {
            return Err(io::Error::from(ErrorKind::BrokenPipe));
        }
        let count = self.left.len().min(buf.len());
        buf[..count].copy_from_slice(&self.left[..count]);
        self.left = &self.left[count..];
        Ok(count)
    }
}

/// A writer that accepts one byte in each call.
#[derive(Drop)]
pub(crate) struct Narrow {
    bytes: Vec<u8>,
    calls: Calls,
    /// Whether the call that fails accepts no byte, in place of returning an error.
    takes_none: bool,
}

impl Narrow {
    /// A writer that adds the bytes it accepts after these.
    pub(crate) fn new(bytes: Vec<u8>, calls: Calls, takes_none: bool) -> Narrow {
        Narrow {
            bytes,
            calls,
            takes_none,
        }
    }

    /// Whether the call that fails was made.
    pub(crate) fn is_failed(&self) -> bool {
        self.calls.failed
    }

    /// How many calls with bytes were made.
    pub(crate) fn made(&self) -> u64 {
        self.calls.made
    }

    /// All bytes of the writer.
    pub(crate) fn into_bytes(self) -> Vec<u8> {
        self.bytes
    }
}

impl Write for Narrow {
    fn write(&mut self, buf: &[u8]) -> io::Result<usize> {
        if buf.is_empty() {
            return Ok(0);
        }
        if self.calls.fails() {
            return if self.takes_none {
                Ok(0)
            } else {
                Err(io::Error::from(ErrorKind::BrokenPipe))
            };
        }
        self.bytes.push(buf[0])?;
        Ok(1)
    }

    fn flush(&mut self) -> io::Result<()> {
        Ok(())
    }
}
