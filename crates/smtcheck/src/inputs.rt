//! What the program reads from and writes to, with the reason of a failure. This file knows no dialogue and no verdict.

use std::fs;
use std::io::{self, Input, Read, Write};
use std::rt::Files;

/// The name that stands for standard input.
pub(crate) const STANDARD_INPUT: &str = "-";

/// A text to be read: a file's, or what comes on standard input.
#[derive(Drop)]
pub(crate) enum Text<F, S> {
    File(F),
    StandardInput(S),
}

impl<F: Read, S: Read> Read for Text<F, S> {
    fn read(&mut self, buf: &mut [u8]) -> io::Result<usize> {
        match self {
            Text::File(file) => file.read(buf),
            Text::StandardInput(input) => input.read(buf),
        }
    }
}

/// Why standard input can't be read; `None` where it can. It is asked before any file is opened: a file would take the
/// place of a closed input, and be read for it.
pub(crate) fn closed_input<R: Input>(rt: &R) -> Option<io::Error> {
    let mut input = rt.reader();
    let mut nothing = [0u8; 0];
    input.read(&mut nothing).err()
}

/// Opens the text of this name: a file, or standard input where the name is `-`, unless that is closed.
pub(crate) fn open<R: Files + Input>(
    rt: &R,
    name: &str,
    closed: Option<io::Error>,
) -> io::Result<Text<R::File, R::Reader>> {
    if name != STANDARD_INPUT {
        return Ok(Text::File(fs::open(rt, name)?));
    }
    match closed {
        Some(error) => Err(error),
        None => Ok(Text::StandardInput(rt.reader())),
    }
}

/// A reader or a writer that keeps why its last call failed.
#[derive(Drop)]
pub(crate) struct Noted<T> {
    inner: T,
    failure: Option<io::Error>,
}

impl<T> Noted<T> {
    /// A reader or a writer over this one, before its first call.
    pub(crate) fn new(inner: T) -> Noted<T> {
        Noted {
            inner,
            failure: None,
        }
    }

    /// Why the last call failed; `None` where it did not fail.
    pub(crate) fn failure(&self) -> Option<io::Error> {
        self.failure
    }
}

impl<T: Read> Read for Noted<T> {
    ghost use Rattle.smtcheck.specs.Noted.{noted_of};

    ghost remaining = { λ noted. T.remaining (noted_of noted) };

    fn read(&mut self, buf: &mut [u8]) -> io::Result<usize> {
        let given = self.inner.read(buf);
        self.failure = given.err();
        given
    }
}

impl<T: Write> Write for Noted<T> {
    ghost use Rattle.smtcheck.specs.Noted.{noted_of};

    ghost contents = { λ noted. T.contents (noted_of noted) };

    fn write(&mut self, buf: &[u8]) -> io::Result<usize> {
        let taken = self.inner.write(buf);
        self.failure = taken.err();
        taken
    }

    fn flush(&mut self) -> io::Result<()> {
        let flushed = self.inner.flush();
        self.failure = flushed.err();
        flushed
    }
}
