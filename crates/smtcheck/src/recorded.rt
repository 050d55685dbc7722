//! A source that keeps the bytes it gave, for an explanation. This file knows no file and no line.

use smt_streams::{Broken, Source};
use std::alloc::Global;

/// The bytes kept so far; none once memory was refused for them.
#[derive(Drop)]
struct Kept {
    keeps: bool,
    bytes: Vec<u8>,
    whole: bool,
}

impl Kept {
    fn note(&mut self, piece: &[u8]) {
        if self.keeps && self.whole && self.bytes.extend_from_slice(piece).is_err() {
            self.whole = false;
            self.bytes.clear();
        }
    }
}

/// A source over another one. It keeps the bytes pulled, as long as memory is not refused.
#[derive(Drop)]
pub(crate) struct Recorded<S> {
    inner: S,
    kept: Kept,
}

impl<S> Recorded<S> {
    ghost use Rattle.std.specs.Prelude.{◌≡◌};
    ghost use Rattle.smtcheck.specs.Recorded.{inner_of};

    /// A source over this one, before its first pull; `keeps` says whether it keeps the bytes.
    pub(crate) fn new(alloc: Global, inner: S, keeps: bool) -> Recorded<S>
        ensures { inner_of result ≡ inner }
    {
        Recorded {
            inner,
            kept: Kept {
                keeps,
                bytes: Vec::new(alloc),
                whole: true,
            },
        }
    }

    /// The bytes pulled so far; `None` where memory was refused for them, or where the source keeps none.
    pub(crate) fn bytes(&self) -> Option<&[u8]> {
        if self.kept.keeps && self.kept.whole {
            Some(self.kept.bytes.as_slice())
        } else {
            None
        }
    }
}

impl<S: Source> Source for Recorded<S> {
    ghost use Rattle.smtcheck.specs.Recorded.{inner_of};

    ghost to_come = { λ source. S.to_come (inner_of source) };

    ghost has_ended = { λ source. S.has_ended (inner_of source) };

    ghost is_broken = { λ source. S.is_broken (inner_of source) };

    fn pull(&mut self, buf: &mut [u8]) -> Result<usize, Broken> {
        let given = self.inner.pull(buf);
        if let Ok(count) = given {
            let count = count.min(buf.len());
            self.kept.note(&buf[..count]);
        }
        given
    }

    fn broken(&self) -> bool {
        self.inner.broken()
    }
}
