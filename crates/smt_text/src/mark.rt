//! A place in the piece of a text that is read, told by what is left of it. A reader has these numbers at hand, so
//! that a mark costs nothing until its place is asked for. This file knows no tokens.

ghost use Rattle.std.specs.Prelude.{◌≡◌};
ghost use Rattle.smt_text.specs.Internal.ReaderState.{place_of};

/// A place in the piece that is read.
#[derive(Clone, Copy)]
pub(crate) struct Mark {
    /// The number of bytes that were left of the piece.
    pub(crate) left: usize,
    /// The number of those that come before the place.
    pub(crate) read: usize,
}

impl Mark {
    /// The number of bytes of the whole text before the place, where the piece ends at this limit.
    pub(crate) fn place(self, limit: u64) -> u64
        ensures { result ≡ place_of limit self }
    {
        let after = self.left.saturating_sub(self.read) as u64;
        limit.saturating_sub(after)
    }
}
