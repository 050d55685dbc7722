//! What a report comes to. This file counts no line.

ghost use Rattle.std.specs.Prelude.{◌≡◌, ◌<◌};
ghost use Rattle.smt_report.specs.Verdict.{exit_status_of};

use crate::verdict::{Tally, Verdict};

/// What the last line of a report says: the verdict, and the tally of the lines before it.
#[derive(Clone, Copy)]
pub struct Summary {
    pub verdict: Verdict,
    pub tally: Tally,
}

impl Summary {
    /// The exit status for the report: that of the verdict. Where `strict`, `valid` also asks that there is a check
    /// and that each is confirmed, and the status is otherwise 2 in place of 0.
    pub fn status(self, strict: bool) -> u8
        ensures status { result ≡ exit_status_of strict self }
        ensures below { result < 4 }
    {
        if strict {
            self.verdict.strict_status(self.tally.confirms_all())
        } else {
            self.verdict.status()
        }
    }
}
