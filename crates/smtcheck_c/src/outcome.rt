//! The numbers that an export returns: that of a verdict, which is the program's exit status, or another where it
//! returns no verdict. This file finds no verdict.

ghost use Rattle.std.specs.Prelude.{◌≡◌, ◌<◌};
ghost use Rattle.smt_report.specs.Verdict.{status_of};

use smt_dialogue::Verdict;

/// Memory was refused. This says nothing of the dialogue.
pub(crate) const MEMORY: u32 = 4;

/// The limit of the options is 2^64 - 1, which is out of range, or there is no such form. Nothing was read.
pub(crate) const OPTIONS: u32 = 5;

/// A session has no verdict yet.
pub(crate) const OPEN: u32 = 6;

/// A text of a session has more than 2^64 - 1 bytes.
pub(crate) const LONG: u32 = 7;

/// The number of a verdict, from 0 to 3: the program's exit status.
pub(crate) fn number_of(verdict: Verdict) -> u32
    ensures number { result ≡ status_of verdict }
    ensures below { result < 4 }
{
    u32::from(verdict.status())
}
