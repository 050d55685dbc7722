//! The forms in which an explanation is written, and what stands around it. This file knows no remark.

ghost use Rattle.std.specs.Prelude.{◌≡◌, true};
ghost use Rattle.smt_remarks.specs.Lines.{count_in, is_lined};

use crate::sarif;
use smt_faults::Memory;

/// The form of an explanation.
#[derive(Clone, Copy, PartialEq, Eq)]
pub enum Form {
    /// Lines for people, which begin with a place where they tell of one: `FILE:LINE:COLUMN: `.
    Text,
    /// An object of JSON for each line of the report that is explained, each on a line of its own.
    Json,
    /// One document of SARIF 2.1.0.
    Sarif,
}

impl Form {
    /// Writes what stands before the first remark: nothing but in SARIF.
    pub fn begin(self, out: &mut Vec<u8>) -> Result<(), Memory>
        ensures lines { is_lined self out.old.items ≡ true → is_lined self out.new.items ≡ true }
        ensures few { count_in self out.new.items ≡ count_in self out.old.items }
    {
        if matches!(self, Form::Sarif) {
            out.extend_from_slice(sarif::BEGIN)?;
        }
        Ok(())
    }

    /// Writes what stands behind the last remark: nothing but in SARIF.
    pub fn end(self, out: &mut Vec<u8>) -> Result<(), Memory>
        ensures lines { is_lined self out.old.items ≡ true → is_lined self out.new.items ≡ true }
        ensures few { count_in self out.new.items ≡ count_in self out.old.items }
    {
        if matches!(self, Form::Sarif) {
            out.extend_from_slice(sarif::END)?;
        }
        Ok(())
    }
}
