//! The numbers of nodes. This file knows no table.

ghost use Rattle.std.specs.Prelude.{◌≡◌, ◌+◌, IfOk};

use smt_faults::Memory;
use std::marker::Model;

/// The number of a node, which means something only in the table that gave it. Contracts see it as a number.
#[derive(Clone, Copy, PartialEq, Eq, Debug)]
pub struct TermId {
    number: u32,
}

impl Model for TermId {
    ghost use Rattle.std.specs.Prelude.{ℕ};

    ghost Value = { ℕ };

    ghost view = { λ id. id.number };

    ghost inverse = { λ n. record { number = n } };
}

impl TermId {
    /// The number as a `usize`; numbers count from 0.
    pub fn number(self) -> usize
        ensures { result ≡ self }
    {
        self.number as usize
    }

    /// The number of the same node where `count` other nodes come before its table's; want of memory from
    /// 2^32 on.
    #[inline(always)]
    pub fn behind(self, count: usize) -> Result<TermId, Memory>
        ensures { IfOk result (λ id. id ≡ count + self) }
    {
        if count == 0 {
            return Ok(self);
        }
        self.behind_some(count)
    }

    // The number that `behind` gives, out of line: most tables have no other nodes before their own.
    #[inline(never)]
    fn behind_some(self, count: usize) -> Result<TermId, Memory>
        ensures { IfOk result (λ id. id ≡ count + self) }
    {
        let sum = count.checked_add(self.number as usize);
        match sum {
            Some(number) if number <= u32::MAX as usize => Ok(TermId {
                number: number as u32,
            }),
            _ => Err(Memory),
        }
    }

    // The node of this number, from 0.
    pub(crate) fn new(number: u32) -> TermId
        ensures { result ≡ number }
    {
        TermId { number }
    }
}
