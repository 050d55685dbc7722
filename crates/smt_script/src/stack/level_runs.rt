//! Assertion levels; those that were pushed at once are kept as one run. This file does not look into what
//! was there before a level.

ghost use Rattle.std.specs.Prelude.{◌≡◌, ◌++◌, ◌<◌, ◌+◌, ◌^◌, List, [], OnErr, OnOk, Some, length, slice_get, take};
ghost use Rattle.smt_script.specs.Internal.Runs.{copies, levels_in};
ghost use Rattle.smt_script.specs.declared.stack.levels.Level as declared;

use crate::stack::Level;
use smt_faults::Memory;
use std::alloc::Global;
use std::marker::Model;

/// A number of levels, each within the one before it, that began at the same point.
#[derive(Clone, Copy)]
pub struct Run {
    pub(crate) level: Level,
    pub(crate) count: usize,
}

/// Levels, the outermost first. The cost of a push does not grow with the number of levels that it adds.
#[derive(Drop)]
pub struct Levels {
    runs: Vec<Run>,
    depth: usize,
}

impl Model for Levels {
    ghost Value = { List declared.Level };

    ghost view = { λ l. levels_in l.runs.items };

    ghost invariant = { λ l. l.depth ≡ length (levels_in l.runs.items) };
}

impl Levels {
    /// No levels.
    pub(crate) fn new(alloc: Global) -> Levels
        ensures { result ≡ [] }
    {
        Levels {
            runs: Vec::new(alloc),
            depth: 0,
        }
    }

    /// The number of levels.
    pub(crate) fn len(&self) -> usize
        ensures { result ≡ length self.now }
    {
        self.depth
    }

    /// Removes all levels.
    pub(crate) fn clear(&mut self)
        ensures { self.new ≡ [] }
    {
        self.runs.clear();
        self.depth = 0;
    }

    /// Adds this many levels within the others, all of which begin at the same point.
    pub(crate) fn push(&mut self, level: Level, count: usize) -> Result<(), Memory>
        requires { length self.old + count < 2 ^ 64 }
        ensures added { OnOk result (self.new ≡ self.old ++ copies count level) }
        ensures unchanged { OnErr result (self.new ≡ self.old) }
    {
        if count == 0 {
            return Ok(());
        }
        self.runs.push(Run { level, count })?;
        self.depth += count;
        Ok(())
    }

    /// Keeps this many levels, the outermost, and returns the outermost of the levels that it removes.
    pub(crate) fn cut(&mut self, depth: usize) -> Level
        requires { depth < length self.old }
        ensures level { slice_get self.old depth ≡ Some result }
        ensures left { self.new ≡ take depth self.old }
    {
        while let Some(run) = self.runs.pop() {
            let outside = self.depth - run.count;
            if outside <= depth {
                let level = run.level;
                let count = depth - outside;
                self.depth = depth;
                if count > 0 {
                    // (there is room for it: the loop has just removed a run)
                    self.runs.push_reserved(Run { level, count });
                }
                return level;
            }
            self.depth = outside;
        }
        unreachable!()
    }
}
