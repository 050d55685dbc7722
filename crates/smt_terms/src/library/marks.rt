//! Marks: each counts what a library held, so that the library can be cut to it again. This file adds nothing, and
//! reads no tree.

ghost use Rattle.std.specs.Prelude.{◌≡◌};
ghost use Rattle.smt_terms.specs.declared.library.marks.Mark as declared;
ghost use Rattle.smt_terms.specs.Contents.{IsBelow, IsWithin, contents_of, first_of, needed_of};
ghost use Rattle.smt_terms.specs.Ends.{end_of};
ghost use Rattle.smt_terms.specs.Library.{transient_of};

use crate::library::Library;

/// The number of names, declarations, definitions (with labels), abbreviations and nodes that a library held.
#[derive(Clone, Copy, Debug, PartialEq, Eq)]
pub struct Mark {
    pub(crate) names: usize,
    pub(crate) declared: usize,
    pub(crate) definitions: usize,
    pub(crate) abbreviations: usize,
    pub(crate) nodes: usize,
}

impl Library<'_> {
    /// A mark of all that the library holds now.
    pub fn mark(&self) -> Mark
        ensures all { first_of result (contents_of self.now) ≡ contents_of self.now }
        ensures within { IsWithin result (contents_of self.now) }
        ensures last { (mark : declared.Mark) → IsWithin mark (contents_of self.now) → IsBelow mark result }
    {
        Mark {
            names: self.names.len(),
            declared: self.declared.len(),
            definitions: self.definitions.len(),
            abbreviations: self.sorts.abbreviations.len(),
            nodes: self.nodes.len(),
        }
    }

    /// Keeps the first nodes, as many as a mark counts, and those that the bodies of definitions need. The cost is
    /// that of the nodes dropped.
    pub fn cut_nodes(&mut self, mark: Mark)
        ensures left { contents_of self.new ≡ needed_of mark.nodes (contents_of self.old) }
        ensures transient { transient_of self.new ≡ transient_of self.old }
    {
        self.leave_nodes(mark.nodes);
    }

    /// Keeps only the nodes that the bodies of definitions need. The cost is that of the nodes dropped.
    pub fn drop_unneeded(&mut self)
        ensures left { contents_of self.new ≡ needed_of 0 (contents_of self.old) }
        ensures transient { transient_of self.new ≡ transient_of self.old }
    {
        self.leave_nodes(0);
    }

    // Keeps the first `count` nodes, and those that the bodies of definitions need.
    fn leave_nodes(&mut self, count: usize)
        ensures left { contents_of self.new ≡ needed_of count (contents_of self.old) }
        ensures transient { transient_of self.new ≡ transient_of self.old }
    {
        let needed = count.max(self.end());
        self.nodes.cut(needed);
    }

    /// The number of nodes that the bodies of the definitions need: each of these has a lower number.
    pub(super) fn end(&self) -> usize
        ensures { result ≡ end_of self.now.bodies.items }
    {
        match self.ends.last() {
            Some(end) => *end,
            None => 0,
        }
    }

    /// Keeps the first names, declarations, definitions, abbreviations and nodes, as many of each as a mark counts.
    /// The cost is that of what is dropped.
    pub fn cut(&mut self, mark: Mark)
        ensures left { contents_of self.new ≡ first_of mark (contents_of self.old) }
        ensures transient { transient_of self.new ≡ transient_of self.old }
    {
        self.names.truncate(mark.names);
        self.declared.truncate(mark.declared);
        self.definitions.truncate(mark.definitions);
        self.bodies.truncate(mark.definitions);
        self.ends.truncate(mark.definitions);
        self.sorts.abbreviations.truncate(mark.abbreviations);
        self.nodes.cut(mark.nodes);
    }
}
