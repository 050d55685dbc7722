//! A diagram, and a fork. This file knows no list of forks.

/// A function from the numbers of so many bits to numbers.
#[derive(Clone, Copy, Debug, PartialEq, Eq, Hash)]
pub enum Diagram {
    /// Every number has this element.
    Leaf(u32),
    /// The fork at this place, from 0.
    Branch(u32),
}

/// A function of numbers by two of their halves: the even numbers have at theirs what `even` has, the odd ones what
/// `odd` has.
#[derive(Clone, Copy, PartialEq, Eq, Hash)]
pub struct Fork {
    pub even: Diagram,
    pub odd: Diagram,
}

/// What two functions have at a number at which they differ.
#[derive(Clone, Copy)]
pub struct Difference {
    pub first: u32,
    pub second: u32,
}
