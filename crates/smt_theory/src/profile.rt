//! Language profiles. This file knows no theory.

/// The language that is accepted: this project's own choice. Apart from the commands of a script, a profile
/// shows only in the theories that it has.
#[derive(Clone, Copy)]
pub enum Profile {
    /// The language of the theories Core, Ints and FixedSizeBitVectors.
    Base,
    /// The language of `Base`, and what real scripts and printed models use besides.
    Wide,
}
