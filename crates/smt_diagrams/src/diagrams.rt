//! The forks of diagrams, each once.

ghost use Rattle.std.specs.Prelude.{◌≡◌, ◌+◌, ◌<◌, ◌≤◌, ◌^◌, ◌↔◌, [], IfOk, IsTrue, OnErr, length};
ghost use Rattle.smt_diagrams.specs.Diagram.{AreAlike, AreDistinct, Grows, IsDiagram, IsJoined, IsWritten};
ghost use Rattle.smt_diagrams.specs.Diagram.{element_at, halves};
ghost use Rattle.smt_diagrams.specs.Diagram.{AreAdded, AreDifferences, is_one_leaf};
ghost use Rattle.indexmap.specs.IndexSet.{keys};

use crate::diagram::{Diagram, Difference, Fork};
use indexmap::IndexSet;
use smt_faults::Memory;
use std::alloc::Global;
use std::hash::{BuildHasherDefault, DefaultHasher};
use std::marker::Model;

// The greatest number of forks.
const MOST: usize = 67_108_864;

type Forks = IndexSet<Fork, BuildHasherDefault<DefaultHasher>>;

/// The forks that diagrams lead to, each once, in the order in which they came. A contract sees their list.
///
/// There are at most 2^26 forks, of 16 bytes and as many of the table that finds them. Diagrams over the numbers
/// of n bits are looked at, and made, in n steps. A fork is found by a hash without a secret: to find one among forks
/// that are chosen to collide takes longer.
#[derive(Drop)]
pub struct Diagrams {
    forks: Forks,
}

impl Model for Diagrams {
    ghost use Rattle.smt_diagrams.specs.Diagram.{AreDistinct};
    ghost use Rattle.smt_diagrams.specs.declared.diagram.Fork.{Fork};
    ghost use Rattle.std.specs.Prelude.{List};
    ghost use Rattle.indexmap.specs.IndexSet.{keys};

    ghost Value = { List Fork };

    ghost view = { λ d. keys d.forks };

    ghost invariant = { λ d. AreDistinct (keys d.forks) };
}

impl Diagrams {
    /// No forks, which asks for no memory.
    pub fn new(alloc: Global) -> Diagrams
        ensures { result ≡ [] }
    {
        Diagrams {
            forks: IndexSet::with_hasher(alloc, BuildHasherDefault::new()),
        }
    }

    /// What a diagram over the numbers of `bits` bits has at a number. Bits above these are not looked at.
    pub fn select(&self, bits: u32, diagram: Diagram, number: u128) -> u32
        ensures { result ≡ element_at self.now bits diagram number }
    {
        element_in(self.forks.as_slice(), bits, diagram, number)
    }

    /// The diagram that has an element at a number, and elsewhere what this one has. It takes at most `bits` new
    /// forks.
    ///
    /// The only error is want of memory, and then nothing changes. Want of memory is reported, too, beyond
    /// 2^26 forks.
    pub fn store(
        &mut self,
        bits: u32,
        diagram: Diagram,
        number: u128,
        element: u32,
    ) -> Result<Diagram, Memory>
        requires diagram { IsDiagram self.old bits diagram }
        requires number { number < 2 ^ bits }
        requires few { bits ≤ 128 }
        ensures written { IfOk result (λ made. IsWritten self.old self.new bits diagram number element made) }
        ensures grown { Grows self.old self.new }
        ensures count { IfOk result (λ _. length self.new ≤ length self.old + bits) }
        ensures unchanged { OnErr result (self.new ≡ self.old) }
    {
        let before = self.forks.len();
        match put(&mut self.forks, bits, diagram, number, element) {
            Ok(made) => Ok(made),
            Err(error) => {
                self.forks.truncate(before);
                Err(error)
            }
        }
    }

    /// Whether two diagrams over the numbers of `bits` bits have the same at each number. This is one comparison.
    pub fn are_same(&self, bits: u32, a: Diagram, b: Diagram) -> bool
        requires a { IsDiagram self.now bits a }
        requires b { IsDiagram self.now bits b }
        ensures { IsTrue result
            ↔ AreAlike bits (element_at self.now bits a) (element_at self.now bits b) }
    {
        let _ = &self.forks;
        a == b
    }

    /// What two diagrams over the numbers of `bits` bits have where they differ, in the order of the lowest bits; some
    /// pairs may come more than once. Parts that both share are not looked at.
    ///
    /// The only error is want of memory.
    pub fn differences(
        &self,
        alloc: Global,
        bits: u32,
        a: Diagram,
        b: Diagram,
    ) -> Result<Vec<Difference>, Memory>
        requires a { IsDiagram self.now bits a }
        requires b { IsDiagram self.now bits b }
        ensures { IfOk result (λ found.
            AreDifferences bits (element_at self.now bits a) (element_at self.now bits b) found.items) }
    {
        let mut found = Vec::new(alloc);
        add_differences(self.forks.as_slice(), bits, a, b, &mut found)?;
        Ok(found)
    }

    /// Forgets all forks, and keeps their memory.
    pub fn clear(&mut self)
        ensures { self.new ≡ [] }
    {
        self.forks.clear();
    }
}

// Both halves: of a leaf they are the leaf.
fn halves_in(forks: &[Fork], diagram: Diagram) -> Fork
    ensures { result ≡ halves forks.now diagram }
{
    match diagram {
        Diagram::Leaf(_) => Fork {
            even: diagram,
            odd: diagram,
        },
        Diagram::Branch(place) => match forks.get(place as usize) {
            Some(fork) => *fork,
            None => Fork {
                even: Diagram::Leaf(0),
                odd: Diagram::Leaf(0),
            },
        },
    }
}

// What the diagram has at a number. It calls itself at most `bits` deep.
fn element_in(forks: &[Fork], bits: u32, diagram: Diagram, number: u128) -> u32
    ensures { result ≡ element_at forks.now bits diagram number }
{
    match diagram {
        Diagram::Leaf(element) => element,
        Diagram::Branch(_) if bits == 0 => 0,
        Diagram::Branch(_) => {
            let fork = halves_in(forks, diagram);
            let half = if number % 2 == 0 { fork.even } else { fork.odd };
            element_in(forks, bits - 1, half, number / 2)
        }
    }
}

// Adds what two diagrams have where they differ. It calls itself `bits` deep.
fn add_differences(
    forks: &[Fork],
    bits: u32,
    a: Diagram,
    b: Diagram,
    found: &mut Vec<Difference>,
) -> Result<(), Memory>
    requires a { IsDiagram forks.now bits a }
    requires b { IsDiagram forks.now bits b }
    ensures { IfOk result (λ _. AreAdded forks.now bits a b found.old.items found.new.items) }
{
    if a == b {
        return Ok(());
    }
    if let (Diagram::Leaf(first), Diagram::Leaf(second)) = (a, b) {
        found.push(Difference { first, second })?;
        return Ok(());
    }
    if bits == 0 {
        return Ok(());
    }
    let left = halves_in(forks, a);
    let right = halves_in(forks, b);
    add_differences(forks, bits - 1, left.even, right.even, found)?;
    add_differences(forks, bits - 1, left.odd, right.odd, found)
}

// The diagram that has an element at a number, and elsewhere what this one has. It calls itself `bits` deep.
fn put(
    forks: &mut Forks,
    bits: u32,
    diagram: Diagram,
    number: u128,
    element: u32,
) -> Result<Diagram, Memory>
    requires distinct { AreDistinct (keys forks.old) }
    requires diagram { IsDiagram (keys forks.old) bits diagram }
    requires number { number < 2 ^ bits }
    ensures grown { Grows (keys forks.old) (keys forks.new) }
    ensures count { length (keys forks.new) ≤ length (keys forks.old) + bits }
    ensures distinct { AreDistinct (keys forks.new) }
    ensures written { IfOk result (λ made.
        IsWritten (keys forks.old) (keys forks.new) bits diagram number element made) }
{
    if bits == 0 {
        return Ok(Diagram::Leaf(element));
    }
    let fork = halves_in(forks.as_slice(), diagram);
    if number % 2 == 0 {
        let even = put(forks, bits - 1, fork.even, number / 2, element)?;
        join(forks, even, fork.odd)
    } else {
        let odd = put(forks, bits - 1, fork.odd, number / 2, element)?;
        join(forks, fork.even, odd)
    }
}

// The diagram of two halves: a leaf that both are stays one.
fn join(forks: &mut Forks, even: Diagram, odd: Diagram) -> Result<Diagram, Memory>
    requires distinct { AreDistinct (keys forks.old) }
    ensures grown { Grows (keys forks.old) (keys forks.new) }
    ensures count { length (keys forks.new) ≤ length (keys forks.old) + 1 }
    ensures distinct { AreDistinct (keys forks.new) }
    ensures made { IfOk result (λ d. IsJoined (keys forks.new) even odd d) }
{
    if is_one_leaf(even, odd) {
        return Ok(even);
    }
    if forks.len() >= MOST {
        return Err(Memory);
    }
    let (place, _added) = forks.insert_full(Fork { even, odd })?;
    Ok(Diagram::Branch(place as u32))
}

// Whether both are leaves with one element.
fn is_one_leaf(even: Diagram, odd: Diagram) -> bool
    ensures { result ≡ is_one_leaf even odd }
{
    match (even, odd) {
        (Diagram::Leaf(a), Diagram::Leaf(b)) => a == b,
        _ => false,
    }
}
