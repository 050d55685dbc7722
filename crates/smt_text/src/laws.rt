//! Laws of the definitions of texts, trees and faults. Each law is the contract of a function that does
//! nothing.

pub mod examples;

ghost use Rattle.std.specs.Prelude.{◌≡◌, ◌≤◌, ℕ, List, ◌++◌, Bool, false, true, length, take, Option, Some};
ghost use Rattle.std.specs.Prelude.{None};
ghost use Rattle.smt_text.specs.Grammar.{Forest};
ghost use Rattle.smt_text.specs.OpenPlaces.{AreOpenIn};
ghost use Rattle.smt_text.specs.Positions.{after, position_after};
ghost use Rattle.smt_text.specs.Reading.{Begins, AreComplete, Reads};
ghost use Rattle.smt_trees.specs.Sexp.{Sexp, Sexps, Nil, Cons, append, count};
ghost use Rattle.smt_faults.specs.declared.text_flaw.TextFlaw.{TextFlaw};
ghost use Rattle.smt_text.specs.declared.position.Position.{Position};
ghost use Rattle.smt_text.specs.declared.unfinished.OpenPlaces.{OpenPlaces};

/// A text has at most one forest, whatever the limits on the depth of lists.
pub fn one_forest()
    ensures one { (max_depth other : ℕ) (text : List ℕ) (xs ys : Sexps) → Forest max_depth text xs
        → Forest other text ys → xs ≡ ys }
{}

/// A text has at most one reading: its trees, and its fault if it has one.
pub fn one_reading()
    ensures one { (max_depth : ℕ) (ended : Bool) (text : List ℕ) (xs ys : Sexps) (f g : Option TextFlaw)
        → Reads max_depth ended text xs f → Reads max_depth ended text ys g → (xs ≡ ys) × (f ≡ g) }
{}

/// Every text has a reading, whether more of it comes or not.
pub fn every_text_reads()
    ensures some { (max_depth : ℕ) (ended : Bool) (text : List ℕ)
        → (trees : Sexps) × (fault : Option TextFlaw) × Reads max_depth ended text trees fault }
{}

/// The complete trees of a prefix of a text stay, in their order, whatever comes after it.
pub fn complete_trees_stay()
    ensures stay { (max_depth : ℕ) (prefix more : List ℕ) (xs ys : Sexps) → Begins max_depth (prefix ++ more)
        → AreComplete max_depth prefix xs → AreComplete max_depth (prefix ++ more) ys
        → (later : Sexps) × (ys ≡ append xs later) }
{}

/// The trees read from the beginning of a text, while more of it may come, are the first ones read from the
/// longer text, whether that has ended or not.
pub fn read_trees_stay()
    ensures stay { (max_depth : ℕ) (ended : Bool) (text more : List ℕ) (xs ys : Sexps) (f g : Option TextFlaw)
        → Reads max_depth false text xs f → Reads max_depth ended (text ++ more) ys g
        → (later : Sexps) × (ys ≡ append xs later) }
{}

/// A fault found at the beginning of a text, while more of it might come, is the fault of the longer text,
/// after the same trees.
pub fn read_faults_stay()
    ensures stay { (max_depth : ℕ) (ended : Bool) (text more : List ℕ) (xs ys : Sexps) (f : TextFlaw)
        (g : Option TextFlaw)
        → Reads max_depth false text xs (Some f) → Reads max_depth ended (text ++ more) ys g
        → (ys ≡ xs) × (g ≡ Some f) }
{}

/// A text has no more trees than bytes.
pub fn trees_are_no_more_than_bytes()
    ensures few { (max_depth : ℕ) (text : List ℕ) (trees : Sexps) (f : Option TextFlaw)
        → Reads max_depth true text trees f → count trees ≤ length text }
{}

/// Of two beginnings of a text that are read without a fault, the one with one more tree is no shorter.
pub fn more_trees_end_later()
    ensures later { (max_depth : ℕ) (text : List ℕ) (end later : ℕ) (trees : Sexps) (x : Sexp)
        → Reads max_depth true (take end text) trees None
        → Reads max_depth true (take later text) (append trees (Cons x Nil)) None → end ≤ later }
{}

/// A text of whole trees leaves nothing open at its end.
pub fn whole_texts_leave_nothing_open()
    ensures none { (max_depth : ℕ) (text : List ℕ) (trees : Sexps) (places : OpenPlaces)
        → Reads max_depth true text trees None → AreOpenIn text places
        → (places.outermost ≡ None) × (places.innermost ≡ None) × (places.token ≡ None) }
{}

/// The position after a text is the one after its second part, which stands at the position after its first
/// part; and so after any bytes.
pub fn positions_go_on()
    ensures of_text { (front rest : List ℕ) → position_after (front ++ rest) ≡ after (position_after front) rest }
    ensures of_bytes { (here : Position) (front rest : List ℕ)
        → after here (front ++ rest) ≡ after (after here front) rest }
{}
