//! Laws of the definitions that the contracts name. Nothing here does anything: each contract is a law.

ghost use Rattle.std.specs.Prelude.{◌≡◌, ◌↔◌, ℕ, List, Some, slice_get};
ghost use Rattle.smt_names.specs.Places.{AreDistinct, place_of};

/// In a list where no name repeats, each name has the place at which it is, and no other name has one.
pub fn places_are_where_names_stand()
    ensures { (names : List (List ℕ)) (name : List ℕ) (place : ℕ) → AreDistinct names
        → (place_of names name ≡ Some place) ↔ (slice_get names place ≡ Some name) }
{}

/// A place is that of one name alone, whether names repeat or not.
pub fn places_are_of_one_name()
    ensures { (names : List (List ℕ)) (name other : List ℕ) (place : ℕ) → place_of names name ≡ Some place
        → place_of names other ≡ Some place → name ≡ other }
{}
