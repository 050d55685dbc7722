//! Laws of numbers in lowest terms, and of what is known of results. Nothing here does anything.

ghost use Rattle.std.specs.Prelude.{◌≡◌, ℕ, ◌^◌, ◌<◌, ℤ, pos, ◌*ℤ◌, List, true, Some};
ghost use Rattle.std.specs.List.{list_all};
ghost use Rattle.smt_ratios.specs.Known.{is_within, known};
ghost use Rattle.smt_ratios.specs.Operators.{cross};
ghost use Rattle.smt_ratios.specs.Rational.{denominator, Integer, IsRational, numerator, ratio, Rational};

/// The quotient of two integers is a number in lowest terms, and the one that is equal to it by cross products.
pub fn ratios_are_quotients()
    ensures lowest { (n : ℤ) (d : ℕ) → 0 < d → IsRational (ratio n d) }
    ensures exact { (n : ℤ) (d : ℕ) → 0 < d → numerator (ratio n d) *ℤ pos d ≡ n *ℤ pos (denominator (ratio n d)) }
    ensures one { (n : ℤ) (d : ℕ) (c : Rational) → 0 < d → IsRational c
        → numerator c *ℤ pos d ≡ n *ℤ pos (denominator c) → c ≡ ratio n d }
{}

/// Numbers that are equal by cross products are one.
pub fn numbers_are_one()
    ensures { (a b : Rational) → IsRational a → IsRational b → cross a b ≡ cross b a → a ≡ b }
{}

/// An integer over 1 is that integer, and each number is the quotient of its own terms.
pub fn numbers_are_their_terms()
    ensures integer { (z : ℤ) → ratio z 1 ≡ Integer z }
    ensures number { (a : Rational) → IsRational a → ratio (numerator a) (denominator a) ≡ a }
{}

/// What is known of a result is the result, and all on the way to it is within 128 bits.
pub fn known_results_are_results()
    ensures result { (steps : List ℤ) (r c : Rational) → known steps r ≡ Some c → c ≡ r }
    ensures within { (steps : List ℤ) (r c : Rational) → known steps r ≡ Some c → list_all is_within steps ≡ true }
    ensures small { (steps : List ℤ) (r c : Rational) → known steps r ≡ Some c → denominator c < 2 ^ 120 }
    ensures known { (steps : List ℤ) (r : Rational) → list_all is_within steps ≡ true → denominator r < 2 ^ 120
        → known steps r ≡ Some r }
{}
