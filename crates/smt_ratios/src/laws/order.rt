//! Laws of the order of rational numbers, and of the integers among them. Nothing here does anything.

ghost use Rattle.std.specs.Prelude.{◌≡◌, ℤ, pos, ◌+ℤ◌, int_lt, true, false};
ghost use Rattle.smt_ratios.specs.Operators.{floor, is_equal, is_integer, is_less};
ghost use Rattle.smt_ratios.specs.Rational.{Integer, IsRational, Rational};

/// The order is total, and that of integers on integers.
pub fn the_order_is_total()
    ensures irreflexive { (a : Rational) → is_less a a ≡ false }
    ensures transitive { (a b c : Rational) → IsRational a → IsRational b → IsRational c
        → is_less a b ≡ true → is_less b c ≡ true → is_less a c ≡ true }
    ensures total { (a b : Rational) → IsRational a → IsRational b → is_less a b ≡ false → is_less b a ≡ false
        → a ≡ b }
    ensures integers { (x y : ℤ) → is_less (Integer x) (Integer y) ≡ int_lt x y }
{}

/// Numbers are equal exactly where they are one.
pub fn equal_numbers_are_one()
    ensures one { (a b : Rational) → is_equal a b ≡ true → a ≡ b }
    ensures equal { (a b : Rational) → a ≡ b → is_equal a b ≡ true }
{}

/// The floor of x is the one integer z with `z <= x < z + 1`.
pub fn floors_are_the_greatest_integers_below()
    ensures at_most { (a : Rational) → IsRational a → is_less a (Integer (floor a)) ≡ false }
    ensures above { (a : Rational) → IsRational a → is_less a (Integer (floor a +ℤ pos 1)) ≡ true }
    ensures one { (a : Rational) (z : ℤ) → IsRational a → is_less a (Integer z) ≡ false
        → is_less a (Integer (z +ℤ pos 1)) ≡ true → z ≡ floor a }
{}

/// A number is an integer exactly where its floor is the number.
pub fn integers_are_their_floors()
    ensures integer { (a : Rational) → is_integer a ≡ true → Integer (floor a) ≡ a }
    ensures fraction { (a : Rational) → Integer (floor a) ≡ a → is_integer a ≡ true }
{}
