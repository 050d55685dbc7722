//! Laws of the arithmetic of rational numbers. Nothing here does anything.

ghost use Rattle.std.specs.Prelude.{◌≡◌, ◌≢◌, ℕ, ◌*◌, ◌^◌, ℤ, pos, ◌+ℤ◌, ◌-ℤ◌, ◌*ℤ◌, neg_ℤ, true, option_map};
ghost use Rattle.smt_ratios.specs.Known.{is_within, known_difference, known_negative, known_product, known_sum, within};
ghost use Rattle.smt_ratios.specs.Operators.{cross, decimal, difference, negative, product, quotient, sum};
ghost use Rattle.smt_ratios.specs.Rational.{denominator, Fraction, Integer, IsRational, numerator, Rational};

/// The sum a/b + c/d is the one number n/m with `(ad + cb) m = n bd`.
pub fn sums_are_by_cross_products()
    ensures number { (a b : Rational) → IsRational a → IsRational b → IsRational (sum a b) }
    ensures exact { (a b : Rational) → IsRational a → IsRational b
        → (cross a b +ℤ cross b a) *ℤ pos (denominator (sum a b))
        ≡ numerator (sum a b) *ℤ pos (denominator a * denominator b) }
    ensures one { (a b c : Rational) → IsRational a → IsRational b → IsRational c
        → (cross a b +ℤ cross b a) *ℤ pos (denominator c) ≡ numerator c *ℤ pos (denominator a * denominator b)
        → c ≡ sum a b }
{}

/// The difference a/b - c/d is the one number n/m with `(ad - cb) m = n bd`.
pub fn differences_are_by_cross_products()
    ensures number { (a b : Rational) → IsRational a → IsRational b → IsRational (difference a b) }
    ensures exact { (a b : Rational) → IsRational a → IsRational b
        → (cross a b -ℤ cross b a) *ℤ pos (denominator (difference a b))
        ≡ numerator (difference a b) *ℤ pos (denominator a * denominator b) }
    ensures one { (a b c : Rational) → IsRational a → IsRational b → IsRational c
        → (cross a b -ℤ cross b a) *ℤ pos (denominator c) ≡ numerator c *ℤ pos (denominator a * denominator b)
        → c ≡ difference a b }
{}

/// The product a/b * c/d is the one number n/m with `ac m = n bd`.
pub fn products_are_by_cross_products()
    ensures number { (a b : Rational) → IsRational a → IsRational b → IsRational (product a b) }
    ensures exact { (a b : Rational) → IsRational a → IsRational b
        → numerator a *ℤ numerator b *ℤ pos (denominator (product a b))
        ≡ numerator (product a b) *ℤ pos (denominator a * denominator b) }
    ensures one { (a b c : Rational) → IsRational a → IsRational b → IsRational c
        → numerator a *ℤ numerator b *ℤ pos (denominator c) ≡ numerator c *ℤ pos (denominator a * denominator b)
        → c ≡ product a b }
{}

/// A quotient times the divisor is the dividend.
pub fn quotients_undo_products()
    ensures number { (a b : Rational) → IsRational a → IsRational b → numerator b ≢ pos 0
        → IsRational (quotient a b) }
    ensures back { (a b : Rational) → IsRational a → IsRational b → numerator b ≢ pos 0
        → product (quotient a b) b ≡ a }
{}

/// The negative has the other sign, and the same denominator.
pub fn negatives_have_the_other_sign()
    ensures number { (a : Rational) → IsRational a → IsRational (negative a) }
    ensures integer { (z : ℤ) → negative (Integer z) ≡ Integer (neg_ℤ z) }
    ensures fraction { (n : ℤ) (d : ℕ) → IsRational (Fraction n d)
        → negative (Fraction n d) ≡ Fraction (neg_ℤ n) d }
{}

/// On integers the sum, the difference and the product are those of integers.
pub fn integers_are_calculated_as_integers()
    ensures sum { (x y : ℤ) → sum (Integer x) (Integer y) ≡ Integer (x +ℤ y) }
    ensures difference { (x y : ℤ) → difference (Integer x) (Integer y) ≡ Integer (x -ℤ y) }
    ensures product { (x y : ℤ) → product (Integer x) (Integer y) ≡ Integer (x *ℤ y) }
{}

/// Of integers within 128 bits the sum, the difference, the product and the negative are known where they are within
/// 128 bits.
pub fn integers_are_known_as_integers()
    ensures sum { (x y : ℤ) → is_within x ≡ true → is_within y ≡ true
        → known_sum (Integer x) (Integer y) ≡ option_map Integer (within (x +ℤ y)) }
    ensures difference { (x y : ℤ) → is_within x ≡ true → is_within y ≡ true
        → known_difference (Integer x) (Integer y) ≡ option_map Integer (within (x -ℤ y)) }
    ensures product { (x y : ℤ) → known_product (Integer x) (Integer y) ≡ option_map Integer (within (x *ℤ y)) }
    ensures negative { (x : ℤ) → known_negative (Integer x) ≡ option_map Integer (within (neg_ℤ x)) }
{}

/// The number of a decimal is its numeral over the power of ten, by cross products.
pub fn decimals_are_by_cross_products()
    ensures number { (digits places : ℕ) → IsRational (decimal digits places) }
    ensures exact { (digits places : ℕ)
        → numerator (decimal digits places) *ℤ pos (10 ^ places) ≡ pos (digits * denominator (decimal digits places)) }
{}
