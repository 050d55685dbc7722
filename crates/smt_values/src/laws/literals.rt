//! Laws of the values of constants. Nothing here does anything.

ghost use Rattle.std.specs.Prelude.{◌≡◌, ◌≢◌, ℕ, ◌*◌, ◌^◌, ◌<◌, ◌≤◌, pos, ◌*ℤ◌, List, ◌∷◌, ◌++◌};
ghost use Rattle.std.specs.Prelude.{length, All, Some, None};
ghost use Rattle.std.specs.Str.Parse.{AllDigits, digits_value};
ghost use Rattle.smt_bits.specs.BitVector.{vector};
ghost use Rattle.smt_ratios.specs.Rational.{denominator, numerator};
ghost use Rattle.smt_theory.specs.Sort.{Real};
ghost use Rattle.smt_values.specs.Element.{Element, IsOfSort, Vector};
ghost use Rattle.smt_values.specs.Decimals.{decimal_digits, decimal_value};
ghost use Rattle.smt_values.specs.Literals.{bin_element, decimal_element, hex_element};
ghost use Rattle.smt_values.specs.Decimals.{places};
ghost use Rattle.smt_values.specs.Numbers.{number_of};

use smt_bits::laws::literals;
use smt_ratios::laws::{numbers, operators};

/// A hexadecimal or a binary constant is known exactly up to 128 bits. Its number is the one that its digits
/// spell, in four bits or one bit for each (SMT-LIB 2.6, section 3.1 and theory FixedSizeBitVectors).
pub fn constants_of_up_to_128_bits_are_known()
    ensures hexadecimal { (digits : List ℕ) → AllDigits 16 digits → 1 ≤ length digits → length digits ≤ 32
        → hex_element digits ≡ Some (Vector (vector (4 * length digits) (digits_value 16 digits))) }
    ensures binary { (digits : List ℕ) → AllDigits 2 digits → 1 ≤ length digits → length digits ≤ 128
        → bin_element digits ≡ Some (Vector (vector (length digits) (digits_value 2 digits))) }
    ensures longer_hexadecimal { (digits : List ℕ) → 32 < length digits → hex_element digits ≡ None }
    ensures longer_binary { (digits : List ℕ) → 128 < length digits → bin_element digits ≡ None }
{
    literals::constants_are_their_digits();
}

/// The number of a decimal is the number that its digits spell without the point, over the power of ten with a zero for
/// each digit behind the point, by cross products (SMT-LIB 2.6, section 3.1 and theory Reals). What is known of a
/// decimal is that number.
pub fn decimals_are_their_digits()
    ensures exact { (digits : List ℕ) → numerator (number_of (decimal_value digits)) *ℤ pos (10 ^ places digits)
        ≡ pos (decimal_digits digits * denominator (number_of (decimal_value digits))) }
    ensures places { (front behind : List ℕ) → All (λ byte. byte ≢ 46) behind
        → places (front ++ 46 ∷ behind) ≡ length behind }
    ensures known { (digits : List ℕ) (e : Element) → decimal_element digits ≡ Some e → e ≡ decimal_value digits }
{
    numbers::known_results_are_results();
    operators::decimals_are_by_cross_products();
}

/// A decimal's value is a real (SMT-LIB 2.6, theory Reals).
pub fn decimals_are_reals()
    ensures { (digits : List ℕ) → IsOfSort Real (decimal_value digits) }
{
    operators::decimals_are_by_cross_products();
}
