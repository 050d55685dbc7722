//! Laws of constants. Nothing here does anything.

ghost use Rattle.std.specs.Prelude.{◌≡◌, ℕ, ◌*◌, List, length};
ghost use Rattle.std.specs.Str.Parse.{AllDigits, digits_value};
ghost use Rattle.smt_bits.specs.BitVector.{vector};
ghost use Rattle.smt_bits.specs.Literals.{bin_vector, hex_vector};

/// The number of a constant is the one that its digits spell, in as many bits as they have.
pub fn constants_are_their_digits()
    ensures hexadecimal { (digits : List ℕ) → AllDigits 16 digits
        → hex_vector digits ≡ vector (4 * length digits) (digits_value 16 digits) }
    ensures binary { (digits : List ℕ) → AllDigits 2 digits
        → bin_vector digits ≡ vector (length digits) (digits_value 2 digits) }
{}
