//! Laws of the parts of bit vectors. Nothing here does anything.

ghost use Rattle.std.specs.Prelude.{◌≡◌, ℕ, ◌+◌, ◌-◌, ◌*◌, ◌%◌, ◌^◌, ◌<◌, ◌≤◌, Some};
ghost use Rattle.std.specs.Int.{bit_at};
ghost use Rattle.smt_bits.specs.BitVector.{BitVector, IsVector, signed};
ghost use Rattle.smt_bits.specs.Operators as meaning;
ghost use Rattle.smt_bits.specs.Parts.{zero_extension};

/// A bit vector that is cut in two and concatenated again is the same.
pub fn a_vector_is_its_parts()
    ensures { (m j s : ℕ) → 1 ≤ j → j < m → s < 2 ^ m
        → meaning.concat j (meaning.extract (m - 1) j s) (meaning.extract (j - 1) 0 s) ≡ s }
{}

/// A rotation by as much in the other direction brings a bit vector back.
pub fn rotations_are_inverse()
    ensures left { (i m s : ℕ) → 1 ≤ m → s < 2 ^ m
        → meaning.rotate_right i m (meaning.rotate_left i m s) ≡ s }
    ensures right { (i m s : ℕ) → 1 ≤ m → s < 2 ^ m
        → meaning.rotate_left i m (meaning.rotate_right i m s) ≡ s }
{}

/// A sign extension keeps the integer that a bit vector is, read as signed.
pub fn sign_extension_keeps_the_integer()
    ensures { (i m s : ℕ) → 1 ≤ m → s < 2 ^ m → signed (m + i) (meaning.sign_extend i m s) ≡ signed m s }
{}

/// The results of `extract`, `concat` and `repeat` have the bits of their vectors, in order; the bit at place
/// 0 is the lowest (SMT-LIB 2.6, theory FixedSizeBitVectors and logic QF_BV).
pub fn parts_have_their_bits()
    ensures concat_low { (n s t k : ℕ) → k < n → bit_at (meaning.concat n s t) k ≡ bit_at t k }
    ensures concat_high { (n s t k : ℕ) → t < 2 ^ n → bit_at (meaning.concat n s t) (n + k) ≡ bit_at s k }
    ensures extract { (i j s k : ℕ) → k ≤ i - j → bit_at (meaning.extract i j s) k ≡ bit_at s (j + k) }
    ensures repeat { (i m s k : ℕ) → s < 2 ^ m → k < i * m
        → bit_at (meaning.repeat i m s) k ≡ bit_at s (k % m) }
{}

/// A rotation to the left by i moves the bit at place k to place k + i, around the width. One to the right
/// moves the bit at place k + i to place k (SMT-LIB 2.6, logic QF_BV).
pub fn rotations_move_bits_around()
    ensures left { (i m s k : ℕ) → s < 2 ^ m → k < m
        → bit_at (meaning.rotate_left i m s) ((k + i) % m) ≡ bit_at s k }
    ensures right { (i m s k : ℕ) → s < 2 ^ m → k < m
        → bit_at (meaning.rotate_right i m s) k ≡ bit_at s ((k + i) % m) }
{}

/// An extension keeps the bits, and has zeros above them, or copies of the highest one (SMT-LIB 2.6, logic
/// QF_BV).
pub fn extensions_keep_bits()
    ensures zero_extend { (i k : ℕ) (v w : BitVector) → zero_extension i v ≡ Some w
        → bit_at w.number k ≡ bit_at v.number k }
    ensures zeros { (i k : ℕ) (v w : BitVector) → IsVector v → zero_extension i v ≡ Some w
        → v.width ≤ k → bit_at w.number k ≡ 0 }
    ensures sign_extend { (i m s k : ℕ) → s < 2 ^ m → k < m
        → bit_at (meaning.sign_extend i m s) k ≡ bit_at s k }
    ensures signs { (i m s k : ℕ) → s < 2 ^ m → m ≤ k → k < m + i
        → bit_at (meaning.sign_extend i m s) k ≡ bit_at s (m - 1) }
{}

/// Each result is a number of as many bits as its sort says (SMT-LIB 2.6, theory FixedSizeBitVectors and
/// logic QF_BV).
pub fn parts_fit()
    ensures concat { (m n s t : ℕ) → s < 2 ^ m → t < 2 ^ n → meaning.concat n s t < 2 ^ (m + n) }
    ensures extract { (i j s : ℕ) → meaning.extract i j s < 2 ^ (i - j + 1) }
    ensures repeat { (i m s : ℕ) → s < 2 ^ m → meaning.repeat i m s < 2 ^ (i * m) }
    ensures sign_extend { (i m s : ℕ) → meaning.sign_extend i m s < 2 ^ (m + i) }
    ensures rotate_left { (i m s : ℕ) → 1 ≤ m → s < 2 ^ m → meaning.rotate_left i m s < 2 ^ m }
    ensures rotate_right { (i m s : ℕ) → 1 ≤ m → s < 2 ^ m → meaning.rotate_right i m s < 2 ^ m }
{}
