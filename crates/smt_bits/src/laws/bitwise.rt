//! Laws of the operators that work bit by bit. Nothing here does anything.

ghost use Rattle.std.specs.Prelude.{◌≡◌, ◌≢◌, ◌↔◌, ◌⊎◌, ℕ, ◌+◌, ◌*◌, ◌^◌, ◌<◌, ◌≤◌};
ghost use Rattle.std.specs.Int.{bit_at};
ghost use Rattle.smt_bits.specs.BitVector.{from_bits};
ghost use Rattle.smt_bits.specs.Operators.{bvand, bvnand, bvnor, bvnot, bvor, bvxnor, bvxor};

/// A number that is made from m bits has these bits, and is below 2^m.
pub fn bits_are_as_given()
    ensures same { (bit : ℕ → ℕ) (m i : ℕ) → ((k : ℕ) → bit k ≤ 1) → i < m
        → bit_at (from_bits bit m) i ≡ bit i }
    ensures below { (bit : ℕ → ℕ) (m : ℕ) → ((k : ℕ) → bit k ≤ 1) → from_bits bit m < 2 ^ m }
{}

/// Each result is a number of m bits.
pub fn bitwise_fits()
    ensures not { (m s : ℕ) → bvnot m s < 2 ^ m }
    ensures and { (m s t : ℕ) → bvand m s t < 2 ^ m }
    ensures or { (m s t : ℕ) → bvor m s t < 2 ^ m }
    ensures xor { (m s t : ℕ) → bvxor m s t < 2 ^ m }
    ensures nand { (m s t : ℕ) → bvnand m s t < 2 ^ m }
    ensures nor { (m s t : ℕ) → bvnor m s t < 2 ^ m }
    ensures xnor { (m s t : ℕ) → bvxnor m s t < 2 ^ m }
{}

/// Each bit of a result is what the operator makes of the bits at its place (SMT-LIB 2.6, theory
/// FixedSizeBitVectors and logic QF_BV).
pub fn bits_are_taken_by_place()
    ensures not { (m s k : ℕ) → k < m → (bit_at (bvnot m s) k ≡ 1) ↔ (bit_at s k ≡ 0) }
    ensures and { (m s t k : ℕ) → k < m
        → (bit_at (bvand m s t) k ≡ 1) ↔ ((bit_at s k ≡ 1) × (bit_at t k ≡ 1)) }
    ensures or { (m s t k : ℕ) → k < m
        → (bit_at (bvor m s t) k ≡ 1) ↔ ((bit_at s k ≡ 1) ⊎ (bit_at t k ≡ 1)) }
    ensures xor { (m s t k : ℕ) → k < m → (bit_at (bvxor m s t) k ≡ 1) ↔ (bit_at s k ≢ bit_at t k) }
    ensures nand { (m s t k : ℕ) → k < m
        → (bit_at (bvnand m s t) k ≡ 0) ↔ ((bit_at s k ≡ 1) × (bit_at t k ≡ 1)) }
    ensures nor { (m s t k : ℕ) → k < m
        → (bit_at (bvnor m s t) k ≡ 0) ↔ ((bit_at s k ≡ 1) ⊎ (bit_at t k ≡ 1)) }
    ensures xnor { (m s t k : ℕ) → k < m → (bit_at (bvxnor m s t) k ≡ 1) ↔ (bit_at s k ≡ bit_at t k) }
{}

/// The complement of `bvand` is the `bvor` of the complements, and the other way round. The complement of the
/// complement is the vector itself.
pub fn complements_exchange_and_with_or()
    ensures and { (m s t : ℕ) → bvnot m (bvand m s t) ≡ bvor m (bvnot m s) (bvnot m t) }
    ensures or { (m s t : ℕ) → bvnot m (bvor m s t) ≡ bvand m (bvnot m s) (bvnot m t) }
    ensures twice { (m s : ℕ) → s < 2 ^ m → bvnot m (bvnot m s) ≡ s }
{}

/// A sum is made of the bits that one of the two numbers has alone, and twice the bits that both have.
pub fn sums_are_carried()
    ensures { (m s t : ℕ) → s < 2 ^ m → t < 2 ^ m → s + t ≡ bvxor m s t + 2 * bvand m s t }
{}
