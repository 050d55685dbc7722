//! Laws of the shifts, bit by bit. Nothing here does anything.

ghost use Rattle.std.specs.Prelude.{◌≡◌, ℕ, ◌+◌, ◌-◌, ◌^◌, ◌<◌, ◌≤◌, pos, ◌+ℤ◌, ◌*ℤ◌, ◌<ℤ◌, ◌≤ℤ◌};
ghost use Rattle.std.specs.Int.{bit_at};
ghost use Rattle.smt_bits.specs.BitVector.{signed};
ghost use Rattle.smt_bits.specs.Operators.{bvashr, bvlshr, bvshl};

/// A shift to the left by t moves the bit at place k to place t + k, and leaves zeros below place t.
pub fn shifts_left_move_bits()
    ensures moved { (m s t k : ℕ) → t + k < m → bit_at (bvshl m s t) (t + k) ≡ bit_at s k }
    ensures zeros { (m s t k : ℕ) → k < t → bit_at (bvshl m s t) k ≡ 0 }
{}

/// A shift to the right by t moves the bit at place t + k to place k; zeros come in from beyond the width.
pub fn shifts_right_move_bits()
    ensures moved { (m s t k : ℕ) → bit_at (bvlshr m s t) k ≡ bit_at s (t + k) }
    ensures zeros { (m s t k : ℕ) → s < 2 ^ m → m ≤ t + k → bit_at (bvlshr m s t) k ≡ 0 }
{}

/// An arithmetic shift to the right by t moves the bit at place t + k to place k; copies of the highest bit
/// come in from beyond the width. Where t is the width or more, the result is all zeros or all ones.
pub fn arithmetic_shifts_keep_the_sign()
    ensures moved { (m s t k : ℕ) → s < 2 ^ m → t + k < m → bit_at (bvashr m s t) k ≡ bit_at s (t + k) }
    ensures signs { (m s t k : ℕ) → s < 2 ^ m → k < m → m ≤ t + k
        → bit_at (bvashr m s t) k ≡ bit_at s (m - 1) }
    ensures all_zeros { (m s t : ℕ) → s < 2 ^ m → m ≤ t → bit_at s (m - 1) ≡ 0 → bvashr m s t ≡ 0 }
    ensures all_ones { (m s t : ℕ) → s < 2 ^ m → m ≤ t → bit_at s (m - 1) ≡ 1 → bvashr m s t ≡ 2 ^ m - 1 }
{}

/// Read as signed, an arithmetic shift to the right by t divides by 2^t and rounds down.
pub fn arithmetic_shifts_round_down()
    ensures low { (m s t : ℕ) → 1 ≤ m → s < 2 ^ m
        → (signed m (bvashr m s t) *ℤ pos (2 ^ t)) ≤ℤ signed m s }
    ensures high { (m s t : ℕ) → 1 ≤ m → s < 2 ^ m
        → signed m s <ℤ ((signed m (bvashr m s t) +ℤ pos 1) *ℤ pos (2 ^ t)) }
{}
