//! Numbers of the elements of declared sorts, and of arrays, as values hold them. This file knows no name, and nothing
//! that an array holds.

ghost use Rattle.std.specs.Cmp.{partial_equiv_from_equiv};
ghost use Rattle.std.specs.Cmp.Lexicographic.{nat_list_cmp_total, nat_list_eq_equiv, pointwise, slice_cmp, texts_po};
ghost use Rattle.std.specs.Cmp.Lexicographic.{texts_ties};
ghost use Rattle.std.specs.Ordering.{nat_cmp};
ghost use Rattle.std.specs.Prelude.{◌≡◌, ◌+◌, ◌^◌, ◌∷◌, [], Some, nat_eq, refl};
ghost use Rattle.smt_values.specs.ElementNumbers.{array_place, declared_number};

use std::cmp::Ordering;
use std::marker::Model;

/// The number of an element of a declared sort, or of an array, or none. Contracts see it as the list of this number
/// alone, which stands for the element's name; those of arrays begin at 2^32. None is the empty list.
#[derive(Clone, Copy)]
pub struct ElementNumber {
    // (one more than the number that contracts see, or 0)
    code: u64,
}

impl Model for ElementNumber {
    ghost use Rattle.std.proofs.Common.{ap};
    ghost use Rattle.std.specs.Prelude.{◌≡◌, ◌≤◌, ◌^◌, ℕ, List};
    ghost use Rattle.smt_values.specs.Internal.ElementCodes.{code_of, listed};

    ghost Value = { List ℕ };

    ghost view = { λ e. listed e.code };

    ghost invariant = { λ e. (code_of (listed e.code) ≡ e.code) × (e.code ≤ 2 ^ 33) };

    ghost inverse = { λ number. record { code = code_of number } };

    ghost inverse_ok = { λ a h. ap (λ n. record { code = n }) h.0 };
}

// The number of the first array.
const ARRAYS: u64 = 1 << 32;

impl ElementNumber {
    /// This number.
    #[inline(always)]
    pub fn new(number: u32) -> ElementNumber
        ensures { result ≡ number ∷ [] }
    {
        ElementNumber {
            code: u64::from(number) + 1,
        }
    }

    /// The number of no element.
    #[inline(always)]
    pub(crate) fn none() -> ElementNumber
        ensures { result ≡ [] }
    {
        ElementNumber { code: 0 }
    }

    /// The number of the array at this place.
    #[inline(always)]
    pub fn array(place: u32) -> ElementNumber
        ensures { result ≡ (2 ^ 32 + place) ∷ [] }
    {
        ElementNumber {
            code: ARRAYS + u64::from(place) + 1,
        }
    }

    /// The number; `None` where it is of no element of a declared sort.
    #[inline(always)]
    pub fn get(self) -> Option<u32>
        ensures { result ≡ declared_number self }
    {
        match self.code {
            0 => None,
            code if code <= ARRAYS => Some((code - 1) as u32),
            _ => None,
        }
    }

    /// The place of the array; `None` where it is of no array.
    #[inline(always)]
    pub fn array_place(self) -> Option<u32>
        ensures { result ≡ array_place self }
    {
        if self.code > ARRAYS {
            Some((self.code - ARRAYS - 1) as u32)
        } else {
            None
        }
    }
}

impl PartialEq for ElementNumber {
    ghost eq = { pointwise nat_eq };

    ghost laws = { partial_equiv_from_equiv nat_list_eq_equiv };

    fn eq(&self, other: &ElementNumber) -> bool {
        self.code == other.code
    }
}

impl Eq for ElementNumber {
    ghost laws = { nat_list_eq_equiv };
}

impl PartialOrd for ElementNumber {
    ghost partial_cmp = { λ x y. Some (slice_cmp nat_cmp x y) };

    ghost laws = { texts_po };

    fn partial_cmp(&self, other: &ElementNumber) -> Option<Ordering> {
        Some(self.cmp(other))
    }
}

impl Ord for ElementNumber {
    ghost cmp = { slice_cmp nat_cmp };

    ghost total = { nat_list_cmp_total };

    ghost matches_partial_cmp = { λ x y. refl };

    ghost matches_eq = { texts_ties };

    fn cmp(&self, other: &ElementNumber) -> Ordering {
        self.code.cmp(&other.code)
    }
}
