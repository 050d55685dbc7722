//! Sorts of the theories, each as one number. This file knows no operator, and no value.

ghost use Rattle.std.specs.Prelude.{◌≡◌, IfSome, is_some};
ghost use Rattle.smt_theory.specs.Sort.{Array, Bits, Boolean, Free, Int, Real, array_of_sort, command_of_sort};
ghost use Rattle.smt_theory.specs.Sort.{has_arrays, is_number, is_same_sort};
ghost use Rattle.smt_theory.specs.Sort.{width_of_sort};
ghost use Rattle.smt_theory.specs.SortKinds.{sort_of_kind};

use crate::sort_kind::SortKind;
use crate::width::Width;
use std::marker::Model;

/// A sort of the theories (SMT-LIB 2.6, theories Core, Reals_Ints, FixedSizeBitVectors and ArraysEx). `kind` says
/// which.
#[derive(Clone, Copy, PartialEq, Eq)]
pub struct Sort {
    code: u64,
}

impl Model for Sort {
    ghost use Rattle.std.proofs.Common.{ap};
    ghost use Rattle.std.specs.Prelude.{◌≡◌};
    ghost use Rattle.smt_theory.specs.Internal.SortCodes.{IsSort, code_of, sort_of_code};
    ghost use Rattle.smt_theory.specs.Sort.{Sort as SortView};
    ghost use Rattle.smt_theory.specs.Internal.SortTokens.{sort_code};

    ghost Value = { SortView };

    ghost coded = { sort_code };

    ghost view = { λ s. sort_of_code s.code };

    ghost invariant = { λ s. (code_of (sort_of_code s.code) ≡ s.code) × IsSort (sort_of_code s.code) };

    ghost inverse = { λ v. record { code = code_of v } };

    ghost inverse_ok = { λ a h. ap (λ n. record { code = n }) h.0 };
}

/// The code of the sort of the command 0, above those of the theories' sorts but for arrays.
const FREE: u64 = 131;
/// Above these are the codes of arrays: of indexes and elements, 31 bits each.
const ARRAY: u64 = 1 << 62;
/// Above these are the codes of arrays of arrays: of indexes, the held arrays' indexes and their elements, 20 bits
/// each.
const NESTED: u64 = 1 << 63;

const ARRAY_PART: u64 = 1 << 31;

const NESTED_PART: u64 = 1 << 20;

impl Sort {
    /// `Bool`.
    #[inline(always)]
    pub fn bool() -> Sort
        ensures { result ≡ Boolean }
    {
        Sort { code: 0 }
    }

    /// `Int`.
    #[inline(always)]
    pub fn int() -> Sort
        ensures { result ≡ Int }
    {
        Sort { code: 1 }
    }

    /// `Real`.
    #[inline(always)]
    pub fn real() -> Sort
        ensures { result ≡ Real }
    {
        Sort { code: 2 }
    }

    /// `(_ BitVec n)`.
    #[inline(always)]
    pub fn bits(width: Width) -> Sort
        ensures { result ≡ Bits width }
    {
        Sort {
            code: 2 + width.bits(),
        }
    }

    /// The sort that the command of this number declares.
    #[inline(always)]
    pub fn free(command: u32) -> Sort
        ensures { result ≡ Free command }
    {
        Sort {
            code: FREE + u64::from(command),
        }
    }

    /// `(Array o p)`, for the sort of the indexes and that of the elements; `None` where the indexes are arrays, where
    /// the elements are arrays of arrays, or where there is no room for the number of a command, which has 31 bits less
    /// 131 here, and 20 bits less 131 where the elements are arrays.
    pub fn array(index: Sort, element: Sort) -> Option<Sort>
        ensures sort { IfSome result (λ sort. sort ≡ Array index element) }
        ensures room { is_some result ≡ has_arrays index element }
    {
        let (i, e) = (index.code, element.code);
        if e < ARRAY {
            if i >= ARRAY_PART || e >= ARRAY_PART {
                return None;
            }
            return Some(Sort {
                code: ARRAY + (i * ARRAY_PART + e),
            });
        }
        if e >= NESTED {
            return None;
        }
        let (j, f) = ((e - ARRAY) / ARRAY_PART, (e - ARRAY) % ARRAY_PART);
        if i >= NESTED_PART || j >= NESTED_PART || f >= NESTED_PART {
            return None;
        }
        Some(Sort {
            code: NESTED + (i * (NESTED_PART * NESTED_PART) + (j * NESTED_PART + f)),
        })
    }

    /// Whether two sorts are the same.
    #[inline(always)]
    pub fn is_same(self, other: Sort) -> bool
        ensures { result ≡ is_same_sort self other }
    {
        self.code == other.code
    }

    /// Whether it is `Int` or `Real`.
    #[inline(always)]
    pub fn is_number(self) -> bool
        ensures { result ≡ is_number self }
    {
        self.code == 1 || self.code == 2
    }

    /// What the sort is.
    pub fn kind(self) -> SortKind
        ensures { sort_of_kind result ≡ self }
    {
        match self.code {
            0 => SortKind::Bool,
            1 => SortKind::Int,
            2 => SortKind::Real,
            code if code < FREE => SortKind::Bits(Width::of(code - 2)),
            code if code < ARRAY => SortKind::Free((code - FREE) as u32),
            code if code < NESTED => SortKind::Array(
                Sort {
                    code: (code - ARRAY) / ARRAY_PART,
                },
                Sort {
                    code: (code - ARRAY) % ARRAY_PART,
                },
            ),
            code => SortKind::Array(
                Sort {
                    code: (code - NESTED) / (NESTED_PART * NESTED_PART),
                },
                Sort {
                    code: ARRAY
                        + ((code - NESTED) / NESTED_PART % NESTED_PART * ARRAY_PART
                            + (code - NESTED) % NESTED_PART),
                },
            ),
        }
    }

    /// The number of the command that declared the sort; `None` of a sort of the theories.
    pub fn command(self) -> Option<u32>
        ensures { result ≡ command_of_sort self }
    {
        if self.code >= FREE && self.code < ARRAY {
            Some((self.code - FREE) as u32)
        } else {
            None
        }
    }

    /// The sort of the indexes of a sort of arrays, and that of the elements; `None` of any other.
    pub fn array_parts(self) -> Option<(Sort, Sort)>
        ensures { result ≡ array_of_sort self }
    {
        match self.kind() {
            SortKind::Array(index, element) => Some((index, element)),
            SortKind::Bool
            | SortKind::Int
            | SortKind::Real
            | SortKind::Bits(_)
            | SortKind::Free(_) => None,
        }
    }

    /// The width of a bit vector's sort; `None` of any other.
    #[inline(always)]
    pub fn width(self) -> Option<Width>
        ensures { result ≡ width_of_sort self }
    {
        if self.code > 2 && self.code < FREE {
            Some(Width::of(self.code - 2))
        } else {
            None
        }
    }
}
