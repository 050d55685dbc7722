//! Theories, and the logics that choose them. This file knows no operator.

ghost use Rattle.std.specs.Prelude.{◌≡◌};
ghost use Rattle.smt_theory.specs.Theories as specs;
ghost use Rattle.smt_theory.specs.Theories.{theories_named, is_logic_of_bit_vectors, is_logic_of_integers};

use crate::profile::Profile;
use crate::symbols::is_named;
use crate::wide::wide_theories_of;

/// The theories of a logic besides Core.
#[derive(Clone, Copy)]
pub struct Theories {
    /// The theory Ints.
    pub ints: bool,
    /// The theory FixedSizeBitVectors, with the operators of the logic QF_BV.
    pub bits: bool,
    /// The theory Reals, and Reals_Ints where Ints is there too; only in the wide profile.
    pub reals: bool,
    /// The theory ArraysEx; only in the wide profile.
    pub arrays: bool,
    /// Whether the profile is the wide one.
    pub wide: bool,
}

/// All theories of a profile: those in force before a logic is set.
pub fn all_theories(profile: Profile) -> Theories
    ensures { result ≡ specs.all_theories profile }
{
    match profile {
        Profile::Base => base_theories(true, true),
        Profile::Wide => Theories {
            ints: true,
            bits: true,
            reals: true,
            arrays: true,
            wide: true,
        },
    }
}

/// The theories of the logic of this name in a profile; `None` where the logic is not supported.
///
/// Which logics are supported is this project's own choice. A logic chooses theories and restricts nothing
/// else; `ALL` has all theories of the profile. In the wide profile a name means the same with and without
/// `QF_`.
pub fn theories_of(profile: Profile, logic: &[u8]) -> Option<Theories>
    ensures { result ≡ theories_named profile logic.now }
{
    match profile {
        Profile::Base => base_theories_of(logic),
        Profile::Wide => wide_theories_of(logic),
    }
}

fn base_theories_of(logic: &[u8]) -> Option<Theories>
    ensures { result ≡ specs.base_theories_named logic.now }
{
    if is_named(logic, b"QF_UF") {
        Some(base_theories(false, false))
    } else if is_of_integers(logic) {
        Some(base_theories(true, false))
    } else if is_of_bit_vectors(logic) {
        Some(base_theories(false, true))
    } else if is_named(logic, b"ALL") {
        Some(base_theories(true, true))
    } else {
        None
    }
}

fn base_theories(ints: bool, bits: bool) -> Theories
    ensures { result ≡ specs.base_theories ints bits }
{
    Theories {
        ints,
        bits,
        reals: false,
        arrays: false,
        wide: false,
    }
}

fn is_of_integers(logic: &[u8]) -> bool
    ensures { result ≡ is_logic_of_integers logic.now }
{
    is_named(logic, b"QF_IDL")
        || is_named(logic, b"QF_LIA")
        || is_named(logic, b"QF_NIA")
        || is_named(logic, b"QF_UFIDL")
        || is_named(logic, b"QF_UFLIA")
        || is_named(logic, b"QF_UFNIA")
}

fn is_of_bit_vectors(logic: &[u8]) -> bool
    ensures { result ≡ is_logic_of_bit_vectors logic.now }
{
    is_named(logic, b"QF_BV") || is_named(logic, b"QF_UFBV")
}
