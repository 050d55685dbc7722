//! The logics of the wide profile. This file knows no other profile.

ghost use Rattle.std.specs.Prelude.{◌≡◌, ◌∷◌, [], bytes_eq, codes};
ghost use Rattle.std.specs.List.{list_any};
ghost use Rattle.smt_theory.specs.Theories as specs;

use crate::symbols::is_named;
use crate::theories::Theories;

/// The theories of the logic of this name in the wide profile; `None` where the logic is not supported.
pub(crate) fn wide_theories_of(logic: &[u8]) -> Option<Theories>
    ensures { result ≡ specs.first_with specs.wide_logics (specs.without_letters logic.now) }
{
    let name = without_letters(logic);
    if is_of_core(name) {
        Some(theories_by(b""))
    } else if is_of_ints(name) {
        Some(theories_by(b"I"))
    } else if is_of_reals(name) {
        Some(theories_by(b"R"))
    } else if is_of_ints_and_reals(name) {
        Some(theories_by(b"IR"))
    } else if is_of_bits(name) {
        Some(theories_by(b"B"))
    } else if is_of_bits_and_ints(name) {
        Some(theories_by(b"BI"))
    } else if is_of_arrays(name) {
        Some(theories_by(b"A"))
    } else if is_of_arrays_of_ints(name) {
        Some(theories_by(b"AI"))
    } else if is_of_arrays_of_reals(name) {
        Some(theories_by(b"AR"))
    } else if is_of_arrays_of_ints_and_reals(name) {
        Some(theories_by(b"AIR"))
    } else if is_of_arrays_of_bits(name) {
        Some(theories_by(b"AB"))
    } else if is_of_arrays_of_bits_and_ints(name) {
        Some(theories_by(b"ABI"))
    } else if is_of_arrays_of_bits_and_reals(name) {
        Some(theories_by(b"ABR"))
    } else if is_of_all(name) {
        Some(theories_by(b"ABIR"))
    } else {
        None
    }
}

// The name without a leading `QF_`.
fn without_letters(logic: &[u8]) -> &[u8]
    ensures { result.now ≡ specs.without_letters logic.now }
{
    match logic.strip_prefix(b"QF_") {
        Some(name) => name,
        None => logic,
    }
}

// The theories by letters: A for arrays, B for bit vectors, I for integers and R for reals.
fn theories_by(letters: &[u8]) -> Theories
    ensures { result ≡ specs.theories_by letters.now }
{
    Theories {
        ints: letters.contains(&b'I'),
        bits: letters.contains(&b'B'),
        reals: letters.contains(&b'R'),
        arrays: letters.contains(&b'A'),
        wide: true,
    }
}

fn is_of_core(name: &[u8]) -> bool
    ensures { result ≡ list_any (bytes_eq name.now) (codes "UF" ∷ codes "DT" ∷ codes "UFDT"
        ∷ codes "SAT" ∷ []) }
{
    is_named(name, b"UF")
        || is_named(name, b"DT")
        || is_named(name, b"UFDT")
        || is_named(name, b"SAT")
}

fn is_of_ints(name: &[u8]) -> bool
    ensures { result ≡ list_any (bytes_eq name.now) (codes "IDL" ∷ codes "LIA" ∷ codes "NIA"
        ∷ codes "UFIDL" ∷ codes "UFLIA" ∷ codes "UFNIA" ∷ codes "UFDTLIA" ∷ codes "UFDTNIA" ∷ []) }
{
    is_named(name, b"IDL")
        || is_named(name, b"LIA")
        || is_named(name, b"NIA")
        || is_named(name, b"UFIDL")
        || is_named(name, b"UFLIA")
        || is_named(name, b"UFNIA")
        || is_named(name, b"UFDTLIA")
        || is_named(name, b"UFDTNIA")
}

fn is_of_reals(name: &[u8]) -> bool
    ensures { result ≡ list_any (bytes_eq name.now) (codes "RDL" ∷ codes "LRA" ∷ codes "NRA"
        ∷ codes "UFRDL" ∷ codes "UFLRA" ∷ codes "UFNRA" ∷ []) }
{
    is_named(name, b"RDL")
        || is_named(name, b"LRA")
        || is_named(name, b"NRA")
        || is_named(name, b"UFRDL")
        || is_named(name, b"UFLRA")
        || is_named(name, b"UFNRA")
}

fn is_of_ints_and_reals(name: &[u8]) -> bool
    ensures { result ≡ list_any (bytes_eq name.now) (codes "LIRA" ∷ codes "NIRA"
        ∷ codes "UFLIRA" ∷ codes "UFNIRA" ∷ codes "UFDTLIRA" ∷ codes "UFDTNIRA" ∷ []) }
{
    is_named(name, b"LIRA")
        || is_named(name, b"NIRA")
        || is_named(name, b"UFLIRA")
        || is_named(name, b"UFNIRA")
        || is_named(name, b"UFDTLIRA")
        || is_named(name, b"UFDTNIRA")
}

fn is_of_bits(name: &[u8]) -> bool
    ensures { result ≡ list_any (bytes_eq name.now) (codes "BV" ∷ codes "UFBV" ∷ codes "UFBVDT"
        ∷ []) }
{
    is_named(name, b"BV") || is_named(name, b"UFBV") || is_named(name, b"UFBVDT")
}

fn is_of_bits_and_ints(name: &[u8]) -> bool
    ensures { result ≡ list_any (bytes_eq name.now) (codes "BVLIA" ∷ codes "BVNIA"
        ∷ codes "UFBVLIA" ∷ codes "UFBVNIA" ∷ []) }
{
    is_named(name, b"BVLIA")
        || is_named(name, b"BVNIA")
        || is_named(name, b"UFBVLIA")
        || is_named(name, b"UFBVNIA")
}

fn is_of_arrays(name: &[u8]) -> bool
    ensures { result ≡ list_any (bytes_eq name.now) (codes "AX" ∷ codes "AUF" ∷ codes "AUFDT"
        ∷ []) }
{
    is_named(name, b"AX") || is_named(name, b"AUF") || is_named(name, b"AUFDT")
}

fn is_of_arrays_of_ints(name: &[u8]) -> bool
    ensures { result ≡ list_any (bytes_eq name.now) (codes "ALIA" ∷ codes "ANIA"
        ∷ codes "AUFLIA" ∷ codes "AUFNIA" ∷ codes "AUFDTLIA" ∷ codes "AUFDTNIA" ∷ []) }
{
    is_named(name, b"ALIA")
        || is_named(name, b"ANIA")
        || is_named(name, b"AUFLIA")
        || is_named(name, b"AUFNIA")
        || is_named(name, b"AUFDTLIA")
        || is_named(name, b"AUFDTNIA")
}

fn is_of_arrays_of_reals(name: &[u8]) -> bool
    ensures { result ≡ list_any (bytes_eq name.now) (codes "ALRA" ∷ codes "ANRA"
        ∷ codes "AUFLRA" ∷ codes "AUFNRA" ∷ []) }
{
    is_named(name, b"ALRA")
        || is_named(name, b"ANRA")
        || is_named(name, b"AUFLRA")
        || is_named(name, b"AUFNRA")
}

fn is_of_arrays_of_ints_and_reals(name: &[u8]) -> bool
    ensures { result ≡ list_any (bytes_eq name.now) (codes "ALIRA" ∷ codes "ANIRA"
        ∷ codes "AUFLIRA" ∷ codes "AUFNIRA" ∷ codes "AUFDTLIRA" ∷ codes "AUFDTNIRA" ∷ []) }
{
    is_named(name, b"ALIRA")
        || is_named(name, b"ANIRA")
        || is_named(name, b"AUFLIRA")
        || is_named(name, b"AUFNIRA")
        || is_named(name, b"AUFDTLIRA")
        || is_named(name, b"AUFDTNIRA")
}

fn is_of_arrays_of_bits(name: &[u8]) -> bool
    ensures { result ≡ list_any (bytes_eq name.now) (codes "ABV" ∷ codes "AUFBV"
        ∷ codes "AUFBVDT" ∷ []) }
{
    is_named(name, b"ABV") || is_named(name, b"AUFBV") || is_named(name, b"AUFBVDT")
}

fn is_of_arrays_of_bits_and_ints(name: &[u8]) -> bool
    ensures { result ≡ list_any (bytes_eq name.now) (codes "ABVLIA" ∷ codes "AUFBVLIA"
        ∷ codes "AUFBVNIA" ∷ codes "AUFBVDTLIA" ∷ codes "AUFBVDTNIA" ∷ []) }
{
    is_named(name, b"ABVLIA")
        || is_named(name, b"AUFBVLIA")
        || is_named(name, b"AUFBVNIA")
        || is_named(name, b"AUFBVDTLIA")
        || is_named(name, b"AUFBVDTNIA")
}

fn is_of_arrays_of_bits_and_reals(name: &[u8]) -> bool
    ensures { result ≡ list_any (bytes_eq name.now) (codes "ABVLRA" ∷ codes "ABVNRA"
        ∷ codes "AUFBVLRA" ∷ codes "AUFBVNRA" ∷ []) }
{
    is_named(name, b"ABVLRA")
        || is_named(name, b"ABVNRA")
        || is_named(name, b"AUFBVLRA")
        || is_named(name, b"AUFBVNRA")
}

fn is_of_all(name: &[u8]) -> bool
    ensures { result ≡ list_any (bytes_eq name.now) (codes "ALL" ∷ codes "ALL_SUPPORTED"
        ∷ codes "AUFBVLIRA" ∷ codes "AUFBVNIRA" ∷ codes "AUFBVDTLIRA" ∷ codes "AUFBVDTNIRA" ∷ []) }
{
    is_named(name, b"ALL")
        || is_named(name, b"ALL_SUPPORTED")
        || is_named(name, b"AUFBVLIRA")
        || is_named(name, b"AUFBVNIRA")
        || is_named(name, b"AUFBVDTLIRA")
        || is_named(name, b"AUFBVDTNIRA")
}
