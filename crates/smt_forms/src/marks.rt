//! A mark of each name, one of 64, which tells of most names that they are not among some. This file knows nothing of
//! what a name stands for.

ghost use Rattle.std.specs.Prelude.{◌≡◌, ℕ, List, get_or, true};
ghost use Rattle.smt_forms.specs.Internal.Marks.{is_marked, mark_of};

/// Whether a set of marks has that of a name.
#[inline(always)]
pub(crate) fn is_marked(marks: u64, name: &[u8]) -> bool
    ensures { result ≡ is_marked marks name.now }
{
    // Most terms have no variables, and no marks.
    marks != 0 && (marks >> mark(name)) % 2 == 1
}

/// A set of marks and that of a name.
#[inline(always)]
pub(crate) fn with_mark(marks: u64, name: &[u8]) -> u64
    ensures own { is_marked result name.now ≡ true }
    ensures others { (other : List ℕ) → is_marked marks other ≡ true → is_marked result other ≡ true }
{
    marks | (1 << mark(name))
}

// The mark of a name: names that differ most often have different ones.
#[inline(always)]
fn mark(name: &[u8]) -> u32
    ensures { result ≡ mark_of name.now }
{
    let first = u32::from(byte_at(name, 0));
    let last = u32::from(byte_at(name, name.len().saturating_sub(1)));
    (first * 5 + last * 3 + (name.len() % 64) as u32) % 64
}

// The byte at a place, or 0 where there is none.
#[inline(always)]
fn byte_at(name: &[u8], place: usize) -> u8
    ensures { result ≡ get_or name.now place 0 }
{
    match name.get(place) {
        Some(byte) => *byte,
        None => 0,
    }
}
