//! What is stored for nodes with annotations round them. This file knows no row, only its number.

ghost use Rattle.std.specs.Prelude.{◌≡◌, ◌<◌, ◌≤◌, ◌+◌, ℕ, Some, length, slice_get};

use crate::rows::Stored;

/// What is stored for a node with annotations round it, and the number of its row.
#[derive(Clone, Copy)]
pub(crate) struct AnnotatedNode {
    pub(crate) row: u32,
    pub(crate) stored: Stored,
}

/// How many of these nodes are left once the last ones are removed that belong to this row or a later one.
pub(crate) fn count_before(nodes: &[AnnotatedNode], row: usize) -> usize
    ensures within { result ≤ length nodes.now }
    ensures kept { (i : ℕ) (x : AnnotatedNode) → slice_get nodes.now i ≡ Some x → x.row < row → i < result }
    ensures gone { (i : ℕ) (x : AnnotatedNode) → slice_get nodes.now i ≡ Some x → result ≤ i + 1
        → i < result → x.row < row }
{
    let mut count = nodes.len();
    while count > 0 && nodes[count - 1].row as usize >= row {
        count -= 1;
    }
    count
}
