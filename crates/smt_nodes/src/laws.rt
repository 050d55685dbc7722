//! Laws of the definitions that the contracts name. Nothing here does anything: each contract is a law.

ghost use Rattle.std.specs.Prelude.{◌≡◌, ℕ, List, Some, slice_get};
ghost use Rattle.smt_names.specs.Places.{place_of};
ghost use Rattle.smt_nodes.specs.Node.{Element, Row};
ghost use Rattle.smt_nodes.specs.Nodes.{names_of, rows_of};
ghost use Rattle.smt_nodes.specs.declared.table.Nodes.{Nodes};

/// The name of each element in a table is among its names of elements, so that the element has a number.
pub fn elements_have_numbers()
    ensures { (nodes : Nodes) (k : ℕ) (row : Row) (name : List ℕ) → slice_get (rows_of nodes) k ≡ Some row
        → row.node ≡ Element name → (number : ℕ) × (place_of (names_of nodes) name ≡ Some number) }
{}
