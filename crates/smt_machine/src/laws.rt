//! Laws of the definitions that the contracts name. Nothing here does anything: each contract is a law.

ghost use Rattle.std.specs.Prelude.{◌≡◌, ℕ, ◌<◌, List, ◌++◌, length, slice_get};
ghost use Rattle.smt_machine.specs.Costs.{around_at, cost, node_cost};
ghost use Rattle.smt_machine.specs.Given.{given};
ghost use Rattle.smt_machine.specs.Least.{least, node_least};
ghost use Rattle.smt_machine.specs.Nodes.{Frame, Node, node_value};

/// What is known of a node's value follows from its form and the nodes below it, at every number and in every
/// frame.
pub fn nodes_have_their_values()
    ensures { (nodes : List Node) (i : ℕ) (frame : Frame)
        → given nodes i frame ≡ node_value i (given nodes) frame (slice_get nodes i) }
{}

/// What is known of a node's value stays the same when a table grows.
pub fn values_are_kept()
    ensures { (nodes more : List Node) (i : ℕ) (frame : Frame) → i < length nodes
        → given (nodes ++ more) i frame ≡ given nodes i frame }
{}

/// The cost of a node follows from the costs of the nodes below it, at every number.
pub fn nodes_have_their_costs()
    ensures { (nodes : List Node) (arounds : List ℕ) (i : ℕ) → cost nodes arounds i
        ≡ node_cost i (cost nodes arounds) (around_at arounds i) (slice_get nodes i) }
{}

/// How many nodes are evaluated at least for a node follows from the nodes below it, at every number.
pub fn nodes_have_their_least()
    ensures { (nodes : List Node) (arounds : List ℕ) (i : ℕ) → least nodes arounds i
        ≡ node_least i (least nodes arounds) (around_at arounds i) (slice_get nodes i) }
{}
