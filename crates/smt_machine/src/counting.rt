//! The costs of nodes, by one pass over both tables. This file evaluates nothing.

ghost use Rattle.std.specs.Prelude.{◌≡◌, ◌+◌, ◌<◌, ℕ, IfOk, length, option_map, slice_get, slice_index, Some};
ghost use Rattle.smt_nodes.specs.PartsView.{parts_view};
ghost use Rattle.smt_machine.specs.Costs.{AreCosts, capped, cost, greatest_of, node_cost, part_cost, parts_cost};
ghost use Rattle.smt_machine.specs.Internal.Sums.{AreKept, call_cost, made_cost};
ghost use Rattle.smt_machine.specs.Internal.Parts.{found, found_around, number_of, numbers_of};
ghost use Rattle.smt_machine.specs.Tables.{arounds_of, model_count, nodes_of, term_cost};

use crate::parts::{Part, Parts};
use crate::tables::{Place, Tables};
use smt_faults::Memory;
use smt_nodes::{NodeParts, TermId};
use std::alloc::Global;

/// The cost of each node of both tables, by its number, the model's nodes first; 2^64 - 1 where it is that or
/// more. The only error is want of memory.
#[inline(never)]
pub fn costs(alloc: Global, tables: Tables<'_>) -> Result<Vec<u64>, Memory>
    ensures { IfOk result (λ costs. AreCosts (nodes_of tables.entry) (arounds_of tables.entry) costs.items) }
{
    let shift = tables.shift();
    let script = tables.script.len().checked_add(tables.transient.len());
    let Some(count) = shift.checked_add(script.unwrap_or(usize::MAX)) else {
        // Memory has no room for so many nodes.
        return Err(Memory);
    };
    let mut costs = Vec::with_capacity(alloc, count)?;
    for number in 0..shift {
        let cost = cost_at(costs.as_slice(), &tables.model_place(number));
        costs.push_reserved(cost);
    }
    for number in shift..count {
        let next = cost_at(costs.as_slice(), &tables.script_place(shift, number));
        costs.push_reserved(next);
    }
    Ok(costs)
}

/// The greatest cost of a node of the model, 0 where it has none; 2^64 - 1 where it is that or more. The only error is
/// want of memory.
#[inline(never)]
pub fn greatest_cost(alloc: Global, tables: Tables<'_>) -> Result<u64, Memory>
    ensures { IfOk result (λ most. most ≡ greatest_of (model_count tables.entry)
        (cost (nodes_of tables.entry) (arounds_of tables.entry))) }
{
    let count = tables.shift();
    let mut costs = Vec::with_capacity(alloc, count)?;
    let mut most = 0;
    for number in 0..count {
        let node_cost = cost_at(costs.as_slice(), &tables.model_place(number));
        costs.push_reserved(node_cost);
        most = node_cost.max(most);
    }
    Ok(most)
}

/// The cost of a term of the script, from the costs that were counted over these tables; 2^64 - 1 where it is
/// that or more.
pub fn cost_of_term(costs: &[u64], tables: Tables<'_>, term: TermId) -> u64
    requires { AreCosts (nodes_of tables) (arounds_of tables) costs.now }
    ensures { result ≡ capped (term_cost tables.entry term) }
{
    match costs.get(tables.shift().saturating_add(term.number())) {
        Some(cost) => *cost,
        // No node has the number.
        None => 1,
    }
}

/// The cost of a node of both tables, from the costs that were counted over these tables; 2^64 - 1 where it is that
/// or more.
pub fn cost_of_node(costs: &[u64], tables: Tables<'_>, node: usize) -> u64
    requires { AreCosts (nodes_of tables) (arounds_of tables) costs.now }
    ensures { result ≡ capped (cost (nodes_of tables.entry) (arounds_of tables.entry) node) }
{
    match costs.get(node) {
        Some(cost) => *cost,
        // No node has the number.
        None => 1,
    }
}

// The cost of the node at a place, from the costs of the nodes below it.
#[inline(always)]
fn cost_at(kept: &[u64], from: &Place<'_>) -> u64
    ensures { (c : ℕ → ℕ) → AreKept c kept.now
        → result ≡ capped (node_cost (length kept.now) c (found_around from.now) (found from.now)) }
{
    match from.annotated_parts() {
        Some((parts, around)) => 1u64
            .saturating_add(around as u64)
            .saturating_add(parts_of(kept, from, &parts)),
        None => 1,
    }
}

// The cost of the parts of a node, and of the body that it names.
#[inline(always)]
fn parts_of(kept: &[u64], from: &Place<'_>, parts: &NodeParts<'_>) -> u64
    ensures { (c : ℕ → ℕ) → AreKept c kept.now
        → result ≡ capped (made_cost (length kept.now) c from.now (parts_view parts.now)) }
{
    match parts {
        NodeParts::Literal(_, _) | NodeParts::Slot(_) => 0,
        NodeParts::Plain { args, .. } | NodeParts::Args(args) => sum_of(kept, from.parts(*args)),
        NodeParts::Declared { place, args } => {
            cost_of_call(kept, from.declared(*place), from.parts(*args))
        }
        NodeParts::Defined { place, args } => {
            cost_of_call(kept, from.defined(*place), from.parts(*args))
        }
        NodeParts::Let { values, body } => {
            let body = Part {
                id: *body,
                shift: from.shift,
            };
            sum_of(kept, from.parts(*values)).saturating_add(cost_of(kept, body))
        }
    }
}

// The cost of a body and its arguments, if there is a body.
#[inline(always)]
fn cost_of_call(kept: &[u64], body: Option<Part>, args: Parts<'_>) -> u64
    ensures { (c : ℕ → ℕ) → AreKept c kept.now
        → result ≡ capped (call_cost (length kept.now) c (option_map number_of body) (numbers_of args.entry)) }
{
    match body {
        Some(body) => sum_of(kept, args).saturating_add(cost_of(kept, body)),
        None => 0,
    }
}

// The cost of parts together.
#[inline(always)]
fn sum_of(kept: &[u64], parts: Parts<'_>) -> u64
    ensures { (c : ℕ → ℕ) → AreKept c kept.now
        → result ≡ capped (parts_cost (length kept.now) c (numbers_of parts.entry)) }
{
    let mut sum: u64 = 0;
    for id in parts.ids {
        let part = Part {
            id: *id,
            shift: parts.shift,
        };
        sum = sum.saturating_add(cost_of(kept, part));
    }
    sum
}

// The cost of a part. A part whose number is not below its node's is open, and costs 1.
#[inline(always)]
fn cost_of(kept: &[u64], part: Part) -> u64
    ensures { (c : ℕ → ℕ) → AreKept c kept.now
        → result ≡ capped (part_cost (length kept.now) c (number_of part)) }
{
    match kept.get(part.shift.saturating_add(part.id.number())) {
        Some(cost) => *cost,
        None => 1,
    }
}
