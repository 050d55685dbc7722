//! The cost of a term, counted from the term down, as far as a limit. This file keeps no costs.

ghost use Rattle.std.specs.Prelude.{◌≡◌, ◌≤◌, ◌<◌, ◌+◌, ℕ, IfOk, IfSome, Some, option_map};
ghost use Rattle.smt_machine.specs.Costs.{cost, first_cost, last_cost, part_cost, parts_cost, within};
ghost use Rattle.smt_machine.specs.Internal.Parts.{meaning, number_of, numbers_of};
ghost use Rattle.smt_machine.specs.Internal.Walks.{IsPositive, IsTakenUp};
ghost use Rattle.smt_machine.specs.Tables.{arounds_of, call, nodes_of, term_cost};

use crate::parts::{Part, Parts};
use crate::tables::{Place, Tables};
use smt_faults::Memory;
use smt_nodes::{Node, TermId};
use std::alloc::Global;

/// The cost of a term of the script; `None` where it is more than a limit.
///
/// The call looks at no more nodes than the limit says, and no more nodes wait at a time. It counts a body
/// anew at each use. The only error is want of memory.
pub fn cost_within(
    alloc: Global,
    tables: Tables<'_>,
    term: TermId,
    limit: u64,
) -> Result<Option<u64>, Memory>
    ensures { IfOk result (λ cost. cost ≡ within limit (term_cost tables.entry term)) }
{
    let Some(root) = tables.shift().checked_add(term.number()) else {
        // Memory has no room for so many nodes.
        return Err(Memory);
    };
    let mut waiting = Vec::new(alloc);
    waiting.push(root)?;
    let mut left = limit;
    while let Some(number) = waiting.pop() {
        match take_up(&mut waiting, &tables, number, left)? {
            Some(fewer) => left = fewer,
            None => return Ok(None),
        }
    }
    Ok(Some(limit - left))
}

// Counts a node, and makes its parts wait; `None` where too little is left for what waits.
fn take_up(
    waiting: &mut Vec<usize>,
    tables: &Tables<'_>,
    number: usize,
    left: u64,
) -> Result<Option<u64>, Memory>
    ensures taken { let c = cost (nodes_of tables.now) (arounds_of tables.now) in IfOk result (λ fewer.
        IsTakenUp c (c number) waiting.old.items waiting.new.items left fewer) }
    ensures fewer { IfOk result (λ fewer. IfSome fewer (λ fewer. fewer < left)) }
{
    let Some(rest) = left.checked_sub(1) else {
        return Ok(None);
    };
    let place = tables.place(number);
    let Some(rest) = rest.checked_sub(place.around() as u64) else {
        return Ok(None);
    };
    match place.node() {
        Some(node) => wait_for_node(waiting, number, &place, &node, rest),
        None => Ok(Some(rest)),
    }
}

// Makes the parts of a node wait, and the body that it names.
fn wait_for_node(
    waiting: &mut Vec<usize>,
    number: usize,
    from: &Place<'_>,
    node: &Node<'_>,
    left: u64,
) -> Result<Option<u64>, Memory>
    ensures taken { (c : ℕ → ℕ) → IsPositive c → IfOk result (λ fewer. IsTakenUp c
        (first_cost number c (Some (meaning from.now node.now))
        + last_cost number c (Some (meaning from.now node.now)))
        waiting.old.items waiting.new.items left fewer) }
    ensures fewer { IfOk result (λ fewer. IfSome fewer (λ fewer. fewer ≤ left)) }
{
    match node {
        Node::Literal(_, _) => Ok(Some(left)),
        Node::Element(_) | Node::Slot(_) => Ok(Some(left)),
        Node::Apply { args, .. } => wait_for(waiting, number, from.parts(*args), left),
        Node::Declared { place, args } => {
            wait_for_call(
                waiting,
                number,
                from.declared(*place),
                from.parts(*args),
                left,
            )
        }
        Node::Defined { place, args } => {
            wait_for_call(
                waiting,
                number,
                from.defined(*place),
                from.parts(*args),
                left,
            )
        }
        Node::Let { values, body } => {
            let body = Part {
                id: *body,
                shift: from.shift,
            };
            wait_for_both(waiting, number, from.parts(*values), body, left)
        }
    }
}

// Makes a body and its arguments wait, if there is a body.
fn wait_for_call(
    waiting: &mut Vec<usize>,
    number: usize,
    body: Option<Part>,
    args: Parts<'_>,
    left: u64,
) -> Result<Option<u64>, Memory>
    ensures taken { (c : ℕ → ℕ) → IsPositive c → IfOk result (λ fewer. IsTakenUp c
        (first_cost number c (Some (call (option_map number_of body) (numbers_of args.entry)))
        + last_cost number c (Some (call (option_map number_of body) (numbers_of args.entry))))
        waiting.old.items waiting.new.items left fewer) }
    ensures fewer { IfOk result (λ fewer. IfSome fewer (λ fewer. fewer ≤ left)) }
{
    match body {
        Some(body) => wait_for_both(waiting, number, args, body, left),
        None => Ok(Some(left)),
    }
}

// Makes parts and one more part wait.
fn wait_for_both(
    waiting: &mut Vec<usize>,
    number: usize,
    first: Parts<'_>,
    last: Part,
    left: u64,
) -> Result<Option<u64>, Memory>
    ensures taken { (c : ℕ → ℕ) → IsPositive c → IfOk result (λ fewer. IsTakenUp c
        (parts_cost number c (numbers_of first.entry) + part_cost number c (number_of last))
        waiting.old.items waiting.new.items left fewer) }
    ensures fewer { IfOk result (λ fewer. IfSome fewer (λ fewer. fewer ≤ left)) }
{
    let Some(rest) = wait_for(waiting, number, first, left)? else {
        return Ok(None);
    };
    let last = Parts {
        ids: &[last.id],
        shift: last.shift,
    };
    wait_for(waiting, number, last, rest)
}

// Makes parts wait, where enough is left to count all that waits then.
fn wait_for(
    waiting: &mut Vec<usize>,
    number: usize,
    parts: Parts<'_>,
    left: u64,
) -> Result<Option<u64>, Memory>
    ensures taken { (c : ℕ → ℕ) → IsPositive c → IfOk result (λ fewer. IsTakenUp c
        (parts_cost number c (numbers_of parts.entry)) waiting.old.items waiting.new.items left fewer) }
    ensures fewer { IfOk result (λ fewer. IfSome fewer (λ fewer. fewer ≤ left)) }
{
    let Some(room) = left.checked_sub(waiting.len() as u64) else {
        return Ok(None);
    };
    if parts.ids.len() as u64 > room {
        return Ok(None);
    }
    let mut left = left;
    for id in parts.ids {
        let part = Part {
            id: *id,
            shift: parts.shift,
        };
        left = wait_for_part(waiting, number, part, left)?;
    }
    Ok(Some(left))
}

// Makes a part wait, or counts it if it is open.
fn wait_for_part(
    waiting: &mut Vec<usize>,
    number: usize,
    part: Part,
    left: u64,
) -> Result<u64, Memory>
    requires { 1 ≤ left }
    ensures taken { (c : ℕ → ℕ) → IfOk result (λ fewer.
        IsTakenUp c (part_cost number c (number_of part)) waiting.old.items waiting.new.items left (Some fewer)) }
    ensures fewer { IfOk result (λ fewer. fewer ≤ left) }
    ensures one { IfOk result (λ fewer. left ≤ fewer + 1) }
{
    match part.below(number) {
        Some(part) => {
            waiting.push(part)?;
            Ok(left)
        }
        None => Ok(left - 1),
    }
}
