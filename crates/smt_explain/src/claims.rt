//! The lines on a claim that is false or open, and on claims that cost too much. This file evaluates no term itself.

ghost use Rattle.smt_explain.specs.InForce.{IsInForce};

use crate::dialogue::{Dialogue, tell_command};
use crate::items::item_spans;
use smt_eval::{Interpretation, ModelFault, Parts};
use smt_faults::Memory;
use smt_reasons::{Definer, Known, Source, Stop, Walk, World, each, items_in, put_tree};
use smt_remarks::Page;
use smt_report::{Claim, Side};
use smt_script::{Command, read_command};
use smt_terms::TermId;
use smt_text::Span;
use smt_trees::{OwnedTree, Tree, Trees};
use std::alloc::Global;

/// How much may be looked at for all checks together, beyond the size of both texts: bytes of commands and models that
/// are read, nodes and steps.
pub(crate) const LEAST: u64 = 2_000_000;

/// A claim of a check, and the value it is known to have.
#[derive(Clone, Copy)]
pub(crate) struct Claimed {
    pub(crate) check: u64,
    pub(crate) claim: Claim,
    pub(crate) value: Known,
}

/// Writes a claim of a check that is false or open, the reason, and the place of the model.
pub(crate) fn tell_claim(
    page: &mut Page<'_>,
    dialogue: &Dialogue<'_>,
    claimed: Claimed,
    left: &mut u64,
)
    requires { IsInForce dialogue.now.replay }
{
    match claimed.claim {
        Claim::Assertion { command } => tell_command(page, dialogue, "claim", command),
        Claim::Assumption { place } => {
            tell_assumption(page, dialogue, "claim", claimed.check, place);
            page.put(b"of the check")
        }
    }
    if let Some((model, span)) = dialogue.replay.answer() {
        match tell_reason(page, dialogue, claimed, model, span, left) {
            Ok(()) => {}
            Err(Memory) => page.refuse(),
        }
    }
    tell_model(page, dialogue)
}

// Begins a remark on an assumption of a check.
fn tell_assumption(
    page: &mut Page<'_>,
    dialogue: &Dialogue<'_>,
    kind: &'static str,
    check: u64,
    number: u64,
) {
    page.begin(kind);
    if let Some(span) = dialogue.span_of(check) {
        page.set_spot(Side::Script, span.start);
    }
    page.put(b"assumption ");
    page.put_number(number);
    page.put(b" ")
}

/// Writes the place of the model in turn.
pub(crate) fn tell_model(page: &mut Page<'_>, dialogue: &Dialogue<'_>) {
    if let Some((_, span)) = dialogue.replay.answer() {
        page.begin("model");
        page.set_spot(Side::Answers, span.start);
    }
}

// Takes what is to be looked at from what is left; `false` where less is left.
fn take(left: &mut u64, amount: u64) -> bool {
    match left.checked_sub(amount) {
        Some(rest) => {
            *left = rest;
            true
        }
        None => false,
    }
}

// How much is looked at for a claim before any part of it: the commands with definitions, the model, and all nodes.
fn size_of(dialogue: &Dialogue<'_>, model: Span) -> u64 {
    let mut size = model.end.saturating_sub(model.start);
    let mut last = 0;
    for number in dialogue.brought() {
        if *number != last {
            size = size.saturating_add(dialogue.text_of(*number).len() as u64);
        }
        last = *number;
    }
    size.saturating_add(dialogue.library().nodes().len() as u64)
}

// The commands that brought the definitions in force.
fn definers(alloc: Global, dialogue: &Dialogue<'_>) -> Result<Vec<Definer>, Memory> {
    let mut commands = Vec::new(alloc);
    let mut last = 0;
    for number in dialogue.brought() {
        if *number != last
            && let Some(tree) = dialogue.tree_of(alloc, *number)?
            && let Some(span) = dialogue.span_of(*number)
        {
            commands.push(Definer {
                start: span.start,
                tree,
            })?;
        }
        last = *number;
    }
    Ok(commands)
}

// Writes why a claim is false or open, and which other claims are false.
fn tell_reason(
    page: &mut Page<'_>,
    dialogue: &Dialogue<'_>,
    claimed: Claimed,
    model: Tree<'_>,
    span: Span,
    left: &mut u64,
) -> Result<(), Memory>
    requires { IsInForce dialogue.now.replay }
{
    let alloc = page.alloc();
    let command = match claimed.claim {
        Claim::Assertion { command } => command,
        Claim::Assumption { .. } => claimed.check,
    };
    let Some(claim) = dialogue.tree_of(alloc, command)? else {
        return Ok(());
    };
    if !take(left, size_of(dialogue, span)) {
        page.note(b"(enough was looked at for the checks above)");
        return Ok(());
    }
    let source = Source {
        claim,
        model: OwnedTree::copy_of(alloc, model)?,
        items: item_spans(alloc, dialogue, span)?,
        commands: definers(alloc, dialogue)?,
    };
    tell_over(page, dialogue, claimed, &source, left)
}

// The same, with the trees that it speaks of.
fn tell_over(
    page: &mut Page<'_>,
    dialogue: &Dialogue<'_>,
    claimed: Claimed,
    source: &Source,
    left: &mut u64,
) -> Result<(), Memory>
    requires { IsInForce dialogue.now.replay }
{
    let Some(term) = claim_term(dialogue, &source.claim, claimed.claim) else {
        return Ok(());
    };
    let items = items_in(source.model.view());
    let library = dialogue.library();
    let mut interpretation = match Interpretation::read(library, items) {
        Ok(interpretation) => interpretation,
        Err(ModelFault::Memory) => return Err(Memory),
        Err(_) => return Ok(()),
    };
    interpretation.count(library)?;
    let parts = Parts::new(library, &interpretation);
    let world = World::new(page.alloc(), dialogue.texts.profile, source)?;
    tell_walk(page, dialogue, claimed, &world, parts, term, left)
}

// The same, over the definitions of the model and the script, as trees and as nodes.
fn tell_walk<'a, 'l>(
    page: &mut Page<'_>,
    dialogue: &Dialogue<'_>,
    claimed: Claimed,
    world: &'l World<'a>,
    parts: Parts<'l>,
    term: Tree<'a>,
    left: &mut u64,
) -> Result<(), Memory> {
    let Some(root) = root_of(dialogue, claimed.claim) else {
        return Ok(());
    };
    let steps = dialogue.texts.steps.min(*left);
    let mut walk = Walk::new(page.alloc(), world, parts, steps);
    let start = start_of(dialogue, claimed);
    walk.tell(page, term, start, root, claimed.value);
    if claimed.value == Known::False {
        tell_others(page, dialogue, &mut walk, claimed)?;
    }
    *left = left.saturating_sub(steps.saturating_sub(walk.steps()));
    tell_stop(page, walk.stop())
}

// Where the command with a claim begins.
fn start_of(dialogue: &Dialogue<'_>, claimed: Claimed) -> u64 {
    let command = match claimed.claim {
        Claim::Assertion { command } => command,
        Claim::Assumption { .. } => claimed.check,
    };
    match dialogue.span_of(command) {
        Some(span) => span.start,
        None => 0,
    }
}

// Says that no more was looked at, where the steps were used up.
fn tell_stop(page: &mut Page<'_>, stop: Option<Stop>) -> Result<(), Memory> {
    match stop {
        None => Ok(()),
        Some(Stop::Memory) => Err(Memory),
        Some(Stop::Steps) => {
            page.note(
                b"(no more was looked at: the steps are used up, and --steps sets how many there are)",
            );
            Ok(())
        }
    }
}

// The term of a claim in the library.
fn root_of(dialogue: &Dialogue<'_>, claim: Claim) -> Option<TermId> {
    let stack = dialogue.replay.stack();
    match claim {
        Claim::Assertion { command } => {
            for assertion in stack.assertions() {
                if assertion.command == command {
                    return Some(assertion.term);
                }
            }
            None
        }
        Claim::Assumption { place } => {
            let index = usize::try_from(place).ok()?.checked_sub(1)?;
            stack.assumptions().get(index).copied()
        }
    }
}

// The term of a claim, found in the tree of its command.
fn claim_term<'a>(
    dialogue: &Dialogue<'_>,
    command: &'a OwnedTree,
    claim: Claim,
) -> Option<Tree<'a>> {
    match (read_command(dialogue.texts.profile, command.view()), claim) {
        (Ok(Command::Assert { term }), Claim::Assertion { .. }) => Some(term),
        (Ok(Command::CheckSatAssuming { literals }), Claim::Assumption { place }) => {
            nth(literals, place)
        }
        _ => None,
    }
}

/// The tree of this number, from 1.
pub(crate) fn nth(trees: Trees<'_>, number: u64) -> Option<Tree<'_>> {
    for (place, tree, _) in each(trees) {
        if (place as u64).saturating_add(1) == number {
            return Some(tree);
        }
    }
    None
}

// Writes the assertions and the assumptions after a claim that are false too, as far as they fit on the page.
fn tell_others(
    page: &mut Page<'_>,
    dialogue: &Dialogue<'_>,
    walk: &mut Walk<'_, '_>,
    claimed: Claimed,
) -> Result<(), Memory> {
    match claimed.claim {
        Claim::Assertion { command } => {
            tell_assertions(page, dialogue, walk, command);
            tell_assumptions(page, dialogue, walk, claimed.check, 0)
        }
        Claim::Assumption { place } => {
            tell_assumptions(page, dialogue, walk, claimed.check, place)
        }
    }
}

// Writes the assertions of later commands that are false.
fn tell_assertions(
    page: &mut Page<'_>,
    dialogue: &Dialogue<'_>,
    walk: &mut Walk<'_, '_>,
    command: u64,
) {
    for assertion in dialogue.replay.stack().assertions() {
        if assertion.command > command && page.has_room() && walk.is_false(assertion.term) {
            tell_command(page, dialogue, "also false", assertion.command);
        }
    }
}

// Writes the assumptions of a check behind this number that are false.
fn tell_assumptions(
    page: &mut Page<'_>,
    dialogue: &Dialogue<'_>,
    walk: &mut Walk<'_, '_>,
    check: u64,
    told: u64,
) -> Result<(), Memory> {
    let Some(tree) = dialogue.tree_of(page.alloc(), check)? else {
        return Ok(());
    };
    let Ok(Command::CheckSatAssuming { literals }) = read_command(
        dialogue.texts.profile,
        tree.view(),
    ) else {
        return Ok(());
    };
    for (place, literal, _) in each(literals) {
        let number = (place as u64).saturating_add(1);
        let Some(term) = dialogue.replay.stack().assumptions().get(place) else {
            break;
        };
        if number > told && page.has_room() && walk.is_false(*term) {
            tell_assumption(page, dialogue, "also false", check, number);
            put_tree(page, literal);
        }
    }
    Ok(())
}

/// Writes the cost of the claims of a check, and which assertion costs most.
pub(crate) fn tell_cost(page: &mut Page<'_>, dialogue: &Dialogue<'_>)
    requires { IsInForce dialogue.now.replay }
{
    let Some((model, _)) = dialogue.replay.answer() else {
        return;
    };
    let stack = dialogue.replay.stack();
    let library = dialogue.library();
    let mut interpretation = match Interpretation::read(library, items_in(model)) {
        Ok(interpretation) => interpretation,
        Err(ModelFault::Memory) => return page.refuse(),
        Err(_) => return,
    };
    match interpretation.count(library) {
        Ok(()) => tell_costs(page, dialogue, Parts::new(library, &interpretation)),
        Err(Memory) => page.refuse(),
    }
}

// The same, of the nodes of the claims.
fn tell_costs(page: &mut Page<'_>, dialogue: &Dialogue<'_>, parts: Parts<'_>) {
    let stack = dialogue.replay.stack();
    let mut sum = 0u64;
    let mut most = (0u64, 0u64);
    for assertion in stack.assertions() {
        let steps = parts.cost(parts.root(assertion.term));
        sum = sum.saturating_add(steps);
        if steps > most.0 {
            most = (steps, assertion.command);
        }
    }
    page.begin("too long");
    page.put(b"the claims of this check cost ");
    page.put_number(sum.saturating_add(cost_of_all(parts, stack.assumptions())));
    page.put(b" steps; --steps sets the limit");
    if most.0 > 0 {
        tell_command(page, dialogue, "most of it", most.1);
        page.set_number(most.0);
    }
}

fn cost_of_all(parts: Parts<'_>, terms: &[TermId]) -> u64 {
    let mut sum = 0u64;
    for term in terms {
        sum = sum.saturating_add(parts.cost(parts.root(*term)));
    }
    sum
}
