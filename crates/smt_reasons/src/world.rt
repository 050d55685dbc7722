//! The definitions that a model and a script give to names, as their trees. This file evaluates nothing.

use crate::trees::{each, tree_from};
use smt_faults::Memory;
use smt_forms::{Scope, is_bang, item_form, label_at};
use smt_report::Side;
use smt_script::{Command, read_command};
use smt_text::Span;
use smt_theory::Profile;
use smt_trees::{OwnedTree, Tree, Trees};
use std::alloc::Global;

/// Where what defines a name begins: an item of the model, in the answers, or a command, in the script.
#[derive(Clone, Copy)]
pub(crate) struct Origin {
    pub(crate) side: Side,
    pub(crate) start: u64,
}

/// A name that a model, a command or a label defines.
#[derive(Clone, Copy)]
pub(crate) struct Defined<'a> {
    pub(crate) name: &'a [u8],
    pub(crate) parameters: Trees<'a>,
    pub(crate) body: Tree<'a>,
    pub(crate) origin: Origin,
}

impl Defined<'_> {
    pub(crate) fn is_item(&self) -> bool {
        matches!(self.origin.side, Side::Answers)
    }
}

/// The definitions over which a claim is evaluated, and the place of each name among them.
#[derive(Drop)]
pub struct World<'a> {
    definitions: Vec<Defined<'a>>,
    places: Scope<'a, usize>,
}

/// The trees that an explanation of a claim speaks of: the command with the claim, the model with the places of its
/// items, and the commands that brought the definitions in force. (They lie in one place, and so live as long as one
/// another.)
#[derive(Drop)]
pub struct Source {
    pub claim: OwnedTree,
    pub model: OwnedTree,
    pub items: Vec<Span>,
    pub commands: Vec<Definer>,
}

/// A command that brings definitions, and the byte of the script where it begins.
#[derive(Drop)]
pub struct Definer {
    pub start: u64,
    pub tree: OwnedTree,
}

impl<'a> World<'a> {
    /// The definitions that the items and the commands make. An item of a name that a command defines too is none.
    pub fn new(alloc: Global, profile: Profile, source: &'a Source) -> Result<World<'a>, Memory> {
        let mut world = World {
            definitions: Vec::new(alloc),
            places: Scope::new(alloc),
        };
        for (place, item, _) in each(items_in(source.model.view())) {
            if let Ok(form) = item_form(item)
                && let Some(span) = source.items.get(place)
            {
                let origin = Origin {
                    side: Side::Answers,
                    start: span.start,
                };
                world.add(form.name, form.parameters, form.body, origin)?;
            }
        }
        for command in source.commands.as_slice() {
            let origin = Origin {
                side: Side::Script,
                start: command.start,
            };
            world.add_command(alloc, profile, command.tree.view(), origin)?;
        }
        Ok(world)
    }

    fn add(
        &mut self,
        name: &'a [u8],
        parameters: Trees<'a>,
        body: Tree<'a>,
        origin: Origin,
    ) -> Result<(), Memory> {
        self.places.push(name, self.definitions.len())?;
        self.definitions.push(Defined {
            name,
            parameters,
            body,
            origin,
        })?;
        Ok(())
    }

    fn add_command(
        &mut self,
        alloc: Global,
        profile: Profile,
        tree: Tree<'a>,
        origin: Origin,
    ) -> Result<(), Memory> {
        match read_command(profile, tree) {
            Ok(
                Command::DefineFun {
                    name,
                    params,
                    body,
                    ..
                },
            ) => self.add(name, params, body, origin),
            Ok(Command::DefineConst { name, body, .. }) => {
                self.add(name, Trees::empty(), body, origin)
            }
            Ok(Command::Assert { .. }) => self.add_labels(alloc, tree, origin),
            _ => Ok(()),
        }
    }

    // Adds the labels in a command. A tree in the value of an attribute labels nothing.
    fn add_labels(
        &mut self,
        alloc: Global,
        command: Tree<'a>,
        origin: Origin,
    ) -> Result<(), Memory> {
        let Tree::List(parts) = command else {
            return Ok(());
        };
        // (the places of the attributes that come next, those that come first on top)
        let mut attributes: Vec<(usize, usize)> = Vec::new(alloc);
        for before in 0..parts.size() {
            let place = parts.size() - before;
            let Some((tree, rest)) = tree_from(parts, place) else {
                break;
            };
            match attributes.as_slice().last() {
                Some((from, to)) if place <= *from && place > *to => continue,
                Some((_, to)) if place <= *to => {
                    let _ = attributes.pop();
                }
                _ => {}
            }
            if let Some((term, given)) = annotated(tree) {
                let from = rest.size().saturating_add(given.size());
                attributes.push((from, rest.size()))?;
                self.add_label(term, given, origin)?;
            }
        }
        Ok(())
    }

    fn add_label(
        &mut self,
        term: Tree<'a>,
        attributes: Trees<'a>,
        origin: Origin,
    ) -> Result<(), Memory> {
        for (_, attribute, rest) in each(attributes) {
            if let Some(name) = label_at(attribute, rest) {
                self.add(name, Trees::empty(), term, origin)?;
            }
        }
        Ok(())
    }

    /// The definition of a name: that of a command, if there is one.
    pub(crate) fn find(&self, name: &[u8]) -> Option<Defined<'a>> {
        self.definitions.get(self.places.find(name)?).copied()
    }
}

/// The items of a model, without a leading symbol `model`.
pub fn items_in(model: Tree<'_>) -> Trees<'_> {
    let Tree::List(parts) = model else {
        return Trees::empty();
    };
    match parts.split_first() {
        Some((first, rest)) if first.is_symbol(b"model") => rest,
        _ => parts,
    }
}

// The term and the attributes of an annotated term.
fn annotated(tree: Tree<'_>) -> Option<(Tree<'_>, Trees<'_>)> {
    let Tree::List(parts) = tree else {
        return None;
    };
    let (head, rest) = parts.split_first()?;
    if is_bang(head) {
        rest.split_first()
    } else {
        None
    }
}
