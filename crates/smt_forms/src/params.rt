//! The parameters of definitions. This file knows no sorts: the trees that name them stay as they are.

ghost use Rattle.std.specs.Prelude.{◌≡◌, map, IfOk};
ghost use Rattle.smt_trees.specs.View.{sexps_of};
ghost use Rattle.smt_forms.specs.Bindings.{named_trees};
ghost use Rattle.smt_forms.specs.ParamView.{param_view};

use crate::bindings::split_named;
use smt_faults::Memory;
use smt_trees::{Tree, Trees};
use std::alloc::Global;

/// A parameter of a definition, which borrows its name, without bars, and the tree of its sort (SMT-LIB 2.6,
/// section 4.2.3).
#[derive(Clone, Copy)]
pub struct Param<'a> {
    pub name: &'a [u8],
    pub sort: Tree<'a>,
}

/// The parameters that these trees are, each a list of a symbol and the tree of a sort, up to the first tree
/// that is none. The only error is want of memory.
pub fn params_of(alloc: Global, trees: Trees<'_>) -> Result<Vec<Param<'_>>, Memory>
    ensures { IfOk result (λ params. map param_view params.items ≡ named_trees (sexps_of trees.entry)) }
{
    let mut params = Vec::new(alloc);
    let mut left = trees;
    while let Some((name, sort, rest)) = split_named(left) {
        params.push(Param { name, sort })?;
        left = rest;
    }
    Ok(params)
}
