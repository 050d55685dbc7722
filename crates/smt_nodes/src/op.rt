//! Operators that hold a number or a sort, as a table stores them: in a list of their own. This file knows no node.

ghost use Rattle.std.specs.Prelude.{◌≡◌};

use smt_theory::Op;
use std::marker::Model;

/// An operator with its numbers, or its sort. Contracts see it as the operator. An `Op` itself can't be an item of a
/// list that grows: the toolchain then makes no proof.
#[derive(Clone, Copy)]
pub(crate) struct NumberedOp {
    op: Op,
}

impl Model for NumberedOp {
    ghost use Rattle.std.specs.Coded.{codes};
    ghost use Rattle.smt_theory.specs.Internal.SortTokens.{sort_code};
    ghost use Rattle.smt_theory.specs.declared.op.Op.{Op};

    ghost Value = { Op };

    ghost coded = { Prim.hlevel (codes, sort_code) };

    ghost view = { λ numbered. numbered.op };

    ghost inverse = { λ op. record { op = op } };
}

impl NumberedOp {
    /// An operator as an item of a list.
    pub(crate) fn new(op: &Op) -> NumberedOp
        ensures { result ≡ op.now }
    {
        NumberedOp { op: *op }
    }

    /// The operator that is stored.
    pub(crate) fn op(&self) -> Op
        ensures { result ≡ self.now }
    {
        self.op
    }
}
