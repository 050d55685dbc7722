//! Where the trees of a text stand. This file knows no tokens.

ghost use Rattle.std.specs.Prelude.{Option, IfOk, true};
ghost use Rattle.smt_text.specs.Reading.{Reads};
ghost use Rattle.smt_text.specs.Spans.{AreSpans};
ghost use Rattle.smt_trees.specs.Sexp.{Sexps, Nil};
ghost use Rattle.smt_faults.specs.declared.text_flaw.TextFlaw.{TextFlaw};

use crate::gap::gap_length;
use crate::reader::{Next, Reader};
use crate::span::Span;
use smt_faults::Memory;
use std::alloc::Global;

/// Where the complete trees of a text stand, in their order, up to its end or its first fault. Lists nest no
/// deeper than `max_depth`; a list at the top is at depth 1.
pub fn tree_spans(alloc: Global, text: &[u8], max_depth: usize) -> Result<Vec<Span>, Memory>
    ensures { IfOk result (λ spans. (trees : Sexps) × (flaw : Option TextFlaw)
        × Reads max_depth true text.now trees flaw × AreSpans max_depth text.now 0 Nil spans.items trees) }
{
    let mut reader = Reader::new(alloc, max_depth);
    reader.feed(text);
    reader.finish();
    let mut spans = Vec::new(alloc);
    let mut before = 0;
    loop {
        match reader.next() {
            Next::Tree(_tree) => {
                let start = before + gap_length(&text[before..]);
                let end = reader.tree_end();
                spans.push(Span {
                    start: start as u64,
                    end,
                })?;
                before = end as usize;
            }
            Next::End => return Ok(spans),
            Next::Fault(fault) => match fault.flaw() {
                Some(_) => return Ok(spans),
                None => return Err(Memory),
            },
            Next::Wait => unreachable!(),
        }
    }
}
