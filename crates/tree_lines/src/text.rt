//! All that is written of the finished spans of a script.
ghost use Rattle.std.specs.Prelude.{◌≡◌, ◌++◌, ◌<◌, ℕ, IfOk, OnOk, length, get_or, flat_map};
ghost use Rattle.trace_tree.specs.Paths.{AreDistinct};
ghost use Rattle.trace_tree.specs.declared.node.Node.{Node};
ghost use Rattle.tree_lines.specs.Texts.{TellsTree, node_line, total_text};

use crate::line::{add_end, add_node, add_total};
use otel_base::memory::Memory;
use std::alloc::{AllocError, Global};
use trace_lines::TextBuffer;
use trace_tree::forest::forest;
use trace_tree::totals::totals;
use trace_tree::{Node, TraceTotal, TreeSpan};

// Adds the line of a node.
fn add_node_line(out: &mut TextBuffer, spans: &[TreeSpan], node: &Node) -> Result<(), AllocError>
    requires { node.now.place < length spans.now }
    ensures { OnOk result (out.new.items ≡ out.old.items ++ node_line spans.now node.now) }
{
    add_node(out, node.depth, &spans[node.place as usize])?;
    Ok(())
}

// Adds the lines of nodes.
fn add_nodes(out: &mut TextBuffer, spans: &[TreeSpan], nodes: &[Node]) -> Result<(), AllocError>
    requires { (i : ℕ) (d : Node) → i < length nodes.now → (get_or nodes.now i d).place < length spans.now }
    ensures { OnOk result (out.new.items ≡ out.old.items ++ flat_map (node_line spans.now) nodes.now) }
{
    for node in nodes {
        add_node_line(out, spans, node)?;
    }
    Ok(())
}

// Adds the lines of totals.
fn add_totals(out: &mut TextBuffer, totals: &[TraceTotal]) -> Result<(), AllocError>
    ensures { OnOk result (out.new.items ≡ out.old.items ++ flat_map total_text totals.now) }
{
    for total in totals {
        add_total(out, total)?;
    }
    Ok(())
}

/// The trees of the finished spans of a script that leaves so many open, as lines: the nodes of their forest, the totals of
/// their traces, and the end line. The span ids have to differ. `Memory` freely.
pub fn tree_text(alloc: Global, spans: &[TreeSpan], open_spans: u64) -> Result<Vec<u8>, Memory>
    requires { AreDistinct spans.now }
    ensures { IfOk result (λ text. TellsTree spans.now open_spans text.items) }
{
    let nodes = forest(alloc, spans)?;
    let totals = totals(alloc, spans)?;
    let mut out = TextBuffer::new(alloc);
    add_nodes(&mut out, spans, nodes.as_slice())?;
    add_totals(&mut out, totals.as_slice())?;
    let traces = totals.len() as u64;
    add_end(&mut out, open_spans, spans.len() as u64, traces)?;
    Ok(out.into_vec())
}
