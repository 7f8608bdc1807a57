//! A walk over all spans with a stack of children.
ghost use Rattle.std.specs.Prelude.{◌≡◌, ◌<◌, ◌++◌, OnOk, IfOk, List, ℕ, length, map, reverse};
ghost use Rattle.trace_tree.specs.Paths.{IsForest};
ghost use Rattle.trace_tree.specs.Walking.{node_with, IsAdjacency};

use crate::adjacency::Adjacency;
use crate::node::Node;
use crate::span::TreeSpan;
use otel_base::memory::Memory;
use std::alloc::Global;

// Puts places onto the stack, the first one on top.
fn push_all(places: &[u64], depth: u64, stack: &mut Vec<Node>) -> Result<(), Memory>
    ensures { OnOk result (stack.new.items ≡ stack.old.items ++ reverse (map (node_with depth) places.now)) }
{
    for i in 0..places.len() {
        stack.push(Node {
            place: places[places.len() - 1 - i],
            depth,
        })?;
    }
    Ok(())
}

/// All spans in the order of their paths.
pub(crate) fn walk(
    alloc: Global,
    finished: &[TreeSpan],
    adjacency: &Adjacency,
) -> Result<Vec<Node>, Memory>
    requires { IsAdjacency finished.now adjacency.now }
    ensures { IfOk result (λ v. IsForest finished.now v.items) }
{
    let mut nodes = Vec::new(alloc);
    let mut stack = Vec::new(alloc);
    push_all(adjacency.roots.as_slice(), 0, &mut stack)?;
    while let Some(node) = stack.pop() {
        nodes.push(node)?;
        let children = adjacency.children[node.place as usize].as_slice();
        push_all(children, node.depth + 1, &mut stack)?;
    }
    Ok(nodes)
}
