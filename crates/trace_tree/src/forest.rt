//! Finished spans as trees.
ghost use Rattle.std.specs.Prelude.{IfOk};
ghost use Rattle.trace_tree.specs.Paths.{AreDistinct, IsForest};

use crate::adjacency::adjacency_of;
use crate::node::Node;
use crate::span::TreeSpan;
use crate::walk::walk;
use otel_base::memory::Memory;
use std::alloc::Global;

/// All spans, each behind those that it stands under and all that stands under its elder siblings, with how deep it
/// stands. The span ids have to differ, as those of a tracer's records do. `Memory` freely.
pub fn forest(alloc: Global, finished: &[TreeSpan]) -> Result<Vec<Node>, Memory>
    requires { AreDistinct finished.now }
    ensures { IfOk result (λ v. IsForest finished.now v.items) }
{
    let adjacency = adjacency_of(alloc, finished)?;
    walk(alloc, finished, &adjacency)
}
