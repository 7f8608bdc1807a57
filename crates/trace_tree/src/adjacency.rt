//! Which spans stand under which.
ghost use Rattle.std.specs.Prelude.{◌≡◌, ◌==◌, ◌&&◌, ltb, length, IfOk};
ghost use Rattle.std.specs.Ordering.{nat_cmp};
ghost use Rattle.std.specs.BTreeMap.{get};
ghost use Rattle.trace_tree.specs.Paths.{AreDistinct};
ghost use Rattle.trace_tree.specs.Walking.{parent_place_from, IsIndex, IsAdjacency};

use crate::span::TreeSpan;
use otel_base::list::Items;
use otel_base::memory::Memory;
use std::alloc::Global;
use std::collections::BTreeMap;

/// Which spans stand under which, by their places, each list in the order of the span ids.
#[derive(Drop)]
pub struct Adjacency {
    /// The spans without a tree parent.
    pub roots: Items<u64>,
    /// For each span those whose tree parent it is.
    pub children: Vec<Items<u64>>,
}

// The places of the spans by their span ids.
fn index(alloc: Global, finished: &[TreeSpan]) -> Result<BTreeMap<u64, u64>, Memory>
    requires { AreDistinct finished.now }
    ensures { IfOk result (λ m. IsIndex finished.now (length finished.now) m) }
{
    let mut index = BTreeMap::new(alloc);
    for place in 0..finished.len() {
        index.insert(finished[place].span, place as u64)?;
    }
    Ok(index)
}

// The place that has an id.
fn place_of(index: &BTreeMap<u64, u64>, id: u64) -> Option<u64>
    ensures { result ≡ get nat_cmp index.now id }
{
    index.get(&id).copied()
}

// Whether a span that has the id of a span's parent is its tree parent.
fn may_be_parent(parent: &TreeSpan, one: &TreeSpan) -> bool
    ensures { result ≡ (parent.now.trace == one.now.trace) && ltb one.now.parent one.now.span }
{
    parent.trace == one.trace && one.parent < one.span
}

// The place of a span's tree parent.
fn parent_place(finished: &[TreeSpan], index: &BTreeMap<u64, u64>, one: &TreeSpan) -> Option<u64>
    requires distinct { AreDistinct finished.now }
    requires index { IsIndex finished.now (length finished.now) index.now }
    ensures { result ≡ parent_place_from 0 finished.now one.now }
{
    match place_of(index, one.parent) {
        Some(place) => {
            if may_be_parent(&finished[place as usize], one) {
                Some(place)
            } else {
                None
            }
        }
        None => None,
    }
}

// Puts each place under that of its tree parent, in the order of the ids.
fn group(
    alloc: Global,
    finished: &[TreeSpan],
    index: &BTreeMap<u64, u64>,
) -> Result<Adjacency, Memory>
    requires distinct { AreDistinct finished.now }
    requires index { IsIndex finished.now (length finished.now) index.now }
    ensures { IfOk result (λ f. IsAdjacency finished.now f) }
{
    let mut roots = Items::new(alloc);
    let mut children = Vec::new(alloc);
    for _ in finished {
        children.push(Items::new(alloc))?;
    }
    for (_, place) in index {
        let one = &finished[*place as usize];
        match parent_place(finished, index, one) {
            Some(parent) => children[parent as usize].push(*place)?,
            None => roots.push(*place)?,
        }
    }
    Ok(Adjacency { roots, children })
}

/// Which spans stand under which.
pub fn adjacency_of(alloc: Global, finished: &[TreeSpan]) -> Result<Adjacency, Memory>
    requires { AreDistinct finished.now }
    ensures { IfOk result (λ f. IsAdjacency finished.now f) }
{
    let index = index(alloc, finished)?;
    group(alloc, finished, &index)
}
