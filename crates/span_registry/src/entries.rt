//! The entries that are open on each lane.
ghost use Rattle.std.specs.Prelude.{◌≡◌, ◌==◌, ◌<◌, ◌∷◌, [], ◌++◌, ◌≢◌, ℕ, length, OnOk, OnErr, IfOk, IfSome, IsNone, Err, slice_index_or};
ghost use Rattle.otel_base.specs.declared.enter_error.EnterError.TheVariants.{Full};
ghost use Rattle.trace_base.specs.Spans.{entries_on, with_entries, is_in, times_in, current_of, without_last};
ghost use Rattle.span_registry.specs.Registering.{StandsAt, no_lane};

use crate::lane_entries::LaneEntries;
use otel_base::enter_error::EnterError;
use std::alloc::Global;
use trace_base::span::Id;

// The entries of a lane.
pub(crate) fn entries(lanes: &[LaneEntries], lane: u64) -> &[Id]
    ensures { result.now ≡ entries_on lane lanes.now }
{
    match find(lanes, lane) {
        Some(at) => lanes[at].ids(),
        None => &[],
    }
}

// The current span of a lane.
pub(crate) fn current(lanes: &[LaneEntries], lane: u64) -> Option<Id>
    ensures { result ≡ current_of (entries_on lane lanes.now) }
{
    match find(lanes, lane) {
        Some(at) => lanes[at].current(),
        None => None,
    }
}

// The place of a lane.
fn find(lanes: &[LaneEntries], lane: u64) -> Option<usize>
    ensures some { IfSome result (StandsAt lanes.now lane) }
    ensures none { IsNone result → (k : ℕ) → k < length lanes.now
        → (slice_index_or lanes.now k no_lane).lane ≢ lane }
{
    for (at, entries) in lanes.iter().enumerate() {
        if entries.lane() == lane {
            return Some(at);
        }
    }
    None
}

// Adds an entry, and answers whether the lane had one of the span already.
pub(crate) fn add_entry(
    alloc: Global,
    lanes: &mut Vec<LaneEntries>,
    lane: u64,
    id: Id,
) -> Result<bool, EnterError>
    ensures not_full { ¬ (result ≡ Err Full) }
    ensures again { IfOk result (λ again. again ≡ is_in id (entries_on lane lanes.old.items)) }
    ensures ok { OnOk result
        (lanes.new.items ≡ with_entries lane (entries_on lane lanes.old.items ++ id ∷ []) lanes.old.items) }
    ensures memory_leaves { OnErr result (lanes.new.items ≡ lanes.old.items) }
{
    match find(lanes.as_slice(), lane) {
        Some(at) => lanes[at].push(id),
        None => {
            let mut entries = LaneEntries::new(alloc, lane);
            entries.push(id)?;
            lanes.push(entries)?;
            Ok(false)
        }
    }
}

// Removes the last entry of the span, and answers whether it was the only one.
pub(crate) fn remove_entry(lanes: &mut Vec<LaneEntries>, lane: u64, id: Id) -> bool
    requires { 0 < times_in id (entries_on lane lanes.old.items) }
    ensures only { result ≡ (times_in id (entries_on lane lanes.old.items) == 1) }
    ensures entries { lanes.new.items ≡ with_entries lane
        (without_last (λ x. x == id) (entries_on lane lanes.old.items)) lanes.old.items }
{
    let Some(at) = find(lanes.as_slice(), lane) else {
        unreachable!()
    };
    lanes[at].remove(id)
}
