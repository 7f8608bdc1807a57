//! The gate of a stack, and the exchange of its filter.
ghost use Rattle.std.specs.Prelude.{◌≡◌, ◌≢◌, ◌<◌, ℕ, true, false, None, Some, length, is_some, slice_get, OnOk, OnErr};
ghost use Rattle.trace_base.specs.declared.callsite.Callsite.{Callsite};
ghost use Rattle.trace_base.specs.Gate.{AreSame, IsInWorld, dispatch_on};
ghost use Rattle.span_handles.specs.Handles.{HasIf};
ghost use Rattle.span_handles.specs.Worlds.{Replaced, KeepsPlainData};
ghost use Rattle.otel_layer.specs.Parts.{StaysStack};
ghost use Rattle.env_filter.specs.Filtering.{FilterState, plain_filter, is_admitted, IsNewFilter};
ghost use Rattle.env_filter.specs.Reloading.{Swaps};
ghost use Rattle.span_stack.specs.Reading.{recording_in, filter_in, counting_filter_in, measures_in, HasCurrentInterests};

use crate::stack::Stack;
use env_filter::filter::EnvFilter;
use otel_base::memory::Memory;
use trace_base::callsite::SiteId;
use trace_base::dispatcher::Dispatch;
use trace_base::lane::Lane;
use trace_base::subscriber::Subscriber;
use trace_base::world::World;

/// Whether what a callsite makes is let through on a lane, by the interest that was cached: what the macros of `tracing`
/// ask. No where no stack serves the lane.
pub fn admits(world: &World<Stack>, lane: &Lane, site: SiteId) -> bool
    requires site { site < length world.now.sites }
    requires in_world { IsInWorld world.now lane.now.default }
    requires whole { HasIf ⟦<Stack as Subscriber>⟧.is_whole world.now
        (dispatch_on lane.now.default world.now.global) }
    requires current { HasCurrentInterests world.now }
    ensures served { (dispatch : ℕ) (f : FilterState) (c : Callsite)
        → dispatch_on lane.now.default world.now.global ≡ Some dispatch → filter_in world.now dispatch ≡ Some f
        → slice_get world.now.sites site ≡ Some c → result ≡ is_admitted f lane.now.id c }
    ensures none { dispatch_on lane.now.default world.now.global ≡ None → result ≡ false }
{
    world.admits(lane, site)
}

// Room leaves the plain data as they are.
fn room_leaves_spans<S: Subscriber>()
    ensures { (s t : S) → S.same_but_room s t → StaysStack S.spans S.kept S.attaches S.is_whole s t }
{}

// Exchanges the filter in place, if it wasn't retired.
fn exchange(world: &mut World<Stack>, dispatch: Dispatch, filter: &mut EnvFilter)
    requires { dispatch < length world.old.subscribers }
    ensures { Replaced (λ s t. (t.inner ≡ s.inner) × Swaps s.layer.inner filter.old t.layer.inner filter.new)
        world.old world.new dispatch }
{
    let _ = world.subscriber_mut(dispatch).layer_mut().exchange(filter);
}

/// Puts another filter in force, and asks for all interests again; `reload::Handle::reload`. After `Memory` everything
/// is as it was, but for spare room.
pub fn put_in_force(
    world: &mut World<Stack>,
    dispatch: Dispatch,
    filter: EnvFilter,
) -> Result<(), Memory>
    requires new { IsNewFilter (plain_filter filter) }
    requires there { dispatch < length world.old.subscribers }
    requires in_place { is_some (filter_in world.old dispatch) ≡ true }

    ensures filter { OnOk result (filter_in world.new dispatch ≡ Some (plain_filter filter)) }
    ensures recording { recording_in world.new dispatch ≡ recording_in world.old dispatch }
    ensures measures { measures_in world.new dispatch ≡ measures_in world.old dispatch }
    ensures counting_filter { counting_filter_in world.new dispatch ≡ counting_filter_in world.old dispatch }

    ensures others { KeepsPlainData ⟦<Stack as Subscriber>⟧.spans ⟦<Stack as Subscriber>⟧.attaches
        ⟦<Stack as Subscriber>⟧.kept ⟦<Stack as Subscriber>⟧.is_whole world.old world.new dispatch }
    ensures current { OnOk result (HasCurrentInterests world.new) }
    ensures sites { world.new.sites ≡ world.old.sites }
    ensures global { world.new.global ≡ world.old.global }

    // What the other subscribers keep is the same but for room.
    ensures other_subscribers { OnOk result ((other : ℕ) (s t : _) → other ≢ dispatch
        → slice_get world.old.subscribers other ≡ Some s → slice_get world.new.subscribers other ≡ Some t
        → ⟦<Stack as Subscriber>⟧.same_but_room s t) }

    // For want of memory the filter before is in force, and the interests before are kept.
    ensures memory_same { OnErr result
        (AreSame ⟦<Stack as Subscriber>⟧.same_but_room world.old.subscribers world.new.subscribers) }
    ensures memory_leaves { OnErr result (filter_in world.new dispatch ≡ filter_in world.old dispatch) }
    ensures memory_cached { OnErr result (world.new.cached ≡ world.old.cached) }
    ensures memory_current { OnErr result (HasCurrentInterests world.old → HasCurrentInterests world.new) }
{
    room_leaves_spans::<Stack>();
    let mut other = filter;
    exchange(world, dispatch, &mut other);
    match world.rebuild_interest() {
        Ok(()) => Ok(()),
        Err(memory) => {
            exchange(world, dispatch, &mut other);
            Err(memory)
        }
    }
}
