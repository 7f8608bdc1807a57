//! Events, told to the subscriber that serves a lane.
ghost use Rattle.std.specs.Prelude.{◌<◌, length, OnOk, OnErr};
ghost use Rattle.trace_base.specs.Conditions.{IsLiveParent};
ghost use Rattle.trace_base.specs.Gate.{IsInWorld, dispatch_on};
ghost use Rattle.span_handles.specs.Worlds.{Has, Replaced};
ghost use Rattle.span_handles.specs.Handles.{HasIf, ReplacedIf};
ghost use Rattle.span_handles.specs.Events.{TellsEvent, TellsEventIf};

use otel_base::memory::Memory;
use trace_base::callsite::SiteId;
use trace_base::dispatcher::{Dispatch, get_default};
use trace_base::field::ValueSet;
use trace_base::lane::Lane;
use trace_base::span::Parent;
use trace_base::subscriber::Subscriber;
use trace_base::world::World;

/// Tells an event under a parent to the subscriber that serves the lane, if one does, whether the gate lets it through or
/// not; `tracing::Event::dispatch`, and `child_of` with a parent.
pub fn dispatch<S: Subscriber>(
    world: &mut World<S>,
    lane: &Lane,
    at: u64,
    parent: Parent,
    site: SiteId,
    values: &ValueSet,
) -> Result<(), Memory>
    requires own { IsInWorld world.old lane.now.default }
    requires site { site < length world.old.sites }
    requires whole { HasIf S.is_whole world.old (dispatch_on lane.now.default world.old.global) }
    requires live { HasIf (λ s. IsLiveParent (S.spans s).made parent) world.old
        (dispatch_on lane.now.default world.old.global) }
    ensures did { OnOk result (TellsEventIf S.does world.old world.new lane.now at parent site values.now
        (dispatch_on lane.now.default world.old.global)) }
    ensures memory_leaves { OnErr result
        (ReplacedIf S.same_but_room world.old world.new (dispatch_on lane.now.default world.old.global)) }
{
    match get_default(world, lane) {
        Some(dispatch) => tell(world, dispatch, lane, at, parent, site, values),
        None => Ok(()),
    }
}

// Tells an event to a subscriber.
fn tell<S: Subscriber>(
    world: &mut World<S>,
    dispatch: Dispatch,
    lane: &Lane,
    at: u64,
    parent: Parent,
    site: SiteId,
    values: &ValueSet,
) -> Result<(), Memory>
    requires there { dispatch < length world.old.subscribers }
    requires site { site < length world.old.sites }
    requires whole { Has S.is_whole world.old dispatch }
    requires live { Has (λ s. IsLiveParent (S.spans s).made parent) world.old dispatch }
    ensures did { OnOk result (TellsEvent S.does world.old world.new lane.now at parent site values.now dispatch) }
    ensures memory_leaves { OnErr result (Replaced S.same_but_room world.old world.new dispatch) }
{
    let (subscriber, callsite) = world.subscriber_and_site(dispatch, site);
    let current = subscriber.current_id(lane.id);
    subscriber.event(lane, at, parent, current, site, callsite, values)
}
