//! Single calls on a subscriber of a world, for the handles that make them.
ghost use Rattle.std.specs.Prelude.{◌≡◌, ◌<◌, ◌==◌, ℕ, length, Some, OnOk, OnErr};
ghost use Rattle.trace_base.specs.Spans.{span_at};
ghost use Rattle.trace_base.specs.Calls.{CloneSpan, Follows};
ghost use Rattle.trace_base.specs.declared.span.Parent.TheVariants as parent;
ghost use Rattle.trace_base.specs.Conditions.{HasFewHolds, ParentHasFewHolds, HasUnboundHold, IsLive};
ghost use Rattle.span_handles.specs.Worlds.{Has, Replaced, Chain};
ghost use Rattle.span_handles.specs.Handles.{IsKnown, MayMake, MayMakeIf, CopiesCurrent, ClosesOn};
ghost use Rattle.span_handles.specs.Knowing.{KeepsHandles, KeepsOthers, GainsOne, LosesOne};
ghost use Rattle.span_handles.specs.Makers.{MakesHandle};

use crate::span::Span;
use otel_base::memory::Memory;
use trace_base::callsite::SiteId;
use trace_base::dispatcher::Dispatch;
use trace_base::field::ValueSet;
use trace_base::lane::Lane;
use trace_base::span::{Id, Parent};
use trace_base::subscriber::Subscriber;
use trace_base::world::World;

// A new span under a parent, by a subscriber if there is one.
pub(crate) fn make_if<S: Subscriber>(
    world: &mut World<S>,
    dispatch: Option<Dispatch>,
    lane: &Lane,
    at: u64,
    parent: Parent,
    site: SiteId,
    values: &ValueSet,
) -> Result<Span, Memory>
    requires site { site < length world.old.sites }
    requires may { MayMakeIf S.spans S.is_whole world.old lane.now.id parent dispatch }
    ensures makes { MakesHandle S.spans S.does S.same_but_room world.old world.new lane.now at parent site values.now
        dispatch result }
{
    match dispatch {
        None => Ok(Span::none()),
        Some(dispatch) => make(world, dispatch, lane, at, parent, site, values),
    }
}

// A new span under a parent.
pub(crate) fn make<S: Subscriber>(
    world: &mut World<S>,
    dispatch: Dispatch,
    lane: &Lane,
    at: u64,
    parent: Parent,
    site: SiteId,
    values: &ValueSet,
) -> Result<Span, Memory>
    requires site { site < length world.old.sites }
    requires may { MayMake S.spans S.is_whole world.old lane.now.id parent dispatch }
    ensures makes { MakesHandle S.spans S.does S.same_but_room world.old world.new lane.now at parent site values.now
        (Some dispatch) result }
{
    let (subscriber, callsite) = world.subscriber_and_site(dispatch, site);
    Span::make_by(
        dispatch, subscriber, lane, at, parent, site, callsite, values,
    )
}

// A handle of a lane's current span, if there is one.
pub(crate) fn copy_current<S: Subscriber>(
    world: &mut World<S>,
    dispatch: Dispatch,
    lane: u64,
) -> Span
    requires there { dispatch < length world.old.subscribers }
    requires whole { Has S.is_whole world.old dispatch }
    requires few_holds { Has (λ s. ParentHasFewHolds (S.spans s) lane parent.Current) world.old dispatch }
    ensures value { CopiesCurrent S.spans S.does world.old world.new lane (Some dispatch) result }
    ensures known { IsKnown S.spans world.new result.held }
    ensures keeps { KeepsHandles S.spans world.old world.new }
    ensures more { GainsOne S.spans world.old world.new result.held }
{
    match world.subscriber(dispatch).current_span(lane) {
        None => Span::none(),
        Some((id, site)) => {
            hold(world, dispatch, id);
            Span {
                held: Some((dispatch, id)),
                site: Some(site),
            }
        }
    }
}

// One hold more of a span.
pub(crate) fn hold<S: Subscriber>(world: &mut World<S>, dispatch: Dispatch, id: Id)
    requires there { dispatch < length world.old.subscribers }
    requires whole { Has S.is_whole world.old dispatch }
    requires live { Has (λ s. IsLive (S.spans s).made id) world.old dispatch }
    requires few_holds { Has (λ s. HasFewHolds (S.spans s).made id) world.old dispatch }

    ensures did { Replaced (λ s t. S.does s (CloneSpan id) t) world.old world.new dispatch }
    ensures known { IsKnown S.spans world.new (Some (dispatch, id)) }
    ensures keeps { KeepsHandles S.spans world.old world.new }
    ensures more { GainsOne S.spans world.old world.new (Some (dispatch, id)) }
{
    world.subscriber_mut(dispatch).clone_span(id);
}

// One hold less of a span, and of each parent whose child closed; answers whether the span closed.
pub(crate) fn release<S: Subscriber>(
    world: &mut World<S>,
    dispatch: Dispatch,
    id: Id,
    at: u64,
) -> bool
    requires there { dispatch < length world.old.subscribers }
    requires whole { Has S.is_whole world.old dispatch }
    requires own { Has (λ s. HasUnboundHold (S.spans s) id) world.old dispatch }
    ensures value { ClosesOn S.spans world.old (Some (dispatch, id)) result }
    ensures did { Replaced (λ s t. Chain S.spans S.does at (Some id) s t) world.old world.new dispatch }
    ensures keeps { KeepsOthers S.spans world.old world.new (Some (dispatch, id)) }
    ensures fewer { LosesOne S.spans world.old world.new (Some (dispatch, id)) }
{
    close_chain(world.subscriber_mut(dispatch), id, at)
}

// Releases a hold of the span, and of each parent whose child closed.
fn close_chain<S: Subscriber>(subscriber: &mut S, id: Id, at: u64) -> bool
    requires whole { S.is_whole subscriber.old }
    requires own { HasUnboundHold (S.spans subscriber.old) id }
    ensures value { result ≡ ((span_at (S.spans subscriber.old).made id).holds == 1) }
    ensures did { Chain S.spans S.does at (Some id) subscriber.old subscriber.new }
{
    let first = subscriber.try_close(id, at);
    let mut next = first.next;
    while let Some(parent) = next {
        next = subscriber.try_close(parent, at).next;
    }
    first.closed
}

// That a span follows from another.
pub(crate) fn follow<S: Subscriber>(
    world: &mut World<S>,
    dispatch: Dispatch,
    id: Id,
    from: Id,
    at: u64,
) -> Result<(), Memory>
    requires there { dispatch < length world.old.subscribers }
    requires whole { Has S.is_whole world.old dispatch }
    requires live { Has (λ s. IsLive (S.spans s).made id) world.old dispatch }
    requires from_live { Has (λ s. IsLive (S.spans s).made from) world.old dispatch }
    ensures did { OnOk result
        (Replaced (λ s t. S.does s (Follows id from at) t) world.old world.new dispatch) }
    ensures keeps { KeepsHandles S.spans world.old world.new }
    ensures memory_leaves { OnErr result (Replaced S.same_but_room world.old world.new dispatch) }
{
    world
        .subscriber_mut(dispatch)
        .record_follows_from(id, from, at)
}
