//! Entries of spans, which don't borrow their handles.
ghost use Rattle.std.specs.Prelude.{◌≡◌, ◌<◌, ℕ, length, Some, None, Err, IfOk, OnOk, OnErr, IsErr, IsOk, true};
ghost use Rattle.otel_base.specs.declared.enter_error.EnterError.TheVariants.{Full};
ghost use Rattle.trace_base.specs.Calls.{Enter, Exit};
ghost use Rattle.trace_base.specs.Conditions.{HasFewHolds, IsLive, MayExit};
ghost use Rattle.trace_base.specs.lanes.Contexts.{AreAttached, KeepsLive};
ghost use Rattle.span_handles.specs.Worlds.{Has, Replaced};
ghost use Rattle.span_handles.specs.Handles.{IsKnown, HasOn, ReplacedOn};
ghost use Rattle.span_handles.specs.Knowing.{KeepsHandles};
ghost use Rattle.span_handles.specs.Entries.{IsThere, KeepsLaneButRoom, MeetsFullLane};

use crate::span::Span;
use otel_base::enter_error::EnterError;
use std::marker::Model;
use trace_base::discard::Discard;
use trace_base::dispatcher::Dispatch;
use trace_base::lane::Lane;
use trace_base::span::Id;
use trace_base::subscriber::Subscriber;
use trace_base::world::World;

/// An open entry of a handle's span, or of nothing where the handle was disabled: a guard that doesn't borrow the
/// handle. It has to be spent, by `Span::close_entry` or by `discard`.
pub struct Entry {
    held: Option<(Dispatch, Id)>,
}

impl Model for Entry {
    ghost use Rattle.span_handles.specs.Handles.{HeldSpan};

    ghost Value = { HeldSpan };

    ghost view = { λ e. e.held };
}

impl Entry {
    /// Spends the entry, which stays open for good.
    pub fn discard(self) {
        let Entry { held: _ } = self;
    }

    // Spends it, and tells of what it was.
    fn spend(self) -> Option<(Dispatch, Id)>
        ensures { result ≡ self }
    {
        let Entry { held } = self;
        held
    }
}

/// It stays open for good.
impl Discard for Entry {
    fn discard(self) {
        Entry::discard(self);
    }
}

impl Span {
    /// Enters the span on a lane, and nothing where the handle is disabled. `Full` only where the entry attaches a
    /// context and the lane has as many as may be, and never Ok there.
    pub fn open_entry<S: Subscriber>(
        &self,
        world: &mut World<S>,
        lane: &mut Lane,
        at: u64,
    ) -> Result<Entry, EnterError>
        requires known { IsKnown S.spans world.old self.now.held }
        requires whole { HasOn (λ s id. S.is_whole s) world.old self.now.held }
        requires few_holds { HasOn (λ s id. HasFewHolds (S.spans s).made id) world.old self.now.held }

        ensures value { IfOk result (λ entry. entry ≡ self.now.held) }
        ensures did { OnOk result
            (ReplacedOn (λ id s t. S.does s (Enter id at lane.old lane.new) t) world.old world.new
            self.now.held) }
        ensures none { self.now.held ≡ None → lane.new ≡ lane.old }
        ensures known { IsKnown S.spans world.new self.now.held }
        ensures keeps { KeepsHandles S.spans world.old world.new }
        ensures disabled { self.now.held ≡ None → IsOk result }

        // A refused entry leaves the world and the lane as they are, but for room.
        ensures leaves { OnErr result (ReplacedOn (λ id s t. S.same_but_room s t) world.old world.new self.now.held) }
        ensures lane_leaves { OnErr result (KeepsLaneButRoom lane.old lane.new) }
        ensures full { result ≡ Err Full → MeetsFullLane S.activates world.old lane.old self.now.held }
        ensures full_refused { MeetsFullLane S.activates world.old lane.old self.now.held → IsErr result }
    {
        match &self.held {
            None => Ok(Entry { held: None }),
            Some((dispatch, id)) => {
                enter(world, *dispatch, *id, lane, at)?;
                Ok(Entry {
                    held: Some((*dispatch, *id)),
                })
            }
        }
    }

    /// Exits what an entry of this handle's span entered, and spends the entry.
    pub fn close_entry<S: Subscriber>(
        &self,
        entry: Entry,
        world: &mut World<S>,
        lane: &mut Lane,
        at: u64,
    )
        requires own { entry ≡ self.now.held }
        requires there { IsThere world.old self.now.held }
        requires whole { HasOn (λ s id. S.is_whole s) world.old self.now.held }
        requires may { HasOn (λ s id. MayExit (S.spans s) id lane.old.id) world.old self.now.held }
        requires still { HasOn (λ s id. AreAttached (S.kept s) lane.old) world.old self.now.held }

        ensures did { ReplacedOn (λ id s t. S.does s (Exit id at lane.old lane.new) t) world.old world.new
            self.now.held }
        ensures none { self.now.held ≡ None → lane.new ≡ lane.old }
        ensures known { IsKnown S.spans world.old self.now.held → IsKnown S.spans world.new self.now.held }
        ensures keeps { KeepsHandles S.spans world.old world.new }
    {
        match entry.spend() {
            None => {}
            Some((dispatch, id)) => exit(world, dispatch, id, lane, at),
        }
    }
}

// Enters a span.
fn enter<S: Subscriber>(
    world: &mut World<S>,
    dispatch: Dispatch,
    id: Id,
    lane: &mut Lane,
    at: u64,
) -> Result<(), EnterError>
    requires there { dispatch < length world.old.subscribers }
    requires whole { Has S.is_whole world.old dispatch }
    requires live { Has (λ s. IsLive (S.spans s).made id) world.old dispatch }
    requires few_holds { Has (λ s. HasFewHolds (S.spans s).made id) world.old dispatch }

    ensures did { OnOk result
        (Replaced (λ s t. S.does s (Enter id at lane.old lane.new) t) world.old world.new dispatch) }
    ensures keeps { KeepsHandles S.spans world.old world.new }
    ensures leaves { OnErr result (Replaced S.same_but_room world.old world.new dispatch) }
    ensures lane_leaves { OnErr result (KeepsLaneButRoom lane.old lane.new) }
    ensures full { result ≡ Err Full → MeetsFullLane S.activates world.old lane.old (Some (dispatch, id)) }
    ensures full_refused { MeetsFullLane S.activates world.old lane.old (Some (dispatch, id)) → IsErr result }
{
    world.subscriber_mut(dispatch).enter(id, lane, at)
}

// Exits a span.
fn exit<S: Subscriber>(world: &mut World<S>, dispatch: Dispatch, id: Id, lane: &mut Lane, at: u64)
    requires there { dispatch < length world.old.subscribers }
    requires whole { Has S.is_whole world.old dispatch }
    requires may { Has (λ s. MayExit (S.spans s) id lane.old.id) world.old dispatch }
    requires still { Has (λ s. AreAttached (S.kept s) lane.old) world.old dispatch }
    ensures did { Replaced (λ s t. S.does s (Exit id at lane.old lane.new) t) world.old world.new dispatch }
    ensures keeps { KeepsHandles S.spans world.old world.new }
{
    world.subscriber_mut(dispatch).exit(id, lane, at);
}
