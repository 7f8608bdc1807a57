//! Subscribers: what is told of spans and events, and what it answers.
ghost use Rattle.std.specs.Prelude.{◌≡◌, ◌↔◌, ◌<◌, ◌==◌, ℕ, Bool, Option, [], true, false, length, IfOk, OnOk, OnErr, IsErr, IfSome, Err, IsTrue};
ghost use Rattle.otel_base.specs.declared.enter_error.EnterError.TheVariants.{Full};
ghost use Rattle.trace_base.specs.declared.callsite.Callsite.{Callsite};
ghost use Rattle.trace_base.specs.declared.lane.Lane.{Lane};
ghost use Rattle.trace_base.specs.declared.level.LevelFilter.{LevelFilter};
ghost use Rattle.trace_base.specs.declared.subscriber.Interest.{Interest};
ghost use Rattle.trace_base.specs.declared.subscriber.Interest.TheVariants as interest;
ghost use Rattle.trace_base.specs.Spans.{Spans, span_at, current_on, current_of, entries_on, parent_to_release};
ghost use Rattle.trace_base.specs.Calls.{SubscriberCall, NewSpan, Records, Follows, Event, Enter, Exit, CloneSpan, TryClose, spans_after_call};
ghost use Rattle.trace_base.specs.Conditions.{Allowed, IsLive, IsLiveParent, HasFewHolds, ParentHasFewHolds, AreFew, MayExit, HasUnboundHold};
ghost use Rattle.trace_base.specs.Sound.{IsSound};
ghost use Rattle.trace_base.specs.lanes.Contexts.{AreAttached, KeepsLane, KeepsLive, IsFull, CallKeepsLanes};

use crate::callsite::{Callsite, SiteId};
use crate::field::ValueSet;
use crate::lane::Lane;
use crate::level::LevelFilter;
use crate::span::{Closing, Id, Parent};
use otel_base::enter_error::EnterError;
use otel_base::memory::Memory;

/// What a subscriber makes of a callsite; `tracing_core::subscriber::Interest`.
#[derive(Clone, Copy, Debug, PartialEq, Eq)]
pub enum Interest {
    /// It never takes what the callsite makes, and needn't be asked.
    Never,
    /// It has to be asked each time.
    Sometimes,
    /// It always takes what the callsite makes, and needn't be asked.
    Always,
}

impl Interest {
    /// `Interest::Never`; `tracing_core::subscriber::Interest::never`.
    pub fn never() -> Interest
        ensures { result ≡ interest.Never }
    {
        Interest::Never
    }

    /// `Interest::Sometimes`; `tracing_core::subscriber::Interest::sometimes`.
    pub fn sometimes() -> Interest
        ensures { result ≡ interest.Sometimes }
    {
        Interest::Sometimes
    }

    /// `Interest::Always`; `tracing_core::subscriber::Interest::always`.
    pub fn always() -> Interest
        ensures { result ≡ interest.Always }
    {
        Interest::Always
    }

    /// Whether it is `Interest::Never`; `tracing_core::subscriber::Interest::is_never`.
    pub fn is_never(&self) -> bool
        ensures { IsTrue result ↔ self.now ≡ interest.Never }
    {
        matches!(self, Interest::Never)
    }

    /// Whether it is `Interest::Sometimes`; `tracing_core::subscriber::Interest::is_sometimes`.
    pub fn is_sometimes(&self) -> bool
        ensures { IsTrue result ↔ self.now ≡ interest.Sometimes }
    {
        matches!(self, Interest::Sometimes)
    }

    /// Whether it is `Interest::Always`; `tracing_core::subscriber::Interest::is_always`.
    pub fn is_always(&self) -> bool
        ensures { IsTrue result ↔ self.now ≡ interest.Always }
    {
        matches!(self, Interest::Always)
    }
}

/// What is told of spans and events; `tracing_core::Subscriber`. Where a lane is a number, it is the lane's id.
pub trait Subscriber {
    /// The spans that were made, with their holds, and the entries that are open.
    ghost spans: { Self → Spans };

    /// How often it keeps the attach of a number on a lane: once or not at all.
    ghost kept: { Self → ℕ → ℕ → ℕ };

    /// Whether its entries can attach contexts.
    ghost attaches: { Self → Bool };

    /// Whether an entry of a span attaches one.
    ghost activates: { Self → ℕ → Bool };

    /// What it answers for a callsite once and for all.
    ghost interest: { Self → Callsite → Interest };

    /// What it answers for a callsite on a lane.
    ghost enables: { Self → ℕ → Callsite → Bool };

    /// The level past which it takes nothing, if there is one.
    ghost hint: { Self → Option LevelFilter };

    /// What no call can lose, but an exchange of its parts can.
    ghost is_whole: { Self → Type 0 };

    /// The same but for spare room.
    ghost same_but_room: { Self → Self → Type 0 };

    /// What a call makes of it, whatever room it took before.
    ghost does: { Self → SubscriberCall → Self → Type 0 };

    /// Whether it takes what a callsite makes always, never, or has to be asked; `Subscriber::register_callsite`.
    fn register_callsite(&mut self, callsite: &Callsite) -> Result<Interest, Memory>
        ensures value { IfOk result (λ i. i ≡ interest self.old callsite.now) }
        ensures leaves { same_but_room self.old self.new };

    /// Whether it takes what a callsite makes on a lane now; `Subscriber::enabled`.
    fn enabled(&self, lane: u64, callsite: &Callsite) -> bool
        ensures { result ≡ enables self.now lane callsite.now };

    /// The level past which it takes nothing; `Subscriber::max_level_hint`.
    fn max_level_hint(&self) -> Option<LevelFilter>
        ensures { result ≡ hint self.now };

    /// Makes a span at a place, with one hold, while `current` is the lane's current span; `Subscriber::new_span`. Its id
    /// is the number of those made before it.
    fn new_span(
        &mut self,
        lane: &Lane,
        at: u64,
        parent: Parent,
        current: Option<Id>,
        site: SiteId,
        callsite: &Callsite,
        values: &ValueSet,
    ) -> Result<Id, Memory>
        requires whole { is_whole self.old }
        requires live { IsLiveParent (spans self.old).made parent }
        requires current { current ≡ current_of (entries_on lane.now.id (spans self.old).lanes) }
        requires few { AreFew (spans self.old) }
        requires few_holds { ParentHasFewHolds (spans self.old) lane.now.id parent }
        ensures id { IfOk result (λ id. id ≡ length (spans self.old).made) }
        ensures did { OnOk result (does self.old (NewSpan lane.now at parent site callsite.now values.now) self.new) }
        ensures memory_leaves { OnErr result (same_but_room self.old self.new) };

    /// Records values on a span; `Subscriber::record`.
    fn record(
        &mut self,
        id: Id,
        at: u64,
        callsite: &Callsite,
        values: &ValueSet,
    ) -> Result<(), Memory>
        requires whole { is_whole self.old }
        requires live { IsLive (spans self.old).made id }
        ensures did { OnOk result (does self.old (Records id at callsite.now values.now) self.new) }
        ensures memory_leaves { OnErr result (same_but_room self.old self.new) };

    /// Records that a span follows from another; `Subscriber::record_follows_from`.
    fn record_follows_from(&mut self, id: Id, from: Id, at: u64) -> Result<(), Memory>
        requires whole { is_whole self.old }
        requires live { IsLive (spans self.old).made id }
        requires from_live { IsLive (spans self.old).made from }
        ensures did { OnOk result (does self.old (Follows id from at) self.new) }
        ensures memory_leaves { OnErr result (same_but_room self.old self.new) };

    /// Records an event, on the span at its place if there is one, while `current` is the lane's current span;
    /// `Subscriber::event`.
    fn event(
        &mut self,
        lane: &Lane,
        at: u64,
        parent: Parent,
        current: Option<Id>,
        site: SiteId,
        callsite: &Callsite,
        values: &ValueSet,
    ) -> Result<(), Memory>
        requires whole { is_whole self.old }
        requires live { IsLiveParent (spans self.old).made parent }
        requires current { current ≡ current_of (entries_on lane.now.id (spans self.old).lanes) }
        ensures did { OnOk result (does self.old (Event lane.now at parent site callsite.now values.now) self.new) }
        ensures memory_leaves { OnErr result (same_but_room self.old self.new) };

    /// Enters a span on a lane; `Subscriber::enter`. `Full` only where the entry attaches a context and the lane has as
    /// many as may be, and never Ok there.
    fn enter(&mut self, id: Id, lane: &mut Lane, at: u64) -> Result<(), EnterError>
        requires whole { is_whole self.old }
        requires live { IsLive (spans self.old).made id }
        requires few_holds { HasFewHolds (spans self.old).made id }

        ensures did { OnOk result (does self.old (Enter id at lane.old lane.new) self.new) }
        ensures leaves { OnErr result (same_but_room self.old self.new) }
        ensures lane_leaves { OnErr result (KeepsLive (attaches self.old) lane.old lane.new) }

        ensures full { result ≡ Err Full → (activates self.old id ≡ true) × IsFull lane.old }
        ensures full_refused { activates self.old id ≡ true → IsFull lane.old → IsErr result };

    /// Exits a span on a lane: its last entry there; `Subscriber::exit`.
    fn exit(&mut self, id: Id, lane: &mut Lane, at: u64)
        requires whole { is_whole self.old }
        requires may { MayExit (spans self.old) id lane.old.id }
        requires still { AreAttached (kept self.old) lane.old }
        ensures { does self.old (Exit id at lane.old lane.new) self.new };

    /// Takes one hold more of a span; `Subscriber::clone_span`.
    fn clone_span(&mut self, id: Id)
        requires whole { is_whole self.old }
        requires live { IsLive (spans self.old).made id }
        requires few_holds { HasFewHolds (spans self.old).made id }
        ensures { does self.old (CloneSpan id) self.new };

    /// Releases one hold of a span alone, which closes with its last one; `Subscriber::try_close`. Where a parent is
    /// answered, it has a hold to release next, and is older.
    fn try_close(&mut self, id: Id, at: u64) -> Closing
        requires whole { is_whole self.old }
        requires own { HasUnboundHold (spans self.old) id }
        ensures closed { result.closed ≡ ((span_at (spans self.old).made id).holds == 1) }
        ensures next { result.next ≡ parent_to_release (spans self.old).made id }
        ensures next_held { IfSome result.next (λ p. (p < id) × HasUnboundHold (spans self.new) p) }
        ensures did { does self.old (TryClose id at) self.new };

    /// A lane's current span, if there is one: what `new_span` and `event` are told.
    fn current_id(&self, lane: u64) -> Option<Id>
        requires whole { is_whole self.now }
        ensures value { result ≡ current_of (entries_on lane (spans self.now).lanes) };

    /// A lane's current span, which is live, with its callsite; `Subscriber::current_span`.
    fn current_span(&self, lane: u64) -> Option<(Id, SiteId)>
        requires whole { is_whole self.now }
        ensures value { result ≡ current_on lane (spans self.now) }
        ensures live { IfSome result (λ current. IsLive (spans self.now).made current.0) };

    /// Spare room is nothing that can be seen.
    ghost same_refl: { (s : Self) → same_but_room s s };

    ghost same_trans: { (s t u : Self) → same_but_room s t → same_but_room t u → same_but_room s u };

    ghost same_spans: { (s t : Self) → same_but_room s t → spans t ≡ spans s };

    ghost same_kept: { (s t : Self) → same_but_room s t → kept t ≡ kept s };

    ghost same_attaches: { (s t : Self) → same_but_room s t → attaches t ≡ attaches s };

    ghost same_activates: { (s t : Self) → same_but_room s t → activates t ≡ activates s };

    ghost same_gate: { (s t : Self) → same_but_room s t → (interest t ≡ interest s) × (hint t ≡ hint s) };

    ghost same_enables: { (s t : Self) → same_but_room s t → enables t ≡ enables s };

    ghost same_whole: { (s t : Self) → same_but_room s t → is_whole s → is_whole t };

    /// It may have been taken before a call.
    ghost same_does: { (s t : Self) (call : SubscriberCall) (u : Self) → same_but_room s t → does t call u → does s call u };

    /// A call finds the spans sound and was allowed, and makes of the plain data what it makes of them in every subscriber.
    ghost sound: { (s : Self) (call : SubscriberCall) (t : Self) → does s call t → IsSound (spans s) };

    ghost allowed: { (s : Self) (call : SubscriberCall) (t : Self) → does s call t → Allowed (spans s) call };

    ghost shows: { (s : Self) (call : SubscriberCall) (t : Self) → does s call t → spans t ≡ spans_after_call (spans s) call };

    /// As many contexts are attached or detached as it keeps more or less.
    ghost keeps_lanes: { (s : Self) (call : SubscriberCall) (t : Self) → does s call t → CallKeepsLanes (attaches s) (kept s) call (kept t) };

    /// Only entries keep something attached: on a lane without them nothing is.
    ghost none_kept_without_entries: { (s : Self) (lane number : ℕ) → is_whole s → entries_on lane (spans s).lanes ≡ [] → kept s lane number ≡ 0 };

    /// An entry that attaches no context leaves a lane's contexts as they are.
    ghost passive: { (s : Self) (id at : ℕ) (before later : Lane) (t : Self) → does s (Enter id at before later) t → activates s id ≡ false → later.contexts.live ≡ before.contexts.live };

    ghost keeps_attaches: { (s : Self) (call : SubscriberCall) (t : Self) → does s call t → attaches t ≡ attaches s };

    ghost keeps_gate: { (s : Self) (call : SubscriberCall) (t : Self) → does s call t → (interest t ≡ interest s) × (hint t ≡ hint s) };

    ghost keeps_whole: { (s : Self) (call : SubscriberCall) (t : Self) → does s call t → is_whole s → is_whole t };
}
