//! Layers: what is told beside a subscriber.
ghost use Rattle.std.specs.Prelude.{◌≡◌, ◌<◌, ℕ, Bool, Option, true, false, IfOk, OnOk, Err};
ghost use Rattle.otel_base.specs.Stack.{IsReadyToAttach};
ghost use Rattle.otel_base.specs.declared.enter_error.EnterError.TheVariants.{Full};
ghost use Rattle.trace_base.specs.declared.callsite.Callsite.{Callsite};
ghost use Rattle.trace_base.specs.declared.lane.Lane.{Lane};
ghost use Rattle.trace_base.specs.declared.level.LevelFilter.{LevelFilter};
ghost use Rattle.trace_base.specs.declared.subscriber.Interest.{Interest};
ghost use Rattle.trace_base.specs.lanes.Contexts.{AreAttached, KeepsLane, KeepsLive, IsFull};
ghost use Rattle.trace_base.specs.layers.Hooks.{Hook, OnNewSpan, OnRecord, OnFollows, OnEvent, OnEnter, OnExit, OnClose, Preparation, ForNewSpan, ForRecord, ForFollows, ForEvent, ForEnter, KnownSpans, Sees, HookKeepsLanes};

use crate::callsite::Callsite;
use crate::field::ValueSet;
use crate::lane::Lane;
use crate::level::LevelFilter;
use crate::span::{Id, Parent};
use crate::subscriber::Interest;
use otel_base::enter_error::EnterError;
use otel_base::memory::Memory;

/// What is told of spans and events beside a subscriber; `tracing_subscriber::Layer`. A hook that grows something has
/// a `prepare_` beside it, which takes all memory first: it changes nothing but spare room, and the hook then can't
/// fail.
pub trait Layer {
    /// What a prepare made for its hook.
    type Ready: Drop;

    /// The spans that it knows and the entries of them that it has open.
    ghost seen: { Self → KnownSpans };

    /// How often it keeps the attach of a number on a lane: once or not at all.
    ghost kept: { Self → ℕ → ℕ → ℕ };

    /// Whether its entries can attach contexts.
    ghost attaches: { Self → Bool };

    /// What it answers for a callsite once and for all.
    ghost interest: { Self → Callsite → Interest };

    /// What it answers for a callsite on a lane.
    ghost enables: { Self → ℕ → Callsite → Bool };

    /// The level past which it takes nothing, if there is one.
    ghost hint: { Self → Option LevelFilter };

    /// What no hook can lose, but an exchange of its parts can.
    ghost is_whole: { Self → Type 0 };

    /// The same but for spare room.
    ghost same_but_room: { Self → Self → Type 0 };

    /// What a hook makes of it, whatever room it took before.
    ghost does: { Self → Hook → Self → Type 0 };

    /// The room for a hook has been taken, in the layer or in what its prepare made.
    ghost ready: { Self → Preparation → Self.Ready → Type 0 };

    /// Whether it takes what a callsite makes always, never, or has to be asked; `Layer::register_callsite`.
    fn register_callsite(&self, callsite: &Callsite) -> Interest
        ensures { result ≡ interest self.now callsite.now };

    /// Whether it takes what a callsite makes on a lane now; `Layer::enabled`.
    fn enabled(&self, lane: u64, callsite: &Callsite) -> bool
        ensures { result ≡ enables self.now lane callsite.now };

    /// The level past which it takes nothing; `Layer::max_level_hint`.
    fn max_level_hint(&self) -> Option<LevelFilter>
        ensures { result ≡ hint self.now };

    /// Takes the memory of `on_new_span`.
    fn prepare_new_span(
        &mut self,
        lane: &Lane,
        callsite: &Callsite,
        values: &ValueSet,
    ) -> Result<Self::Ready, Memory>
        ensures ready { IfOk result (ready self.new (ForNewSpan lane.now callsite.now values.now)) }
        ensures leaves { same_but_room self.old self.new };

    /// A span was made under a parent, while `current` was the lane's current span; `Layer::on_new_span`.
    fn on_new_span(
        &mut self,
        prepared: Self::Ready,
        id: Id,
        lane: &Lane,
        at: u64,
        parent: Parent,
        current: Option<Id>,
        callsite: &Callsite,
        values: &ValueSet,
    )
        requires whole { is_whole self.old }
        requires ready { ready self.old (ForNewSpan lane.now callsite.now values.now) prepared }
        requires unknown { (seen self.old).knows id ≡ false }
        ensures { does self.old (OnNewSpan id lane.now at parent current callsite.now values.now) self.new };

    /// Takes the memory of `on_record`.
    fn prepare_record(
        &mut self,
        id: Id,
        callsite: &Callsite,
        values: &ValueSet,
    ) -> Result<Self::Ready, Memory>
        ensures ready { IfOk result (ready self.new (ForRecord id callsite.now values.now)) }
        ensures leaves { same_but_room self.old self.new };

    /// Values were recorded on a span; `Layer::on_record`.
    fn on_record(
        &mut self,
        prepared: Self::Ready,
        id: Id,
        at: u64,
        callsite: &Callsite,
        values: &ValueSet,
    )
        requires whole { is_whole self.old }
        requires ready { ready self.old (ForRecord id callsite.now values.now) prepared }
        ensures { does self.old (OnRecord id at callsite.now values.now) self.new };

    /// Takes the memory of `on_follows_from`.
    fn prepare_follows_from(&mut self, id: Id, from: Id) -> Result<Self::Ready, Memory>
        ensures ready { IfOk result (ready self.new (ForFollows id from)) }
        ensures leaves { same_but_room self.old self.new };

    /// A span follows from another; `Layer::on_follows_from`.
    fn on_follows_from(&mut self, prepared: Self::Ready, id: Id, from: Id, at: u64)
        requires whole { is_whole self.old }
        requires ready { ready self.old (ForFollows id from) prepared }
        ensures { does self.old (OnFollows id from at) self.new };

    /// Takes the memory of `on_event`.
    fn prepare_event(
        &mut self,
        reached: Option<Id>,
        callsite: &Callsite,
        values: &ValueSet,
    ) -> Result<Self::Ready, Memory>
        ensures ready { IfOk result (ready self.new (ForEvent reached callsite.now values.now)) }
        ensures leaves { same_but_room self.old self.new };

    /// An event was recorded on the span that it reached, if it reached one; `Layer::on_event`.
    fn on_event(
        &mut self,
        prepared: Self::Ready,
        reached: Option<Id>,
        lane: &Lane,
        at: u64,
        callsite: &Callsite,
        values: &ValueSet,
    )
        requires whole { is_whole self.old }
        requires ready { ready self.old (ForEvent reached callsite.now values.now) prepared }
        ensures { does self.old (OnEvent reached lane.now at callsite.now values.now) self.new };

    /// Takes the memory of `on_enter`, and the lane's room for a context. `Full` only where it attaches one, for a span that
    /// it knows, and the lane has as many as may be.
    fn prepare_enter(&mut self, id: Id, lane: &mut Lane) -> Result<Self::Ready, EnterError>
        ensures ready { IfOk result (ready self.new (ForEnter id lane.old.id)) }
        ensures room { OnOk result (attaches self.old ≡ true → (seen self.old).knows id ≡ true → IsReadyToAttach lane.new.contexts) }
        ensures leaves { same_but_room self.old self.new }
        ensures lane_leaves { KeepsLive (attaches self.old) lane.old lane.new }
        ensures full { result ≡ Err Full → (attaches self.old ≡ true) × ((seen self.old).knows id ≡ true) × IsFull lane.old };

    /// A span was entered on a lane; `Layer::on_enter`.
    fn on_enter(&mut self, prepared: Self::Ready, id: Id, lane: &mut Lane, at: u64)
        requires whole { is_whole self.old }
        requires ready { ready self.old (ForEnter id lane.old.id) prepared }
        requires room { attaches self.old ≡ true → (seen self.old).knows id ≡ true → IsReadyToAttach lane.old.contexts }
        ensures { does self.old (OnEnter id at lane.old lane.new) self.new };

    /// A span was exited on a lane; `Layer::on_exit`.
    fn on_exit(&mut self, id: Id, lane: &mut Lane, at: u64)
        requires whole { is_whole self.old }
        requires open { (seen self.old).knows id ≡ true → 0 < (seen self.old).entries lane.old.id id }
        requires still { (seen self.old).knows id ≡ true → AreAttached (kept self.old) lane.old }
        ensures { does self.old (OnExit id at lane.old lane.new) self.new };

    /// A span closed; `Layer::on_close`.
    fn on_close(&mut self, id: Id, at: u64)
        requires whole { is_whole self.old }
        requires left { (seen self.old).knows id ≡ true → (lane : ℕ) → (seen self.old).entries lane id ≡ 0 }
        ensures { does self.old (OnClose id at) self.new };

    /// Spare room is nothing that can be seen.
    ghost same_refl: { (s : Self) → same_but_room s s };

    ghost same_trans: { (s t u : Self) → same_but_room s t → same_but_room t u → same_but_room s u };

    ghost same_seen: { (s t : Self) → same_but_room s t → seen t ≡ seen s };

    ghost same_kept: { (s t : Self) → same_but_room s t → kept t ≡ kept s };

    ghost same_attaches: { (s t : Self) → same_but_room s t → attaches t ≡ attaches s };

    ghost same_gate: { (s t : Self) → same_but_room s t → (interest t ≡ interest s) × (hint t ≡ hint s) };

    ghost same_enables: { (s t : Self) → same_but_room s t → enables t ≡ enables s };

    ghost same_whole: { (s t : Self) → same_but_room s t → is_whole s → is_whole t };

    /// It may have been taken before a hook.
    ghost same_does: { (s t : Self) (hook : Hook) (u : Self) → same_but_room s t → does t hook u → does s hook u };

    /// It keeps up with the spans that it knows and their entries.
    ghost sees: { (s : Self) (hook : Hook) (t : Self) → does s hook t → Sees (seen s) hook (seen t) };

    /// As many contexts are attached or detached as it keeps more or less.
    ghost keeps_lanes: { (s : Self) (hook : Hook) (t : Self) → does s hook t → HookKeepsLanes (attaches s) (kept s) hook (kept t) };

    /// Only entries keep something attached: on a lane without them nothing is.
    ghost none_kept_without_entries: { (s : Self) (lane number : ℕ) → ((id : ℕ) → (seen s).entries lane id ≡ 0) → kept s lane number ≡ 0 };

    /// An entry of a span that it doesn't know leaves a lane's contexts as they are.
    ghost passive: { (s : Self) (id at : ℕ) (before later : Lane) (t : Self) → does s (OnEnter id at before later) t → (seen s).knows id ≡ false → later.contexts.live ≡ before.contexts.live };

    ghost keeps_attaches: { (s : Self) (hook : Hook) (t : Self) → does s hook t → attaches t ≡ attaches s };

    ghost keeps_gate: { (s : Self) (hook : Hook) (t : Self) → does s hook t → (interest t ≡ interest s) × (hint t ≡ hint s) };

    ghost keeps_whole: { (s : Self) (hook : Hook) (t : Self) → does s hook t → is_whole s → is_whole t };
}
