//! A layer over a subscriber.
ghost use Rattle.std.specs.Prelude.{◌≡◌, ℕ, ◌+◌, ◌||◌, ◌&&◌, true, false, if◌then◌else◌};
ghost use Rattle.trace_base.specs.Sound.{IsSound};
ghost use Rattle.span_registry.specs.Both.{DoesBoth, InStep, IsWholeBoth, KnowsNone, joint_interest, interest_both, hint_both, enables_both, activates_both};
ghost use Rattle.span_registry.specs.Layering.{kept_same, or_same, both_whole, in_step_same, both_same, both_allowed, both_shows, both_lanes, both_keep, both_in_step, gate_same, enables_same, activates_same, both_passive, both_none_kept};
ghost use Rattle.trace_base.specs.layers.Hooks.{OnEnter};
ghost use Rattle.std.specs.Borrow.{sem};
ghost use Rattle.span_registry.specs.Lending.{LendsLayer, LendsInner};

use crate::registry::Registry;
use otel_base::enter_error::EnterError;
use otel_base::memory::Memory;
use trace_base::callsite::{Callsite, SiteId};
use trace_base::discard::Discard;
use trace_base::field::ValueSet;
use trace_base::lane::Lane;
use trace_base::layer::Layer;
use trace_base::level::LevelFilter;
use trace_base::span::{Closing, Id, Parent};
use trace_base::subscriber::{Interest, Subscriber};

/// A layer over a subscriber; `tracing_subscriber::layer::Layered`. At a call the layer takes its memory, the subscriber
/// acts, and then the layer's hook runs. Both have to admit what a callsite makes.
pub struct Layered<L, S> {
    layer: L,
    inner: S,
}

impl<L: Layer, S: Subscriber> Layered<L, S> {
    // The layer over the subscriber.
    fn over(layer: L, inner: S) -> Layered<L, S>
        requires layer_whole { L.is_whole layer }
        requires inner_whole { S.is_whole inner }
        requires in_step { InStep (S.spans inner) (L.seen layer) }
        requires one_attaches { (L.attaches layer && S.attaches inner) ≡ false }
        ensures layer { result.layer ≡ layer }
        ensures inner { result.inner ≡ inner }
        ensures whole { ⟦<Layered<L, S> as Subscriber>⟧.is_whole result }
    {
        Layered { layer, inner }
    }

    /// Another layer over both, which knows no span yet; `tracing_subscriber::layer::SubscriberExt::with`. Not both
    /// parts can attach contexts, so the room that one takes on a lane is still there at its hook.
    pub fn with<M: Layer>(self, layer: M) -> Layered<M, Layered<L, S>>
        requires whole { ⟦<Layered<L, S> as Subscriber>⟧.is_whole self }
        requires layer_whole { M.is_whole layer }
        requires knows_none { KnowsNone (M.seen layer) }
        requires one_attaches { (M.attaches layer && (L.attaches self.layer || S.attaches self.inner)) ≡
            false }
        ensures layer { result.layer ≡ layer }
        ensures inner { result.inner ≡ self }
        ensures whole { ⟦<Layered<M, Layered<L, S>> as Subscriber>⟧.is_whole result }
    {
        Layered::over(layer, self)
    }

    /// The layer.
    pub fn layer(&self) -> &L
        ensures { result.now ≡ self.now.layer }
    {
        &self.layer
    }

    /// The layer, to be changed.
    pub fn layer_mut(&mut self) -> &mut L
        ensures* lends { sem 𝓛 (LendsLayer L.row S.row self.entry result) }
        ensures value { result.now ≡ self.old.layer }
    {
        &mut self.layer
    }

    /// The subscriber below.
    pub fn inner(&self) -> &S
        ensures { result.now ≡ self.now.inner }
    {
        &self.inner
    }

    /// The subscriber below, to be changed.
    pub fn inner_mut(&mut self) -> &mut S
        ensures* lends { sem 𝓛 (LendsInner L.row S.row self.entry result) }
        ensures value { result.now ≡ self.old.inner }
    {
        &mut self.inner
    }
}

impl Registry {
    /// A layer over the registry, which knows no span yet; `tracing_subscriber::layer::SubscriberExt::with`.
    pub fn with<L: Layer>(self, layer: L) -> Layered<L, Registry>
        requires layer_whole { L.is_whole layer }
        requires knows_none { KnowsNone (L.seen layer) }
        ensures layer { result.layer ≡ layer }
        ensures inner { result.inner ≡ self }
        ensures whole { ⟦<Layered<L, Registry> as Subscriber>⟧.is_whole result }
    {
        self.sound();
        Layered::over(layer, self)
    }
}

impl<L: Layer, S: Subscriber> Subscriber for Layered<L, S> {
    ghost spans = { λ s. S.spans s.inner };

    ghost kept = { λ s lane number. L.kept s.layer lane number + S.kept s.inner lane number };

    ghost attaches = { λ s. L.attaches s.layer || S.attaches s.inner };

    ghost activates = { λ s. activates_both (L.attaches s.layer) (L.seen s.layer) (S.activates s.inner) };

    ghost interest = { λ s. interest_both (L.interest s.layer) (S.interest s.inner) };

    ghost enables = { λ s. enables_both (L.enables s.layer) (S.enables s.inner) };

    ghost hint = { λ s. hint_both (L.hint s.layer) (S.hint s.inner) };

    ghost is_whole = { λ s. IsWholeBoth (S.is_whole s.inner) (L.is_whole s.layer) (S.spans s.inner) (L.seen s.layer) (S.attaches s.inner) (L.attaches s.layer) };

    ghost same_but_room = { λ s t. S.same_but_room s.inner t.inner × L.same_but_room s.layer t.layer };

    ghost does = { λ s call t. DoesBoth S.spans S.does L.does L.same_but_room L.attaches s.inner s.layer call t.inner t.layer };

    ghost same_refl = { λ s. (S.same_refl s.inner, L.same_refl s.layer) };

    ghost same_trans = { λ s t u h k. (S.same_trans s.inner t.inner u.inner h.0 k.0, L.same_trans s.layer t.layer u.layer h.1 k.1) };

    ghost same_spans = { λ s t h. S.same_spans s.inner t.inner h.0 };

    ghost same_kept = { λ s t h. kept_same (L.kept s.layer) (L.kept t.layer) (S.kept s.inner) (S.kept t.inner) (L.same_kept s.layer t.layer h.1) (S.same_kept s.inner t.inner h.0) };

    ghost same_attaches = { λ s t h. or_same (L.attaches s.layer) (L.attaches t.layer) (S.attaches s.inner) (S.attaches t.inner) (L.same_attaches s.layer t.layer h.1) (S.same_attaches s.inner t.inner h.0) };

    ghost same_activates = { λ s t h. activates_same (L.attaches s.layer) (L.attaches t.layer) (L.seen s.layer) (L.seen t.layer) (S.activates s.inner) (S.activates t.inner) (L.same_attaches s.layer t.layer h.1) (L.same_seen s.layer t.layer h.1) (S.same_activates s.inner t.inner h.0) };

    ghost same_gate = { λ s t h. gate_same (L.interest s.layer) (L.interest t.layer) (S.interest s.inner) (S.interest t.inner) (L.hint s.layer) (L.hint t.layer) (S.hint s.inner) (S.hint t.inner) (S.same_gate s.inner t.inner h.0) (L.same_gate s.layer t.layer h.1) };

    ghost same_enables = { λ s t h. enables_same (L.enables s.layer) (L.enables t.layer) (S.enables s.inner) (S.enables t.inner) (L.same_enables s.layer t.layer h.1) (S.same_enables s.inner t.inner h.0) };

    ghost same_whole = { λ s t h w. both_whole (S.is_whole s.inner) (S.is_whole t.inner) (L.is_whole s.layer) (L.is_whole t.layer) (S.spans s.inner) (S.spans t.inner) (L.seen s.layer) (L.seen t.layer) (S.attaches s.inner) (S.attaches t.inner) (L.attaches s.layer) (L.attaches t.layer)
        (S.same_whole s.inner t.inner h.0) (L.same_whole s.layer t.layer h.1) (in_step_same (S.spans s.inner) (S.spans t.inner) (L.seen s.layer) (L.seen t.layer) (S.same_spans s.inner t.inner h.0) (L.same_seen s.layer t.layer h.1))
        (S.same_attaches s.inner t.inner h.0) (L.same_attaches s.layer t.layer h.1) w };

    ghost same_does = { λ s t call u h d. both_same S.spans S.does L.does L.same_but_room L.attaches s.inner t.inner s.layer t.layer call u.inner u.layer (S.same_spans s.inner t.inner h.0) (L.same_attaches s.layer t.layer h.1)
        (λ c. S.same_does s.inner t.inner c u.inner h.0) (λ k. L.same_does s.layer t.layer k u.layer h.1) (L.same_trans s.layer t.layer u.layer h.1) d };

    ghost sound = { λ s call t d. (both_keep S.spans S.does L.does L.same_but_room L.attaches s.inner t.inner s.layer t.layer call (IsSound (S.spans s.inner)) (Unit {0}) (λ c. S.sound s.inner c t.inner) (λ k e. tt) (λ e. tt) d).0 };

    ghost allowed = { λ s call t d. both_allowed S.spans S.does L.does L.same_but_room L.attaches s.inner t.inner s.layer t.layer call (λ c. S.allowed s.inner c t.inner) d };

    ghost shows = { λ s call t d. both_shows S.spans S.does L.does L.same_but_room L.attaches s.inner t.inner s.layer t.layer call (λ c. S.shows s.inner c t.inner) d };

    ghost keeps_lanes = { λ s call t d. both_lanes S.spans S.does L.does L.same_but_room L.attaches s.inner t.inner s.layer t.layer call (S.attaches s.inner) (S.kept s.inner) (S.kept t.inner) (L.kept s.layer) (L.kept t.layer)
        (λ c. S.keeps_lanes s.inner c t.inner) (λ k. L.keeps_lanes s.layer k t.layer) (L.same_kept s.layer t.layer) d };

    ghost none_kept_without_entries = { λ s lane number w none. both_none_kept (S.is_whole s.inner) (L.is_whole s.layer) (S.spans s.inner) (L.seen s.layer) (S.attaches s.inner) (L.attaches s.layer) (S.kept s.inner) (L.kept s.layer) lane number
        (S.none_kept_without_entries s.inner lane number) (L.none_kept_without_entries s.layer lane number) w none };

    ghost passive = { λ s id at before later t d neither. both_passive S.does L.does (L.attaches s.layer) s.inner t.inner s.layer t.layer id at before later (L.seen s.layer) (S.activates s.inner)
        (λ b c. S.passive s.inner id at b c t.inner) (λ b c e a. (L.keeps_lanes s.layer (OnEnter id at b c) t.layer e).0.as_it_is a) (λ b c. L.passive s.layer id at b c t.layer) d neither };

    ghost keeps_attaches = { λ s call t d. let e = both_keep S.spans S.does L.does L.same_but_room L.attaches s.inner t.inner s.layer t.layer call (S.attaches t.inner ≡ S.attaches s.inner) (L.attaches t.layer ≡ L.attaches s.layer)
        (λ c. S.keeps_attaches s.inner c t.inner) (λ k. L.keeps_attaches s.layer k t.layer) (L.same_attaches s.layer t.layer) d in or_same (L.attaches s.layer) (L.attaches t.layer) (S.attaches s.inner) (S.attaches t.inner) e.1 e.0 };

    ghost keeps_gate = { λ s call t d.
        let e = both_keep S.spans S.does L.does L.same_but_room L.attaches s.inner t.inner s.layer t.layer call ((S.interest t.inner ≡ S.interest s.inner) × (S.hint t.inner ≡ S.hint s.inner)) ((L.interest t.layer ≡ L.interest s.layer) × (L.hint t.layer ≡ L.hint s.layer))
        (λ c. S.keeps_gate s.inner c t.inner) (λ k. L.keeps_gate s.layer k t.layer) (L.same_gate s.layer t.layer) d in
        gate_same (L.interest s.layer) (L.interest t.layer) (S.interest s.inner) (S.interest t.inner) (L.hint s.layer) (L.hint t.layer) (S.hint s.inner) (S.hint t.inner) e.0 e.1 };

    ghost keeps_whole = { λ s call t d w.
        let a = both_keep S.spans S.does L.does L.same_but_room L.attaches s.inner t.inner s.layer t.layer call (S.attaches t.inner ≡ S.attaches s.inner) (L.attaches t.layer ≡ L.attaches s.layer)
        (λ c. S.keeps_attaches s.inner c t.inner) (λ k. L.keeps_attaches s.layer k t.layer) (L.same_attaches s.layer t.layer) d in
        let h = both_keep S.spans S.does L.does L.same_but_room L.attaches s.inner t.inner s.layer t.layer call (S.is_whole s.inner → S.is_whole t.inner) (L.is_whole s.layer → L.is_whole t.layer)
        (λ c. S.keeps_whole s.inner c t.inner) (λ k. L.keeps_whole s.layer k t.layer) (L.same_whole s.layer t.layer) d in
        both_whole (S.is_whole s.inner) (S.is_whole t.inner) (L.is_whole s.layer) (L.is_whole t.layer) (S.spans s.inner) (S.spans t.inner) (L.seen s.layer) (L.seen t.layer) (S.attaches s.inner) (S.attaches t.inner) (L.attaches s.layer) (L.attaches t.layer)
        h.0 h.1 (both_in_step S.spans S.does L.does L.same_but_room L.attaches s.inner t.inner s.layer t.layer call (L.seen s.layer) (L.seen t.layer) (λ c. S.shows s.inner c t.inner) (λ c. S.allowed s.inner c t.inner)
        (S.attaches s.inner) (S.kept s.inner) (S.kept t.inner) (λ c. S.keeps_lanes s.inner c t.inner) (λ k. L.sees s.layer k t.layer) (L.same_seen s.layer t.layer) d) a.0 a.1 w };

    fn register_callsite(&mut self, callsite: &Callsite) -> Result<Interest, Memory> {
        let inner = self.inner.register_callsite(callsite)?;
        Ok(joint_interest(self.layer.register_callsite(callsite), inner))
    }

    fn enabled(&self, lane: u64, callsite: &Callsite) -> bool {
        self.layer.enabled(lane, callsite) && self.inner.enabled(lane, callsite)
    }

    fn max_level_hint(&self) -> Option<LevelFilter> {
        greater_hint(self.layer.max_level_hint(), self.inner.max_level_hint())
    }

    fn new_span(
        &mut self,
        lane: &Lane,
        at: u64,
        parent: Parent,
        current: Option<Id>,
        site: SiteId,
        callsite: &Callsite,
        values: &ValueSet,
    ) -> Result<Id, Memory> {
        let (parent, current) = (&parent, &current);
        let prepared = self.layer.prepare_new_span(lane, callsite, values)?;
        let id = self
            .inner
            .new_span(lane, at, *parent, *current, site, callsite, values)?;
        self.layer.on_new_span(prepared, id, lane, at, *parent, *current, callsite, values);
        Ok(id)
    }

    fn record(
        &mut self,
        id: Id,
        at: u64,
        callsite: &Callsite,
        values: &ValueSet,
    ) -> Result<(), Memory> {
        let prepared = self.layer.prepare_record(id, callsite, values)?;
        self.inner.record(id, at, callsite, values)?;
        self.layer.on_record(prepared, id, at, callsite, values);
        Ok(())
    }

    fn record_follows_from(&mut self, id: Id, from: Id, at: u64) -> Result<(), Memory> {
        let prepared = self.layer.prepare_follows_from(id, from)?;
        self.inner.record_follows_from(id, from, at)?;
        self.layer.on_follows_from(prepared, id, from, at);
        Ok(())
    }

    fn event(
        &mut self,
        lane: &Lane,
        at: u64,
        parent: Parent,
        current: Option<Id>,
        site: SiteId,
        callsite: &Callsite,
        values: &ValueSet,
    ) -> Result<(), Memory> {
        let (parent, current) = (&parent, &current);
        let reached = &parent.span(*current);
        let prepared = self.layer.prepare_event(*reached, callsite, values)?;
        self.inner
            .event(lane, at, *parent, *current, site, callsite, values)?;
        self.layer
            .on_event(prepared, *reached, lane, at, callsite, values);
        Ok(())
    }

    fn enter(&mut self, id: Id, lane: &mut Lane, at: u64) -> Result<(), EnterError> {
        let prepared = self.layer.prepare_enter(id, lane)?;
        self.inner.enter(id, lane, at)?;
        self.layer.on_enter(prepared, id, lane, at);
        Ok(())
    }

    fn exit(&mut self, id: Id, lane: &mut Lane, at: u64) {
        self.inner.exit(id, lane, at);
        self.layer.on_exit(id, lane, at);
    }

    fn clone_span(&mut self, id: Id) {
        self.inner.clone_span(id);
    }

    fn try_close(&mut self, id: Id, at: u64) -> Closing {
        let closing = self.inner.try_close(id, at);
        if closing.closed {
            self.layer.on_close(id, at);
        }
        closing
    }

    fn current_id(&self, lane: u64) -> Option<Id> {
        self.inner.current_id(lane)
    }

    fn current_span(&self, lane: u64) -> Option<(Id, SiteId)> {
        self.inner.current_span(lane)
    }
}

impl<L: Discard, S: Discard> Discard for Layered<L, S> {
    fn discard(self) {
        let Layered { layer, inner } = self;
        layer.discard();
        inner.discard();
    }
}

// The layer's interest, and the subscriber's where the layer always takes what the callsite makes.
fn joint_interest(layer: Interest, inner: Interest) -> Interest
    ensures { result ≡ joint_interest layer inner }
{
    match layer {
        Interest::Never => Interest::Never,
        Interest::Sometimes => Interest::Sometimes,
        Interest::Always => inner,
    }
}

// The greater of both hints.
fn greater_hint(layer: Option<LevelFilter>, inner: Option<LevelFilter>) -> Option<LevelFilter>
    ensures { result ≡ hint_both layer inner }
{
    let Some(layer) = layer else {
        return inner;
    };
    match inner {
        Some(inner) if layer <= inner => Some(inner),
        _ => Some(layer),
    }
}
