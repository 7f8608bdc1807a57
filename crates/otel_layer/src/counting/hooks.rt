//! The layer that may count events, as it is told of spans and events.
ghost use Rattle.std.specs.Prelude.{◌≡◌, ◌==◌, true, None};
ghost use Rattle.std.proofs.Common.{refl, ap, ◌∙◌};
ghost use Rattle.trace_base.specs.declared.subscriber.Interest.TheVariants as interests;
ghost use Rattle.otel_layer.specs.Core.{seen_in, kept_in, IsWholeCore};
ghost use Rattle.otel_layer.specs.Counting.{events_effect, events_keep_own, counted_does};
ghost use Rattle.otel_layer.specs.Steps.{SameCore, DoesHook};
ghost use Rattle.otel_layer.specs.Ready.{IsReadyOtel};
ghost use Rattle.otel_layer.specs.laws.HookLemmas.{does_whole, same_whole_core};
ghost use Rattle.otel_layer.specs.laws.KnownSpansLemmas.{does_sees};
ghost use Rattle.otel_layer.specs.laws.LaneLemmas.{does_lanes, does_passive, does_settings, none_kept_by_tokens};
ghost use Rattle.otel_layer.specs.laws.RoomLemmas.{same_core_refl, same_core_trans};

use crate::counting::FilteredOpenTelemetryLayer;
use crate::ready::{Ready, set_moment};
use otel_base::enter_error::EnterError;
use otel_base::memory::Memory;
use otel_base::tracer::Tracer;
use trace_base::callsite::Callsite;
use trace_base::field::ValueSet;
use trace_base::filter::Filter;
use trace_base::lane::Lane;
use trace_base::layer::Layer;
use trace_base::level::LevelFilter;
use trace_base::span::{Id, Parent};
use trace_base::subscriber::Interest;

/// It takes all that callsites make, and has no hint. A filter is asked of events alone, and is told of nothing.
impl<T: Tracer, F: Filter> Layer for FilteredOpenTelemetryLayer<T, F> {
    type Ready = Ready;

    ghost seen = { λ s. seen_in s.inner.core };

    ghost kept = { λ s. kept_in s.inner.core };

    ghost attaches = { λ s. s.inner.core.settings.activation };

    ghost interest = { λ s c. interests.Always };

    ghost enables = { λ s lane c. true };

    ghost hint = { λ s. None };

    ghost is_whole = { λ s. IsWholeCore T.spare T.started s.inner.core };

    ghost same_but_room = { λ s t. SameCore T.does s.inner.core t.inner.core × (t.filter ≡ s.filter) };

    ghost does = { λ s hook t. DoesHook T.does (events_effect F.enables s.filter) s.inner.core hook t.inner.core × (t.filter ≡ s.filter) };

    ghost ready = { λ s preparation r. IsReadyOtel s.inner preparation r };

    ghost same_refl = { λ s. (same_core_refl T.does s.inner.core, refl) };

    ghost same_trans = { λ s t u h k. (same_core_trans T.does s.inner.core t.inner.core u.inner.core h.0 k.0, k.1 ∙ h.1) };

    ghost same_seen = { λ s t h. ap (λ c. seen_in c) h.0.rest };

    ghost same_kept = { λ s t h. ap (λ c. kept_in c) h.0.rest };

    ghost same_attaches = { λ s t h. ap (λ c. c.settings.activation) h.0.rest };

    ghost same_gate = { λ s t h. (refl, refl) };

    ghost same_enables = { λ s t h. refl };

    ghost same_whole = { λ s t h w. same_whole_core T.does T.spare T.started T.counts s.inner.core t.inner.core h.0 w };

    ghost same_does = { λ s t hook u h d. counted_does T.does (events_effect F.enables) s.inner.core t.inner.core hook u.inner.core s.filter t.filter u.filter h d };

    ghost sees = { λ s hook t d. does_sees T.does (events_effect F.enables s.filter) s.inner.core hook t.inner.core d.0 };

    ghost keeps_lanes = { λ s hook t d. does_lanes T.does (events_effect F.enables s.filter) s.inner.core hook t.inner.core d.0 };

    ghost none_kept_without_entries = { λ s lane number none. none_kept_by_tokens s.inner.core.settings.activation s.inner.core.tokens lane number none };

    ghost passive = { λ s id at before later t d unknown. does_passive T.does (events_effect F.enables s.filter) s.inner.core id at before later t.inner.core d.0 unknown };

    ghost keeps_attaches = { λ s hook t d. ap (λ x. x.activation) (does_settings T.does (events_effect F.enables s.filter) s.inner.core hook t.inner.core d.0) };

    ghost keeps_gate = { λ s hook t d. (refl, refl) };

    ghost keeps_whole = { λ s hook t d w. does_whole T.does T.spare T.started T.counts (events_effect F.enables s.filter) (events_keep_own F.enables s.filter) s.inner.core hook t.inner.core d.0 w };

    fn register_callsite(&self, _callsite: &Callsite) -> Interest {
        Interest::Always
    }

    fn enabled(&self, _lane: u64, _callsite: &Callsite) -> bool {
        true
    }

    fn max_level_hint(&self) -> Option<LevelFilter> {
        None
    }

    fn prepare_new_span(
        &mut self,
        lane: &Lane,
        callsite: &Callsite,
        values: &ValueSet,
    ) -> Result<Ready, Memory> {
        self.inner.prepare_new_span(lane, callsite, values)
    }

    fn on_new_span(
        &mut self,
        prepared: Ready,
        id: Id,
        lane: &Lane,
        at: u64,
        parent: Parent,
        current: Option<Id>,
        callsite: &Callsite,
        values: &ValueSet,
    ) {
        self.inner
            .on_new_span(prepared, id, lane, at, parent, current, callsite, values);
    }

    fn prepare_record(
        &mut self,
        id: Id,
        callsite: &Callsite,
        values: &ValueSet,
    ) -> Result<Ready, Memory> {
        self.inner.prepare_record(id, callsite, values)
    }

    fn on_record(
        &mut self,
        prepared: Ready,
        id: Id,
        at: u64,
        callsite: &Callsite,
        values: &ValueSet,
    ) {
        self.inner.on_record(prepared, id, at, callsite, values);
    }

    fn prepare_follows_from(&mut self, id: Id, from: Id) -> Result<Ready, Memory> {
        self.inner.prepare_follows_from(id, from)
    }

    fn on_follows_from(&mut self, prepared: Ready, id: Id, from: Id, at: u64) {
        self.inner.on_follows_from(prepared, id, from, at);
    }

    fn prepare_event(
        &mut self,
        reached: Option<Id>,
        callsite: &Callsite,
        values: &ValueSet,
    ) -> Result<Ready, Memory> {
        self.inner.prepare_event(reached, callsite, values)
    }

    fn on_event(
        &mut self,
        prepared: Ready,
        reached: Option<Id>,
        lane: &Lane,
        at: u64,
        callsite: &Callsite,
        values: &ValueSet,
    ) {
        let Some(filter) = &self.filter else {
            self.inner
                .on_event(prepared, reached, lane, at, callsite, values);
            return;
        };
        match reached {
            Some(id) => match prepared {
                Ready::PreparedOp { op } => {
                    let is_taken = filter.enabled(lane.id, callsite);
                    let mut op = Box::into_inner(op);
                    set_moment(&mut op, at);
                    self.inner.count_op(id, at, op, is_taken);
                }
                _ => unreachable!(),
            },
            None => drop(prepared),
        }
    }

    fn prepare_enter(&mut self, id: Id, lane: &mut Lane) -> Result<Ready, EnterError> {
        self.inner.prepare_enter(id, lane)
    }

    fn on_enter(&mut self, prepared: Ready, id: Id, lane: &mut Lane, at: u64) {
        self.inner.on_enter(prepared, id, lane, at);
    }

    fn on_exit(&mut self, id: Id, lane: &mut Lane, at: u64) {
        self.inner.on_exit(id, lane, at);
    }

    fn on_close(&mut self, id: Id, at: u64) {
        self.inner.on_close(id, at);
    }
}
