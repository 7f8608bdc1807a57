//! The layer as it is told of spans and events.
ghost use Rattle.std.specs.Prelude.{◌≡◌, true, None};
ghost use Rattle.std.proofs.Common.{refl, ap};
ghost use Rattle.trace_base.specs.declared.subscriber.Interest.TheVariants as interests;
ghost use Rattle.otel_layer.specs.Core.{seen_in, kept_in, IsWholeCore};
ghost use Rattle.otel_layer.specs.Steps.{SameCore, DoesHook, all_events_effect};
ghost use Rattle.otel_layer.specs.Ready.{IsReadyOtel};
ghost use Rattle.otel_layer.specs.laws.HookLemmas.{does_whole, same_whole_core, all_keep_own};
ghost use Rattle.otel_layer.specs.laws.KnownSpansLemmas.{does_sees};
ghost use Rattle.otel_layer.specs.laws.LaneLemmas.{does_lanes, does_passive, does_settings, none_kept_by_tokens};
ghost use Rattle.otel_layer.specs.laws.RoomLemmas.{same_core_refl, same_core_trans, same_core_does};

use crate::layer::OpenTelemetryLayer;
use crate::ready::{Ready, set_moment};
use otel_base::enter_error::EnterError;
use otel_base::memory::Memory;
use otel_base::tracer::Tracer;
use trace_base::callsite::Callsite;
use trace_base::field::ValueSet;
use trace_base::lane::Lane;
use trace_base::layer::Layer;
use trace_base::level::LevelFilter;
use trace_base::span::{Id, Parent};
use trace_base::subscriber::Interest;

/// It takes all that callsites make, and has no hint.
impl<T: Tracer> Layer for OpenTelemetryLayer<T> {
    type Ready = Ready;

    ghost seen = { λ s. seen_in s.core };

    ghost kept = { λ s. kept_in s.core };

    ghost attaches = { λ s. s.core.settings.activation };

    ghost interest = { λ s c. interests.Always };

    ghost enables = { λ s lane c. true };

    ghost hint = { λ s. None };

    ghost is_whole = { λ s. IsWholeCore T.spare T.started s.core };

    ghost same_but_room = { λ s t. SameCore T.does s.core t.core };

    ghost does = { λ s hook t. DoesHook T.does all_events_effect s.core hook t.core };

    ghost ready = { λ s preparation r. IsReadyOtel s preparation r };

    ghost same_refl = { λ s. same_core_refl T.does s.core };

    ghost same_trans = { λ s t u h k. same_core_trans T.does s.core t.core u.core h k };

    ghost same_seen = { λ s t h. ap (λ c. seen_in c) h.rest };

    ghost same_kept = { λ s t h. ap (λ c. kept_in c) h.rest };

    ghost same_attaches = { λ s t h. ap (λ c. c.settings.activation) h.rest };

    ghost same_gate = { λ s t h. (refl, refl) };

    ghost same_enables = { λ s t h. refl };

    ghost same_whole = { λ s t h w. same_whole_core T.does T.spare T.started T.counts s.core t.core h w };

    ghost same_does = { λ s t hook u h d. same_core_does T.does all_events_effect s.core t.core hook u.core h d };

    ghost sees = { λ s hook t d. does_sees T.does all_events_effect s.core hook t.core d };

    ghost keeps_lanes = { λ s hook t d. does_lanes T.does all_events_effect s.core hook t.core d };

    ghost none_kept_without_entries = { λ s lane number none. none_kept_by_tokens s.core.settings.activation s.core.tokens lane number none };

    ghost passive = { λ s id at before later t d unknown. does_passive T.does all_events_effect s.core id at before later t.core d unknown };

    ghost keeps_attaches = { λ s hook t d. ap (λ x. x.activation) (does_settings T.does all_events_effect s.core hook t.core d) };

    ghost keeps_gate = { λ s hook t d. (refl, refl) };

    ghost keeps_whole = { λ s hook t d w. does_whole T.does T.spare T.started T.counts all_events_effect all_keep_own s.core hook t.core d w };

    fn register_callsite(&self, _callsite: &Callsite) -> Interest {
        Interest::Always
    }

    fn enabled(&self, _lane: u64, _callsite: &Callsite) -> bool {
        true
    }

    fn max_level_hint(&self) -> Option<LevelFilter> {
        None
    }

    fn prepare_new_span(
        &mut self,
        lane: &Lane,
        callsite: &Callsite,
        values: &ValueSet,
    ) -> Result<Ready, Memory> {
        self.prepare_state(lane, callsite, values)
    }

    fn on_new_span(
        &mut self,
        prepared: Ready,
        id: Id,
        lane: &Lane,
        at: u64,
        parent: Parent,
        current: Option<Id>,
        callsite: &Callsite,
        values: &ValueSet,
    ) {
        match prepared {
            Ready::NewState { state } => {
                self.make(state, id, lane, at, parent, current, callsite, values)
            }
            _ => unreachable!(),
        }
    }

    fn prepare_record(
        &mut self,
        id: Id,
        callsite: &Callsite,
        values: &ValueSet,
    ) -> Result<Ready, Memory> {
        self.prepare_update(id, callsite, values)
    }

    fn on_record(
        &mut self,
        prepared: Ready,
        id: Id,
        at: u64,
        _callsite: &Callsite,
        _values: &ValueSet,
    ) {
        match prepared {
            Ready::PreparedOp { op } => {
                self.put_op(id, at, Box::into_inner(op));
            }
            _ => unreachable!(),
        }
    }

    fn prepare_follows_from(&mut self, id: Id, from: Id) -> Result<Ready, Memory> {
        self.prepare_link(id, from)
    }

    fn on_follows_from(&mut self, prepared: Ready, id: Id, from: Id, at: u64) {
        drop(prepared);
        self.follow(id, from, at);
    }

    fn prepare_event(
        &mut self,
        reached: Option<Id>,
        callsite: &Callsite,
        values: &ValueSet,
    ) -> Result<Ready, Memory> {
        self.prepare_event_op(reached, callsite, values)
    }

    fn on_event(
        &mut self,
        prepared: Ready,
        reached: Option<Id>,
        _lane: &Lane,
        at: u64,
        _callsite: &Callsite,
        _values: &ValueSet,
    ) {
        match reached {
            Some(id) => match prepared {
                Ready::PreparedOp { op } => {
                    let mut op = Box::into_inner(op);
                    set_moment(&mut op, at);
                    self.put_op(id, at, op);
                }
                _ => unreachable!(),
            },
            None => drop(prepared),
        }
    }

    fn prepare_enter(&mut self, id: Id, lane: &mut Lane) -> Result<Ready, EnterError> {
        self.prepare_lane(id, lane)?;
        match self.prepare_token(id, lane.id) {
            Ok(prepared) => Ok(prepared),
            Err(_) => Err(EnterError::Memory),
        }
    }

    fn on_enter(&mut self, prepared: Ready, id: Id, lane: &mut Lane, at: u64) {
        drop(prepared);
        self.enter_if_known(id, lane, at);
    }

    fn on_exit(&mut self, id: Id, lane: &mut Lane, at: u64) {
        self.exit_if_known(id, lane, at);
    }

    fn on_close(&mut self, id: Id, at: u64) {
        self.close_if_known(id, at);
    }
}
