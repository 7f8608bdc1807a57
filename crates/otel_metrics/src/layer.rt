//! A layer that keeps the measures of events.
ghost use Rattle.std.specs.Prelude.{◌≡◌, ◌<◌, ◌≤◌, [], ◌∷◌, ◌++◌, length, drop, None, true, false, IfOk, OnOk, MatchOption};
ghost use Rattle.std.proofs.Common.{refl, sym, ap, ◌∙◌};
ghost use Rattle.trace_base.specs.declared.lane.Lane.{Lane};
ghost use Rattle.trace_base.specs.declared.subscriber.Interest.TheVariants.{Always};
ghost use Rattle.trace_base.specs.layers.Unseeing.{no_known_spans, LeavesLanes, unseeing_sees, unseeing_lanes};
ghost use Rattle.otel_metrics.specs.Measures.{measures};
ghost use Rattle.otel_metrics.specs.Waiting.{MeasuresWithRoom, IsReadyEvent, AddsMeasuresOf, measures_of_hook};

use crate::measure::{Measure, measures};
use otel_base::enter_error::EnterError;
use otel_base::memory::Memory;
use std::alloc::Global;
use std::collections::VecDeque;
use std::marker::Model;
use trace_base::callsite::Callsite;
use trace_base::discard::Discard;
use trace_base::field::ValueSet;
use trace_base::lane::Lane;
use trace_base::layer::Layer;
use trace_base::level::LevelFilter;
use trace_base::span::{Id, Parent};
use trace_base::subscriber::Interest;

/// Keeps the measures of events until they are taken; `tracing_opentelemetry::MetricsLayer`.
#[derive(Drop)]
pub struct MetricsLayer {
    alloc: Global,
    waiting: VecDeque<Measure>,
}

impl Model for MetricsLayer {
    ghost use Rattle.std.specs.Prelude.{◌-◌};
    ghost use Rattle.std.specs.VecDeque.{deque_len, deque_capacity};
    ghost use Rattle.otel_metrics.specs.Waiting.{MeasuresWithRoom};

    ghost Value = { MeasuresWithRoom };

    ghost view = { λ l. record { measures = l.waiting.items; room = deque_capacity l.waiting - deque_len l.waiting } };
}

/// What a prepare makes for an event: its measures.
#[derive(Drop)]
pub struct Prepared {
    measures: VecDeque<Measure>,
}

impl MetricsLayer {
    /// A layer without measures, which takes no memory yet; `MetricsLayer::new`, without a provider.
    pub fn new(alloc: Global) -> MetricsLayer
        ensures { result.measures ≡ [] }
    {
        MetricsLayer {
            alloc,
            waiting: VecDeque::new(alloc),
        }
    }

    /// The oldest measure that isn't taken yet, and none exactly where there is none.
    pub fn take(&mut self) -> Option<Measure>
        ensures oldest { MatchOption result (self.old.measures ≡ [])
            (λ measure. self.old.measures ≡ measure ∷ drop 1 self.old.measures) }
        ensures rest { self.new.measures ≡ drop 1 self.old.measures }
    {
        self.waiting.pop_front()
    }

    // Nothing, for a hook that tells no measure.
    fn nothing(&self) -> Prepared {
        Prepared {
            measures: VecDeque::new(self.alloc),
        }
    }
}

/// It knows no span, takes what all callsites make, and keeps the measures of the events that `MetricsFilter` lets
/// through.
impl Layer for MetricsLayer {
    type Ready = Prepared;

    ghost seen = { λ s. no_known_spans };

    ghost kept = { λ s lane number. 0 };

    ghost attaches = { λ s. false };

    ghost interest = { λ s c. Always };

    ghost enables = { λ s lane c. true };

    ghost hint = { λ s. None };

    ghost is_whole = { λ s. Unit {0} };

    ghost same_but_room = { λ s t. t.measures ≡ s.measures };

    ghost does = { λ s hook t. AddsMeasuresOf s hook t × LeavesLanes hook };

    ghost ready = { λ s preparation r. IsReadyEvent preparation r.measures.items s.room };

    ghost same_refl = { λ s. refl };

    ghost same_trans = { λ s t u h k. k ∙ h };

    ghost same_seen = { λ s t h. refl };

    ghost same_kept = { λ s t h. refl };

    ghost same_attaches = { λ s t h. refl };

    ghost same_gate = { λ s t h. (refl, refl) };

    ghost same_enables = { λ s t h. refl };

    ghost same_whole = { λ s t h w. w };

    ghost same_does = { λ s t hook u h d. (d.0 ∙ ap (λ l. l ++ measures_of_hook hook) h, d.1) };

    ghost sees = { λ s hook t d. unseeing_sees hook };

    ghost keeps_lanes = { λ s hook t d. unseeing_lanes hook d.1 };

    ghost none_kept_without_entries = { λ s lane number none. refl };

    ghost passive = { λ s id at before later t d unknown. ap (λ (l : Lane). l.contexts.live) d.1 };

    ghost keeps_attaches = { λ s hook t d. refl };

    ghost keeps_gate = { λ s hook t d. (refl, refl) };

    ghost keeps_whole = { λ s hook t d w. w };

    fn register_callsite(&self, _callsite: &Callsite) -> Interest {
        Interest::Always
    }

    fn enabled(&self, _lane: u64, _callsite: &Callsite) -> bool {
        true
    }

    fn max_level_hint(&self) -> Option<LevelFilter> {
        None
    }

    fn prepare_new_span(
        &mut self,
        _lane: &Lane,
        _callsite: &Callsite,
        _values: &ValueSet,
    ) -> Result<Prepared, Memory> {
        Ok(self.nothing())
    }

    fn on_new_span(
        &mut self,
        _prepared: Prepared,
        _id: Id,
        _lane: &Lane,
        _at: u64,
        _parent: Parent,
        _current: Option<Id>,
        _callsite: &Callsite,
        _values: &ValueSet,
    ) {}

    fn prepare_record(
        &mut self,
        _id: Id,
        _callsite: &Callsite,
        _values: &ValueSet,
    ) -> Result<Prepared, Memory> {
        Ok(self.nothing())
    }

    fn on_record(
        &mut self,
        _prepared: Prepared,
        _id: Id,
        _at: u64,
        _callsite: &Callsite,
        _values: &ValueSet,
    ) {}

    fn prepare_follows_from(&mut self, _id: Id, _from: Id) -> Result<Prepared, Memory> {
        Ok(self.nothing())
    }

    fn on_follows_from(&mut self, _prepared: Prepared, _id: Id, _from: Id, _at: u64) {}

    fn prepare_event(
        &mut self,
        _reached: Option<Id>,
        callsite: &Callsite,
        values: &ValueSet,
    ) -> Result<Prepared, Memory> {
        let measures = VecDeque::from(measures(self.alloc, callsite, values)?);
        self.waiting.reserve(measures.len())?;
        Ok(Prepared { measures })
    }

    fn on_event(
        &mut self,
        prepared: Prepared,
        _reached: Option<Id>,
        _lane: &Lane,
        _at: u64,
        _callsite: &Callsite,
        _values: &ValueSet,
    ) {
        let mut measures = prepared.measures;
        let _ = self.waiting.append(&mut measures);
    }

    fn prepare_enter(&mut self, _id: Id, _lane: &mut Lane) -> Result<Prepared, EnterError> {
        Ok(self.nothing())
    }

    fn on_enter(&mut self, _prepared: Prepared, _id: Id, _lane: &mut Lane, _at: u64) {}

    fn on_exit(&mut self, _id: Id, _lane: &mut Lane, _at: u64) {}

    fn on_close(&mut self, _id: Id, _at: u64) {}
}

impl Discard for MetricsLayer {
    fn discard(self) {}
}
