//! The layer that may count events.
ghost use Rattle.std.specs.Prelude.{◌≡◌, ◌^◌, ◌<◌, true, None, Some, is_some};
ghost use Rattle.std.proofs.Common.{refl};
ghost use Rattle.std.proofs.lemmas.Bool.{true≢false};
ghost use Rattle.std.specs.Borrow.{sem};
ghost use Rattle.otel_layer.specs.Core.{CoreWithRoom, StaysWhole};
ghost use Rattle.otel_layer.specs.Counting.{counting_core};
ghost use Rattle.otel_layer.specs.lending.CountingLending.{LendsCountingTracer};
ghost use Rattle.otel_layer.specs.Parts.{Touches};
ghost use Rattle.otel_layer.specs.laws.CallsLemmas.{touches_tell, core_stays, layer_can_start};

use crate::layer::OpenTelemetryLayer;
use crate::part::{OtelLayer, OtelPart};
use otel_base::context::Context;
use otel_base::memory::Memory;
use otel_base::tracer::Tracer;
use otel_state::op::{Op, OpReply};
use trace_base::discard::Discard;
use trace_base::filter::Filter;
use trace_base::span::Id;

mod hooks;

/// A layer that may count events; `tracing_opentelemetry::FilteredOpenTelemetryLayer`. With a filter, as there, it counts
/// each event that reaches it with a span, and tells its span those that the filter takes; records tell the count.
/// Without one it does what the layer inside does.
pub struct FilteredOpenTelemetryLayer<T, F> {
    pub(crate) inner: OpenTelemetryLayer<T>,
    pub(crate) filter: Option<F>,
}

impl<T: Tracer> OpenTelemetryLayer<T> {
    /// The same layer, counting the events of the spans that it is going to be told of;
    /// `OpenTelemetryLayer::with_counting_event_filter`.
    pub fn with_counting_event_filter<F: Filter>(
        self,
        filter: F,
    ) -> FilteredOpenTelemetryLayer<T, F>
        ensures core { result.inner.core ≡ counting_core true self.core }
        ensures filter { result.filter ≡ Some filter }
        ensures whole { StaysWhole T.spare T.started self.core result.inner.core }
    {
        self.with_counting_if(Some(filter))
    }

    /// The same layer, counting events if a filter is given for that.
    pub fn with_counting_if<F: Filter>(self, filter: Option<F>) -> FilteredOpenTelemetryLayer<T, F>
        ensures inner { result.inner ≡ record self { core = counting_core (is_some filter) self.core } }
        ensures filter { result.filter ≡ filter }
        ensures whole { StaysWhole T.spare T.started self.core result.inner.core }
    {
        FilteredOpenTelemetryLayer {
            inner: self.with_counting(filter.is_some()),
            filter,
        }
    }
}

impl<T: Tracer, F: Filter> FilteredOpenTelemetryLayer<T, F> {
    /// What becomes of the layer inside, counting with the same filter; `FilteredOpenTelemetryLayer::map_inner`.
    pub fn map_inner<U: Tracer, M: FnOnce(OpenTelemetryLayer<T>) -> OpenTelemetryLayer<U>>(
        self,
        map: M,
    ) -> FilteredOpenTelemetryLayer<U, F>
        requires { M.pre map self.inner }
        ensures core { (inner : CoreWithRoom U) × M.post map self.inner inner
            × (result.inner.core ≡ counting_core (is_some self.filter) inner.core) }
        ensures filter { result.filter ≡ self.filter }
    {
        let FilteredOpenTelemetryLayer { inner, filter } = self;
        FilteredOpenTelemetryLayer {
            inner: map(inner).with_counting(filter.is_some()),
            filter,
        }
    }

    /// The tracer, to be changed.
    pub fn tracer_mut(&mut self) -> &mut T
        ensures* lends { sem 𝓛 (LendsCountingTracer T.row F.row self.entry result) }
        ensures value { result.now ≡ self.old.inner.core.tracer }
    {
        self.inner.tracer_mut()
    }
}

impl<T: Tracer, F: Filter + Drop> FilteredOpenTelemetryLayer<T, F> {
    /// The same layer, counting with another filter; `FilteredOpenTelemetryLayer::with_counting_event_filter`.
    pub fn with_counting_event_filter<G: Filter>(
        self,
        filter: G,
    ) -> FilteredOpenTelemetryLayer<T, G>
        ensures inner { result.inner ≡ record self.inner { core = counting_core true self.inner.core } }
        ensures filter { result.filter ≡ Some filter }
    {
        let FilteredOpenTelemetryLayer { inner, filter: _ } = self;
        inner.with_counting_if(Some(filter))
    }
}

/// Its spans are forgotten, and what their entries attached stays attached for good.
impl<T: Drop, F: Drop> Discard for FilteredOpenTelemetryLayer<T, F> {
    fn discard(self) {
        let FilteredOpenTelemetryLayer { inner, filter: _ } = self;
        inner.discard();
    }
}

/// The layer inside shows itself.
impl<T: Tracer, F: Filter> OtelPart for FilteredOpenTelemetryLayer<T, F> {
    ghost has_layer = { λ s. true };

    ghost all_span_data = { λ s. Some s.inner.core.spans };

    ghost touches = { λ s call t. Touches T.does s.inner.core call t.inner.core × (t.filter ≡ s.filter) };

    ghost can_start = { λ s. T.started s.inner.core.tracer < 2 ^ 63 };

    ghost none = { λ s call t d h. absurd (true≢false h) };

    ghost tells = { λ s call t d. touches_tell T.does s.inner.core call t.inner.core d.0 };

    ghost keeps_has = { λ s call t d. refl };

    fn has_otel(&self) -> bool {
        true
    }

    fn otel_apply(&mut self, id: Id, at: u64, op: Op) -> Option<Result<OpReply, Memory>> {
        self.inner.otel_apply(id, at, op)
    }

    fn otel_context(&mut self, id: Id, at: u64) -> Option<Context> {
        self.inner.otel_context(id, at)
    }
}

impl<T: Tracer, F: Filter> OtelLayer for FilteredOpenTelemetryLayer<T, F> {
    ghost stays = { λ s call t d.
        let k = core_stays T.does T.spare T.started T.counts s.inner.core call t.inner.core d.0 in
        record { seen_same = k.0; kept_same = k.1; attaches_same = k.2; whole = k.3 } };

    ghost starts = { λ s w. layer_can_start T.spare T.started s.inner.core w };
}
