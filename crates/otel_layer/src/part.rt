//! What a stack shows of its OpenTelemetry layer to handles.
ghost use Rattle.std.specs.Prelude.{◌≡◌, ◌||◌, ◌^◌, ◌<◌, if◌then◌else◌, ℕ, Bool, true, false, List, Option, None, Some};
ghost use Rattle.std.proofs.Common.{refl};
ghost use Rattle.std.proofs.lemmas.Bool.{true≢false};
ghost use Rattle.otel_state.specs.States.{SpanData};
ghost use Rattle.otel_layer.specs.Parts.{PartCall, Applies, GivesContext, IsOutside, Touches, TouchesNone, TouchesFirst, AnswersCallIf, IsUnanswered, StaysLayer, StaysStack};
ghost use Rattle.otel_layer.specs.laws.CallsLemmas.{touches_tell, core_stays, layer_can_start, first_tells, first_none, first_has, first_stay, layered_is, still_layer, still_stack};
ghost use Rattle.span_registry.specs.Layering.{kept_same, or_same, both_whole, in_step_same};

use crate::layer::OpenTelemetryLayer;
use env_directives::targets::Targets;
use env_filter::filter::EnvFilter;
use env_filter::reload;
use otel_base::context::Context;
use otel_base::memory::Memory;
use otel_base::tracer::Tracer;
use otel_metrics::layer::MetricsLayer;
use otel_state::op::{Op, OpReply};
use span_registry::layered::Layered;
use span_registry::registry::Registry;
use trace_base::layer::Layer;
use trace_base::span::Id;
use trace_base::subscriber::Subscriber;

/// A part of a stack that may have an OpenTelemetry layer, for what handles ask of that: the downcast to the layer that
/// `tracing_opentelemetry` makes.
pub trait OtelPart {
    /// Whether it has a layer.
    ghost has_layer: { Self → Bool };

    /// What the spans that the layer knows have come to, where that is told.
    ghost all_span_data: { Self → Option (List (ℕ × SpanData)) };

    /// A call, and what it makes of it.
    ghost touches: { Self → PartCall → Self → Type 0 };

    /// Spans can be started.
    ghost can_start: { Self → Type 0 };

    /// Whether it has a layer.
    fn has_otel(&self) -> bool
        ensures { result ≡ has_layer self.now };

    /// Applies an op from outside to a span, and answers it; none exactly where there is no layer or the layer doesn't
    /// know the span. A layer that hears every call of its subscriber knows just the spans that are live (`live` of
    /// span_laws).
    fn otel_apply(&mut self, id: Id, at: u64, op: Op) -> Option<Result<OpReply, Memory>>
        requires { IsOutside op }
        ensures { touches self.old (Applies id at op result) self.new };

    /// Starts a span, and answers its own context; none exactly where there is no layer or the layer doesn't know the
    /// span, which of one that hears every call means that the span isn't live (`live` of span_laws).
    fn otel_context(&mut self, id: Id, at: u64) -> Option<Context>
        requires { can_start self.old }
        ensures { touches self.old (GivesContext id at result) self.new };

    /// Without a layer nothing is answered, and nothing changes.
    ghost none: { (s : Self) (call : PartCall) (t : Self) → touches s call t → has_layer s ≡ false → IsUnanswered call × (t ≡ s) };

    /// What is told is told again after a call, as the call makes it.
    ghost tells: { (s : Self) (call : PartCall) (t : Self) → touches s call t → AnswersCallIf (all_span_data s) call (all_span_data t) };

    ghost keeps_has: { (s : Self) (call : PartCall) (t : Self) → touches s call t → has_layer t ≡ has_layer s };
}

/// A layer that calls from outside leave whole, with the same spans and entries.
pub trait OtelLayer: Layer + OtelPart {
    ghost stays: { (s : Self) (call : PartCall) (t : Self) → Self.OtelPart.touches s call t
        → StaysLayer Self.Layer.seen Self.Layer.kept Self.Layer.attaches Self.Layer.is_whole s t };

    ghost starts: { (s : Self) → Self.Layer.is_whole s → Self.OtelPart.can_start s };
}

/// The same of a subscriber.
pub trait OtelSubscriber: Subscriber + OtelPart {
    ghost stays: { (s : Self) (call : PartCall) (t : Self) → Self.OtelPart.touches s call t
        → StaysStack Self.Subscriber.spans Self.Subscriber.kept Self.Subscriber.attaches Self.Subscriber.is_whole s t };

    ghost starts: { (s : Self) → Self.Subscriber.is_whole s → Self.OtelPart.can_start s };
}

impl<T: Tracer> OtelPart for OpenTelemetryLayer<T> {
    ghost has_layer = { λ s. true };

    ghost all_span_data = { λ s. Some s.core.spans };

    ghost touches = { λ s call t. Touches T.does s.core call t.core };

    ghost can_start = { λ s. T.started s.core.tracer < 2 ^ 63 };

    ghost none = { λ s call t d h. absurd (true≢false h) };

    ghost tells = { λ s call t d. touches_tell T.does s.core call t.core d };

    ghost keeps_has = { λ s call t d. refl };

    fn has_otel(&self) -> bool {
        true
    }

    fn otel_apply(&mut self, id: Id, at: u64, op: Op) -> Option<Result<OpReply, Memory>> {
        self.table.apply(id, at, op)
    }

    fn otel_context(&mut self, id: Id, at: u64) -> Option<Context> {
        self.start(id, at)
    }
}

impl<T: Tracer> OtelLayer for OpenTelemetryLayer<T> {
    ghost stays = { λ s call t d.
        let k = core_stays T.does T.spare T.started T.counts s.core call t.core d in
        record { seen_same = k.0; kept_same = k.1; attaches_same = k.2; whole = k.3 } };

    ghost starts = { λ s w. layer_can_start T.spare T.started s.core w };
}

/// A part of a stack that has no OpenTelemetry layer, and answers so.
pub trait WithoutOtel {}

impl WithoutOtel for Registry {}

impl WithoutOtel for EnvFilter {}

impl WithoutOtel for Targets {}

impl WithoutOtel for MetricsLayer {}

/// Whatever it is over.
impl<L> WithoutOtel for reload::Layer<L> {}

impl<P: WithoutOtel> OtelPart for P {
    ghost has_layer = { λ s. false };

    ghost all_span_data = { λ s. None };

    ghost touches = { λ s call t. TouchesNone s call t };

    ghost can_start = { λ s. Unit {0} };

    ghost none = { λ s call t d h. d };

    ghost tells = { λ s call t d. refl };

    ghost keeps_has = { λ s call t d. refl };

    fn has_otel(&self) -> bool {
        false
    }

    fn otel_apply(&mut self, _id: Id, _at: u64, op: Op) -> Option<Result<OpReply, Memory>> {
        drop(op);
        None
    }

    fn otel_context(&mut self, _id: Id, _at: u64) -> Option<Context> {
        None
    }
}

impl<L: Layer + WithoutOtel> OtelLayer for L {
    ghost stays = { λ s call t d. still_layer L.seen L.kept L.attaches L.is_whole s t d.1 };

    ghost starts = { λ s w. tt };
}

impl<S: Subscriber + WithoutOtel> OtelSubscriber for S {
    ghost stays = { λ s call t d. still_stack S.spans S.kept S.attaches S.is_whole s t d.1 };

    ghost starts = { λ s w. tt };
}

/// The outer part is asked first.
impl<L: Layer + OtelPart, S: Subscriber + OtelPart> OtelPart for Layered<L, S> {
    ghost has_layer = { λ s. L.has_layer s.layer || S.has_layer s.inner };

    ghost all_span_data = { λ s. if L.has_layer s.layer then L.all_span_data s.layer else S.all_span_data s.inner };

    ghost touches = { λ s call t. TouchesFirst (L.has_layer s.layer) L.touches S.touches s.layer s.inner call t.layer t.inner };

    ghost can_start = { λ s. L.can_start s.layer × S.can_start s.inner };

    ghost none = { λ s call t d h.
        let n = first_none L.has_layer S.has_layer L.touches S.touches s.layer s.inner call t.layer t.inner L.none S.none d h in
        (n.0, layered_is s t n.1 n.2) };

    ghost tells = { λ s call t d.
        first_tells L.has_layer S.has_layer L.touches S.touches L.keeps_has L.all_span_data S.all_span_data L.tells S.tells
        s.layer s.inner call t.layer t.inner d };

    ghost keeps_has = { λ s call t d.
        first_has L.has_layer S.has_layer L.touches S.touches L.keeps_has s.layer s.inner call t.layer t.inner S.keeps_has d };

    fn has_otel(&self) -> bool {
        self.layer().has_otel() || self.inner().has_otel()
    }

    fn otel_apply(&mut self, id: Id, at: u64, op: Op) -> Option<Result<OpReply, Memory>> {
        if self.layer().has_otel() {
            self.layer_mut().otel_apply(id, at, op)
        } else {
            self.inner_mut().otel_apply(id, at, op)
        }
    }

    fn otel_context(&mut self, id: Id, at: u64) -> Option<Context> {
        if self.layer().has_otel() {
            self.layer_mut().otel_context(id, at)
        } else {
            self.inner_mut().otel_context(id, at)
        }
    }
}

impl<L: OtelLayer, S: OtelSubscriber> OtelSubscriber for Layered<L, S> {
    ghost stays = { λ s call t d.
        let both = first_stay (L.has_layer s.layer) L.touches S.touches L.seen L.kept L.attaches L.is_whole S.spans S.kept S.attaches S.is_whole
        s.layer s.inner call t.layer t.inner (L.stays s.layer call t.layer) (S.stays s.inner call t.inner) d in
        record {
          spans_same = both.1.spans_same;
          kept_same = kept_same (L.kept s.layer) (L.kept t.layer) (S.kept s.inner) (S.kept t.inner) both.0.kept_same both.1.kept_same;
          attaches_same = or_same (L.attaches s.layer) (L.attaches t.layer) (S.attaches s.inner) (S.attaches t.inner) both.0.attaches_same both.1.attaches_same;
          whole = λ w. both_whole (S.is_whole s.inner) (S.is_whole t.inner) (L.is_whole s.layer) (L.is_whole t.layer) (S.spans s.inner) (S.spans t.inner) (L.seen s.layer) (L.seen t.layer)
              (S.attaches s.inner) (S.attaches t.inner) (L.attaches s.layer) (L.attaches t.layer) both.1.whole both.0.whole
              (in_step_same (S.spans s.inner) (S.spans t.inner) (L.seen s.layer) (L.seen t.layer) both.1.spans_same both.0.seen_same) both.1.attaches_same both.0.attaches_same w;
        } };

    ghost starts = { λ s w. (L.starts s.layer w.outer, S.starts s.inner w.inner) };
}
