//! The layer and its settings.
ghost use Rattle.std.specs.Prelude.{◌≡◌, ◌≤◌, ◌^◌, [], length};
ghost use Rattle.otel_state.specs.Settings.{default_settings};
ghost use Rattle.otel_layer.specs.Core.{new_core, with_settings_by, with_other_tracer, IsWholeCore, StaysWhole};
ghost use Rattle.otel_layer.specs.Counting.{counting_core};
ghost use Rattle.otel_layer.specs.lending.Lending.{LendsTracer};
ghost use Rattle.std.specs.Borrow.{sem};

use crate::layer::tokens::Token;
use crate::table::Table;
use otel_base::noop::NoopTracer;
use otel_base::tracer::Tracer;
use otel_state::settings::LayerSettings;
use std::alloc::Global;
use std::marker::Model;
use trace_base::discard::Discard;

mod calls;
mod hooks;
mod room;
pub(crate) mod tokens;

/// The layer that keeps a state for each span, and hands its record to a tracer when it closes;
/// `tracing_opentelemetry::OpenTelemetryLayer`.
pub struct OpenTelemetryLayer<T> {
    pub(crate) alloc: Global,
    pub(crate) table: Table,
    pub(crate) tokens: Vec<Token>,
    pub(crate) tracer: T,
    // For how many finishes room was reserved with the tracer.
    pub(crate) reserved: u64,
    pub(crate) span_count: u64,
    pub(crate) settings: LayerSettings,
    // Whether a close tells how many events were counted.
    pub(crate) counting: bool,
}

impl<T> Model for OpenTelemetryLayer<T> {
    ghost use Rattle.std.specs.Prelude.{◌-◌, length, vec_capacity};
    ghost use Rattle.otel_layer.specs.Core.{CoreWithRoom};

    ghost Value = { CoreWithRoom T };

    ghost view = { λ l. record {
      core = record {
        spans = l.table.spans;
        tokens = l.tokens.items;
        tracer = l.tracer;
        reserved = l.reserved;
        span_count = l.span_count;
        settings = l.settings;
        counting = l.counting;
      };
      rooms = l.table.rooms;
      room = l.table.room;
      token_room = vec_capacity l.tokens - length l.tokens.items;
    } };
}

/// A layer over a tracer that keeps nothing; `tracing_opentelemetry::layer`.
pub fn layer(alloc: Global) -> OpenTelemetryLayer<NoopTracer>
    ensures core { result.core ≡ new_core 0 default_settings }
    ensures whole { IsWholeCore (λ t. t) (λ t. 0) result.core }
{
    OpenTelemetryLayer::new(alloc, NoopTracer::new())
}

impl<T: Tracer> OpenTelemetryLayer<T> {
    /// A layer over a tracer that knows no span, with the settings that hold unless others are given;
    /// `OpenTelemetryLayer::new`.
    pub fn new(alloc: Global, tracer: T) -> OpenTelemetryLayer<T>
        requires { T.started tracer ≤ 2 ^ 62 }
        ensures core { result.core ≡ new_core tracer default_settings }
        ensures whole { IsWholeCore T.spare T.started result.core }
    {
        OpenTelemetryLayer {
            alloc,
            table: Table::new(alloc),
            tokens: Vec::new(alloc),
            tracer,
            reserved: 0,
            span_count: 0,
            settings: LayerSettings::default(),
            counting: false,
        }
    }
}

impl<T: Tracer + Drop> OpenTelemetryLayer<T> {
    /// The same layer over another tracer, with which nothing is reserved yet; `OpenTelemetryLayer::with_tracer`. It can
    /// close the spans that it knows only if there are none.
    pub fn with_tracer<U: Tracer>(self, tracer: U) -> OpenTelemetryLayer<U>
        requires { U.started tracer ≤ 2 ^ 62 }
        ensures core { result.core ≡ with_other_tracer self.core tracer }
        ensures whole { IsWholeCore T.spare T.started self.core → self.core.spans ≡ []
            → IsWholeCore U.spare U.started result.core }
    {
        let OpenTelemetryLayer {
            alloc,
            table,
            tokens,
            tracer: _,
            reserved: _,
            span_count,
            settings,
            counting,
        } = self;
        OpenTelemetryLayer {
            alloc,
            table,
            tokens,
            tracer,
            reserved: 0,
            span_count,
            settings,
            counting,
        }
    }
}

impl<T: Tracer> OpenTelemetryLayer<T> {
    /// The tracer, to be changed.
    pub fn tracer_mut(&mut self) -> &mut T
        ensures* lends { sem 𝓛 (LendsTracer T.row self.entry result) }
        ensures value { result.now ≡ self.old.core.tracer }
    {
        &mut self.tracer
    }
}

impl<T: Tracer> OpenTelemetryLayer<T> {
    // The same layer, which counts events or doesn't.
    pub(crate) fn with_counting(mut self, counting: bool) -> OpenTelemetryLayer<T>
        ensures value { result ≡ record self { core = counting_core counting self.core } }
        ensures whole { StaysWhole T.spare T.started self.core result.core }
    {
        self.counting = counting;
        self
    }
}

/// The settings, each of which is a flag of `LayerSettings`.
impl<T: Tracer> OpenTelemetryLayer<T> {
    /// Sets whether an error among the fields of a span or an event is told as an exception too;
    /// `OpenTelemetryLayer::with_error_fields_to_exceptions`.
    pub fn with_error_fields_to_exceptions(mut self, on: bool) -> OpenTelemetryLayer<T>
        ensures core { result.core ≡ with_settings_by (λ s. record s { error_fields_to_exceptions = on }) self.core }
        ensures whole { StaysWhole T.spare T.started self.core result.core }
    {
        self.settings.error_fields_to_exceptions = on;
        self
    }

    /// Sets whether an error among the fields of an event is told as an exception of the span;
    /// `OpenTelemetryLayer::with_error_records_to_exceptions`.
    pub fn with_error_records_to_exceptions(mut self, on: bool) -> OpenTelemetryLayer<T>
        ensures core { result.core ≡ with_settings_by (λ s. record s { error_records_to_exceptions = on }) self.core }
        ensures whole { StaysWhole T.spare T.started self.core result.core }
    {
        self.settings.error_records_to_exceptions = on;
        self
    }

    /// Sets whether the special error of an event makes it an exception;
    /// `OpenTelemetryLayer::with_error_events_to_exceptions`.
    pub fn with_error_events_to_exceptions(mut self, on: bool) -> OpenTelemetryLayer<T>
        ensures core { result.core ≡ with_settings_by (λ s. record s { error_events_to_exceptions = on }) self.core }
        ensures whole { StaysWhole T.spare T.started self.core result.core }
    {
        self.settings.error_events_to_exceptions = on;
        self
    }

    /// Sets whether the special error of an event is an error of its span;
    /// `OpenTelemetryLayer::with_error_events_to_status`.
    pub fn with_error_events_to_status(mut self, on: bool) -> OpenTelemetryLayer<T>
        ensures core { result.core ≡ with_settings_by (λ s. record s { error_events_to_status = on }) self.core }
        ensures whole { StaysWhole T.spare T.started self.core result.core }
    {
        self.settings.error_events_to_status = on;
        self
    }

    /// Sets whether spans and events tell the file, module and line of their callsite;
    /// `OpenTelemetryLayer::with_location`.
    pub fn with_location(mut self, on: bool) -> OpenTelemetryLayer<T>
        ensures core { result.core ≡ with_settings_by (λ s. record s { location = on }) self.core }
        ensures whole { StaysWhole T.spare T.started self.core result.core }
    {
        self.settings.location = on;
        self
    }

    /// Sets whether closes tell busy and idle times; `OpenTelemetryLayer::with_tracked_inactivity`.
    pub fn with_tracked_inactivity(mut self, on: bool) -> OpenTelemetryLayer<T>
        ensures core { result.core ≡ with_settings_by (λ s. record s { inactivity = on }) self.core }
        ensures whole { StaysWhole T.spare T.started self.core result.core }
    {
        self.settings.inactivity = on;
        self
    }

    /// Sets whether spans tell the lane on which they are made; `OpenTelemetryLayer::with_threads`.
    pub fn with_threads(mut self, on: bool) -> OpenTelemetryLayer<T>
        ensures core { result.core ≡ with_settings_by (λ s. record s { threads = on }) self.core }
        ensures whole { StaysWhole T.spare T.started self.core result.core }
    {
        self.settings.threads = on;
        self
    }

    /// Sets whether spans tell their level; `OpenTelemetryLayer::with_level`.
    pub fn with_level(mut self, on: bool) -> OpenTelemetryLayer<T>
        ensures core { result.core ≡ with_settings_by (λ s. record s { level = on }) self.core }
        ensures whole { StaysWhole T.spare T.started self.core result.core }
    {
        self.settings.level = on;
        self
    }

    /// Sets whether spans tell their target; `OpenTelemetryLayer::with_target`.
    pub fn with_target(mut self, on: bool) -> OpenTelemetryLayer<T>
        ensures core { result.core ≡ with_settings_by (λ s. record s { target = on }) self.core }
        ensures whole { StaysWhole T.spare T.started self.core result.core }
    {
        self.settings.target = on;
        self
    }

    /// Sets whether a span starts at its making.
    pub fn with_eager_start(mut self, on: bool) -> OpenTelemetryLayer<T>
        ensures core { result.core ≡ with_settings_by (λ s. record s { eager = on }) self.core }
        ensures whole { StaysWhole T.spare T.started self.core result.core }
    {
        self.settings.eager = on;
        self
    }

    /// Sets whether an entry attaches its span's context to the lane; `OpenTelemetryLayer::with_context_activation`.
    pub fn with_context_activation(mut self, on: bool) -> OpenTelemetryLayer<T>
        ensures core { result.core ≡ with_settings_by (λ s. record s { activation = on }) self.core }
        ensures whole { StaysWhole T.spare T.started self.core result.core }
    {
        self.settings.activation = on;
        self
    }
}

/// Its spans are forgotten, and what their entries attached stays attached for good.
impl<T: Drop> Discard for OpenTelemetryLayer<T> {
    fn discard(self) {
        let OpenTelemetryLayer {
            alloc: _,
            table: _,
            tokens,
            tracer: _,
            reserved: _,
            span_count: _,
            settings: _,
            counting: _,
        } = self;
        tokens.discard();
    }
}
