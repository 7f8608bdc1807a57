//! The stack, its making, and what is asked of its parts.
ghost use Rattle.std.specs.Prelude.{◌≡◌, ◌<◌, ℕ, Some, MatchOption, ◌∷◌, [], length, drop, is_some};
ghost use Rattle.std.specs.Option.{option_map};
ghost use Rattle.span_registry.specs.Registering.{no_spans};
ghost use Rattle.otel_layer.specs.Core.{new_core};
ghost use Rattle.env_filter.specs.Filtering.{plain_filter, IsNewFilter};
ghost use Rattle.span_handles.specs.Worlds.{Replaced, spans_in};
ghost use Rattle.span_stack.specs.Reading.{stack_recording, stack_counting_filter, stack_measures, filter_in_place, recording_in, measures_in, new_recording, without_oldest_record, WithoutOldestMeasure};

use env_filter::filter::EnvFilter;
use env_filter::reload;
use otel_base::record::Record;
use otel_base::recorder::Recorder;
use otel_layer::counting::FilteredOpenTelemetryLayer;
use otel_layer::layer::OpenTelemetryLayer;
use otel_metrics::layer::MetricsLayer;
use otel_metrics::measure::Measure;
use otel_state::settings::LayerSettings;
use span_registry::layered::Layered;
use span_registry::registry::Registry;
use std::alloc::Global;
use trace_base::dispatcher::Dispatch;
use trace_base::layer::Layer;
use trace_base::subscriber::Subscriber;
use trace_base::world::World;

/// A registry under the OpenTelemetry layer, which may count events, and whose spans a recorder gets.
pub type RecordedStack = Layered<FilteredOpenTelemetryLayer<Recorder, EnvFilter>, Registry>;

/// The same under a layer of metrics.
pub type MeasuredStack = Layered<MetricsLayer, RecordedStack>;

/// The same, and a filter outside that can be exchanged.
pub type Stack = Layered<reload::Layer<EnvFilter>, MeasuredStack>;

// A layer of these settings, whose spans a recorder gets.
fn new_layer(alloc: Global, settings: LayerSettings) -> OpenTelemetryLayer<Recorder>
    ensures core { result.core ≡ new_core (record { started = 0; spare = 0; finished = [] }) settings }
    ensures whole { ⟦<OpenTelemetryLayer<Recorder> as Layer>⟧.is_whole result }
{
    OpenTelemetryLayer::new(alloc, Recorder::new(alloc))
        .with_context_activation(settings.activation)
        .with_eager_start(settings.eager)
        .with_error_events_to_exceptions(settings.error_events_to_exceptions)
        .with_error_events_to_status(settings.error_events_to_status)
        .with_error_fields_to_exceptions(settings.error_fields_to_exceptions)
        .with_error_records_to_exceptions(settings.error_records_to_exceptions)
        .with_tracked_inactivity(settings.inactivity)
        .with_level(settings.level)
        .with_location(settings.location)
        .with_target(settings.target)
        .with_threads(settings.threads)
}

/// The stack under a filter that was just made, with a layer of these settings; it counts events where a filter for
/// that is given.
pub fn new_stack(
    alloc: Global,
    settings: LayerSettings,
    filter: EnvFilter,
    counting: Option<EnvFilter>,
) -> Stack
    requires new { IsNewFilter (plain_filter filter) }

    ensures spans { ⟦<Stack as Subscriber>⟧.spans result ≡ no_spans }
    ensures kept { (lane number : ℕ) → ⟦<Stack as Subscriber>⟧.kept result lane number ≡ 0 }
    ensures recording { stack_recording result ≡ new_recording settings (is_some counting) }
    ensures counting_filter { stack_counting_filter result ≡ option_map plain_filter counting }
    ensures measures { stack_measures result ≡ [] }
    ensures filter { filter_in_place result ≡ Some (plain_filter filter) }
    ensures whole { ⟦<Stack as Subscriber>⟧.is_whole result }
{
    Registry::new(alloc)
        .with(new_layer(alloc, settings).with_counting_if(counting))
        .with(MetricsLayer::new(alloc))
        .with(reload::Layer::new(filter))
}

/// The registry of a stack.
pub fn registry(world: &World<Stack>, dispatch: Dispatch) -> &Registry
    requires { dispatch < length world.now.subscribers }
    ensures { result.now.spans ≡ spans_in ⟦<Stack as Subscriber>⟧.spans world.now dispatch }
{
    world.subscriber(dispatch).inner().inner().inner()
}

/// The oldest record that hasn't been taken from a stack, if there is one: what an
/// `opentelemetry_sdk::trace::SpanExporter` would get next.
pub fn take_record(world: &mut World<Stack>, dispatch: Dispatch) -> Option<Record>
    requires { dispatch < length world.old.subscribers }
    ensures oldest { MatchOption result ((recording_in world.old dispatch).finished ≡ [])
        (λ record'. (recording_in world.old dispatch).finished
        ≡ record' ∷ drop 1 (recording_in world.old dispatch).finished) }
    ensures rest { Replaced (λ s t. t ≡ without_oldest_record s) world.old world.new dispatch }
{
    world
        .subscriber_mut(dispatch)
        .inner_mut()
        .inner_mut()
        .layer_mut()
        .tracer_mut()
        .take()
}

/// The oldest measure that hasn't been taken from a stack, if there is one.
pub fn take_measure(world: &mut World<Stack>, dispatch: Dispatch) -> Option<Measure>
    requires { dispatch < length world.old.subscribers }
    ensures oldest { MatchOption result (measures_in world.old dispatch ≡ [])
        (λ measure. measures_in world.old dispatch ≡ measure ∷ drop 1 (measures_in world.old dispatch)) }
    ensures rest { Replaced WithoutOldestMeasure world.old world.new dispatch }
{
    world
        .subscriber_mut(dispatch)
        .inner_mut()
        .layer_mut()
        .take()
}
