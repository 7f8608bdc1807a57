//! What a subscriber's calls make of the measures that a layer over it keeps. Each law is a function that does nothing.
ghost use Rattle.std.specs.Prelude.{◌≡◌, ◌++◌, ℕ, Some};
ghost use Rattle.trace_base.specs.Gate.{WorldValue};
ghost use Rattle.trace_base.specs.Calls.{SubscriberCall};
ghost use Rattle.span_registry.specs.declared.layered.Layered.{Layered};
ghost use Rattle.span_handles.specs.Worlds.{Replaced, Chain};
ghost use Rattle.otel_metrics.specs.Waiting.{MeasuresWithRoom};
ghost use Rattle.span_stack.specs.Measured.{measures_of_call, measures_over};

use otel_metrics::layer::MetricsLayer;
use span_registry::layered::Layered;
use trace_base::subscriber::Subscriber;

/// An event's measures stand behind those that wait, and no other call has any.
pub fn calls<S: Subscriber>()
    ensures call { (old new : WorldValue (Layered MeasuresWithRoom S)) (dispatch : ℕ) (call : SubscriberCall)
        → Replaced (λ s t. ⟦<Layered<MetricsLayer, S> as Subscriber>⟧.does s call t) old new dispatch
        → measures_over new dispatch ≡ measures_over old dispatch ++ measures_of_call call }
    ensures same { (old new : WorldValue (Layered MeasuresWithRoom S)) (dispatch : ℕ)
        → Replaced ⟦<Layered<MetricsLayer, S> as Subscriber>⟧.same_but_room old new dispatch
        → measures_over new dispatch ≡ measures_over old dispatch }
    ensures chain { (old new : WorldValue (Layered MeasuresWithRoom S)) (dispatch at id : ℕ)
        → Replaced (λ s t. Chain ⟦<Layered<MetricsLayer, S> as Subscriber>⟧.spans
        ⟦<Layered<MetricsLayer, S> as Subscriber>⟧.does at (Some id) s t) old new dispatch
        → measures_over new dispatch ≡ measures_over old dispatch }
{}
