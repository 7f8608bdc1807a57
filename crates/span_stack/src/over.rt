//! What each change of a stack comes to, over any subscriber. Each law is a function that does nothing.
ghost use Rattle.std.specs.Prelude.{◌≡◌, ◌++◌, ℕ, Some};
ghost use Rattle.std.specs.Option.{option_map};
ghost use Rattle.trace_base.specs.Gate.{WorldValue};
ghost use Rattle.trace_base.specs.Calls.{SubscriberCall};
ghost use Rattle.span_handles.specs.Worlds.{Replaced, Chain, spans_in};
ghost use Rattle.otel_layer.specs.Parts.{PartCall};
ghost use Rattle.span_stack.specs.FilterInPlace.{filter_after, FiltersChain};
ghost use Rattle.span_stack.specs.Measured.{measures_of_call};
ghost use Rattle.span_stack.specs.Over.{StepsWithOuter, AsksOuter};
ghost use Rattle.span_stack.specs.Reading.{StackOver};

use crate::interests::stay_fresh;
use crate::{filters, measured, through};
use env_filter::filter::EnvFilter;
use env_filter::reload;
use otel_layer::part::{OtelPart, OtelSubscriber};
use otel_metrics::layer::MetricsLayer;
use span_registry::layered::Layered;
use trace_base::subscriber::Subscriber;

/// A filter that can be exchanged, over a layer of metrics, over a subscriber.
pub type WithOuterLayers<S> = Layered<reload::Layer<EnvFilter>, Layered<MetricsLayer, S>>;

/// A call is the same call below the outer layers, and so is a chain of closes; spare room and a call from outside leave
/// the outer layers as they are.
pub fn steps<S: OtelSubscriber>()
    ensures calls { (old new : WorldValue (StackOver S)) (dispatch : ℕ) (call : SubscriberCall)
        → Replaced (λ s t. ⟦<WithOuterLayers<S> as Subscriber>⟧.does s call t) old new dispatch
        → StepsWithOuter (λ s t. S.does s call t)
        (λ f g. g ≡ option_map (filter_after (spans_in ⟦<WithOuterLayers<S> as Subscriber>⟧.spans old dispatch) call) f)
        (λ ms. ms ++ measures_of_call call) ⟦<WithOuterLayers<S> as Subscriber>⟧.interest old new dispatch }
    ensures same { (old new : WorldValue (StackOver S)) (dispatch : ℕ)
        → Replaced ⟦<WithOuterLayers<S> as Subscriber>⟧.same_but_room old new dispatch
        → StepsWithOuter S.same_but_room (λ f g. g ≡ f) (λ ms. ms) ⟦<WithOuterLayers<S> as Subscriber>⟧.interest old new dispatch }
    ensures chains { (old new : WorldValue (StackOver S)) (dispatch at id : ℕ)
        → Replaced (λ s t. Chain ⟦<WithOuterLayers<S> as Subscriber>⟧.spans ⟦<WithOuterLayers<S> as Subscriber>⟧.does at (Some id) s t)
        old new dispatch
        → StepsWithOuter (λ s t. Chain S.spans S.does at (Some id) s t)
        (λ f g. FiltersChain (Some id) (spans_in ⟦<WithOuterLayers<S> as Subscriber>⟧.spans old dispatch)
        (spans_in ⟦<WithOuterLayers<S> as Subscriber>⟧.spans new dispatch) f g)
        (λ ms. ms) ⟦<WithOuterLayers<S> as Subscriber>⟧.interest old new dispatch }
    ensures asks { (old new : WorldValue (StackOver S)) (dispatch : ℕ) (call : PartCall)
        → Replaced (λ s t. ⟦<WithOuterLayers<S> as OtelPart>⟧.touches s call t) old new dispatch
        → AsksOuter S.touches call old new dispatch }
{
    through::calls::<reload::Layer<EnvFilter>, Layered<MetricsLayer, S>>();
    through::calls::<MetricsLayer, S>();
    filters::calls::<Layered<MetricsLayer, S>>();
    measured::calls::<S>();
    stay_fresh::<WithOuterLayers<S>>();
    through::asks::<reload::Layer<EnvFilter>, Layered<MetricsLayer, S>>();
    through::asks::<MetricsLayer, S>();
}
