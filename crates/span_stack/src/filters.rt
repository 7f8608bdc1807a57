//! What a subscriber's calls make of the filter that is in place over it. Each law is a function that does nothing.
ghost use Rattle.std.specs.Prelude.{◌≡◌, ℕ, Some};
ghost use Rattle.std.specs.Option.{option_map};
ghost use Rattle.trace_base.specs.Gate.{WorldValue};
ghost use Rattle.trace_base.specs.Calls.{SubscriberCall};
ghost use Rattle.span_registry.specs.declared.layered.Layered.{Layered};
ghost use Rattle.span_handles.specs.Worlds.{Replaced, Chain, spans_in};
ghost use Rattle.env_filter.specs.declared.reload.Layer.{Layer};
ghost use Rattle.env_filter.specs.Filtering.{FilterWithRoom};
ghost use Rattle.span_stack.specs.FilterInPlace.{filter_after, FiltersChain};
ghost use Rattle.span_stack.specs.Reading.{filter_in};

use env_filter::filter::EnvFilter;
use env_filter::reload;
use span_registry::layered::Layered;
use trace_base::subscriber::Subscriber;

/// A filter that can be exchanged, over a subscriber.
pub type WithFilter<S> = Layered<reload::Layer<EnvFilter>, S>;

/// One call is one step of the filter in place.
pub fn calls<S: Subscriber>()
    ensures call { (old new : WorldValue (Layered (Layer FilterWithRoom) S)) (dispatch : ℕ) (call : SubscriberCall)
        → Replaced (λ s t. ⟦<WithFilter<S> as Subscriber>⟧.does s call t) old new dispatch
        → filter_in new dispatch ≡ option_map
        (filter_after (spans_in ⟦<WithFilter<S> as Subscriber>⟧.spans old dispatch) call) (filter_in old dispatch) }
    ensures same { (old new : WorldValue (Layered (Layer FilterWithRoom) S)) (dispatch : ℕ)
        → Replaced ⟦<WithFilter<S> as Subscriber>⟧.same_but_room old new dispatch
        → filter_in new dispatch ≡ filter_in old dispatch }
    ensures chain { (old new : WorldValue (Layered (Layer FilterWithRoom) S)) (dispatch at id : ℕ)
        → Replaced (λ s t. Chain ⟦<WithFilter<S> as Subscriber>⟧.spans ⟦<WithFilter<S> as Subscriber>⟧.does at
        (Some id) s t) old new dispatch
        → FiltersChain (Some id) (spans_in ⟦<WithFilter<S> as Subscriber>⟧.spans old dispatch)
        (spans_in ⟦<WithFilter<S> as Subscriber>⟧.spans new dispatch) (filter_in old dispatch)
        (filter_in new dispatch) }
{}
