//! What a call of a stack is to what lies below its outer layer. Each law is a function that does nothing.
ghost use Rattle.std.specs.Prelude.{◌≡◌, ℕ, Some};
ghost use Rattle.trace_base.specs.Gate.{WorldValue};
ghost use Rattle.trace_base.specs.Calls.{SubscriberCall};
ghost use Rattle.span_registry.specs.declared.layered.Layered.{Layered};
ghost use Rattle.span_handles.specs.Worlds.{Has, Replaced, Chain};
ghost use Rattle.otel_layer.specs.Parts.{PartCall};
ghost use Rattle.span_stack.specs.Through.{inner_worlds, NeverHolds};

use otel_layer::part::{OtelLayer, OtelPart, OtelSubscriber};
use span_registry::layered::Layered;
use trace_base::layer::Layer;
use trace_base::subscriber::Subscriber;

/// Through a layer that attaches nothing a call of the whole is the same call below.
pub fn calls<L: Layer, S: Subscriber>()
    ensures call { NeverHolds L.attaches → (old new : WorldValue (Layered L S)) (dispatch : ℕ) (call : SubscriberCall)
        → Replaced (λ s t. ⟦<Layered<L, S> as Subscriber>⟧.does s call t) old new dispatch
        → Replaced (λ s t. S.does s call t) (inner_worlds old) (inner_worlds new) dispatch }
    ensures same { (old new : WorldValue (Layered L S)) (dispatch : ℕ)
        → Replaced ⟦<Layered<L, S> as Subscriber>⟧.same_but_room old new dispatch
        → Replaced S.same_but_room (inner_worlds old) (inner_worlds new) dispatch }
    ensures chain { (old new : WorldValue (Layered L S)) (dispatch at id : ℕ)
        → Replaced (λ s t. Chain ⟦<Layered<L, S> as Subscriber>⟧.spans ⟦<Layered<L, S> as Subscriber>⟧.does at
        (Some id) s t) old new dispatch
        → Replaced (λ s t. Chain S.spans S.does at (Some id) s t) (inner_worlds old) (inner_worlds new) dispatch }
    ensures whole { (world : WorldValue (Layered L S)) (dispatch : ℕ)
        → Has ⟦<Layered<L, S> as Subscriber>⟧.is_whole world dispatch → Has S.is_whole (inner_worlds world) dispatch }
{}

/// Through a part that has no OpenTelemetry layer, so is a call from outside; and that part stays as it is.
pub fn asks<L: OtelLayer, S: OtelSubscriber>()
    ensures call { NeverHolds L.has_layer → (old new : WorldValue (Layered L S)) (dispatch : ℕ) (call : PartCall)
        → Replaced (λ s t. ⟦<Layered<L, S> as OtelPart>⟧.touches s call t) old new dispatch
        → Replaced (λ s t. S.touches s call t) (inner_worlds old) (inner_worlds new) dispatch }
    ensures outer { NeverHolds L.has_layer → (old new : WorldValue (Layered L S)) (dispatch : ℕ) (call : PartCall)
        → Replaced (λ s t. ⟦<Layered<L, S> as OtelPart>⟧.touches s call t) old new dispatch
        → Replaced (λ s t. t.layer ≡ s.layer) old new dispatch }
{}
