//! Which spans the layer of a stack knows: those that are live. The laws of `span_stack` and of `otel_layer` say what is
//! recorded of a call; these say what that leaves. Each law is a function that does nothing.
ghost use Rattle.std.specs.Prelude.{ℕ, Bool, List, Option, Some};
ghost use Rattle.otel_base.specs.declared.record.Record.{Record};
ghost use Rattle.trace_base.specs.Calls.{SubscriberCall};
ghost use Rattle.trace_base.specs.Gate.{WorldValue};
ghost use Rattle.trace_base.specs.Spans.{Spans};
ghost use Rattle.span_handles.specs.Worlds.{Replaced, spans_in, no_spans};
ghost use Rattle.otel_state.specs.declared.settings.LayerSettings.{LayerSettings};
ghost use Rattle.otel_layer.specs.Parts.{PartCall};
ghost use Rattle.otel_layer.specs.Recording.{Recording, RecordsCall, RecordsChain, RecordsPart};
ghost use Rattle.env_filter.specs.Filtering.{FilterState};
ghost use Rattle.span_stack.specs.Counting.{RecordsCallBy};
ghost use Rattle.span_stack.specs.Reading.{new_recording};
ghost use Rattle.span_laws.specs.Live.{KeepsLive, IsAnsweredLive};

use trace_base::subscriber::Subscriber;

/// One state is kept of each span that is live, and none of another: so a stack begins, and so it stays at each call, of
/// a layer that may count events or of the layer alone, at a chain of closes, at a call from outside, and where records
/// are taken.
pub fn keeps<S: Subscriber>()
    ensures begins { (settings : LayerSettings) (counting : Bool) → KeepsLive no_spans (new_recording settings counting) }
    ensures call { (old new : WorldValue S) (dispatch : ℕ) (call : SubscriberCall) (counting_filter : Option FilterState)
        (r t : Recording) → Replaced (λ s t. S.does s call t) old new dispatch
        → RecordsCallBy counting_filter (spans_in S.spans old dispatch) r call t
        → KeepsLive (spans_in S.spans old dispatch) r → KeepsLive (spans_in S.spans new dispatch) t }
    ensures layer_call { (old new : WorldValue S) (dispatch : ℕ) (call : SubscriberCall) (r t : Recording)
        → Replaced (λ s t. S.does s call t) old new dispatch → RecordsCall (spans_in S.spans old dispatch) r call t
        → KeepsLive (spans_in S.spans old dispatch) r → KeepsLive (spans_in S.spans new dispatch) t }
    ensures chain { (x y : Spans) (at id : ℕ) (r t : Recording) → RecordsChain at (Some id) x y r t
        → KeepsLive x r → KeepsLive y t }
    ensures ask { (x : Spans) (call : PartCall) (r t : Recording) → RecordsPart r call t
        → KeepsLive x r → KeepsLive x t }
    ensures take { (x : Spans) (r : Recording) (left : List Record) → KeepsLive x r
        → KeepsLive x (record r { finished = left }) }
{}

/// So a call from outside is answered with none exactly where its span isn't live.
pub fn answers()
    ensures { (x : Spans) (call : PartCall) (r t : Recording) → RecordsPart r call t → KeepsLive x r
        → IsAnsweredLive x call }
{}
