//! What a layer over a recorder keeps, read through the stack and the world around it. Each law is a function that does
//! nothing.
ghost use Rattle.std.specs.Prelude.{◌≡◌, ◌≢◌, ◌==◌, if◌then◌else◌, ℕ, List, Option, None, Some, length, slice_get};
ghost use Rattle.std.specs.Map.{remove_entry};
ghost use Rattle.trace_base.specs.Gate.{WorldValue};
ghost use Rattle.trace_base.specs.Calls.{SubscriberCall};
ghost use Rattle.span_handles.specs.Worlds.{Replaced, KeepsPlainData, Chain, spans_in};
ghost use Rattle.otel_state.specs.declared.op.Op.{Op};
ghost use Rattle.otel_state.specs.States.{SpanData};
ghost use Rattle.otel_layer.specs.Parts.{PartCall};
ghost use Rattle.otel_layer.specs.Table.{data_at, with_op, with_span_data, start_context, is_id};
ghost use Rattle.otel_layer.specs.Recording.{RecordingWorlds, Recording, RecordsCall, RecordsChain, RecordsPart, recording_in};
ghost use Rattle.otel_layer.specs.Recording.{with_start, with_close, data_after, data_after_start, Closes};

use crate::layer::OpenTelemetryLayer;
use crate::part::{OtelPart, OtelSubscriber};
use otel_base::recorder::Recorder;
use span_registry::layered::Layered;
use span_registry::registry::Registry;
use trace_base::subscriber::Subscriber;

/// The layer over a recorder, straight over the registry.
pub type PlainRecordedStack = Layered<OpenTelemetryLayer<Recorder>, Registry>;

/// One call is one step of what the layer keeps.
pub fn calls()
    ensures { (old new : RecordingWorlds) (dispatch : ℕ) (call : SubscriberCall)
        → Replaced (λ s t. ⟦<PlainRecordedStack as Subscriber>⟧.does s call t) old new dispatch
        → RecordsCall (spans_in ⟦<PlainRecordedStack as Subscriber>⟧.spans old dispatch) (recording_in old dispatch)
        call (recording_in new dispatch) }
{}

/// Spare room is nothing that is kept.
pub fn same()
    ensures { (old new : RecordingWorlds) (dispatch : ℕ)
        → Replaced ⟦<PlainRecordedStack as Subscriber>⟧.same_but_room old new dispatch
        → recording_in new dispatch ≡ recording_in old dispatch }
{}

/// A chain of closes closes each span that it closes in the recording, in order.
pub fn chains()
    ensures { (old new : RecordingWorlds) (dispatch at id : ℕ)
        → Replaced (λ s t. Chain ⟦<PlainRecordedStack as Subscriber>⟧.spans ⟦<PlainRecordedStack as Subscriber>⟧.does at
        (Some id) s t) old new dispatch
        → RecordsChain at (Some id) (spans_in ⟦<PlainRecordedStack as Subscriber>⟧.spans old dispatch)
        (spans_in ⟦<PlainRecordedStack as Subscriber>⟧.spans new dispatch) (recording_in old dispatch)
        (recording_in new dispatch) }
{}

/// What each change makes of the state of any span.
pub fn states()
    ensures op { (id other at : ℕ) (op : Op) (spans : List (ℕ × SpanData))
        → data_at other (with_op id at op spans) ≡ data_after (other == id) at op (data_at other spans) }
    ensures start { (id other at : ℕ) (r : Recording) → data_at other (with_start id at r).spans
        ≡ data_after_start (start_context (data_at id r.spans)) (other == id) r.started at (data_at other r.spans) }
    ensures made { (id other : ℕ) (span_data : SpanData) (spans : List (ℕ × SpanData)) → data_at id spans ≡ None
        → data_at other (with_span_data id span_data spans) ≡ (if other == id then Some span_data else data_at other spans) }
    ensures removed { (id other : ℕ) (spans : List (ℕ × SpanData)) → other ≢ id
        → data_at other (remove_entry (is_id id) spans) ≡ data_at other spans }
    ensures closes { (id at : ℕ) (r : Recording) (span_data : SpanData) → data_at id r.spans ≡ Some span_data
        → Closes id at r span_data (with_close id at r) }
{}

/// No span is known yet under the id of the next one.
pub fn next_id_is_unknown()
    ensures { (world : RecordingWorlds) (dispatch : ℕ) (s : _)
        → slice_get world.subscribers dispatch ≡ Some s → ⟦<PlainRecordedStack as Subscriber>⟧.is_whole s
        → data_at (length (spans_in ⟦<PlainRecordedStack as Subscriber>⟧.spans world dispatch).made)
        (recording_in world dispatch).spans ≡ None }
{}

/// A call from outside is one step of what the layer keeps.
pub fn asks()
    ensures { (old new : RecordingWorlds) (dispatch : ℕ) (call : PartCall)
        → Replaced (λ s t. ⟦<PlainRecordedStack as OtelPart>⟧.touches s call t) old new dispatch
        → RecordsPart (recording_in old dispatch) call (recording_in new dispatch) }
{}

/// A call from outside leaves the plain data of every subscriber.
pub fn asks_leave_spans<S: OtelSubscriber>()
    ensures { (old new : WorldValue S) (dispatch : ℕ) (call : PartCall)
        → Replaced (λ s t. S.touches s call t) old new dispatch
        → KeepsPlainData S.spans S.attaches S.kept S.is_whole old new dispatch }
{}
