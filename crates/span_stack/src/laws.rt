//! What a caller over a world with the stack reads off each call. Each law is a function that does nothing.
ghost use Rattle.std.specs.Prelude.{◌≡◌, ◌++◌, ℕ, Bool, drop, length, None, Some, slice_get};
ghost use Rattle.std.specs.Option.{option_map};
ghost use Rattle.trace_base.specs.declared.callsite.Callsite.{Callsite};
ghost use Rattle.trace_base.specs.declared.callsite.Kind.TheVariants as kind;
ghost use Rattle.trace_base.specs.Calls.{SubscriberCall};
ghost use Rattle.trace_base.specs.Gate.{Admits};
ghost use Rattle.span_handles.specs.Worlds.{Has, Replaced, KeepsPlainData, Chain, spans_in};
ghost use Rattle.otel_layer.specs.Parts.{PartCall};
ghost use Rattle.otel_layer.specs.Table.{data_at};
ghost use Rattle.otel_layer.specs.Recording.{RecordsChain, RecordsPart};
ghost use Rattle.env_directives.specs.orders.Choice.{admits};
ghost use Rattle.env_filter.specs.Filtering.{FilterState, IsNewFilter, enables_in, is_admitted};
ghost use Rattle.span_stack.specs.Counting.{RecordsCallBy};
ghost use Rattle.span_stack.specs.FilterInPlace.{filter_after, FiltersChain};
ghost use Rattle.span_stack.specs.Measured.{measures_of_call};
ghost use Rattle.span_stack.specs.Over.{StepsWithOuter, AsksOuter};
ghost use Rattle.span_stack.specs.Reading.{StackWorld, recording_in, filter_in, counting_filter_in, measures_in, HasCurrentInterests, without_oldest_record, WithoutOldestMeasure};

use crate::over;
use crate::stack::{RecordedStack, Stack};
use otel_layer::part::OtelPart;
use trace_base::subscriber::Subscriber;

// What each change of a stack comes to, read at the stack once, for the four laws behind it.
fn of_stack()
    ensures calls { (old new : StackWorld) (dispatch : ℕ) (call : SubscriberCall)
        → Replaced (λ s t. ⟦<Stack as Subscriber>⟧.does s call t) old new dispatch
        → StepsWithOuter (λ s t. ⟦<RecordedStack as Subscriber>⟧.does s call t)
        (λ f g. g ≡ option_map (filter_after (spans_in ⟦<Stack as Subscriber>⟧.spans old dispatch) call) f)
        (λ ms. ms ++ measures_of_call call) ⟦<Stack as Subscriber>⟧.interest old new dispatch }
    ensures same { (old new : StackWorld) (dispatch : ℕ)
        → Replaced ⟦<Stack as Subscriber>⟧.same_but_room old new dispatch
        → StepsWithOuter ⟦<RecordedStack as Subscriber>⟧.same_but_room (λ f g. g ≡ f) (λ ms. ms)
        ⟦<Stack as Subscriber>⟧.interest old new dispatch }
    ensures chains { (old new : StackWorld) (dispatch at id : ℕ)
        → Replaced (λ s t. Chain ⟦<Stack as Subscriber>⟧.spans ⟦<Stack as Subscriber>⟧.does at (Some id) s t)
        old new dispatch
        → StepsWithOuter
        (λ s t. Chain ⟦<RecordedStack as Subscriber>⟧.spans ⟦<RecordedStack as Subscriber>⟧.does at (Some id) s t)
        (λ f g. FiltersChain (Some id) (spans_in ⟦<Stack as Subscriber>⟧.spans old dispatch)
        (spans_in ⟦<Stack as Subscriber>⟧.spans new dispatch) f g)
        (λ ms. ms) ⟦<Stack as Subscriber>⟧.interest old new dispatch }
    ensures asks { (old new : StackWorld) (dispatch : ℕ) (call : PartCall)
        → Replaced (λ s t. ⟦<Stack as OtelPart>⟧.touches s call t) old new dispatch
        → AsksOuter ⟦<RecordedStack as OtelPart>⟧.touches call old new dispatch }
{
    over::steps::<RecordedStack>();
}

/// One call is one step of what is recorded and one of the filter in place, and an event adds its measures; the filter that
/// counts and the cached interests stay.
pub fn calls()
    ensures recording { (old new : StackWorld) (dispatch : ℕ) (call : SubscriberCall)
        → Replaced (λ s t. ⟦<Stack as Subscriber>⟧.does s call t) old new dispatch
        → RecordsCallBy (counting_filter_in old dispatch) (spans_in ⟦<Stack as Subscriber>⟧.spans old dispatch)
        (recording_in old dispatch) call (recording_in new dispatch) }
    ensures filter { (old new : StackWorld) (dispatch : ℕ) (call : SubscriberCall)
        → Replaced (λ s t. ⟦<Stack as Subscriber>⟧.does s call t) old new dispatch
        → filter_in new dispatch ≡ option_map
        (filter_after (spans_in ⟦<Stack as Subscriber>⟧.spans old dispatch) call) (filter_in old dispatch) }
    ensures counting_filter { (old new : StackWorld) (dispatch : ℕ) (call : SubscriberCall)
        → Replaced (λ s t. ⟦<Stack as Subscriber>⟧.does s call t) old new dispatch
        → counting_filter_in new dispatch ≡ counting_filter_in old dispatch }
    ensures measures { (old new : StackWorld) (dispatch : ℕ) (call : SubscriberCall)
        → Replaced (λ s t. ⟦<Stack as Subscriber>⟧.does s call t) old new dispatch
        → measures_in new dispatch ≡ measures_in old dispatch ++ measures_of_call call }
    ensures current { (old new : StackWorld) (dispatch : ℕ) (call : SubscriberCall)
        → Replaced (λ s t. ⟦<Stack as Subscriber>⟧.does s call t) old new dispatch
        → HasCurrentInterests old → HasCurrentInterests new }
{
    of_stack();
}

/// Spare room is nothing that is kept.
pub fn same()
    ensures recording { (old new : StackWorld) (dispatch : ℕ)
        → Replaced ⟦<Stack as Subscriber>⟧.same_but_room old new dispatch
        → recording_in new dispatch ≡ recording_in old dispatch }
    ensures filter { (old new : StackWorld) (dispatch : ℕ)
        → Replaced ⟦<Stack as Subscriber>⟧.same_but_room old new dispatch
        → filter_in new dispatch ≡ filter_in old dispatch }
    ensures counting_filter { (old new : StackWorld) (dispatch : ℕ)
        → Replaced ⟦<Stack as Subscriber>⟧.same_but_room old new dispatch
        → counting_filter_in new dispatch ≡ counting_filter_in old dispatch }
    ensures measures { (old new : StackWorld) (dispatch : ℕ)
        → Replaced ⟦<Stack as Subscriber>⟧.same_but_room old new dispatch
        → measures_in new dispatch ≡ measures_in old dispatch }
    ensures current { (old new : StackWorld) (dispatch : ℕ)
        → Replaced ⟦<Stack as Subscriber>⟧.same_but_room old new dispatch → HasCurrentInterests old → HasCurrentInterests new }
{
    of_stack();
}

/// A chain of closes closes each span that it closes in the recording, in order, and the filter forgets it.
pub fn chains()
    ensures recording { (old new : StackWorld) (dispatch at id : ℕ)
        → Replaced (λ s t. Chain ⟦<Stack as Subscriber>⟧.spans ⟦<Stack as Subscriber>⟧.does at (Some id) s t)
        old new dispatch
        → RecordsChain at (Some id) (spans_in ⟦<Stack as Subscriber>⟧.spans old dispatch)
        (spans_in ⟦<Stack as Subscriber>⟧.spans new dispatch) (recording_in old dispatch)
        (recording_in new dispatch) }
    ensures filter { (old new : StackWorld) (dispatch at id : ℕ)
        → Replaced (λ s t. Chain ⟦<Stack as Subscriber>⟧.spans ⟦<Stack as Subscriber>⟧.does at (Some id) s t)
        old new dispatch
        → FiltersChain (Some id) (spans_in ⟦<Stack as Subscriber>⟧.spans old dispatch)
        (spans_in ⟦<Stack as Subscriber>⟧.spans new dispatch) (filter_in old dispatch) (filter_in new dispatch) }
    ensures counting_filter { (old new : StackWorld) (dispatch at id : ℕ)
        → Replaced (λ s t. Chain ⟦<Stack as Subscriber>⟧.spans ⟦<Stack as Subscriber>⟧.does at (Some id) s t)
        old new dispatch
        → counting_filter_in new dispatch ≡ counting_filter_in old dispatch }
    ensures measures { (old new : StackWorld) (dispatch at id : ℕ)
        → Replaced (λ s t. Chain ⟦<Stack as Subscriber>⟧.spans ⟦<Stack as Subscriber>⟧.does at (Some id) s t)
        old new dispatch
        → measures_in new dispatch ≡ measures_in old dispatch }
    ensures current { (old new : StackWorld) (dispatch at id : ℕ)
        → Replaced (λ s t. Chain ⟦<Stack as Subscriber>⟧.spans ⟦<Stack as Subscriber>⟧.does at (Some id) s t)
        old new dispatch
        → HasCurrentInterests old → HasCurrentInterests new }
{
    of_stack();
}

/// A call from outside is one step of what is recorded, and leaves the filters, the measures and the cached interests.
pub fn asks()
    ensures recording { (old new : StackWorld) (dispatch : ℕ) (call : PartCall)
        → Replaced (λ s t. ⟦<Stack as OtelPart>⟧.touches s call t) old new dispatch
        → RecordsPart (recording_in old dispatch) call (recording_in new dispatch) }
    ensures filter { (old new : StackWorld) (dispatch : ℕ) (call : PartCall)
        → Replaced (λ s t. ⟦<Stack as OtelPart>⟧.touches s call t) old new dispatch
        → filter_in new dispatch ≡ filter_in old dispatch }
    ensures counting_filter { (old new : StackWorld) (dispatch : ℕ) (call : PartCall)
        → Replaced (λ s t. ⟦<Stack as OtelPart>⟧.touches s call t) old new dispatch
        → counting_filter_in new dispatch ≡ counting_filter_in old dispatch }
    ensures measures { (old new : StackWorld) (dispatch : ℕ) (call : PartCall)
        → Replaced (λ s t. ⟦<Stack as OtelPart>⟧.touches s call t) old new dispatch
        → measures_in new dispatch ≡ measures_in old dispatch }
    ensures current { (old new : StackWorld) (dispatch : ℕ) (call : PartCall)
        → Replaced (λ s t. ⟦<Stack as OtelPart>⟧.touches s call t) old new dispatch
        → HasCurrentInterests old → HasCurrentInterests new }
{
    of_stack();
}

/// No span is known yet under the id of the next one.
pub fn next_is_unknown()
    ensures { (world : StackWorld) (dispatch : ℕ) (s : _)
        → slice_get world.subscribers dispatch ≡ Some s → ⟦<Stack as Subscriber>⟧.is_whole s
        → data_at (length (spans_in ⟦<Stack as Subscriber>⟧.spans world dispatch).made)
        (recording_in world dispatch).spans ≡ None }
{}

/// What the taking of a record leaves.
pub fn takes_record()
    ensures recording { (old new : StackWorld) (dispatch : ℕ) → Replaced (λ s t. t ≡ without_oldest_record s) old new dispatch
        → recording_in new dispatch ≡ record (recording_in old dispatch)
        { finished = drop 1 (recording_in old dispatch).finished } }
    ensures filter { (old new : StackWorld) (dispatch : ℕ) → Replaced (λ s t. t ≡ without_oldest_record s) old new dispatch
        → filter_in new dispatch ≡ filter_in old dispatch }
    ensures counting_filter { (old new : StackWorld) (dispatch : ℕ) → Replaced (λ s t. t ≡ without_oldest_record s) old new dispatch
        → counting_filter_in new dispatch ≡ counting_filter_in old dispatch }
    ensures measures { (old new : StackWorld) (dispatch : ℕ) → Replaced (λ s t. t ≡ without_oldest_record s) old new dispatch
        → measures_in new dispatch ≡ measures_in old dispatch }
    ensures current { (old new : StackWorld) (dispatch : ℕ) → Replaced (λ s t. t ≡ without_oldest_record s) old new dispatch
        → HasCurrentInterests old → HasCurrentInterests new }
    ensures others { (old new : StackWorld) (dispatch : ℕ) → Replaced (λ s t. t ≡ without_oldest_record s) old new dispatch
        → KeepsPlainData ⟦<Stack as Subscriber>⟧.spans ⟦<Stack as Subscriber>⟧.attaches ⟦<Stack as Subscriber>⟧.kept
        ⟦<Stack as Subscriber>⟧.is_whole old new dispatch }
{}

/// What the taking of a measure leaves.
pub fn takes_measure()
    ensures measures { (old new : StackWorld) (dispatch : ℕ) → Replaced WithoutOldestMeasure old new dispatch
        → measures_in new dispatch ≡ drop 1 (measures_in old dispatch) }
    ensures recording { (old new : StackWorld) (dispatch : ℕ) → Replaced WithoutOldestMeasure old new dispatch
        → recording_in new dispatch ≡ recording_in old dispatch }
    ensures filter { (old new : StackWorld) (dispatch : ℕ) → Replaced WithoutOldestMeasure old new dispatch
        → filter_in new dispatch ≡ filter_in old dispatch }
    ensures counting_filter { (old new : StackWorld) (dispatch : ℕ) → Replaced WithoutOldestMeasure old new dispatch
        → counting_filter_in new dispatch ≡ counting_filter_in old dispatch }
    ensures current { (old new : StackWorld) (dispatch : ℕ) → Replaced WithoutOldestMeasure old new dispatch
        → HasCurrentInterests old → HasCurrentInterests new }
    ensures others { (old new : StackWorld) (dispatch : ℕ) → Replaced WithoutOldestMeasure old new dispatch
        → KeepsPlainData ⟦<Stack as Subscriber>⟧.spans ⟦<Stack as Subscriber>⟧.attaches ⟦<Stack as Subscriber>⟧.kept
        ⟦<Stack as Subscriber>⟧.is_whole old new dispatch }
{}

/// The test of the gate by the cached interests is that of the filter in place.
pub fn gate_answers_by_filter()
    ensures { (world : StackWorld) (dispatch lane site : ℕ) (answer : Bool)
        → Admits ⟦<Stack as Subscriber>⟧.hint ⟦<Stack as Subscriber>⟧.enables world lane site (Some dispatch) answer
        → HasCurrentInterests world → Has ⟦<Stack as Subscriber>⟧.is_whole world dispatch
        → (f : FilterState) (c : Callsite) → filter_in world dispatch ≡ Some f
        → slice_get world.sites site ≡ Some c → answer ≡ is_admitted f lane c }
{}

/// A filter that was just made, and is told of nothing, takes the events that its static directives let through.
pub fn new_filter_admits_by_statics()
    ensures { (f : FilterState) (lane : ℕ) (c : Callsite) → IsNewFilter f → c.kind ≡ kind.Event
        → enables_in f lane c ≡ admits f.statics.directives c }
{}
