//! What the calls of a subscriber in a world make of its plain data.
ghost use Rattle.std.specs.Prelude.{ℕ, Some};
ghost use Rattle.trace_base.specs.Gate.{WorldValue};
ghost use Rattle.trace_base.specs.Calls.{SubscriberCall, CloneSpan};
ghost use Rattle.span_handles.specs.Worlds.{Replaced, ChangesPlainData, KeepsPlainData, Chain, ChainChangesPlainData, ChainChangesRead, ChangesByCloses, spans_in, read_subscriber};
ghost use Rattle.span_handles.specs.Knowing.{KeepsHandles, KeepsOthers, GainsOne, LosesOne, IsNoClose};

use trace_base::subscriber::Subscriber;

/// One call is one step of the plain data.
pub fn calls<S: Subscriber>()
    ensures { (old new : WorldValue S) (dispatch : ℕ) (call : SubscriberCall)
        → Replaced (λ s t. S.does s call t) old new dispatch
        → ChangesPlainData S.spans S.attaches S.kept S.is_whole old new dispatch call }
{}

/// What is the same but for spare room has the same plain data.
pub fn same<S: Subscriber>()
    ensures { (old new : WorldValue S) (dispatch : ℕ) → Replaced S.same_but_room old new dispatch
        → KeepsPlainData S.spans S.attaches S.kept S.is_whole old new dispatch }
{}

/// A chain of closes is a chain of the plain data.
pub fn chains<S: Subscriber>()
    ensures { (old new : WorldValue S) (dispatch at id : ℕ)
        → Replaced (λ s t. Chain S.spans S.does at (Some id) s t) old new dispatch
        → ChainChangesPlainData S.spans S.attaches S.kept S.is_whole old new dispatch id }
{}

/// Each call but a close keeps known the handles that were known, each beside as many others, and a chain of closes those
/// of other spans than the one that it begins with. Beside a handle of that span there is one other less; after a copy
/// there is one more.
pub fn keeps<S: Subscriber>()
    ensures call { (old new : WorldValue S) (dispatch : ℕ) (call : SubscriberCall)
        → Replaced (λ s t. S.does s call t) old new dispatch → IsNoClose call
        → KeepsHandles S.spans old new }
    ensures copy { (old new : WorldValue S) (dispatch id : ℕ)
        → Replaced (λ s t. S.does s (CloneSpan id) t) old new dispatch
        → GainsOne S.spans old new (Some (dispatch, id)) }
    ensures same { (old new : WorldValue S) (dispatch : ℕ) → Replaced S.same_but_room old new dispatch
        → KeepsHandles S.spans old new }
    ensures chain { (old new : WorldValue S) (dispatch at id : ℕ)
        → Replaced (λ s t. Chain S.spans S.does at (Some id) s t) old new dispatch
        → KeepsOthers S.spans old new (Some (dispatch, id)) }
    ensures fewer { (old new : WorldValue S) (dispatch at id : ℕ)
        → Replaced (λ s t. Chain S.spans S.does at (Some id) s t) old new dispatch
        → LosesOne S.spans old new (Some (dispatch, id)) }
{}

/// What a close makes of something that the subscriber keeps, the chain makes of it for each span that closes, in order.
pub fn chain_changes<S: Subscriber, A>()
    ensures { (read : S → A) (none : A) (close : A → ℕ → A) → ChangesByCloses S.spans S.does read close
        → (old new : WorldValue S) (dispatch at id : ℕ)
        → Replaced (λ s t. Chain S.spans S.does at (Some id) s t) old new dispatch
        → ChainChangesRead close (Some id) (spans_in S.spans old dispatch) (spans_in S.spans new dispatch)
        (read_subscriber read none old dispatch) (read_subscriber read none new dispatch) }
{}
