//! The cached interests stay those that the subscribers have. Each law is a function that does nothing.
ghost use Rattle.std.specs.Prelude.{ℕ, Some};
ghost use Rattle.trace_base.specs.Gate.{WorldValue, IsFresh};
ghost use Rattle.trace_base.specs.Calls.{SubscriberCall};
ghost use Rattle.span_handles.specs.Worlds.{Replaced, Chain};

use trace_base::subscriber::Subscriber;

/// No call changes what a subscriber is interested in.
pub fn stay_fresh<S: Subscriber>()
    ensures call { (old new : WorldValue S) (dispatch : ℕ) (call : SubscriberCall)
        → Replaced (λ s t. S.does s call t) old new dispatch
        → IsFresh S.interest old → IsFresh S.interest new }
    ensures same { (old new : WorldValue S) (dispatch : ℕ) → Replaced S.same_but_room old new dispatch
        → IsFresh S.interest old → IsFresh S.interest new }
    ensures chain { (old new : WorldValue S) (dispatch at id : ℕ)
        → Replaced (λ s t. Chain S.spans S.does at (Some id) s t) old new dispatch
        → IsFresh S.interest old → IsFresh S.interest new }
{}
