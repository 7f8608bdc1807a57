//! What holds after all calls so far.
ghost use Rattle.std.specs.Prelude.{◌≡◌, List};
ghost use Rattle.trace_base.specs.Calls.{SubscriberCall};
ghost use Rattle.span_registry.specs.Registering.{no_spans};
ghost use Rattle.span_registry.specs.History.{CallsLead, AreSpansOf};

use trace_base::subscriber::Subscriber;

/// After any calls of a subscriber that began without spans, these and the entries on each lane are what the rules of
/// holds and entries say of the calls.
pub fn history<S: Subscriber>()
    ensures { (s : _) (calls : List SubscriberCall) (t : _) → S.spans s ≡ no_spans
        → CallsLead S.does S.same_but_room s calls t → AreSpansOf calls (S.spans t) }
{}
