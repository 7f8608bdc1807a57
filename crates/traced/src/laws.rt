//! What every subscriber keeps to, as one fact that a caller can hand on.
ghost use Rattle.traced.specs.Laws.{IsLawful};

use trace_base::subscriber::Subscriber;

/// The laws of a subscriber's trait.
pub fn lawful<S: Subscriber>()
    ensures { IsLawful S.Subscriber }
{}
