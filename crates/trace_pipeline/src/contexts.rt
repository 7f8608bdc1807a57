//! Contexts by their numbers, and the guards of attaches.
ghost use Rattle.std.specs.Prelude.{◌≡◌, [], None, OnOk, OnErr, slice_index_or, slice_set};
ghost use Rattle.trace_pipeline.specs.Contexts.{context_slots};
ghost use Rattle.trace_pipeline.specs.Spending.{lane_check, spending_result};

use crate::guards::check_lane;
use otel_base::context::Context;
use span_script::contexts::AttachGuard;
use span_script::reply::{Refusal, What};
use sparse_slots::Slots;
use std::alloc::Global;
use trace_base::discard::Discard;

/// The contexts that a script names, which are never spent, and the guards of its attaches.
pub struct Contexts {
    /// The contexts, in the order of making.
    pub contexts: Vec<Context>,
    /// The guards, by the numbers that they share with those of entries: none where one is spent, or is an entry's.
    pub attaches: Slots<AttachGuard>,
}

impl Contexts {
    /// No contexts, and no guards.
    pub fn new(alloc: Global) -> Contexts
        ensures { context_slots result ≡ record { contexts = []; attaches = [] } }
    {
        Contexts {
            contexts: Vec::new(alloc),
            attaches: Slots::new(alloc),
        }
    }

    /// Takes out the guard of an attach on the lane at a place. `UnknownName` where it isn't there, and `WrongLane` where it
    /// is of another lane.
    pub fn take_on_lane(&mut self, number: u64, place: u64) -> Result<AttachGuard, Refusal>
        ensures contexts { self.new.contexts ≡ self.old.contexts }
        ensures value { result ≡ spending_result (λ attach. lane_check place attach.place)
            (slice_index_or self.old.attaches.items number None) }
        ensures spent { OnOk result (self.new.attaches.items ≡ slice_set self.old.attaches.items number None) }
        ensures leaves { OnErr result (self.new.attaches.items ≡ self.old.attaches.items) }
    {
        match self
            .attaches
            .take_if(number, |attach| check_lane(place, attach.place))
        {
            Some(taken) => taken,
            None => Err(Refusal::UnknownName { what: What::Guard }),
        }
    }
}

/// What its guards attached stays attached for good.
impl Discard for Contexts {
    fn discard(self) {
        let Contexts {
            contexts: _,
            attaches,
        } = self;
        attaches.discard();
    }
}
