//! Requests in order, with room for some that come later.
ghost use Rattle.std.specs.Prelude.{◌≡◌, ◌+◌, ◌<◌, ◌≤◌, [], ◌∷◌, ◌++◌, OnOk, OnErr};

use otel_base::memory::Memory;
use span_script::request::Request;
use std::alloc::Global;
use std::marker::Model;

/// Requests in order, with spare places for some that come later.
#[derive(Drop)]
pub(crate) struct Roll {
    spare: usize,
    requests: Vec<Request>,
}

impl Model for Roll {
    ghost use Rattle.std.specs.Prelude.{◌+◌, ◌≤◌, vec_len, vec_capacity};
    ghost use Rattle.trace_tape.specs.Tapes.{RequestsWithRoom};

    ghost Value = { RequestsWithRoom };

    ghost view = { λ r. record { spare = r.spare; requests = r.requests.items } };

    // Each spare is a free place of the list.
    ghost invariant = { λ r. vec_len r.requests + r.spare ≤ vec_capacity r.requests };
}

impl Roll {
    // No requests, and no places.
    pub(crate) fn new(alloc: Global) -> Roll
        ensures { result ≡ record { spare = 0; requests = [] } }
    {
        Roll {
            spare: 0,
            requests: Vec::new(alloc),
        }
    }

    // The requests in order.
    pub(crate) fn requests(&self) -> &[Request]
        ensures { result.now ≡ self.now.requests }
    {
        self.requests.as_slice()
    }

    // Moves the requests behind others, in order. The spare places stay.
    pub(crate) fn move_to(&mut self, others: &mut Vec<Request>) -> Result<(), Memory>
        ensures moved { OnOk result (others.new.items ≡ others.old.items ++ self.old.requests) }
        ensures emptied { OnOk result (self.new ≡ record self.old { requests = [] }) }
        ensures memory_leaves { OnErr result (self.new ≡ self.old) }
    {
        others.append(&mut self.requests)?;
        Ok(())
    }

    // Takes the room for one request more.
    pub(crate) fn reserve(&mut self) -> Result<(), Memory>
        ensures ok { OnOk result (self.new ≡ record self.old { spare = self.old.spare + 1 }) }
        ensures memory_leaves { OnErr result (self.new ≡ self.old) }
    {
        let spare = self.spare + 1;
        self.requests.reserve(spare)?;
        self.spare = spare;
        Ok(())
    }

    // Adds a request at a spare place.
    pub(crate) fn push_request(&mut self, request: Request)
        requires { 0 < self.old.spare }
        ensures requests { self.new.requests ≡ self.old.requests ++ request ∷ [] }
        ensures spare { self.new.spare + 1 ≡ self.old.spare }
    {
        self.spare -= 1;
        self.requests.push_reserved(request);
    }
}
