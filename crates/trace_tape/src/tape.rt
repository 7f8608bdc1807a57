//! The tape.
ghost use Rattle.std.specs.Prelude.{◌≡◌, ◌≤◌, ◌+◌, ◌-◌, [], ◌++◌, ℕ, OnOk, OnErr, true, false, None, slice_set, count_by};
ghost use Rattle.std.proofs.Common.{refl, ◌∙◌, ap};
ghost use Rattle.trace_base.specs.declared.lane.Lane.{Lane};
ghost use Rattle.trace_base.specs.declared.subscriber.Interest.TheVariants as interests;
ghost use Rattle.trace_tape.specs.Tapes.{TapeValue, DoesTape, blank_tape, one_more, one_more_handle, handle_count_of, drop_requests, has_handles, spelled_parent};
ghost use Rattle.trace_tape.specs.TapeLaws.{tape_same, tape_lanes};
ghost use Rattle.span_registry.specs.Registering.{no_spans};

use crate::naming::named_values;
use crate::opened::{OpenEntry, take_last};
use crate::roll::Roll;
use otel_base::enter_error::EnterError;
use otel_base::memory::Memory;
use span_registry::registry::Registry;
use span_script::request::{Call, Request, RequestParent};
use std::alloc::Global;
use std::marker::Model;
use trace_base::callsite::{Callsite, SiteId};
use trace_base::discard::Discard;
use trace_base::field::ValueSet;
use trace_base::lane::Lane;
use trace_base::level::LevelFilter;
use trace_base::span::{Closing, Id, Parent};
use trace_base::subscriber::{Interest, Subscriber};

/// A subscriber that takes everything, and keeps the list of requests that its calls spell, each on lane 0.
#[derive(Drop)]
pub struct Tape {
    alloc: Global,
    pub(crate) registry: Registry,
    handle_counts: Vec<u64>,
    due: Option<Id>,
    entries: Vec<OpenEntry>,
    made_guard_count: u64,
    pub(crate) roll: Roll,
}

impl Model for Tape {
    ghost use Rattle.std.specs.Prelude.{◌≤◌};
    ghost use Rattle.trace_tape.specs.Tapes.{TapeValue, owed_request_count};

    ghost Value = { TapeValue };

    ghost view = { λ t. record { below = t.registry; handle_counts = t.handle_counts.items; due = t.due; entries = t.entries.items; made_guard_count = t.made_guard_count; requests = t.roll.requests } };

    ghost invariant = { λ t. owed_request_count t.handle_counts.items t.entries.items ≤ t.roll.spare };
}

impl Tape {
    /// A tape on which nothing is spelled, which takes no memory yet.
    pub fn new(alloc: Global) -> Tape
        ensures { result ≡ blank_tape (record { spans = no_spans; slots = 0 }) }
    {
        Tape {
            alloc,
            registry: Registry::new(alloc),
            handle_counts: Vec::new(alloc),
            due: None,
            entries: Vec::new(alloc),
            made_guard_count: 0,
            roll: Roll::new(alloc),
        }
    }

    /// The requests that the calls so far spelled, in order.
    pub fn requests(&self) -> &[Request]
        ensures { result.now ≡ self.now.requests }
    {
        self.roll.requests()
    }

    /// Moves the requests that the calls so far spelled behind others, in order. `Memory` leaves the tape as it is.
    pub fn move_requests(&mut self, others: &mut Vec<Request>) -> Result<(), Memory>
        ensures moved { OnOk result (others.new.items ≡ others.old.items ++ self.old.requests) }
        ensures emptied { OnOk result (self.new ≡ record self.old { requests = [] }) }
        ensures memory_leaves { OnErr result (self.new ≡ self.old) }
    {
        self.roll.move_to(others)
    }
}

impl Subscriber for Tape {
    ghost spans = { λ s. s.below.spans };

    ghost kept = { λ s lane number. 0 };

    ghost attaches = { λ s. false };

    ghost activates = { λ s id. false };

    ghost interest = { λ s c. interests.Always };

    ghost enables = { λ s lane c. true };

    ghost hint = { λ s. None };

    ghost is_whole = { λ s. Unit {0} };

    ghost same_but_room = { λ s t. t ≡ s };

    ghost does = { DoesTape };

    ghost same_refl = { λ s. refl };

    ghost same_trans = { λ s t u h k. k ∙ h };

    ghost same_spans = { λ s t h. ap (λ (r : TapeValue). r.below.spans) h };

    ghost same_kept = { λ s t h. refl };

    ghost same_attaches = { λ s t h. refl };

    ghost same_activates = { λ s t h. refl };

    ghost same_gate = { λ s t h. (refl, refl) };

    ghost same_enables = { λ s t h. refl };

    ghost same_whole = { λ s t h w. w };

    ghost same_does = { tape_same };

    ghost sound = { λ s call t d. d.below.sound };

    ghost allowed = { λ s call t d. d.below.allowed };

    ghost shows = { λ s call t d. d.below.shows };

    ghost keeps_lanes = { tape_lanes };

    ghost none_kept_without_entries = { λ s lane number w none. refl };

    ghost passive = { λ s id at before later t d neither. ap (λ (l : Lane). l.contexts.live) d.below.lane };

    ghost keeps_attaches = { λ s call t d. refl };

    ghost keeps_gate = { λ s call t d. (refl, refl) };

    ghost keeps_whole = { λ s call t d w. w };

    fn register_callsite(&mut self, _callsite: &Callsite) -> Result<Interest, Memory> {
        Ok(Interest::Always)
    }

    fn enabled(&self, _lane: u64, _callsite: &Callsite) -> bool {
        true
    }

    fn max_level_hint(&self) -> Option<LevelFilter> {
        None
    }

    fn new_span(
        &mut self,
        lane: &Lane,
        at: u64,
        parent: Parent,
        current: Option<Id>,
        site: SiteId,
        callsite: &Callsite,
        values: &ValueSet,
    ) -> Result<Id, Memory> {
        self.handle_counts.reserve(1)?;
        self.roll.reserve()?;
        self.roll.reserve()?;
        let fields = named_values(self.alloc, callsite, values)?;
        let number = number_of(site);
        let place = spelled_parent(&parent);
        match self
            .registry
            .new_span(lane, at, parent, current, site, callsite, values)
        {
            Ok(id) => {
                self.handle_counts.push_reserved(1);
                self.roll.push_request(request(
                    at,
                    Call::New {
                        site: number,
                        parent: place,
                        fields,
                    },
                ));
                Ok(id)
            }
            Err(memory) => {
                drop(fields);
                Err(memory)
            }
        }
    }

    fn record(
        &mut self,
        id: Id,
        at: u64,
        callsite: &Callsite,
        values: &ValueSet,
    ) -> Result<(), Memory> {
        self.roll.reserve()?;
        let fields = named_values(self.alloc, callsite, values)?;
        self.registry.record(id, at, callsite, values)?;
        self.roll.push_request(request(
            at,
            Call::Record {
                handle: id.place(),
                fields,
            },
        ));
        Ok(())
    }

    fn record_follows_from(&mut self, id: Id, from: Id, at: u64) -> Result<(), Memory> {
        self.roll.reserve()?;
        self.registry.record_follows_from(id, from, at)?;
        self.roll.push_request(request(
            at,
            Call::Follows {
                handle: id.place(),
                from: from.place(),
            },
        ));
        Ok(())
    }

    fn event(
        &mut self,
        lane: &Lane,
        at: u64,
        parent: Parent,
        current: Option<Id>,
        site: SiteId,
        callsite: &Callsite,
        values: &ValueSet,
    ) -> Result<(), Memory> {
        self.roll.reserve()?;
        let fields = named_values(self.alloc, callsite, values)?;
        let number = number_of(site);
        let place = spelled_parent(&parent);
        self.registry
            .event(lane, at, parent, current, site, callsite, values)?;
        self.roll.push_request(request(
            at,
            Call::Event {
                site: number,
                parent: place,
                fields,
            },
        ));
        Ok(())
    }

    fn enter(&mut self, id: Id, lane: &mut Lane, at: u64) -> Result<(), EnterError> {
        self.entries.reserve(1)?;
        if self.roll.reserve().is_err() {
            return Err(EnterError::Memory);
        }
        if self.roll.reserve().is_err() {
            return Err(EnterError::Memory);
        }
        self.registry.enter(id, lane, at)?;
        let guard = self.made_guard_count;
        self.made_guard_count = one_more(guard);
        self.entries.push_reserved(OpenEntry {
            lane: lane.id,
            id,
            guard,
        });
        self.roll
            .push_request(request(at, Call::Enter { handle: id.place() }));
        Ok(())
    }

    fn exit(&mut self, id: Id, lane: &mut Lane, at: u64) {
        self.registry.exit(id, lane, at);
        if let Some(opened) = take_last(&mut self.entries, lane.id, id) {
            self.roll.push_request(request(
                at,
                Call::Exit {
                    guard: opened.guard,
                },
            ));
        }
    }

    fn clone_span(&mut self, id: Id) {
        self.registry.clone_span(id);
        add_handle(&mut self.handle_counts, id);
    }

    fn try_close(&mut self, id: Id, at: u64) -> Closing {
        let closing = self.registry.try_close(id, at);
        let is_due = match self.due {
            Some(due) => due == id,
            None => false,
        };
        self.due = closing.next;
        if !is_due {
            drop_handle(&mut self.handle_counts, &mut self.roll, id, at);
        }
        closing
    }

    fn current_id(&self, lane: u64) -> Option<Id> {
        self.registry.current_id(lane)
    }

    fn current_span(&self, lane: u64) -> Option<(Id, SiteId)> {
        self.registry.current_span(lane)
    }
}

impl Discard for Tape {
    fn discard(self) {}
}

// A request on lane 0.
pub(crate) fn request(at: u64, call: Call) -> Request
    ensures { result ≡ record { at = at; lane_place = 0; call = call } }
{
    Request {
        at,
        lane_place: 0,
        call,
    }
}

// The place of a callsite in its world.
fn number_of(site: SiteId) -> u64
    ensures { result ≡ site }
{
    site.number()
}

// Where a span or an event is put.
fn spelled_parent(parent: &Parent) -> RequestParent
    ensures { result ≡ spelled_parent parent.now }
{
    match parent {
        Parent::Root => RequestParent::Root,
        Parent::Current => RequestParent::Contextual,
        Parent::Of(id) => RequestParent::Under { handle: id.place() },
    }
}

// A count that stands still at the end of its type.
fn one_more(n: u64) -> u64
    ensures { result ≡ one_more n }
{
    if n < u64::MAX { n + 1 } else { n }
}

// One handle of a span more.
fn add_handle(handles: &mut Vec<u64>, id: Id)
    ensures value { handles.new.items ≡ slice_set handles.old.items id (one_more_handle (handle_count_of handles.old.items id)) }
    ensures room { count_by has_handles handles.new.items ≡ count_by has_handles handles.old.items }
{
    let place = id.place() as usize;
    if place < handles.len() {
        let n = handles[place];
        if n > 0 {
            handles[place] = one_more(n);
        }
    }
}

// One handle of a span less, which spells a drop if it was the last one.
fn drop_handle(handles: &mut Vec<u64>, roll: &mut Roll, id: Id, at: u64)
    requires { count_by has_handles handles.old.items ≤ roll.old.spare }
    ensures handles { handles.new.items ≡ slice_set handles.old.items id (handle_count_of handles.old.items id - 1) }
    ensures requests { roll.new.requests ≡ roll.old.requests ++ drop_requests at id (handle_count_of handles.old.items id) }
    ensures room { (others : ℕ) → others + count_by has_handles handles.old.items ≤ roll.old.spare
        → others + count_by has_handles handles.new.items ≤ roll.new.spare }
{
    let place = id.place() as usize;
    if place < handles.len() {
        let n = handles[place];
        if n > 0 {
            handles[place] = n - 1;
        }
        if n == 1 {
            roll.push_request(request(at, Call::Drop { handle: id.place() }));
        }
    }
}
