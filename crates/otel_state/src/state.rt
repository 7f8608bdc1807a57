//! The state of a span from its making to its close.
ghost use Rattle.std.specs.Prelude.{◌≡◌, ◌+◌, ◌≤◌, ◌<◌, ◌^◌, ◌++◌, ◌∷◌, [], ℕ, List, Some, OnOk, OnErr, IfOk, IsOk, IsTrue, false, length};
ghost use Rattle.std.specs.Option.{option_to_list};
ghost use Rattle.std.specs.Ordering.{ord_max};
ghost use Rattle.otel_base.specs.Statuses.{status_cmp};
ghost use Rattle.otel_state.specs.Deeds.{deed, no_deed, written_by};
ghost use Rattle.otel_state.specs.Opening.{ids_of_start, parent_context_of};
ghost use Rattle.otel_state.specs.Statuses.{greatest_status, error_status_if};
ghost use Rattle.otel_state.specs.Times.{open_after_ops};
ghost use Rattle.otel_state.specs.States.{after_time, unless_started, with_all, after_deed, after_op, reply, reply_after, is_growing, record_of, with_making, room_after, Represents, AppendsOp, BeginsAt, IsReadOff, IsContent, HasRoom, KeepsRoom};

use crate::closing::{add_count, add_times, closing_room};
use crate::op::{Op, OpReply, SetParentError};
use crate::times::{GREATEST, idle, moment_after, one_more};
use crate::update::Update;
use otel_base::context::{Context, SpanContext};
use otel_base::list::Items;
use otel_base::memory::Memory;
use otel_base::record::{Link, Moment, OtelEvent, Record, SpanKind};
use otel_base::status::Status;
use otel_base::text::Text;
use otel_base::value::KeyValue;
use std::alloc::Global;
use std::marker::Model;

/// The state of a span: its making, and what the ops since came to; the `OtelData` of `tracing_opentelemetry::layer`.
#[derive(Drop)]
pub struct SpanState {
    alloc: Global,
    opening: Opening,
    made_at: u64,
    counting: bool,
    inactivity: bool,
    own: Option<SpanContext>,
    attributes: Vec<KeyValue>,
    events: Vec<OtelEvent>,
    links: Vec<Link>,
    status: Status,
    counted: u64,
    entries: u64,
    last: u64,
    busy: u64,
    left_at: Option<u64>,
}

// What ops may change until the span starts.
#[derive(Drop)]
struct Opening {
    name: Text,
    kind: SpanKind,
    parent: Context,
}

impl Model for SpanState {
    ghost use Rattle.std.specs.Prelude.{◌-◌, length, vec_capacity};
    ghost use Rattle.otel_state.specs.Content.{closing_room};
    ghost use Rattle.otel_state.specs.States.{StateValue, IsSoundState};

    ghost Value = { StateValue };

    ghost view = { λ s. record {
      span_data = record {
        name = s.opening.name;
        kind = s.opening.kind;
        parent = s.opening.parent;
        made_at = s.made_at;
        counting = s.counting;
        inactivity = s.inactivity;
        own = s.own;
        attributes = s.attributes.items;
        events = s.events.items;
        links = s.links.items;
        status = s.status;
        counted = s.counted;
        entries = s.entries;
        last = s.last;
        busy = s.busy;
        left_at = s.left_at;
      };
      room = record {
        attributes = vec_capacity s.attributes - length s.attributes.items - closing_room s.counting s.inactivity;
        events = vec_capacity s.events - length s.events.items;
        links = vec_capacity s.links - length s.links.items;
      };
    } };

    ghost invariant = { λ s. IsSoundState s.counted s.entries s.busy s.last s.left_at (length s.attributes.items) (closing_room s.counting s.inactivity) (vec_capacity s.attributes) };
}

impl SpanState {
    /// The state of a span that is made at a moment, with the room that its close needs. `first` are its first
    /// attributes; with `counting` its close tells how many events were counted, and with `inactivity` its times.
    pub fn new(
        alloc: Global,
        name: &str,
        parent: Context,
        made_at: Moment,
        first: Items<KeyValue>,
        counting: bool,
        inactivity: bool,
    ) -> Result<SpanState, Memory>
        ensures { IfOk result (λ state. Represents (record {
          name = name.now;
          parent = parent;
          made_at = made_at;
          first = first;
          counting = counting;
          inactivity = inactivity;
        }) [] state.span_data) }
    {
        let mut attributes = first.into_vec();
        attributes.reserve_exact(closing_room(counting, inactivity))?;
        Ok(SpanState {
            alloc,
            opening: Opening {
                name: Text::from_str(alloc, name)?,
                kind: SpanKind::Internal,
                parent,
            },
            made_at,
            counting,
            inactivity,
            own: None,
            attributes,
            events: Vec::new(alloc),
            links: Vec::new(alloc),
            status: Status::Unset,
            counted: 0,
            entries: 0,
            last: made_at.min(GREATEST),
            busy: 0,
            left_at: None,
        })
    }

    /// Its ids, once it has started.
    #[tactic(auto, using(crate::proofs::SumLemmas::own_is))]
    pub fn own_context(&self) -> Option<SpanContext>
        ensures value { result ≡ self.now.span_data.own }
        ensures listed { IsReadOff (λ _ ops. ids_of_start ops) self.now.span_data result }
    {
        self.own
    }

    /// The context of its parent.
    #[tactic(auto, using(crate::proofs::SumLemmas::parent_is))]
    pub fn parent(&self) -> Context
        ensures value { result ≡ self.now.span_data.parent }
        ensures listed { IsReadOff (λ making ops. parent_context_of making.parent ops) self.now.span_data result }
    {
        self.opening.parent
    }

    /// How many entries are open.
    #[tactic(auto, using(crate::proofs::SumLemmas::entries_is))]
    pub fn entries(&self) -> u64
        ensures value { result ≡ self.now.span_data.entries }
        ensures listed { IsReadOff (λ _ ops. open_after_ops 0 ops) self.now.span_data result }
    {
        self.entries
    }

    /// Applies an op at a moment, and answers it; the room that the op doesn't fill stays. `Memory` comes only for the ops
    /// that may grow the state (`is_growing`) and where there wasn't the room; the state then tells the same, and no room is
    /// lost.
    #[tactic(auto, using(crate::proofs::SumLemmas::appended))]
    pub fn apply(&mut self, at: Moment, op: Op) -> Result<OpReply, Memory>
        ensures appends { OnOk result (AppendsOp at op self.old.span_data self.new.span_data) }
        ensures did { OnOk result (self.new.span_data ≡ after_op self.old.span_data at op) }
        ensures reply { IfOk result (λ r. r ≡ reply self.old.span_data op) }
        ensures listed { IfOk result (IsReadOff (λ _ ops. reply_after (ids_of_start ops) op) self.old.span_data) }

        ensures memory_leaves { OnErr result (self.new.span_data ≡ self.old.span_data) }
        ensures memory { OnErr result (IsTrue (is_growing op)) }
        ensures had_room { HasRoom self.old.room op → IsOk result }

        // Room that the op doesn't fill stays.
        ensures rest { OnOk result (KeepsRoom (room_after self.old.room (deed op)) self.new.room) }
        ensures keeps { OnErr result (KeepsRoom self.old.room self.new.room) }
    {
        let answer = self.answer(&op);
        self.reserve(&op)?;
        self.put(at, op);
        Ok(answer)
    }

    /// Applies an op in room that was reserved for it. The rest of the room stays.
    pub fn put(&mut self, at: Moment, op: Op)
        requires room { HasRoom self.old.room op }
        ensures span_data { self.new.span_data ≡ after_op self.old.span_data at op }
        ensures room { is_growing op ≡ false → self.new.room ≡ self.old.room }
        ensures rest { KeepsRoom (room_after self.old.room (deed op)) self.new.room }
    {
        self.pass_time(at);
        match op {
            Op::Update { update } => self.put_update(update),
            Op::Event {
                is_error,
                update,
                event,
            } => {
                self.put_error(is_error);
                self.put_update(update);
                self.put_event(event);
            }
            Op::Counted => self.counted = one_more(self.counted),
            Op::AddEvent { event } => self.put_event(event),
            Op::Link { link } => self.put_link(link),
            Op::SetAttribute { pair } => self.put_attribute(pair),
            Op::SetStatus { status } => self.put_status(status),
            Op::SetParent { context } => {
                if self.own.is_none() {
                    self.opening.parent = context;
                }
            }
            Op::Start { own } => {
                if self.own.is_none() {
                    self.own = Some(own);
                }
            }
            Op::Enter => self.entries = one_more(self.entries),
            Op::Exit => {
                self.entries = self.entries.saturating_sub(1);
                self.left_at = Some(self.last);
            }
        }
    }

    // Time passes up to a moment.
    fn pass_time(&mut self, at: Moment)
        ensures span_data { self.new.span_data ≡ after_time self.old.span_data at }
        ensures room { self.new.room ≡ self.old.room }
    {
        let at = moment_after(self.last, at);
        if self.entries > 0 {
            self.busy += at - self.last;
        }
        self.last = at;
    }

    fn put_update(&mut self, update: Update)
        requires { length update.attributes ≤ self.old.room.attributes }
        ensures span_data { self.new.span_data ≡ after_deed self.old.span_data (written_by update) }
        ensures rest { KeepsRoom (room_after self.old.room (written_by update)) self.new.room }
    {
        let Update {
            name,
            kind,
            status,
            attributes,
        } = update;
        self.put_name(name);
        self.put_kind(kind);
        self.put_status_if_any(status);
        self.put_attributes(attributes);
    }

    fn put_name(&mut self, name: Option<Text>)
        ensures span_data { self.new.span_data ≡ record self.old.span_data { name = unless_started self.old.span_data.own self.old.span_data.name name } }
        ensures room { self.new.room ≡ self.old.room }
    {
        if let Some(name) = name
            && self.own.is_none()
        {
            self.opening.name = name;
        }
    }

    fn put_kind(&mut self, kind: Option<SpanKind>)
        ensures span_data { self.new.span_data ≡ record self.old.span_data { kind = unless_started self.old.span_data.own self.old.span_data.kind kind } }
        ensures room { self.new.room ≡ self.old.room }
    {
        if self.own.is_none()
            && let Some(kind) = kind
        {
            self.opening.kind = kind;
        }
    }

    // An error without a description is written, if there is one.
    fn put_error(&mut self, is_error: bool)
        ensures span_data { self.new.span_data ≡ record self.old.span_data { status = greatest_status self.old.span_data.status (error_status_if is_error) } }
        ensures room { self.new.room ≡ self.old.room }
    {
        if is_error {
            self.put_status(Status::Error {
                description: Text::from(String::new(self.alloc)),
            });
        }
    }

    fn put_status_if_any(&mut self, status: Option<Status>)
        ensures span_data { self.new.span_data ≡ record self.old.span_data { status = greatest_status self.old.span_data.status (option_to_list status) } }
        ensures room { self.new.room ≡ self.old.room }
    {
        if let Some(status) = status {
            self.put_status(status);
        }
    }

    fn put_status(&mut self, status: Status)
        ensures span_data { self.new.span_data ≡ record self.old.span_data { status = ord_max status_cmp self.old.span_data.status status } }
        ensures room { self.new.room ≡ self.old.room }
    {
        if status >= self.status {
            self.status = status;
        }
    }

    fn put_attributes(&mut self, attributes: Items<KeyValue>)
        requires { length attributes ≤ self.old.room.attributes }
        ensures span_data { self.new.span_data ≡ record self.old.span_data { attributes = with_all self.old.span_data.attributes attributes } }
        ensures rest { KeepsRoom (room_after self.old.room (record no_deed { attributes = attributes })) self.new.room }
    {
        let mut attributes = attributes.into_vec();
        match self.attributes.append(&mut attributes) {
            Ok(()) => {}
            Err(_) => unreachable!(),
        }
    }

    fn put_attribute(&mut self, pair: KeyValue)
        requires { 1 ≤ self.old.room.attributes }
        ensures span_data { self.new.span_data ≡ record self.old.span_data { attributes = self.old.span_data.attributes ++ pair ∷ [] } }
        ensures rest { KeepsRoom (room_after self.old.room (record no_deed { attributes = pair ∷ [] })) self.new.room }
    {
        match self.attributes.push(pair) {
            Ok(()) => {}
            Err(_) => unreachable!(),
        }
    }

    fn put_event(&mut self, event: OtelEvent)
        requires { 1 ≤ self.old.room.events }
        ensures span_data { self.new.span_data ≡ record self.old.span_data { events = self.old.span_data.events ++ event ∷ [] } }
        ensures rest { KeepsRoom (room_after self.old.room (record no_deed { event = Some event })) self.new.room }
    {
        match self.events.push(event) {
            Ok(()) => {}
            Err(_) => unreachable!(),
        }
    }

    fn put_link(&mut self, link: Link)
        requires { 1 ≤ self.old.room.links }
        ensures span_data { self.new.span_data ≡ record self.old.span_data { links = self.old.span_data.links ++ link ∷ [] } }
        ensures rest { KeepsRoom (room_after self.old.room (record no_deed { link = Some link })) self.new.room }
    {
        match self.links.push(link) {
            Ok(()) => {}
            Err(_) => unreachable!(),
        }
    }

    /// Gives a state the parent and the moment of its making, where these weren't known when its room was taken. Its last
    /// moment, its busy time and its last exit start anew; all else stays.
    pub fn set_making(&mut self, parent: Context, made_at: Moment)
        ensures span_data { self.new.span_data ≡ with_making parent made_at self.old.span_data }
        ensures begins { BeginsAt parent made_at self.old.span_data self.new.span_data }
        ensures room { self.new.room ≡ self.old.room }
    {
        self.opening.parent = parent;
        self.made_at = made_at;
        self.last = made_at.min(GREATEST);
        self.busy = 0;
        self.left_at = None;
    }

    /// What an op will answer.
    pub fn answer(&self, op: &Op) -> OpReply
        ensures { result ≡ reply self.now.span_data op.now }
    {
        match op {
            Op::SetParent { context: _ } => {
                if self.own.is_some() {
                    OpReply::Parent(Err(SetParentError::AlreadyStarted))
                } else {
                    OpReply::Parent(Ok(()))
                }
            }
            _ => OpReply::Done,
        }
    }

    /// Takes the room for an op. `Memory` comes only for the ops that may grow the state (`is_growing`) and where there
    /// isn't the room yet. For two ops `reserve_room` takes the room at once.
    pub fn reserve(&mut self, op: &Op) -> Result<(), Memory>
        ensures room { OnOk result (HasRoom self.new.room op.now) }
        ensures keeps { KeepsRoom self.old.room self.new.room }
        ensures memory { OnErr result (IsTrue (is_growing op.now)) }
        ensures had_room { HasRoom self.old.room op.now → IsOk result }
        ensures leaves { self.new.span_data ≡ self.old.span_data }
    {
        match op {
            Op::Update { update } => self.reserve_room(update.attributes.as_slice().len(), 0, 0),
            Op::Event {
                is_error: _,
                update,
                event: _,
            } => self.reserve_room(update.attributes.as_slice().len(), 1, 0),
            Op::AddEvent { event: _ } => self.reserve_room(0, 1, 0),
            Op::Link { link: _ } => self.reserve_room(0, 0, 1),
            Op::SetAttribute { pair: _ } => self.reserve_room(1, 0, 0),
            _ => Ok(()),
        }
    }

    /// Takes room for so many attributes, events and links, beside that of the close. `Memory` comes only where there
    /// isn't so much room yet, or for attributes that no `usize` counts together with those of the close.
    pub fn reserve_room(
        &mut self,
        attributes: usize,
        events: usize,
        links: usize,
    ) -> Result<(), Memory>
        ensures attributes { OnOk result (attributes ≤ self.new.room.attributes) }
        ensures events { OnOk result (events ≤ self.new.room.events) }
        ensures links { OnOk result (links ≤ self.new.room.links) }
        ensures keeps { KeepsRoom self.old.room self.new.room }
        ensures had_room { attributes ≤ self.old.room.attributes → events ≤ self.old.room.events
            → links ≤ self.old.room.links → attributes + 3 < 2 ^ 64 → IsOk result }
        ensures leaves { self.new.span_data ≡ self.old.span_data }
    {
        let closing = closing_room(self.counting, self.inactivity);
        let all = attributes.checked_add(closing).ok_or(Memory)?;
        self.attributes.reserve(all)?;
        self.events.reserve(events)?;
        self.links.reserve(links)?;
        Ok(())
    }

    /// The record of the span, which is closed at a moment. It takes no memory.
    pub fn close(self, at: Moment) -> Record
        ensures value { result ≡ record_of self.span_data at }
        ensures content { IsContent at self.span_data result }
    {
        self.into_record(at)
    }

    fn into_record(self, at: Moment) -> Record
        ensures { result ≡ record_of self.span_data at }
    {
        let idle = idle(self.left_at, self.made_at, self.busy);
        let context = self.own.unwrap_or(SpanContext { trace: 0, span: 0 });
        let parent = self.opening.parent.span_context().parent_id();
        let end = self.left_at.unwrap_or(at);
        let mut attributes = self.attributes;
        add_count(
            &mut attributes,
            self.counting,
            self.counted,
            self.inactivity,
        );
        add_times(&mut attributes, self.inactivity, self.busy, idle);
        Record {
            name: self.opening.name,
            kind: self.opening.kind,
            context,
            parent,
            start: self.made_at,
            end,
            attributes: Items::from(attributes),
            events: Items::from(self.events),
            links: Items::from(self.links),
            status: self.status,
        }
    }
}
