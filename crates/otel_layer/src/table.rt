//! The states of the spans that a layer knows.
ghost use Rattle.std.specs.Prelude.{◌≡◌, ◌==◌, ℕ, ◌<◌, ◌≤◌, ◌+◌, ◌^◌, [], true, false, length, Some, IfSome, OnOk, option_map};
ghost use Rattle.std.specs.List.{position};
ghost use Rattle.std.specs.Map.{remove_entry};
ghost use Rattle.otel_state.specs.States.{is_growing};
ghost use Rattle.otel_layer.specs.Counting.{after_counted};
ghost use Rattle.otel_layer.specs.Parts.{AppliesIn, own_context_if_known};
ghost use Rattle.otel_layer.specs.Starts.{StartsIn, EntersIn};
ghost use Rattle.otel_layer.specs.Table.{IdsRiseIf, RisesTo, is_of_id, all_data, rooms, entry_ids, is_id, data_at, knows_span, update, with_op, with_span_data, RoomFor, RoomForLink};

use crate::starts::{count_event, enter_state, start_state};
use otel_base::context::Context;
use otel_base::memory::Memory;
use otel_base::tracer::Tracer;
use otel_state::op::{Op, OpReply};
use otel_state::state::SpanState;
use std::alloc::Global;
use std::marker::Model;
use trace_base::span::Id;

// The state of a span; none once it was taken out, which leaves a gap.
#[derive(Drop)]
pub(crate) struct Entry {
    id: Id,
    state: Option<SpanState>,
}

// The states of spans, in the order in which the layer came to know them.
#[derive(Drop)]
pub(crate) struct Table {
    entries: Vec<Entry>,
    // How many of them aren't gaps.
    known: usize,
    // Whether the ids rise, gaps included, as those of a registry do.
    rising: bool,
    // Where the entry of each id was put: a guess, which spares most searches.
    places: Vec<u32>,
}

impl Model for Table {
    ghost use Rattle.std.specs.Prelude.{◌-◌, length, vec_capacity};
    ghost use Rattle.otel_layer.specs.Parts.{AppliesIn, own_context_if_known};
    ghost use Rattle.otel_layer.specs.Table.{SpanTableValue, span_table_value, IsSpanTable};

    ghost Value = { SpanTableValue };

    ghost view = { λ t. span_table_value t.entries.items (vec_capacity t.entries - length t.entries.items) };

    ghost invariant = { λ t. IsSpanTable t.rising t.known t.entries.items };
}

impl Table {
    // A table without spans, which takes no memory yet.
    pub(crate) fn new(alloc: Global) -> Table
        ensures spans { result.spans ≡ [] }
    {
        Table {
            entries: Vec::new(alloc),
            known: 0,
            rising: true,
            places: Vec::new(alloc),
        }
    }

    // How many spans there are.
    pub(crate) fn len(&self) -> u64
        ensures value { result ≡ length self.now.spans }
        ensures most { result < 2 ^ 63 }
    {
        self.known as u64
    }

    // Whether a span is there.
    pub(crate) fn knows(&self, id: Id) -> bool
        ensures { result ≡ knows_span id self.now.spans }
    {
        is_known(self.entries.as_slice(), &self.places, self.rising, id)
    }

    // Starts a span, if it is there and hasn't started, and gives its own context.
    pub(crate) fn start<T: Tracer>(&mut self, id: Id, at: u64, tracer: &mut T) -> Option<Context>
        requires { T.started tracer.old < 2 ^ 63 }
        ensures starts { StartsIn T.does id at self.old.spans tracer.old tracer.new self.new.spans }
        ensures context { result ≡ own_context_if_known (data_at id self.new.spans) }
        ensures rooms { self.new.rooms ≡ self.old.rooms }
        ensures room { self.new.room ≡ self.old.room }
        ensures few { T.started tracer.new ≤ T.started tracer.old + 1 }
    {
        start(
            self.entries.as_mut_slice(),
            &self.places,
            self.rising,
            id,
            at,
            tracer,
        )
    }

    // Starts a span that is there and hasn't started, enters it, and gives its own context.
    pub(crate) fn enter<T: Tracer>(&mut self, id: Id, at: u64, tracer: &mut T) -> Option<Context>
        requires { T.started tracer.old < 2 ^ 63 }
        ensures { EntersIn T.does id at self.old.spans tracer.old tracer.new self.new.spans result }
    {
        enter(
            self.entries.as_mut_slice(),
            &self.places,
            self.rising,
            id,
            at,
            tracer,
        )
    }

    // Applies an op to a span, if it is there, in room that was reserved, and says whether it is.
    pub(crate) fn put(&mut self, id: Id, at: u64, op: Op) -> bool
        requires { RoomFor id op self.old.rooms }
        ensures known { result ≡ knows_span id self.old.spans }
        ensures spans { self.new.spans ≡ with_op id at op self.old.spans }
        ensures rooms { is_growing op ≡ false → self.new.rooms ≡ self.old.rooms }
        ensures room { self.new.room ≡ self.old.room }
    {
        put(
            self.entries.as_mut_slice(),
            &self.places,
            self.rising,
            id,
            at,
            op,
        )
    }

    // Counts an event, and tells it to its span where it is taken, in room that was reserved.
    pub(crate) fn count_event(&mut self, id: Id, at: u64, op: Op, is_taken: bool)
        requires { RoomFor id op self.old.rooms }
        ensures { self.new.spans ≡ update id (after_counted is_taken at op) self.old.spans }
    {
        count_event_of_id(
            self.entries.as_mut_slice(),
            &self.places,
            self.rising,
            id,
            at,
            op,
            is_taken,
        );
    }

    // Applies an op to a span, and answers it; none where it isn't there.
    pub(crate) fn apply(&mut self, id: Id, at: u64, op: Op) -> Option<Result<OpReply, Memory>>
        ensures { AppliesIn self.old.spans id at op result self.new.spans }
    {
        apply(
            self.entries.as_mut_slice(),
            &self.places,
            self.rising,
            id,
            at,
            op,
        )
    }

    // Takes the room for an op in the state of a span, if it is there.
    pub(crate) fn reserve_op(&mut self, id: Id, op: &Op) -> Result<(), Memory>
        ensures spans { self.new.spans ≡ self.old.spans }
        ensures ok { OnOk result (RoomFor id op.now self.new.rooms) }
        ensures room { self.new.room ≡ self.old.room }
    {
        reserve_op(
            self.entries.as_mut_slice(),
            &self.places,
            self.rising,
            id,
            op,
        )
    }

    // Takes the room for a link in the state of a span, if it is there.
    pub(crate) fn reserve_link(&mut self, id: Id) -> Result<(), Memory>
        ensures spans { self.new.spans ≡ self.old.spans }
        ensures ok { OnOk result (RoomForLink id self.new.rooms) }
        ensures room { self.new.room ≡ self.old.room }
    {
        reserve_link(self.entries.as_mut_slice(), &self.places, self.rising, id)
    }

    // Takes room for one more span.
    pub(crate) fn reserve(&mut self) -> Result<(), Memory>
        ensures spans { self.new.spans ≡ self.old.spans }
        ensures rooms { self.new.rooms ≡ self.old.rooms }
        ensures ok { OnOk result (0 < self.new.room) }
    {
        self.entries.reserve(1)?;
        Ok(())
    }

    // Adds a span, in room that was reserved.
    pub(crate) fn add(&mut self, id: Id, state: SpanState)
        requires { 0 < self.old.room }
        ensures { self.new.spans ≡ with_span_data id state.span_data self.old.spans }
    {
        note(&mut self.places, id, self.entries.len());
        self.rising = self.rising && is_youngest(self.entries.as_slice(), id);
        let entry = Entry {
            id,
            state: Some(state),
        };
        match self.entries.push(entry) {
            Ok(()) => self.known += 1,
            Err(_) => unreachable!(),
        }
    }

    // Takes out the state of a span, if it is there.
    pub(crate) fn remove(&mut self, id: Id) -> Option<SpanState>
        ensures span_data { option_map (λ state. state.span_data) result ≡ data_at id self.old.spans }
        ensures spans { self.new.spans ≡ remove_entry (is_id id) self.old.spans }
    {
        let place = find(self.entries.as_slice(), &self.places, self.rising, id)?;
        let state = take(self.entries.as_mut_slice(), id, place);
        self.known -= 1;
        let before = self.entries.len();
        close_gaps(&mut self.entries, self.known);
        note_moved(before, &mut self.places, self.entries.as_slice());
        Some(state)
    }
}

// Whether a span is younger than all that are there, if their ids rise.
fn is_youngest(entries: &[Entry], id: Id) -> bool
    ensures { result ≡ true → IdsRiseIf true entries.now → RisesTo id entries.now }
{
    let count = entries.len();
    if count == 0 {
        return true;
    }
    entries[count - 1].id.place() < id.place()
}

// Where the entry of a span stands.
fn find(entries: &[Entry], places: &Vec<u32>, rising: bool, id: Id) -> Option<usize>
    requires { IdsRiseIf rising entries.now }
    ensures { result ≡ position (is_of_id id) entries.now }
{
    if rising {
        match guess(entries, places, id) {
            Some(place) => Some(place),
            None => search(entries, id),
        }
    } else {
        entries.iter().position(|e| e.id == id && e.state.is_some())
    }
}

// The same by the place where the entry was put, if it stands there.
fn guess(entries: &[Entry], places: &Vec<u32>, id: Id) -> Option<usize>
    requires { IdsRiseIf true entries.now }
    ensures { IfSome result (λ place. Some place ≡ position (is_of_id id) entries.now) }
{
    let wanted = id.place();
    let place = *places.get(wanted as usize)? as usize;
    if place >= entries.len() {
        return None;
    }
    let there = entries[place].id.place();
    if there == wanted {
        return entries[place].state.is_some().then_some(place);
    }
    None
}

// Notes where the entry of a span is put. Ids that don't come in turn are left out.
fn note(places: &mut Vec<u32>, id: Id, at: usize) {
    let Ok(place) = u32::try_from(at) else {
        return;
    };
    let number = id.place() as usize;
    if number < places.len() {
        places[number] = place;
    } else if number == places.len() {
        let _ = places.push(place);
    }
}

// Notes all places anew, where there are fewer entries than before.
fn note_moved(before: usize, places: &mut Vec<u32>, entries: &[Entry]) {
    if entries.len() < before {
        for (at, entry) in entries.iter().enumerate() {
            note(places, entry.id, at);
        }
    }
}

// The same where the ids rise: half of what is left falls away at each step.
fn search(entries: &[Entry], id: Id) -> Option<usize>
    requires { IdsRiseIf true entries.now }
    ensures { result ≡ position (is_of_id id) entries.now }
{
    let wanted = id.place();
    let mut low = 0;
    let mut high = entries.len();
    while low < high {
        let middle = low + (high - low) / 2;
        let there = entries[middle].id.place();
        if there == wanted {
            return entries[middle].state.is_some().then_some(middle);
        }
        if there < wanted {
            low = middle + 1;
        } else {
            high = middle;
        }
    }
    None
}

fn is_known(entries: &[Entry], places: &Vec<u32>, rising: bool, id: Id) -> bool
    requires { IdsRiseIf rising entries.now }
    ensures { result ≡ knows_span id (all_data entries.now) }
{
    find(entries, places, rising, id).is_some()
}

fn start<T: Tracer>(
    entries: &mut [Entry],
    places: &Vec<u32>,
    rising: bool,
    id: Id,
    at: u64,
    tracer: &mut T,
) -> Option<Context>
    requires rises { IdsRiseIf rising entries.old }
    requires few { T.started tracer.old < 2 ^ 63 }
    ensures starts { StartsIn T.does id at (all_data entries.old) tracer.old tracer.new (all_data entries.new) }
    ensures context { result ≡ own_context_if_known (data_at id (all_data entries.new)) }
    ensures rooms { rooms entries.new ≡ rooms entries.old }
    ensures ids { entry_ids entries.new ≡ entry_ids entries.old }
    ensures few { T.started tracer.new ≤ T.started tracer.old + 1 }
{
    match find(entries, places, rising, id) {
        Some(place) => match &mut entries[place].state {
            Some(state) => Some(start_state(state, at, tracer)),
            None => unreachable!(),
        },
        None => None,
    }
}

fn enter<T: Tracer>(
    entries: &mut [Entry],
    places: &Vec<u32>,
    rising: bool,
    id: Id,
    at: u64,
    tracer: &mut T,
) -> Option<Context>
    requires rises { IdsRiseIf rising entries.old }
    requires few { T.started tracer.old < 2 ^ 63 }
    ensures enters { EntersIn T.does id at (all_data entries.old) tracer.old tracer.new (all_data entries.new) result }
    ensures ids { entry_ids entries.new ≡ entry_ids entries.old }
{
    match find(entries, places, rising, id) {
        Some(place) => match &mut entries[place].state {
            Some(state) => Some(enter_state(state, at, tracer)),
            None => unreachable!(),
        },
        None => None,
    }
}

fn put(entries: &mut [Entry], places: &Vec<u32>, rising: bool, id: Id, at: u64, op: Op) -> bool
    requires rises { IdsRiseIf rising entries.old }
    requires room { RoomFor id op (rooms entries.old) }
    ensures known { result ≡ knows_span id (all_data entries.old) }
    ensures span_data { all_data entries.new ≡ with_op id at op (all_data entries.old) }
    ensures rooms { is_growing op ≡ false → rooms entries.new ≡ rooms entries.old }
    ensures ids { entry_ids entries.new ≡ entry_ids entries.old }
{
    match find(entries, places, rising, id) {
        Some(place) => match &mut entries[place].state {
            Some(state) => {
                state.put(at, op);
                true
            }
            None => unreachable!(),
        },
        None => {
            drop(op);
            false
        }
    }
}

fn count_event_of_id(
    entries: &mut [Entry],
    places: &Vec<u32>,
    rising: bool,
    id: Id,
    at: u64,
    op: Op,
    is_taken: bool,
)
    requires rises { IdsRiseIf rising entries.old }
    requires room { RoomFor id op (rooms entries.old) }
    ensures span_data { all_data entries.new ≡ update id (after_counted is_taken at op) (all_data entries.old) }
    ensures ids { entry_ids entries.new ≡ entry_ids entries.old }
{
    match find(entries, places, rising, id) {
        Some(place) => match &mut entries[place].state {
            Some(state) => count_event(state, at, op, is_taken),
            None => unreachable!(),
        },
        None => drop(op),
    }
}

fn reserve_op(
    entries: &mut [Entry],
    places: &Vec<u32>,
    rising: bool,
    id: Id,
    op: &Op,
) -> Result<(), Memory>
    requires rises { IdsRiseIf rising entries.old }
    ensures span_data { all_data entries.new ≡ all_data entries.old }
    ensures room { OnOk result (RoomFor id op.now (rooms entries.new)) }
    ensures ids { entry_ids entries.new ≡ entry_ids entries.old }
{
    match find(entries, places, rising, id) {
        Some(place) => match &mut entries[place].state {
            Some(state) => state.reserve(op),
            None => Ok(()),
        },
        None => Ok(()),
    }
}

fn reserve_link(
    entries: &mut [Entry],
    places: &Vec<u32>,
    rising: bool,
    id: Id,
) -> Result<(), Memory>
    requires rises { IdsRiseIf rising entries.old }
    ensures span_data { all_data entries.new ≡ all_data entries.old }
    ensures room { OnOk result (RoomForLink id (rooms entries.new)) }
    ensures ids { entry_ids entries.new ≡ entry_ids entries.old }
{
    match find(entries, places, rising, id) {
        Some(place) => match &mut entries[place].state {
            Some(state) => state.reserve_room(0, 0, 1),
            None => Ok(()),
        },
        None => Ok(()),
    }
}

fn apply(
    entries: &mut [Entry],
    places: &Vec<u32>,
    rising: bool,
    id: Id,
    at: u64,
    op: Op,
) -> Option<Result<OpReply, Memory>>
    requires rises { IdsRiseIf rising entries.old }
    ensures did { AppliesIn (all_data entries.old) id at op result (all_data entries.new) }
    ensures ids { entry_ids entries.new ≡ entry_ids entries.old }
{
    match find(entries, places, rising, id) {
        Some(place) => match &mut entries[place].state {
            Some(state) => Some(state.apply(at, op)),
            None => unreachable!(),
        },
        None => {
            drop(op);
            None
        }
    }
}

// Takes out the state of a span by the place of its entry, and leaves a gap.
fn take(entries: &mut [Entry], id: Id, place: usize) -> SpanState
    requires { position (is_of_id id) entries.old ≡ Some place }
    ensures span_data { data_at id (all_data entries.old) ≡ Some result.span_data }
    ensures rest { all_data entries.new ≡ remove_entry (is_id id) (all_data entries.old) }
    ensures ids { entry_ids entries.new ≡ entry_ids entries.old }
{
    match entries[place].state.take() {
        Some(state) => state,
        None => unreachable!(),
    }
}

// Moves the states together where gaps outnumber them: each gap then costs little, whichever spans are taken out.
fn close_gaps(entries: &mut Vec<Entry>, known: usize)
    ensures span_data { all_data entries.new.items ≡ all_data entries.old.items }
    ensures rises { IdsRiseIf true entries.old.items → IdsRiseIf true entries.new.items }
{
    if known < entries.len() / 2 {
        entries.retain(|entry| entry.state.is_some());
    }
}
