//! The spans that are live, each in a slot that is used again after its span closed.
ghost use Rattle.std.specs.Prelude.{◌≡◌, ◌==◌, ◌+◌, ◌-◌, ◌<◌, ◌≤◌, ◌^◌, ◌∷◌, [], ◌++◌, ℕ, length, take, max, slice_index_or, slice_set, vec_len, vec_capacity, Some, None, OnOk, OnErr, IfSome, IfOk, if◌then◌else◌};
ghost use Rattle.trace_base.specs.Spans.{Span, no_span, span_at, with_hold, with_hold_of_child, without_hold, parent_to_release};
ghost use Rattle.trace_base.specs.Conditions.{IsLive, HasFewHolds};
ghost use Rattle.span_registry.specs.Tabling.{SlotValue, IsPlace, place_in, slot_value_at, live_span_count};

use otel_base::memory::Memory;
use std::alloc::Global;
use std::marker::Model;
use trace_base::callsite::SiteId;
use trace_base::span::{Closing, Id};

// So many slots there are at most, since a place is counted in four bytes.
const MAX_SLOTS: usize = 4_294_967_295;

// What is kept of a span. A free slot has no holds.
#[derive(Drop)]
struct Slot {
    id: Id,
    holds: u64,
    parent: Option<Id>,
    site: SiteId,
}

impl Model for Slot {
    ghost use Rattle.span_registry.specs.Tabling.{SlotValue};

    ghost Value = { SlotValue };

    ghost view = { λ s. record { id = s.id; span = record { holds = s.holds; parent = s.parent; site = s.site } } };
}

// The spans that were made, by id; of one that closed nothing is kept.
#[derive(Drop)]
pub(crate) struct Table {
    // How many were made.
    count: u64,
    // Where the slot of each live span stands, counted from 1; 0 where the span closed.
    places: Vec<u32>,
    slots: Vec<Slot>,
    // The places of the slots that are free, with room for all, so that a close takes no memory.
    free: Vec<usize>,
}

impl Model for Table {
    ghost use Rattle.std.specs.Prelude.{vec_capacity};
    ghost use Rattle.span_registry.specs.Tabling.{SlotTableValue, slot_table_value, place_in, IsSlotTable};

    ghost Value = { SlotTableValue };

    ghost view = { λ t. slot_table_value t.count (place_in t.places.items) t.slots.items };

    ghost invariant = { λ t. IsSlotTable t.count (place_in t.places.items) t.slots.items t.free.items (vec_capacity t.free) };
}

impl Table {
    // A table without spans, which takes no memory yet.
    pub(crate) fn new(alloc: Global) -> Table
        ensures { result ≡ record { made = []; slots = 0 } }
    {
        Table {
            count: 0,
            places: Vec::new(alloc),
            slots: Vec::new(alloc),
            free: Vec::new(alloc),
        }
    }

    // How many slots there are.
    pub(crate) fn slots(&self) -> u64
        ensures { result ≡ self.now.slots }
    {
        self.slots.len() as u64
    }

    // How many holds a span has, 0 where it isn't live.
    pub(crate) fn holds(&self, id: Id) -> u64
        ensures { result ≡ (span_at self.now.made id).holds }
    {
        match self.slot(id) {
            Some(slot) => slot.holds,
            None => 0,
        }
    }

    // A span's parent, none where it isn't live.
    pub(crate) fn parent(&self, id: Id) -> Option<Id>
        ensures { result ≡ (span_at self.now.made id).parent }
    {
        match self.slot(id) {
            Some(slot) => slot.parent,
            None => None,
        }
    }

    // The site of a span's callsite.
    pub(crate) fn site(&self, id: Id) -> SiteId
        requires { IsLive self.now.made id }
        ensures { result ≡ (span_at self.now.made id).site }
    {
        let Some(slot) = self.slot(id) else {
            unreachable!()
        };
        slot.site
    }

    // The slot of a span, none where it isn't live.
    fn slot(&self, id: Id) -> Option<&Slot>
        ensures some { IfSome result (λ slot. slot.now.span ≡ span_at self.now.made id) }
        ensures none { result ≡ None → span_at self.now.made id ≡ no_span }
    {
        match find(&self.places, id) {
            Some(place) => Some(&self.slots[place]),
            None => None,
        }
    }

    // Adds a span, which holds its parent.
    pub(crate) fn add(&mut self, above: Option<Id>, site: SiteId) -> Result<Id, Memory>
        requires live { IfSome above (IsLive self.old.made) }
        requires few_holds { IfSome above (HasFewHolds self.old.made) }
        requires few { length self.old.made < 2 ^ 63 }
        ensures id { IfOk result (λ id. id ≡ length self.old.made) }
        ensures ok { OnOk result
            (self.new.made ≡ with_hold_of_child self.old.made above ++ record
            { holds = 1; parent = above; site = site } ∷ []) }
        ensures slots { OnOk result (self.new.slots ≡ max self.old.slots (live_span_count self.new.made)) }
        ensures memory_leaves { OnErr result (self.new ≡ self.old) }
    {
        let id = self.push(&above, site)?;
        self.hold_parent(above);
        Ok(id)
    }

    // Adds a span without a hold of its parent.
    fn push(&mut self, above: &Option<Id>, site: SiteId) -> Result<Id, Memory>
        requires { length self.old.made < 2 ^ 63 }
        ensures id { IfOk result (λ id. id ≡ length self.old.made) }
        ensures ok { OnOk result
            (self.new.made ≡ self.old.made ++ record { holds = 1; parent = above.now; site = site } ∷ []) }
        ensures slots { OnOk result (self.new.slots ≡ max self.old.slots (live_span_count self.new.made)) }
        ensures memory_leaves { OnErr result (self.new ≡ self.old) }
    {
        let id = Id::at(self.count);
        let place = choose(&mut self.slots, &mut self.free)?;
        put(&mut self.places, id, place)?;
        let slot = Slot {
            id,
            holds: 1,
            parent: *above,
            site,
        };
        fill(&mut self.slots, &mut self.free, slot);
        self.count += 1;
        Ok(id)
    }

    // One hold more of a parent, if there is one.
    fn hold_parent(&mut self, above: Option<Id>)
        requires live { IfSome above (IsLive self.old.made) }
        requires few_holds { IfSome above (HasFewHolds self.old.made) }
        ensures made { self.new.made ≡ with_hold_of_child self.old.made above }
        ensures slots { self.new.slots ≡ self.old.slots }
    {
        if let Some(parent) = above {
            self.hold(parent);
        }
    }

    // One hold more.
    pub(crate) fn hold(&mut self, id: Id)
        requires live { IsLive self.old.made id }
        requires few { HasFewHolds self.old.made id }
        ensures { self.new ≡ record self.old { made = with_hold self.old.made id } }
    {
        let Some(place) = find(&self.places, id) else {
            unreachable!()
        };
        let slot = &mut self.slots[place];
        slot.holds += 1;
    }

    // One hold less; with the last one the span closes, and its slot is free.
    pub(crate) fn release(&mut self, id: Id) -> Closing
        requires { IsLive self.old.made id }
        ensures made { self.new ≡ record self.old { made = without_hold self.old.made id } }
        ensures closed { result.closed ≡ ((span_at self.old.made id).holds == 1) }
        ensures next { result.next ≡ parent_to_release self.old.made id }
    {
        let Some(place) = find(&self.places, id) else {
            unreachable!()
        };
        let slot = &mut self.slots[place];
        slot.holds -= 1;
        if slot.holds > 0 {
            return Closing {
                closed: false,
                next: None,
            };
        }
        let next = slot.parent;
        take_out(&mut self.places, id);
        let Ok(()) = self.free.push(place) else {
            unreachable!()
        };
        Closing { closed: true, next }
    }
}

// The place of a span's slot.
fn find(places: &Vec<u32>, id: Id) -> Option<usize>
    ensures { result ≡ place_in places.now.items id }
{
    let place = *places.get(id.place() as usize)? as usize;
    if place == 0 {
        return None;
    }
    Some(place - 1)
}

// A place for a span more.
fn put(places: &mut Vec<u32>, id: Id, place: usize) -> Result<(), Memory>
    ensures ok { OnOk result
        ((q : ℕ) → place_in places.new.items q ≡ (if id == q then Some place else place_in places.old.items q)) }
    ensures memory_leaves { OnErr result ((q : ℕ) → place_in places.new.items q ≡ place_in places.old.items q) }
{
    if place >= MAX_SLOTS {
        return Err(Memory);
    }
    reserve_place(places, id)?;
    places[id.place() as usize] = place as u32 + 1;
    Ok(())
}

// Room for the place of a span.
fn reserve_place(places: &mut Vec<u32>, id: Id) -> Result<(), Memory>
    ensures same { (q : ℕ) → slice_index_or places.new.items q 0 ≡ slice_index_or places.old.items q 0 }
    ensures ok { OnOk result (id < length places.new.items) }
{
    let at = id.place() as usize;
    if places.len() <= at {
        places.resize(at, 0)?;
        places.push(0)?;
    }
    Ok(())
}

// The place of a span less.
fn take_out(places: &mut Vec<u32>, id: Id)
    ensures { (q : ℕ) → place_in places.new.items q ≡ (if id == q then None else place_in places.old.items q) }
{
    let at = id.place() as usize;
    if at < places.len() {
        places[at] = 0;
    }
}

// The place of the last slot that is free, else of a new one, for which it takes all memory.
fn choose(slots: &mut Vec<Slot>, free: &mut Vec<usize>) -> Result<usize, Memory>
    ensures used { IfOk result
        (λ place. 0 < length free.old.items
        → place ≡ slice_index_or free.old.items (length free.old.items - 1) 0) }
    ensures new { IfOk result (λ place. length free.old.items ≡ 0 → place ≡ length slots.old.items) }
    ensures slots { slots.new.items ≡ slots.old.items }
    ensures free { free.new.items ≡ free.old.items }
    ensures capacity { vec_capacity free.old ≤ vec_capacity free.new }
    ensures room { OnOk result (length free.old.items ≡ 0 → vec_len slots.new < vec_capacity slots.new) }
    ensures free_room { OnOk result
        (length free.old.items ≡ 0 → length slots.old.items + 1 ≤ vec_capacity free.new) }
{
    if free.len() > 0 {
        return Ok(free[free.len() - 1]);
    }
    slots.reserve(1)?;
    free.reserve(slots.len() + 1)?;
    Ok(slots.len())
}

// Puts a span into the last slot that is free, else into a new one.
fn fill(slots: &mut Vec<Slot>, free: &mut Vec<usize>, slot: Slot)
    requires within { 0 < length free.old.items
        → slice_index_or free.old.items (length free.old.items - 1) 0 < length slots.old.items }
    requires room { length free.old.items ≡ 0 → vec_len slots.old < vec_capacity slots.old }
    ensures used { 0 < length free.old.items
        → slots.new.items ≡ slice_set slots.old.items
        (slice_index_or free.old.items (length free.old.items - 1) 0) slot }
    ensures new { length free.old.items ≡ 0 → slots.new.items ≡ slots.old.items ++ slot ∷ [] }
    ensures free { free.new.items ≡ take (length free.old.items - 1) free.old.items }
    ensures capacity { vec_capacity free.new ≡ vec_capacity free.old }
{
    if free.len() > 0 {
        let place = free[free.len() - 1];
        free.pop();
        slots[place] = slot;
        return;
    }
    let Ok(()) = slots.push(slot) else {
        unreachable!()
    };
}
