//! The guards of entries, with the number of open ones beside each handle.
ghost use Rattle.std.specs.Prelude.{◌≡◌, ℕ, ◌<◌, ◌+◌, ◌-◌, ◌^◌, ◌&&◌, nat_lt, ◌++◌, ◌∷◌, [], Some, None, OnOk, OnErr, length, count_by, slice_index_or, slice_set};
ghost use Rattle.span_script.specs.Slots.{is_named_by_guard, is_shared_by, names_handle};
ghost use Rattle.trace_pipeline.specs.Spending.{entry_check, lane_check, spending_result};

use otel_base::memory::Memory;
use span_script::reply::{Refusal, What};
use span_script::slots::Guard;
use sparse_slots::Slots;
use std::alloc::Global;
use std::marker::Model;
use trace_base::discard::Discard;

/// The guards of entries, by their numbers. The open ones of each handle are counted, so that nothing searches them.
pub struct Guards {
    // None where one is spent, or is an attach's.
    slots: Slots<Guard>,
    // How many of them name each handle, by its number.
    counts: Vec<u32>,
}

impl Model for Guards {
    ghost use Rattle.std.specs.Prelude.{length};
    ghost use Rattle.trace_pipeline.specs.Guards.{GuardsValue, GuardsAreCounted};

    ghost Value = { GuardsValue };

    ghost view = { λ g. record {
      items = g.slots.items;
      room = g.slots.room;
      value_room = g.slots.value_room;
      counted = length g.counts.items;
    } };

    ghost invariant = { λ g. GuardsAreCounted g.slots.items g.counts.items };
}

impl Guards {
    /// No guards, which take no memory yet.
    pub fn new(alloc: Global) -> Guards
        ensures items { result.items ≡ [] }
    {
        Guards {
            slots: Slots::new(alloc),
            counts: Vec::new(alloc),
        }
    }

    /// How many numbers of guards are given.
    pub fn len(&self) -> usize
        ensures { result ≡ length self.now.items }
    {
        self.slots.len()
    }

    /// Whether an open guard names the handle.
    pub fn is_borrowed(&self, handle: u64) -> bool
        ensures { result ≡ is_named_by_guard self.now.items handle }
    {
        count_at(&self.counts, handle) > 0
    }

    /// Takes room for a number more.
    pub fn reserve(&mut self) -> Result<(), Memory>
        ensures items { self.new.items ≡ self.old.items }
        ensures ok { OnOk result (0 < self.new.room) }
    {
        self.slots.reserve()?;
        Ok(())
    }

    /// Takes room for a guard of a handle.
    pub fn reserve_for(&mut self, handle: u64) -> Result<(), Memory>
        ensures items { self.new.items ≡ self.old.items }
        ensures room { OnOk result (0 < self.new.room) }
        ensures value_room { OnOk result (0 < self.new.value_room) }
        ensures counted { OnOk result (handle < self.new.counted) }
        ensures few { OnOk result (count_by (names_handle handle) self.new.items + 1 < 2 ^ 32) }
    {
        if count_at(&self.counts, handle) == u32::MAX {
            return Err(Memory);
        }
        reserve_count(&mut self.counts, handle)?;
        self.slots.reserve()?;
        Ok(())
    }

    /// Puts a guard more into its room.
    pub fn push_reserved(&mut self, guard: Guard)
        requires room { 0 < self.old.room }
        requires value_room { 0 < self.old.value_room }
        requires counted { guard.handle < self.old.counted }
        requires few { count_by (names_handle guard.handle) self.old.items + 1 < 2 ^ 32 }
        ensures { self.new.items ≡ self.old.items ++ Some guard ∷ [] }
    {
        count_more(&mut self.counts, guard.handle);
        self.slots.push_reserved(guard);
    }

    /// Passes over a number, which is an attach's guard, in the room that there is.
    pub fn skip(&mut self)
        requires { 0 < self.old.room }
        ensures { self.new.items ≡ self.old.items ++ None ∷ [] }
    {
        self.slots.skip();
    }

    /// Takes out an open guard on the lane at a place. `UnknownName` where it isn't there, `InUse` where it owns a handle
    /// that another one names, and `WrongLane` where it is of another lane.
    pub fn take_on_lane(&mut self, number: u64, place: u64) -> Result<Guard, Refusal>
        ensures value { result ≡ spending_result (λ guard. entry_check (is_shared_by self.old.items guard) place guard)
            (slice_index_or self.old.items number None) }
        ensures spent { OnOk result (self.new.items ≡ slice_set self.old.items number None) }
        ensures leaves { OnErr result (self.new.items ≡ self.old.items) }
    {
        let guard = take_entry(&mut self.slots, &self.counts, number, place)?;
        count_less(&mut self.counts, guard.handle);
        Ok(guard)
    }
}

/// Their entries stay open for good.
impl Discard for Guards {
    fn discard(self) {
        let Guards { slots, counts: _ } = self;
        slots.discard();
    }
}

// Takes out the guard of a number, if it is there and the counts of the open ones let it be spent on the lane at a place.
fn take_entry(
    slots: &mut Slots<Guard>,
    counts: &Vec<u32>,
    number: u64,
    place: u64,
) -> Result<Guard, Refusal>
    ensures value { result ≡ spending_result (λ guard. entry_check (guard.owns && nat_lt 1 (slice_index_or counts.now.items guard.handle 0))
        place guard) (slice_index_or slots.old.items number None) }
    ensures spent { OnOk result (slots.new.items ≡ slice_set slots.old.items number None) }
    ensures leaves { OnErr result (slots.new.items ≡ slots.old.items) }
{
    match slots.take_if(number, |guard| check_entry(counts, place, guard)) {
        Some(taken) => taken,
        None => Err(Refusal::UnknownName { what: What::Guard }),
    }
}

// Whether a guard is spent on the lane at a place, by the counts of the open ones: else `InUse` or `WrongLane`.
fn check_entry(counts: &Vec<u32>, place: u64, guard: &Guard) -> Result<(), Refusal>
    ensures { result ≡ entry_check (guard.now.owns && nat_lt 1 (slice_index_or counts.now.items guard.now.handle 0)) place
        guard.now }
{
    if guard.owns && count_at(counts, guard.handle) > 1 {
        return Err(Refusal::InUse);
    }
    check_lane(place, guard.place)
}

/// Whether a guard is spent on the lane at a place, which is its own: else `WrongLane`.
pub fn check_lane(place: u64, own: u64) -> Result<(), Refusal>
    ensures { result ≡ lane_check place own }
{
    if own != place {
        return Err(Refusal::WrongLane { lane_place: own });
    }
    Ok(())
}

// A handle's count, 0 past the end.
fn count_at(counts: &Vec<u32>, handle: u64) -> u32
    ensures { result ≡ slice_index_or counts.now.items handle 0 }
{
    match counts.get(handle as usize) {
        Some(count) => *count,
        None => 0,
    }
}

// A count for a handle, if it has none.
fn reserve_count(counts: &mut Vec<u32>, handle: u64) -> Result<(), Memory>
    ensures counts { (n : ℕ) → slice_index_or counts.new.items n 0 ≡ slice_index_or counts.old.items n 0 }
    ensures ok { OnOk result (handle < length counts.new.items) }
{
    let place = handle as usize;
    if counts.len() <= place {
        counts.resize(place, 0)?;
        counts.push(0)?;
    }
    Ok(())
}

fn count_more(counts: &mut Vec<u32>, handle: u64)
    requires within { handle < length counts.old.items }
    requires few { slice_index_or counts.old.items handle 0 + 1 < 2 ^ 32 }
    ensures { counts.new.items ≡ slice_set counts.old.items handle (slice_index_or counts.old.items handle 0 + 1) }
{
    counts[handle as usize] += 1;
}

fn count_less(counts: &mut Vec<u32>, handle: u64)
    requires { 0 < slice_index_or counts.old.items handle 0 }
    ensures { counts.new.items ≡ slice_set counts.old.items handle (slice_index_or counts.old.items handle 0 - 1) }
{
    counts[handle as usize] -= 1;
}
