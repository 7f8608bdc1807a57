//! Values by the numbers that name them, each given once and spent once.
//!
//! All turns on `Slots::take`: what is spent leaves four bytes behind, so what is kept grows with the values that are there.
#![tactic(auto)]

ghost use Rattle.std.specs.Prelude.{◌≡◌, ◌<◌, ◌≤◌, ◌^◌, ◌++◌, ◌∷◌, [], true, is_some, Some, None, OnOk, option_map, map, length, slice_index_or, slice_set, vec_capacity};
ghost use Rattle.std.specs.Fn.{FnOnceReturnsAt};
ghost use Rattle.sparse_slots.specs.Slots.{value_at, AreLinked, TakesIf};

use otel_base::memory::Memory;
use std::alloc::Global;
use std::marker::Model;
use trace_base::discard::Discard;

// As many values may be there at once, since a place is counted in four bytes.
const MAX_LIVE: usize = 4_294_967_295;

/// Values by their numbers, which are given in turn from 0. Each is there until it is taken out.
pub struct Slots<T> {
    // Where the value of each number stands, counted from 1; 0 where none does.
    places: Vec<u32>,
    // The values that are there, each with its number, in no order.
    live: Vec<(u64, T)>,
}

impl<T> Model for Slots<T> {
    ghost use Rattle.std.specs.Prelude.{◌-◌, map, min, length, vec_capacity};
    ghost use Rattle.sparse_slots.specs.Slots.{SlotsValue, value_at, AreLinked};
    ghost use Rattle.sparse_slots.specs.declared.TheConstants.{MAX_LIVE};

    ghost Value = { SlotsValue T };

    ghost view = { λ s. record {
      items = map (value_at s.live.items) s.places.items;
      room = vec_capacity s.places - length s.places.items;
      value_room = min MAX_LIVE (vec_capacity s.live) - length s.live.items;
    } };

    ghost invariant = { λ s. AreLinked s.places.items s.live.items };
}

impl<T> Slots<T> {
    /// No numbers, which take no memory yet.
    pub fn new(alloc: Global) -> Slots<T>
        ensures items { result.items ≡ [] }
    {
        Slots {
            places: Vec::new(alloc),
            live: Vec::new(alloc),
        }
    }

    /// How many numbers are given.
    pub fn len(&self) -> usize
        ensures value { result ≡ length self.now.items }
        ensures most { result < 2 ^ 63 }
    {
        self.places.len()
    }

    /// The value of a number, if it is there.
    pub fn get(&self, number: u64) -> Option<&T>
        ensures { option_map (λ x. x.now) result ≡ slice_index_or self.now.items number None }
    {
        value_at(&self.live, *self.places.get(number as usize)?)
    }

    /// The value of a number that is there.
    pub fn at(&self, number: u64) -> &T
        requires { is_some (slice_index_or self.now.items number None) ≡ true }
        ensures { slice_index_or self.now.items number None ≡ Some result.now }
    {
        let (_, value) = &self.live[self.places[number as usize] as usize - 1];
        value
    }

    /// Takes room for a number more, and for its value.
    pub fn reserve(&mut self) -> Result<(), Memory>
        ensures items { self.new.items ≡ self.old.items }
        ensures room { OnOk result (0 < self.new.room) }
        ensures value_room { OnOk result (0 < self.new.value_room) }
    {
        if self.live.len() >= MAX_LIVE {
            return Err(Memory);
        }
        self.places.reserve(1)?;
        self.live.reserve(1)?;
        Ok(())
    }

    /// Gives the next number to a value, in the room that there is.
    pub fn push_reserved(&mut self, value: T)
        requires room { 0 < self.old.room }
        requires value_room { 0 < self.old.value_room }
        ensures { self.new.items ≡ self.old.items ++ Some value ∷ [] }
    {
        self.live.push_reserved((self.places.len() as u64, value));
        self.places.push_reserved(self.live.len() as u32);
    }

    /// Passes over the next number, in the room that there is.
    pub fn skip(&mut self)
        requires { 0 < self.old.room }
        ensures { self.new.items ≡ self.old.items ++ None ∷ [] }
    {
        self.places.push_reserved(0);
    }

    /// Takes out the value of a number, if it is there.
    pub fn take(&mut self, number: u64) -> Option<T>
        ensures value { result ≡ slice_index_or self.old.items number None }
        ensures spent { self.new.items ≡ slice_set self.old.items number None }
        ensures room { self.new.room ≡ self.old.room }
        ensures value_room { self.old.value_room ≤ self.new.value_room }
    {
        let place = *self.places.get(number as usize)?;
        if place == 0 {
            return None;
        }
        Some(take_at(&mut self.places, &mut self.live, number, place))
    }

    /// Takes out the value of a number, if it is there and a test lets it go. Else the test's error, and the value stays.
    pub fn take_if<E, F: FnOnce(&T) -> Result<(), E>>(
        &mut self,
        number: u64,
        test: F,
    ) -> Option<Result<T, E>>
        requires { F.IsAlwaysCallable test }
        ensures { TakesIf (FnOnceReturnsAt F.FnOnce test) number self.old.items result self.new.items }
    {
        let place = *self.places.get(number as usize)?;
        if let Err(error) = ask(test, value_at(&self.live, place)?) {
            return Some(Err(error));
        }
        Some(Ok(take_at(&mut self.places, &mut self.live, number, place)))
    }
}

// The value at a place, which is counted from 1.
fn value_at<T>(live: &Vec<(u64, T)>, place: u32) -> Option<&T>
    ensures { option_map (λ x. x.now) result ≡ value_at live.now.items place }
{
    if place == 0 {
        return None;
    }
    let (_, value) = live.get(place as usize - 1)?;
    Some(value)
}

// What a test says of a value.
fn ask<T, E, F: FnOnce(&T) -> Result<(), E>>(test: F, value: &T) -> Result<(), E>
    requires { F.IsAlwaysCallable test }
    ensures { FnOnceReturnsAt F.FnOnce test value.now result }
{
    test(value)
}

// Takes out the value that stands at the place of a number.
fn take_at<T>(places: &mut Vec<u32>, live: &mut Vec<(u64, T)>, number: u64, place: u32) -> T
    requires linked { AreLinked places.old.items live.old.items }
    requires placed { slice_index_or places.old.items number 0 ≡ place }
    requires there { 0 < place }
    ensures value { slice_index_or (map (value_at live.old.items) places.old.items) number None ≡ Some result }
    ensures linked { AreLinked places.new.items live.new.items }
    ensures spent { map (value_at live.new.items) places.new.items
        ≡ slice_set (map (value_at live.old.items) places.old.items) number None }
    ensures places { length places.new.items ≡ length places.old.items }
    ensures live { length live.new.items ≤ length live.old.items }
    ensures room { vec_capacity places.new ≡ vec_capacity places.old }
    ensures value_room { vec_capacity live.new ≡ vec_capacity live.old }
{
    places[number as usize] = 0;
    let index = place as usize - 1;
    let (_, value) = live.swap_remove(index);
    if let Some((moved, _)) = live.get(index) {
        // The last of them stands there now.
        places[*moved as usize] = place;
    }
    value
}

/// Each value that is there is given up.
impl<T: Discard> Discard for Slots<T> {
    fn discard(self) {
        let Slots { places: _, live } = self;
        let mut left = live;
        while let Some((_, value)) = left.pop() {
            value.discard();
        }
        left.destroy_empty();
    }
}
