//! Readers of the value in place.
ghost use Rattle.std.specs.Prelude.{◌≡◌, ◌+◌, ◌<◌, ◌≤◌, [], ◌==◌, if◌then◌else◌, length, slice_get, Some, option_map};
ghost use mathlib.Core.List.{IsPrefix};
ghost use Rattle.std.specs.Arc.{arc_value};
ghost use Rattle.left_right.specs.Sides.{view};
ghost use Rattle.value_reader.specs.Knowing.{FindsLater, IsFirst, IsNewReader};

use crate::note::ValueNote;
use crate::numbered::Numbered;
use crate::order::{Looks, OrderedFactory, OrderedReader};
use std::alloc::Global;
use std::marker::Model;
use std::snapshot::Snapshot;
use std::sync::Arc;
use std::sync::atomic::Ordering;

/// Where readers, their writer and its notes come from: whose they are, and the value that was first in place.
#[derive(Drop)]
pub struct Origin<T: Drop> {
    pub factory: Snapshot<OrderedFactory<T>>,
    pub first: Snapshot<T>,
}

/// Has the value that was put in place last, as far as it has seen. It takes no lock.
pub struct ValueReader<T: Drop> {
    pub(crate) origin: Snapshot<Origin<T>>,
    // None if it knows the first value alone.
    pub(crate) reader: Option<OrderedReader<T>>,
    pub(crate) last: Arc<Numbered<T>, Global>,
}

impl<T: Drop> Drop for ValueReader<T> {
    fn drop(self) {
        let ValueReader {
            origin: _origin,
            reader: _reader,
            last: _last,
        } = self;
    }
}

impl<T: Drop> Model for ValueReader<T> {
    ghost use Rattle.std.specs.Prelude.{◌≡◌, ◌∷◌, Some, slice_get, option_map};
    ghost use Rattle.std.specs.Arc.{arc_value};
    ghost use Rattle.value_reader.specs.Knowing.{ReaderValue, seen_by};

    ghost Value = { ReaderValue T };

    ghost view = { λ r. record { table = (arc_value r.origin.value.factory.value.board).shared.table_id; values = r.origin.value.first.value ∷ seen_by (option_map (λ s. s.place.me.0.client) r.reader); number = (arc_value r.last).number } };

    ghost invariant = { λ r. slice_get (r.origin.value.first.value ∷ seen_by (option_map (λ s. s.place.me.0.client) r.reader)) (arc_value r.last).number ≡ Some (arc_value r.last).value };
}

impl<T: Drop> ValueReader<T> {
    /// A reader that has the first value, of the writer that this makes readers for.
    pub fn new(
        factory: &OrderedFactory<T>,
        origin: &Origin<T>,
        first: Arc<Numbered<T>, Global>,
    ) -> ValueReader<T>
        requires factory { (arc_value factory.now.board).shared.table_id ≡ (arc_value origin.now.factory.value.board).shared.table_id }
        requires first { IsFirst origin.now.first.value (arc_value first) }
        ensures { IsNewReader (arc_value origin.now.factory.value.board).shared.table_id origin.now.first.value result }
    {
        ValueReader {
            origin: Snapshot::of(origin),
            reader: factory.reader().ok(),
            last: first,
        }
    }

    /// The number of the value that it has: 0 for the first.
    pub fn number(&self) -> u64
        ensures { result ≡ self.now.number }
    {
        self.last.number
    }

    /// The value that it has.
    pub fn value(&self) -> &T
        ensures { slice_get self.now.values self.now.number ≡ Some result.now }
    {
        &self.last.value
    }

    /// What was made under the value of a number: the list where the reader has that one, else none of it.
    pub fn list_under<'a, X>(&self, number: u64, list: &'a [X]) -> &'a [X]
        ensures { result.now ≡ (if number == self.now.number then list.now else []) }
    {
        if number == self.last.number {
            list
        } else {
            &[]
        }
    }

    /// Takes over what is in place, where it is later than what it has. It takes no memory, and waits for nobody; as
    /// long as what it has isn't marked as replaced it reads one word alone.
    #[tactic(auto, using(crate::proofs::Firsts::stays_at))]
    pub fn look(&mut self)
        ensures table { self.new.table ≡ self.old.table }
        ensures begins { IsPrefix self.old.values self.new.values }
        ensures first { slice_get self.new.values 0 ≡ slice_get self.old.values 0 }
        ensures later { self.old.number ≤ self.new.number }
    {
        if self.last.is_replaced.load(Ordering::SeqCst) {
            if let Some(reader) = self.reader.take() {
                let (reader, later) = find(reader, self.last.number);
                self.reader = Some(reader);
                if let Some(later) = later {
                    self.last = later;
                }
            }
        }
    }

    /// Takes in what the reader's own writer told. From now on it has no older value than the note's; and where it had
    /// none past the note's, what it has seen is then what the writer had put in place.
    pub fn learn(&mut self, note: ValueNote<T>)
        requires { note.table ≡ self.old.table }
        ensures table { self.new.table ≡ self.old.table }
        ensures later { (self.old.number ≤ self.new.number) × (length note.values ≤ self.new.number + 1) }
        ensures begins { self.old.number < length note.values → self.new.values ≡ note.values }
        ensures stays { length note.values ≤ self.old.number → self.new ≡ self.old }
    {
        let ValueNote {
            origin,
            reader: informed,
            last,
        } = note;
        if self.last.number <= last.number {
            self.origin = origin;
            self.reader = Some(informed);
            self.last = last;
        }
    }
}

// Looks at what is in place, and takes it where it is later than this number.
fn find<T: Drop>(
    reader: OrderedReader<T>,
    number: u64,
) -> (OrderedReader<T>, Option<Arc<Numbered<T>, Global>>)
    ensures { FindsLater (view reader.place) (view result.0.place) number (option_map arc_value result.1) }
{
    match reader.enter_as::<Looks>() {
        Ok(reading) => {
            let shown = &reading.get().last;
            let later = if number < shown.number {
                Arc::try_clone(shown).ok()
            } else {
                None
            };
            (reading.leave(), later)
        }
        Err(reader) => (reader, None),
    }
}
