//! The writer, which puts values in place.
ghost use Rattle.std.specs.Prelude.{◌≡◌, ◌+◌, ◌++◌, [], ◌∷◌, length, IfOk, OnErr};
ghost use Rattle.std.specs.Arc.{arc_value};
ghost use Rattle.left_right.specs.Sides.{view};
ghost use Rattle.value_reader.specs.Order.{in_place};
ghost use Rattle.shared_value.specs.Puts.{KnowsAll, PutsOrLeaves};

use crate::order::{GivesNote, OrderedWriter, Puts};
use core::mem::replace_with;
use left_right::Absorb;
use std::alloc::{AllocError, Global};
use std::marker::Model;
use std::sync::{Arc, Wait};
use value_reader::note::ValueNote;
use value_reader::numbered::{InPlace, Numbered};
use value_reader::order::OrderedReader;
use value_reader::reader::Origin;

/// How many notes may be there at once.
pub const MAX_NOTES: u64 = 64;

/// Puts values in place for all readers that were made with it. It can't be dropped: end it.
pub struct ValueWriter<T: Drop>
where
    InPlace<T>: Absorb<Arc<Numbered<T>, Global>, State = Numbered<T>>,
{
    pub(crate) alloc: Global,
    pub(crate) origin: Origin<T>,
    pub(crate) writer: OrderedWriter<T>,
}

impl<T: Drop> Model for ValueWriter<T>
where
    InPlace<T>: Absorb<Arc<Numbered<T>, Global>, State = Numbered<T>>,
{
    ghost use Rattle.std.specs.Prelude.{◌∷◌};
    ghost use Rattle.std.specs.Arc.{arc_value};
    ghost use Rattle.value_reader.specs.Order.{in_place};
    ghost use Rattle.value_reader.specs.Knowing.{WriterValue, IsLast};

    ghost Value = { WriterValue T };

    ghost view = { λ w. record { table = (arc_value w.origin.factory.value.board).shared.table_id; values = w.origin.first.value ∷ w.writer.desk.place.me.0.client.seen } };

    ghost invariant = { λ w. IsLast w.origin.first.value w.writer.desk.place.me.0.client (in_place w.writer.desk.shown.value) };
}

impl<T: Drop> ValueWriter<T> {
    /// Puts a value in place behind all others, and answers its number. An error behind the number 2^64 - 1 too. After an
    /// error all is as before. It waits for readers that look.
    pub fn replace<R: Wait>(&mut self, rt: &R, value: T) -> Result<u64, AllocError>
        ensures table { self.new.table ≡ self.old.table }
        ensures put { IfOk result (λ n. (n ≡ length self.old.values)
            × (self.new.values ≡ self.old.values ++ value ∷ [])) }
        ensures leaves { OnErr result (self.new ≡ self.old) }
    {
        let next = self.writer.published().last.next(self.alloc, value)?;
        let number = next.number;
        let put = replace_with(
            &mut self.writer,
            next,
            |writer: OrderedWriter<T>, next: Arc<Numbered<T>, Global>| -> (
                OrderedWriter<T>,
                Result<(), AllocError>,
            )
                requires writer { KnowsAll (view writer.desk.place) writer.desk.shown.value }
                requires next { (arc_value next).number ≡ (in_place writer.desk.shown.value).number + 1 }
                ensures { PutsOrLeaves (view writer.desk.place) writer.desk.shown.value (arc_value next).value result.1 (view result.0.desk.place) result.0.desk.shown.value }
            { put_next(rt, writer, next) },
        );
        put.and(Ok(number))
    }

    /// A note of all that was put in place. An error too where `MAX_NOTES` notes are there.
    pub fn tell(&mut self) -> Result<ValueNote<T>, AllocError>
        ensures same { self.new ≡ self.old }
        ensures told { IfOk result (λ n. (n.table ≡ self.old.table) × (n.values ≡ self.old.values)) }
    {
        let last = Arc::try_clone(&self.writer.published().last)?;
        let reader = informed_reader(&mut self.writer)?;
        Ok(ValueNote::new(&self.origin, reader, last))
    }

    /// Ends the writer. It waits for readers that look. The value in place stays in place.
    pub fn end<R: Wait>(self, rt: &R) {
        let ValueWriter {
            alloc: _,
            origin: _origin,
            writer,
        } = self;
        drop(writer.take(rt));
    }
}

// Puts a value in place, or leaves all as before. It waits for readers of the one that was in place before the last.
fn put_next<T: Drop, R: Wait>(
    rt: &R,
    writer: OrderedWriter<T>,
    next: Arc<Numbered<T>, Global>,
) -> (OrderedWriter<T>, Result<(), AllocError>)
    requires writer { KnowsAll (view writer.desk.place) writer.desk.shown.value }
    requires next { (arc_value next).number ≡ (in_place writer.desk.shown.value).number + 1 }
    ensures { PutsOrLeaves (view writer.desk.place) writer.desk.shown.value (arc_value next).value result.1
        (view result.0.desk.place) result.0.desk.shown.value }
{
    let mut writer = writer;
    match writer.append(next) {
        Ok(()) => writer.publish_as::<Puts, R>(rt),
        Err(_) => (writer, Err(AllocError)),
    }
}

// A reader that has seen what the writer has.
fn informed_reader<T: Drop>(writer: &mut OrderedWriter<T>) -> Result<OrderedReader<T>, AllocError>
    ensures kept { (view writer.new.desk.place ≡ view writer.old.desk.place)
        × (writer.new.desk.shown ≡ writer.old.desk.shown) }
    ensures told { IfOk result (λ r. view r.place ≡ view writer.old.desk.place) }
{
    let mut reader = writer.factory().reader()?;
    reader.learn::<GivesNote>(writer.tell::<GivesNote>());
    Ok(reader)
}
