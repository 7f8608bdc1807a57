//! The making of a writer and its readers.
ghost use Rattle.std.specs.Prelude.{◌≡◌, ◌<◌, ◌≤◌, ◌+◌, [], ◌∷◌, All, IfOk, vec_len, vec_capacity};
ghost use Rattle.std.specs.Arc.{arc_value};
ghost use Rattle.left_right.specs.Sides.{view};
ghost use Rattle.value_reader.specs.Order.{in_place};
ghost use Rattle.value_reader.specs.Knowing.{IsNewReader, IsFirst};
ghost use Rattle.shared_value.specs.declared.making.TheConstants.{MAX_READERS};

use crate::order::OrderedWriter;
use crate::writer::{MAX_NOTES, ValueWriter};
use left_right::writer::Writer;
use std::alloc::{AllocError, Global};
use std::snapshot::Snapshot;
use std::sync::Arc;
use value_reader::numbered::{InPlace, Numbered};
use value_reader::order::OrderedFactory;
use value_reader::reader::{Origin, ValueReader};

/// How many readers a writer may have.
pub const MAX_READERS: u64 = 64;

/// Puts a first value in place, which has number 0, and makes its writer and so many readers.
#[tactic(auto, using(crate::proofs::Firsts::all_first))]
pub fn share<T: Drop>(
    alloc: Global,
    first: T,
    readers: u64,
) -> Result<(ValueWriter<T>, Vec<ValueReader<T>>), AllocError>
    requires { (0 < readers) × (readers ≤ MAX_READERS) }
    ensures first { IfOk result (λ r. r.0.values ≡ first ∷ []) }
    ensures count { IfOk result (λ r. vec_len r.1 ≡ readers) }
    ensures readers { IfOk result (λ r. All (IsNewReader r.0.table first) r.1.items) }
{
    let last = Numbered::first(alloc, first)?;
    let copies = copies_of(alloc, &last, readers)?;
    let room = Vec::with_capacity(alloc, readers as usize)?;
    let writer = writer_of(alloc, &last, readers)?;
    // From here on nothing can be refused: without leave to wait the writer can't be ended.
    let factory = writer.factory();
    let origin = Origin {
        factory: Snapshot::of(factory),
        first: Snapshot::of(&last.value),
    };
    let made = readers_of(factory, &origin, copies, room, readers);
    let writer = ValueWriter {
        alloc,
        origin,
        writer,
    };
    Ok((writer, made))
}

// So many times the same.
fn copies_of<T: Drop>(
    alloc: Global,
    last: &Arc<Numbered<T>, Global>,
    readers: u64,
) -> Result<Vec<Arc<Numbered<T>, Global>>, AllocError>
    ensures count { IfOk result (λ c. vec_len c ≡ readers) }
    ensures copies { IfOk result (λ c. All (λ t. arc_value t ≡ arc_value last.now) c.items) }
{
    let copy = Arc::try_clone(last)?;
    let copies = vec![in alloc; copy; readers as usize]?;
    Ok(copies)
}

// A writer that has the first value in place, for so many readers.
fn writer_of<T: Drop>(
    alloc: Global,
    last: &Arc<Numbered<T>, Global>,
    readers: u64,
) -> Result<OrderedWriter<T>, AllocError>
    requires number { (arc_value last.now).number ≡ 0 }
    requires readers { (0 < readers) × (readers ≤ MAX_READERS) }
    ensures { IfOk result (λ w. (in_place w.desk.shown.value ≡ arc_value last.now)
        × ((view w.desk.place).seen ≡ [])) }
{
    let first = InPlace {
        last: Arc::try_clone(last)?,
    };
    let second = InPlace {
        last: Arc::try_clone(last)?,
    };
    Writer::new(alloc, first, second, (readers + MAX_NOTES) as usize)
}

// Readers that know the first value.
fn readers_of<T: Drop>(
    factory: &OrderedFactory<T>,
    origin: &Origin<T>,
    copies: Vec<Arc<Numbered<T>, Global>>,
    room: Vec<ValueReader<T>>,
    readers: u64,
) -> Vec<ValueReader<T>>
    requires factory { (arc_value factory.now.board).shared.table_id ≡ (arc_value origin.now.factory.value.board).shared.table_id }
    requires copies { All (λ t. IsFirst origin.now.first.value (arc_value t)) copies.items }
    requires count { vec_len copies ≡ readers }
    requires none { (room.items ≡ []) × (vec_capacity room ≡ readers) }
    ensures count { vec_len result ≡ readers }
    ensures readers { All (IsNewReader (arc_value origin.now.factory.value.board).shared.table_id origin.now.first.value) result.items }
{
    let mut copies = copies;
    let mut made = room;
    for _ in 0..readers {
        let Some(last) = copies.pop() else {
            unreachable!()
        };
        made.push_reserved(ValueReader::new(factory, origin, last));
    }
    made
}
