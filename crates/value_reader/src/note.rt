//! Notes of the values in place.
ghost use Rattle.std.specs.Prelude.{◌≡◌, ◌+◌, ◌∷◌, length};
ghost use Rattle.std.specs.Arc.{arc_value};
ghost use Rattle.left_right.specs.Sides.{view};
ghost use Rattle.value_reader.specs.Knowing.{IsLast};

use crate::numbered::Numbered;
use crate::order::OrderedReader;
use crate::reader::Origin;
use std::alloc::Global;
use std::marker::Model;
use std::snapshot::Snapshot;
use std::sync::Arc;

/// What a writer had put in place when it was told, for a reader to learn. It may be dropped.
#[derive(Drop)]
pub struct ValueNote<T: Drop> {
    pub(crate) origin: Snapshot<Origin<T>>,
    pub(crate) reader: OrderedReader<T>,
    pub(crate) last: Arc<Numbered<T>, Global>,
}

impl<T: Drop> Model for ValueNote<T> {
    ghost use Rattle.std.specs.Prelude.{◌∷◌};
    ghost use Rattle.std.specs.Arc.{arc_value};
    ghost use Rattle.value_reader.specs.Knowing.{WriterValue, IsLast};

    ghost Value = { WriterValue T };

    ghost view = { λ n. record { table = (arc_value n.origin.value.factory.value.board).shared.table_id; values = n.origin.value.first.value ∷ n.reader.place.me.0.client.seen } };

    ghost invariant = { λ n. IsLast n.origin.value.first.value n.reader.place.me.0.client (arc_value n.last) };
}

impl<T: Drop> ValueNote<T> {
    /// A note of what this reader has seen, with the last of that.
    pub fn new(
        origin: &Origin<T>,
        reader: OrderedReader<T>,
        last: Arc<Numbered<T>, Global>,
    ) -> ValueNote<T>
        requires { IsLast origin.now.first.value (view reader.place) (arc_value last) }
        ensures table { result.table ≡ (arc_value origin.now.factory.value.board).shared.table_id }
        ensures values { result.values ≡ origin.now.first.value ∷ (view reader.place).seen }
    {
        ValueNote {
            origin: Snapshot::of(origin),
            reader,
            last,
        }
    }

    /// The number of the value that was put in place last.
    pub fn number(&self) -> u64
        ensures { result + 1 ≡ length self.now.values }
    {
        self.last.number
    }
}
