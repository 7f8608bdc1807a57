//! Notes of the texts in force.
ghost use Rattle.std.specs.Prelude.{◌≡◌, ◌+◌, length};

use event_gate::TextFilter;
use shared_value::ValueNote;
use std::marker::Model;

/// What a writer had put in force when it was told, for a gate to learn. It may be dropped.
#[derive(Drop)]
pub struct GateNote {
    pub(crate) note: ValueNote<TextFilter>,
}

impl Model for GateNote {
    ghost use Rattle.shared_gate.specs.Gates.{GateWriterValue};

    ghost Value = { GateWriterValue };

    ghost view = { λ n. record { table = n.note.table; texts = n.note.values } };
}

impl GateNote {
    /// The number of the text that was put in force last.
    pub fn reload(&self) -> u64
        ensures { result + 1 ≡ length self.now.texts }
    {
        self.note.number()
    }
}
