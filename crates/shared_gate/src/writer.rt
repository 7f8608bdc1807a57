//! The writer, which puts texts in force.
ghost use Rattle.std.specs.Prelude.{◌≡◌, ◌++◌, [], ◌∷◌, length, IfOk, OnErr};
ghost use Rattle.event_gate.specs.Rules.{GivesGate};

use crate::note::GateNote;
use event_gate::{GateError, TextFilter};
use otel_base::memory::Memory;
use shared_value::{MAX_READERS, ValueWriter};
use std::alloc::Global;
use std::marker::Model;
use std::sync::Wait;

/// How many gates a writer may have.
pub const MAX_GATES: u64 = MAX_READERS;

/// Puts texts in force for all gates that were made with it. It can't be dropped: end it.
pub struct GateWriter {
    pub(crate) alloc: Global,
    pub(crate) writer: ValueWriter<TextFilter>,
}

impl Model for GateWriter {
    ghost use Rattle.shared_gate.specs.Gates.{GateWriterValue};

    ghost Value = { GateWriterValue };

    ghost view = { λ w. record { table = w.writer.table; texts = w.writer.values } };
}

impl GateWriter {
    /// Puts a text in force behind all others, and answers its number. `Directive` exactly at the first piece that is no
    /// directive; `Memory` too behind the number 2^64 - 1. After an error all is as before. It waits for gates that are
    /// being asked.
    pub fn reload<R: Wait>(&mut self, rt: &R, text: &str) -> Result<u64, GateError>
        ensures table { self.new.table ≡ self.old.table }
        ensures put { IfOk result (λ n. (n ≡ length self.old.texts)
            × (self.new.texts ≡ self.old.texts ++ text.now ∷ [])) }
        ensures refused { GivesGate text.now result }
        ensures leaves { OnErr result (self.new ≡ self.old) }
    {
        let filter = TextFilter::read(self.alloc, text)?;
        Ok(self.writer.replace(rt, filter)?)
    }

    /// A note of all that was put in force. `Memory` too where `MAX_NOTES` notes of `shared_value` are there.
    pub fn tell(&mut self) -> Result<GateNote, Memory>
        ensures same { self.new ≡ self.old }
        ensures told { IfOk result (λ n. (n.table ≡ self.old.table) × (n.texts ≡ self.old.texts)) }
    {
        let note = self.writer.tell()?;
        Ok(GateNote { note })
    }

    /// Ends the writer. It waits for gates that are being asked. The text in force stays in force.
    pub fn end<R: Wait>(self, rt: &R) {
        let GateWriter { alloc: _, writer } = self;
        writer.end(rt);
    }
}
