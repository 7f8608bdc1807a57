//! Gates that are asked while their writer puts other texts in force.
ghost use Rattle.std.specs.Prelude.{◌≡◌, ℕ, List, ◌+◌, ◌<◌, ◌≤◌, [], ◌∷◌, length, vec_len, vec_capacity, All, IsOk, IfOk};
ghost use mathlib.Core.List.{IsPrefix};
ghost use Rattle.atomic_table.specs.Seated.{TableId};
ghost use Rattle.value_reader.specs.Knowing.{IsNewReader};
ghost use Rattle.event_gate.specs.Rules.{GivesGate};
ghost use Rattle.shared_gate.specs.Order.{opening_of};
ghost use Rattle.shared_gate.specs.Gates.{AnswersByText, IsNewGate};
ghost use Rattle.shared_gate.specs.declared.writer.TheConstants.{MAX_GATES};

use crate::note::GateNote;
use crate::writer::GateWriter;
use event_gate::{Admission, EventGate, GateError, Levels, TextFilter};
use otel_base::memory::Memory;
use shared_value::{ValueReader, share};
use std::alloc::Global;
use std::marker::Model;
use trace_base::callsite::Callsite;

/// Says whether callsites are let through, by the text that was put in force last as far as it has seen. It takes no lock.
#[derive(Drop)]
pub struct SharedGate {
    // It has the filter that the gate answers by.
    reader: ValueReader<TextFilter>,
}

impl Model for SharedGate {
    ghost use Rattle.shared_gate.specs.Gates.{GateValue};

    ghost Value = { GateValue };

    ghost view = { λ g. record { table = g.reader.table; texts = g.reader.values; number = g.reader.number } };
}

impl SharedGate {
    /// Puts an opening text in force, which has number 0, and makes its writer and so many gates. `Directive` exactly at the
    /// first piece that is no directive.
    pub fn make(
        alloc: Global,
        text: &str,
        readers: u64,
    ) -> Result<(GateWriter, Vec<SharedGate>), GateError>
        requires { (0 < readers) × (readers ≤ MAX_GATES) }
        ensures opening { IfOk result (λ r. r.0.texts ≡ text.now ∷ []) }
        ensures count { IfOk result (λ r. vec_len r.1 ≡ readers) }
        ensures gates { IfOk result (λ r. All (IsNewGate r.0.table text.now) r.1.items) }
        ensures refused { GivesGate text.now result }
    {
        let filter = TextFilter::read(alloc, text)?;
        // Once there is a writer nothing can be refused: without leave to wait it can't be ended.
        let room = Vec::with_capacity(alloc, readers as usize)?;
        let (writer, made) = share(alloc, filter, readers)?;
        let writer = GateWriter { alloc, writer };
        Ok((writer, gates_of(made, room, readers)))
    }

    /// Whether a callsite is let through, by the text of the number that is told, with the levels where they have that
    /// number too. It takes no memory, and waits for nobody.
    #[tactic(auto, using(crate::proofs::Openings::opening_same))]
    pub fn enabled(&mut self, c: &Callsite, levels: &Levels) -> Admission
        ensures table { self.new.table ≡ self.old.table }
        ensures begins { IsPrefix self.old.texts self.new.texts }
        ensures opening { opening_of self.new.texts ≡ opening_of self.old.texts }
        ensures later { (self.old.number ≤ result.reload) × (self.new.number ≡ result.reload) }
        ensures answers { AnswersByText self.new.texts result c.now levels.now }
    {
        self.reader.look();
        let list = self
            .reader
            .list_under(levels.reload, levels.list.as_slice());
        Admission {
            yes: self.reader.value().admits(c, list),
            reload: self.reader.number(),
        }
    }

    /// Takes in what the gate's own writer told. From now on it names no older text than the note's; and where it named
    /// none past the note's, what it has seen is then what the writer had put in force. It takes no memory, so it is
    /// always Ok.
    pub fn learn(&mut self, note: GateNote) -> Result<(), Memory>
        requires { note.table ≡ self.old.table }
        ensures ok { IsOk result }
        ensures table { self.new.table ≡ self.old.table }
        ensures later { (self.old.number ≤ self.new.number) × (length note.texts ≤ self.new.number + 1) }
        ensures begins { self.old.number < length note.texts → self.new.texts ≡ note.texts }
        ensures stays { length note.texts ≤ self.old.number → self.new ≡ self.old }
    {
        self.reader.learn(note.note);
        Ok(())
    }
}

/// By its own call.
impl EventGate for SharedGate {
    ghost opening = { λ g. opening_of g.texts };

    #[tactic(auto, using(crate::proofs::Openings::answers_opening))]
    fn enabled(&mut self, c: &Callsite, levels: &Levels) -> Admission {
        SharedGate::enabled(self, c, levels)
    }
}

// A gate of each reader.
fn gates_of(
    readers: Vec<ValueReader<TextFilter>>,
    room: Vec<SharedGate>,
    count: u64,
) -> Vec<SharedGate>
    requires count { vec_len readers ≡ count }
    requires none { (room.items ≡ []) × (vec_capacity room ≡ count) }
    ensures count { vec_len result ≡ count }
    ensures gates { (table : TableId) (text : List ℕ) → All (IsNewReader table text) readers.items
        → All (IsNewGate table text) result.items }
{
    let mut readers = readers;
    let mut gates = room;
    for _ in 0..count {
        let Some(reader) = readers.pop() else {
            unreachable!()
        };
        gates.push_reserved(SharedGate { reader });
    }
    gates
}
