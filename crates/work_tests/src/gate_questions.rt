//! What the gates of the tests are asked, and how one learns what its writer tells.
ghost use Rattle.std.specs.Prelude.{◌≡◌};

use event_gate::Levels;
use otel_base::list::Items;
use otel_base::memory::Memory;
use otel_base::text::Text;
use shared_gate::{GateWriter, SharedGate};
use std::alloc::Global;
use trace_base::callsite::{Callsite, Kind};
use trace_base::level::{Level, LevelFilter};

// An event at INFO, and levels of a text that let it through wherever they count.
pub struct Question {
    pub event: Callsite,
    pub levels: Levels,
}

impl Drop for Question {
    fn drop(self) {
        let Question {
            event: _event,
            levels: _levels,
        } = self;
    }
}

// With levels of the text of this number.
pub fn make_question(alloc: Global, reload: u64) -> Result<Question, Memory> {
    let mut list = Items::new(alloc);
    list.push(LevelFilter::INFO)?;
    Ok(Question {
        event: event(alloc),
        levels: Levels { reload, list },
    })
}

fn event(alloc: Global) -> Callsite {
    Callsite {
        name: Text::from(String::new(alloc)),
        target: Text::from(String::new(alloc)),
        level: Level::INFO,
        kind: Kind::Event,
        file: None,
        module_path: None,
        line: None,
        fields: Items::new(alloc),
    }
}

// Whether this is what a gate answers to a question.
pub fn answers(gate: &mut SharedGate, question: &Question, yes: bool, reload: u64) -> bool
    ensures { gate.new.table ≡ gate.old.table }
{
    let admission = gate.enabled(&question.event, &question.levels);
    (admission.yes == yes) & (admission.reload == reload)
}

// Has a gate learn what its writer tells, and says whether that is of the text of this number.
pub fn learn_and_check(writer: &mut GateWriter, gate: &mut SharedGate, reload: u64) -> bool
    requires { gate.old.table ≡ writer.old.table }
    ensures same { writer.new ≡ writer.old }
    ensures table { gate.new.table ≡ gate.old.table }
{
    match writer.tell() {
        Ok(note) => {
            let is_last = note.reload() == reload;
            gate.learn(note).is_ok() & is_last
        }
        Err(_) => false,
    }
}
