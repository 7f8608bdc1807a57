//! What a gate answers once it has learnt of a reload.
ghost use Rattle.std.specs.Prelude.{◌≡◌, ℕ, List, IfOk};
ghost use Rattle.shared_gate.specs.Gates.{WillAnswerFrom, AnswersFrom, AnswersByText};

use crate::gate::SharedGate;
use crate::writer::GateWriter;
use event_gate::{Admission, GateError, Levels};
use std::sync::Wait;
use trace_base::callsite::Callsite;

/// Puts a text in force, lets a gate learn it, and asks the gate. It answers by that text or one that was put in force later,
/// and is then one that answers so from the number of that text on. After an error the text may be in force.
pub fn ask_after_reload<R: Wait>(
    rt: &R,
    writer: &mut GateWriter,
    gate: &mut SharedGate,
    text: &str,
    c: &Callsite,
    levels: &Levels,
) -> Result<(u64, Admission), GateError>
    requires { gate.old.table ≡ writer.old.table }
    ensures answers { IfOk result (λ r. AnswersFrom r.0 text.now r.1 c.now levels.now) }
    ensures by_text { IfOk result (λ r. AnswersByText gate.new.texts r.1 c.now levels.now) }
    ensures from { IfOk result (λ r. WillAnswerFrom r.0 text.now gate.new) }
{
    let number = reload_and_learn(rt, writer, gate, text)?;
    Ok((number, ask_again(gate, c, levels)))
}

/// A gate that answers by texts from a number on does so at each question, whatever is put in force meanwhile.
pub fn ask_again(gate: &mut SharedGate, c: &Callsite, levels: &Levels) -> Admission
    ensures answers { (number : ℕ) (text : List ℕ) → WillAnswerFrom number text gate.old
        → AnswersFrom number text result c.now levels.now }
    ensures by_text { AnswersByText gate.new.texts result c.now levels.now }
    ensures from { (number : ℕ) (text : List ℕ) → WillAnswerFrom number text gate.old
        → WillAnswerFrom number text gate.new }
{
    gate.enabled(c, levels)
}

fn reload_and_learn<R: Wait>(
    rt: &R,
    writer: &mut GateWriter,
    gate: &mut SharedGate,
    text: &str,
) -> Result<u64, GateError>
    requires { gate.old.table ≡ writer.old.table }
    ensures { IfOk result (λ number. WillAnswerFrom number text.now gate.new) }
{
    let number = writer.reload(rt, text)?;
    let Ok(note) = writer.tell() else {
        return Err(GateError::Memory);
    };
    match gate.learn(note) {
        Ok(()) => Ok(number),
        Err(_) => Err(GateError::Memory),
    }
}
