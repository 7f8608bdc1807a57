//! A gate and its writer in one thread.
ghost use Rattle.std.specs.Prelude.{◌≡◌};

use crate::gate_questions::{Question, answers, learn_and_check, make_question};
use event_gate::GateError;
use shared_gate::{GateWriter, SharedGate};
use std::alloc::Global;
use std::sync::Wait;
use std::test::{Fail, *};

// Asks a gate before any reload, with levels of another text and of its own; behind a reload that it sees by itself, and
// behind a refused one; behind a note of the next, with levels of an older text and of that one; and behind its writer's end.
fn answers_by_its_texts<R: Wait>(
    rt: &R,
    writer: GateWriter,
    gate: SharedGate,
    question: &mut Question,
) -> bool
    requires { gate.table ≡ writer.table }
{
    let mut writer = writer;
    let mut gate = gate;
    let mut is_right = answers(&mut gate, question, false, 0);
    question.levels.reload = 0;
    is_right &= answers(&mut gate, question, true, 0);
    is_right &= writer.reload(rt, "info") == Ok(1);
    is_right &= answers(&mut gate, question, true, 1);
    is_right &= writer.reload(rt, "off,,a=b=c") == Err(GateError::Directive { piece: 3 });
    is_right &= answers(&mut gate, question, true, 1);
    is_right &= writer.reload(rt, "off") == Ok(2);
    is_right &= learn_and_check(&mut writer, &mut gate, 2);
    is_right &= answers(&mut gate, question, false, 2);
    question.levels.reload = 2;
    is_right &= answers(&mut gate, question, true, 2);
    writer.end(rt);
    is_right & answers(&mut gate, question, true, 2)
}

// Asks one of two gates.
fn one_gate_answers<R: Wait>(rt: &R, alloc: Global, question: &mut Question) -> bool {
    let Ok((writer, mut gates)) = SharedGate::make(alloc, "off", 2) else {
        return false;
    };
    match gates.pop() {
        Some(gate) => answers_by_its_texts(rt, writer, gate, question),
        None => {
            writer.end(rt);
            false
        }
    }
}

#[test]
fn gate_writer_reload(rt: HostRuntime) -> Result<(), Fail> {
    let mut question = make_question(rt.alloc(), 2)?;
    assert!(rt; one_gate_answers(&rt, rt.alloc(), &mut question));
    Ok(())
}
