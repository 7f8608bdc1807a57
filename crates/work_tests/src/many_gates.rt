//! One writer that puts texts in force while eight gates are asked, each in a thread of its own.
ghost use Rattle.std.specs.Prelude.{◌≡◌, ◌<◌, ◌≤◌, All, option_to_list};
ghost use Rattle.std.specs.Thread.{IsSync};
ghost use Rattle.shared_gate.specs.declared.writer.TheConstants.{MAX_GATES};

use crate::gate_questions::{Question, answers, learn_and_check, make_question};
use shared_gate::{GateNote, GateWriter, SharedGate};
use std::alloc::Global;
use std::sync::Wait;
use std::test::{Fail, *};
use std::thread::{Threads, join_mut};

// How many texts are put in force before each gate starts to be asked, the number past the last one, and how often a gate is
// asked in its thread.
const STEP: u64 = 25;

const END: u64 = 1001;

const ASKS: u64 = 3000;

// The text of an odd number lets the event through, and that of an even one nothing.
fn is_through(number: u64) -> bool {
    number % 2 == 1
}

fn text_of(number: u64) -> &'static str {
    if is_through(number) { "info" } else { "off" }
}

// Puts the texts of some numbers in force, and tells whether each got its number.
fn reload_to<R: Wait>(rt: &R, writer: &mut GateWriter, from: u64, to: u64) -> bool
    ensures { writer.new.table ≡ writer.old.table }
{
    let mut is_done = true;
    for number in from..to {
        is_done &= writer.reload(rt, text_of(number)) == Ok(number);
    }
    is_done
}

// Whether a gate's numbers never fall below the greatest before, and its answers are those of their texts.
fn ask_often(gate: &mut SharedGate, question: &Question, least: u64) -> bool
    ensures { gate.new.table ≡ gate.old.table }
{
    let mut last = least;
    let mut is_right = true;
    for _ in 0..ASKS {
        let admission = gate.enabled(&question.event, &question.levels);
        is_right &= last <= admission.reload;
        is_right &= admission.yes == is_through(admission.reload);
        last = admission.reload;
    }
    is_right
}

// What a gate is to learn, where there is memory for a note.
fn note_of(writer: &mut GateWriter) -> Option<GateNote>
    ensures same { writer.new ≡ writer.old }
    ensures told { All (λ n. n.table ≡ writer.old.table) (option_to_list result) }
{
    writer.tell().ok()
}

// Learns a note, where there is one, and is asked then.
fn learn_and_ask(gate: &mut SharedGate, note: &mut Option<GateNote>, question: &Question) -> bool
    requires { All (λ n. n.table ≡ gate.old.table) (option_to_list note.old) }
    ensures { gate.new.table ≡ gate.old.table }
{
    match note.take() {
        Some(note) => {
            let least = note.reload();
            gate.learn(note).is_ok() & ask_often(gate, question, least)
        }
        None => false,
    }
}

// Whether a gate that learns what its writer tells last answers by the last text.
fn ends_by_last(writer: &mut GateWriter, gate: &mut SharedGate, question: &Question) -> bool
    requires { gate.old.table ≡ writer.old.table }
    ensures { writer.new ≡ writer.old }
{
    let last = END - 1;
    learn_and_check(writer, gate, last) & answers(gate, question, is_through(last), last)
}

// Asks each gate in a thread of its own, while texts are put in force for the next one and for all.
fn ask_all<R: Threads + Wait + Sync>(
    rt: &R,
    writer: &mut GateWriter,
    gates: &mut Vec<SharedGate>,
    question: &Question,
    from: u64,
) -> bool
    requires sync { IsSync R.row }
    requires tables { All (λ g. g.table ≡ writer.old.table) gates.old.items }
    ensures table { writer.new.table ≡ writer.old.table }
{
    let Some(mut gate) = gates.pop() else {
        return reload_to(rt, writer, from, END);
    };
    let to = from.saturating_add(STEP).min(END);
    let is_put = reload_to(rt, writer, from, to);
    let mut note = note_of(writer);
    let (is_asked, rest) = join_mut(
        rt,
        &mut || learn_and_ask(&mut gate, &mut note, question),
        &mut || -> bool
            requires { IsSync R.row × All (λ g. g.table ≡ writer.now.table) gates.now.items }
            ensures { writer.exit.now.table ≡ writer.entry.now.table }
        { ask_all(rt, writer, gates, question, to) },
    );
    is_put & is_asked & rest & ends_by_last(writer, &mut gate, question)
}

// One writer and so many gates.
fn ask_gates<R: Threads + Wait + Sync>(
    rt: &R,
    alloc: Global,
    readers: u64,
    question: &Question,
) -> bool
    requires sync { IsSync R.row }
    requires readers { (0 < readers) × (readers ≤ MAX_GATES) }
{
    match SharedGate::make(alloc, "off", readers) {
        Ok((mut writer, mut gates)) => {
            let are_asked = ask_all(rt, &mut writer, &mut gates, question, 1);
            writer.end(rt);
            are_asked
        }
        Err(_) => false,
    }
}

// After 1,000 texts, of which each gate saw some while they were put in force, each has the last one. The levels are of no
// text.
#[test]
fn eight_gates_are_asked(rt: HostRuntime) -> Result<(), Fail> {
    let question = make_question(rt.alloc(), END)?;
    assert!(rt; ask_gates(&rt, rt.alloc(), 8, &question));
    Ok(())
}
