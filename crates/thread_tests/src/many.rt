//! One span on which several threads write, each through a handle of its own.
ghost use Rattle.std.specs.Prelude.{◌≡◌, ◌<◌};
ghost use Rattle.std.specs.Thread.{IsSync};
ghost use Rattle.trace_threads.specs.Handles.{open_count_of, IsSameHandle};

use crate::spans::{SPAN_IDS, lone_state, span};
use otel_base::memory::Memory;
use otel_base::record::Record;
use otel_base::text::Text;
use otel_base::value::{KeyValue, OtelValue};
use otel_base::word::Word;
use otel_state::{Op, SpanState};
use std::alloc::Global;
use std::sync::Wait;
use std::test::{Fail, *};
use std::thread::{Threads, join_mut};
use trace_threads::handle::{Handle, Released};
use trace_threads::history::{Entry, HandleAct};

// How many calls each handle makes.
const CALLS: u16 = 1000;

// Adds an attribute that tells a number.
fn write<R: Wait>(rt: &R, alloc: Global, handle: &mut Handle, number: u16) -> bool
    ensures same { IsSameHandle handle.old handle.new }
    ensures idle { open_count_of handle.new ≡ open_count_of handle.old }
{
    let pair = KeyValue {
        key: Text::from_word(Word::Target),
        value: OtelValue::I64(i64::from(number)),
    };
    handle.call(rt, 7, Op::SetAttribute { pair }).is_ok()
}

// Writes the numbers from 0 on, each in a call.
fn write_all<R: Wait>(rt: &R, alloc: Global, handle: &mut Handle) -> bool
    ensures same { IsSameHandle handle.old handle.new }
    ensures idle { open_count_of handle.new ≡ open_count_of handle.old }
{
    let mut is_done = true;
    for number in 0..CALLS {
        is_done &= write(rt, alloc, handle, number);
    }
    is_done
}

// Writes in this thread and in others, each through a handle of its own, which is joined afterwards.
fn write_by<R: Threads + Wait + Sync>(
    rt: &R,
    alloc: Global,
    handle: &mut Handle,
    others: u8,
) -> bool
    requires { IsSync R.row }
    ensures same { IsSameHandle handle.old handle.new }
    ensures idle { open_count_of handle.new ≡ open_count_of handle.old }
{
    if others == 0 {
        return write_all(rt, alloc, handle);
    }
    match handle.clone_handle(rt, 7) {
        Ok(mut other) => {
            let (one, rest) = join_mut(
                rt,
                &mut || write_all(rt, alloc, handle),
                &mut || -> bool
                    requires { IsSync R.row × (0 < others) }
                    ensures same { IsSameHandle other.entry other.exit }
                    ensures idle { open_count_of other.exit ≡ open_count_of other.entry }
                { write_by(rt, alloc, &mut other, others - 1) },
            );
            handle.join(rt, other, 7);
            one && rest
        }
        Err(_) => false,
    }
}

// The number that an op writes.
fn number_of(op: &Op) -> i64 {
    match op {
        Op::SetAttribute {
            pair: KeyValue {
                key: _,
                value: OtelValue::I64(number),
            },
        } => *number,
        _ => -1,
    }
}

// Whether an op is the next one of its handle, if there are so many handles.
fn check_next(next: &mut [i64], caller: u64, op: &Op) -> bool {
    match next.get_mut(caller.min(99) as usize) {
        Some(next) => {
            let is_next = *next == number_of(op);
            *next = next.saturating_add(1);
            is_next
        }
        None => false,
    }
}

// Applies the op of an entry, if it has one, and tells whether that is the next one of its handle.
fn apply_next(state: &mut SpanState, entry: &Entry, next: &mut [i64]) -> Result<bool, Memory> {
    match &entry.what {
        HandleAct::Call { op } => {
            state.apply(entry.at, op.clone()?)?;
            Ok(check_next(next, entry.caller, op))
        }
        _ => Ok(true),
    }
}

// Applies all ops of a history, and tells whether those of each handle stand in order.
fn apply_all(state: &mut SpanState, history: &[Entry], next: &mut [i64]) -> Result<bool, Memory> {
    let mut is_in_order = true;
    for entry in history {
        is_in_order &= apply_next(state, entry, next)?;
    }
    Ok(is_in_order)
}

// Whether a history has the writes of each handle in order, and a record is what they give one after another.
fn is_in_turn(
    alloc: Global,
    history: &[Entry],
    record: &Record,
    next: &mut [i64],
) -> Result<bool, Memory> {
    let mut state = lone_state(alloc)?;
    let is_in_order = apply_all(&mut state, history, next)?;
    state.apply(11, Op::Start { own: SPAN_IDS })?;
    Ok(is_in_order && is_same_record(&state.close(11), record))
}

// Whether two records are the same, and have no events and links, since nothing here writes one.
fn is_same_record(one: &Record, other: &Record) -> bool {
    is_same_span(one, other)
        && one.status == other.status
        && have_same(one.attributes.as_slice(), other.attributes.as_slice())
        && has_attributes_alone(one)
        && has_attributes_alone(other)
}

fn is_same_span(one: &Record, other: &Record) -> bool {
    one.name == other.name
        && one.kind == other.kind
        && one.context == other.context
        && one.parent == other.parent
        && one.start == other.start
        && one.end == other.end
}

fn has_attributes_alone(record: &Record) -> bool {
    record.events.as_slice().is_empty() && record.links.as_slice().is_empty()
}

fn have_same(some: &[KeyValue], others: &[KeyValue]) -> bool {
    if some.len() != others.len() {
        return false;
    }
    for i in 0..some.len() {
        if !is_same(&some[i], &others[i]) {
            return false;
        }
    }
    true
}

fn is_same(one: &KeyValue, other: &KeyValue) -> bool {
    one.key == other.key
        && match (&one.value, &other.value) {
            (OtelValue::I64(a), OtelValue::I64(b)) => a == b,
            (OtelValue::Str(a), OtelValue::Str(b)) => a == b,
            _ => false,
        }
}

// Whether some threads and this one write on a span, and its history and record are what they wrote.
fn write_and_check<R: Threads + Wait + Sync>(
    rt: &R,
    alloc: Global,
    others: u8,
    next: &mut [i64],
) -> Result<bool, Memory> {
    let mut handle = span(alloc)?;
    let is_done = write_by(rt, alloc, &mut handle, others);
    let Released { pass: _, closed } = handle.release(rt, 11);
    match closed {
        Some((history, record)) => {
            Ok(is_in_turn(alloc, history.as_slice(), &record, next)? && is_done)
        }
        None => Ok(false),
    }
}

#[test]
fn two_threads_write(rt: HostRuntime) -> Result<(), Fail> {
    let mut next = [0; 2];
    let is_written = write_and_check(&rt, rt.alloc(), 1, &mut next)?;
    assert!(rt; is_written && next == [1000; 2]);
    Ok(())
}

#[test]
fn eight_threads_write(rt: HostRuntime) -> Result<(), Fail> {
    let mut next = [0; 8];
    let is_written = write_and_check(&rt, rt.alloc(), 7, &mut next)?;
    assert!(rt; is_written && next == [1000; 8]);
    Ok(())
}
