//! One span that two handles of one thread share.
ghost use Rattle.std.specs.Prelude.{◌≡◌, IfOk};
ghost use Rattle.trace_threads.specs.Handles.{open_count_of, IsSameHandle};

use crate::spans::{SPAN_IDS, span};
use otel_base::context::{Context, SpanContext};
use otel_base::memory::Memory;
use otel_base::record::Record;
use otel_base::value::KeyValue;
use otel_state::{Op, OpReply};
use std::alloc::Global;
use std::sync::Wait;
use std::test::{Fail, *};
use trace_threads::handle::{Handle, Released};
use trace_threads::history::{Entry, HandleAct};

// Two handles of one span: the first, and a clone.
fn two_handles<R: Wait>(rt: &R, alloc: Global) -> Result<(Handle, Handle), Memory>
    ensures span { IfOk result (λ two. two.1.span ≡ two.0.span) }
    ensures idle { IfOk result (λ two. (open_count_of two.0 ≡ 0) × (open_count_of two.1 ≡ 0)) }
{
    let mut first = span(alloc)?;
    match first.clone_handle(rt, 7) {
        Ok(second) => Ok((first, second)),
        Err(full) => {
            drop(first.release(rt, 7));
            Err(full)
        }
    }
}

// Joins another handle of the same span.
fn join_handle<R: Wait>(rt: &R, handle: &mut Handle, other: Handle)
    requires span { other.span ≡ handle.old.span }
    requires idle { open_count_of other ≡ 0 }
    ensures same { IsSameHandle handle.old handle.new }
    ensures idle { open_count_of handle.new ≡ open_count_of handle.old }
{
    handle.join(rt, other, 6);
}

// Enters and exits in two turns.
fn enter_and_exit<R: Wait>(rt: &R, handle: &mut Handle) -> bool
    requires idle { open_count_of handle.old ≡ 0 }
    ensures same { IsSameHandle handle.old handle.new }
    ensures idle { open_count_of handle.new ≡ 0 }
{
    if handle.call(rt, 8, Op::Enter).is_err() {
        return false;
    }
    handle.open_entries() == 1 && handle.call(rt, 9, Op::Exit).is_ok()
}

// Sets the parent at a moment long past, and tells at which place, and whether it was set.
fn set_parent<R: Wait>(rt: &R, handle: &mut Handle) -> Option<(u64, bool)>
    ensures same { IsSameHandle handle.old handle.new }
    ensures idle { open_count_of handle.new ≡ open_count_of handle.old }
{
    let context = Context {
        span: Some(SPAN_IDS),
    };
    match handle.call(rt, 1, Op::SetParent { context }) {
        Ok(called) => Some((called.place, called.reply == OpReply::Parent(Ok(())))),
        Err(_) => None,
    }
}

// Starts the span, with ids that aren't its own.
fn start<R: Wait>(rt: &R, handle: &mut Handle)
    ensures same { IsSameHandle handle.old handle.new }
    ensures idle { open_count_of handle.new ≡ open_count_of handle.old }
{
    let own = SpanContext { trace: 1, span: 1 };
    let _ = handle.call(rt, 9, Op::Start { own });
}

// Two handles call by turns, and tells whether each call was answered as it should.
fn call_by_turns<R: Wait>(rt: &R, first: &mut Handle, second: &mut Handle) -> bool
    requires idle { open_count_of first.old ≡ 0 }
    ensures same { IsSameHandle first.old first.new × IsSameHandle second.old second.new }
    ensures idle { (open_count_of first.new ≡ 0) × (open_count_of second.new ≡ open_count_of second.old) }
{
    let entered = enter_and_exit(rt, first);
    let before = set_parent(rt, second);
    start(rt, second);
    let after = set_parent(rt, first);
    entered && before == Some((3, true)) && after == Some((5, false))
}

// What an entry did, in a word.
fn word_of(what: &HandleAct) -> &'static str {
    match what {
        HandleAct::Clone { new: _ } => "clone",
        HandleAct::Call { op: Op::Enter } => "enter",
        HandleAct::Call { op: Op::Exit } => "exit",
        HandleAct::Call {
            op: Op::SetParent { context: _ },
        } => "set parent",
        HandleAct::Call {
            op: Op::Start { own: _ },
        } => "start",
        HandleAct::Call { op: _ } => "other",
        HandleAct::Join { ended: _ } => "join",
        HandleAct::Release => "release",
    }
}

// The handle that an entry made or ended.
fn other_of(what: &HandleAct) -> Option<u64> {
    match what {
        HandleAct::Clone { new } => Some(*new),
        HandleAct::Join { ended } => Some(*ended),
        _ => None,
    }
}

fn is_wanted_entry(entry: &Entry, wanted: &(u64, u64, &str, Option<u64>)) -> bool {
    let (caller, at, word, other) = *wanted;
    entry.caller == caller
        && entry.at == at
        && word_of(&entry.what) == word
        && other_of(&entry.what) == other
}

fn has_entries(history: &[Entry], wanted: &[(u64, u64, &str, Option<u64>)]) -> bool {
    if history.len() != wanted.len() {
        return false;
    }
    for i in 0..history.len() {
        if !is_wanted_entry(&history[i], &wanted[i]) {
            return false;
        }
    }
    true
}

fn is_wanted_history(history: &[Entry]) -> bool {
    has_entries(
        history,
        &[
            (0, 7, "clone", Some(1)),
            (0, 8, "enter", None),
            (0, 9, "exit", None),
            (1, 9, "set parent", None),
            (1, 9, "start", None),
            (0, 9, "set parent", None),
            (0, 9, "join", Some(1)),
            (0, 11, "release", None),
        ],
    )
}

fn has_keys(attributes: &[KeyValue], wanted: &[&str]) -> bool {
    if attributes.len() != wanted.len() {
        return false;
    }
    for i in 0..attributes.len() {
        if attributes[i].key.as_str() != wanted[i] {
            return false;
        }
    }
    true
}

fn is_its_record(record: &Record) -> bool {
    record.context == SPAN_IDS
        && record.name.as_str() == "s"
        && record.start == 5
        && record.end == 9
        && has_keys(
            record.attributes.as_slice(),
            &["thread.id", "target", "a", "busy_ns", "idle_ns"],
        )
}

fn is_closed_as_wanted(released: &Released) -> bool {
    match &released.closed {
        Some((history, record)) => is_wanted_history(history.as_slice()) && is_its_record(record),
        None => false,
    }
}

#[test]
fn one_thread_clones_calls_and_joins(rt: HostRuntime) -> Result<(), Fail> {
    let (mut first, mut second) = two_handles(&rt, rt.alloc())?;
    let are_answered = call_by_turns(&rt, &mut first, &mut second);
    let numbers = (first.number(), second.number());
    join_handle(&rt, &mut first, second);
    let are_told = is_closed_as_wanted(&first.release(&rt, 11));
    assert!(rt; are_answered && are_told && numbers == (0, 1));
    Ok(())
}

// Releases two handles, and tells whether the last release alone closed the span.
fn closes_at_the_last<R: Wait>(rt: &R, first: Handle, second: Handle) -> bool
    requires span { second.span ≡ first.span }
    requires idle { (open_count_of first ≡ 0) × (open_count_of second ≡ 0) }
{
    let Released { mut pass, closed } = first.release(rt, 7);
    let Released {
        pass: theirs,
        closed: last,
    } = second.release(rt, 7);
    pass.join(theirs);
    closed.is_none() && last.is_some()
}

#[test]
fn the_last_release_closes(rt: HostRuntime) -> Result<(), Fail> {
    let (first, second) = two_handles(&rt, rt.alloc())?;
    let is_closed_last = closes_at_the_last(&rt, first, second);
    assert!(rt; is_closed_last);
    Ok(())
}
