//! Testing the calls of a worker.
ghost use Rattle.std.specs.List.{list_all};
ghost use Rattle.std.specs.Prelude.{◌≡◌, ◌<◌, ◌==◌, IfOk, OnOk, length, replicate};
ghost use Rattle.span_script.specs.Fields.{all_values};
ghost use Rattle.span_script.specs.declared.reply.What.TheVariants.{Field};
ghost use Rattle.thread_lines.specs.Answers.{AnswersTest};
ghost use Rattle.thread_lines.specs.Steps.{need, shared_tested, has_entry_for, op_call_tested, move_of_call, open_counts_after, call_tested, op_tested, ops_tested};
ghost use Rattle.trace_threads.specs.Moves.{move_of, open_count_after};

use crate::line::{ThreadCall, ThreadOp};
use crate::require::{event_site, require, test_moment, unknown_name};
use crate::stop::ScriptStop;
use otel_base::list::Items;
use otel_base::memory::Memory;
use otel_base::record::Moment;
use otel_base::text::Text;
use otel_state::Op;
use std::alloc::Global;
use thread_script::{ThreadScript, WorkerCall, WorkerOp, values_of};
use trace_base::callsite::Callsite;
use trace_base::field::{Value, ValueSet};
use trace_lines::{Refusal, Told, What};

// Tests that there is a shared span at a place.
fn test_span(script: &ThreadScript, span: u64) -> Result<(), ScriptStop>
    ensures { AnswersTest (λ u. u) result (shared_tested script.now span) }
{
    let count = script.shared.as_slice().len() as u64;
    require(unknown_name(What::Handle), span < count)
}

// The values of fields, each of which the callsite has to declare.
fn all_values(
    alloc: Global,
    callsite: &Callsite,
    fields: Items<(Text, Value)>,
) -> Result<ValueSet, ScriptStop>
    ensures { AnswersTest (λ v. v) result (need Field (all_values callsite.now fields)) }
{
    let given = fields.as_slice().len();
    let values = values_of(alloc, callsite, fields)?;
    if values.pairs.as_slice().len() < given {
        return Err(ScriptStop::Refused {
            told: unknown_name(What::Field),
        });
    }
    Ok(values)
}

// Whether an op may come where so many entries are open.
fn has_entry_for(entries: u64, op: &Op) -> bool
    ensures { result ≡ has_entry_for entries (move_of op.now) }
{
    match op {
        Op::Exit => entries > 0,
        _ => true,
    }
}

// An op of a worker, where it has so many entries open on the span: an exit needs one.
fn op_call(entries: u64, op: Op) -> Result<WorkerCall, ScriptStop>
    ensures { AnswersTest (λ c. c) result (op_call_tested entries op) }
{
    if has_entry_for(entries, &op) {
        Ok(WorkerCall::Own { op })
    } else {
        Err(ScriptStop::Refused {
            told: unknown_name(What::Guard),
        })
    }
}

// Tests what is done on a span, where the worker has so many entries open on each.
fn test_call(
    alloc: Global,
    script: &ThreadScript,
    entered: &[u64],
    span: u64,
    call: ThreadCall,
) -> Result<WorkerCall, ScriptStop>
    requires { length entered.now ≡ length script.now.shared }
    ensures { AnswersTest (λ c. c) result (call_tested script.now entered.now span call) }
{
    match call {
        ThreadCall::Record { fields } => {
            test_span(script, span)?;
            Ok(WorkerCall::Record { fields })
        }
        ThreadCall::Event { site, fields } => {
            let callsite = event_site(script, site)?;
            test_span(script, span)?;
            let values = all_values(alloc, callsite, fields)?;
            Ok(WorkerCall::Event { site, values })
        }
        ThreadCall::Own { op } => {
            test_span(script, span)?;
            op_call(entered[span as usize], op)
        }
    }
}

// Tests a call that comes after a moment.
fn test_op(
    alloc: Global,
    script: &ThreadScript,
    before: Moment,
    entered: &[u64],
    op: ThreadOp,
) -> Result<WorkerOp, ScriptStop>
    requires { length entered.now ≡ length script.now.shared }
    ensures { AnswersTest (λ o. o) result (op_tested script.now before entered.now op) }
{
    let ThreadOp { at, span, call } = op;
    test_moment(before, at)?;
    let what = test_call(alloc, script, entered, span, call)?;
    Ok(WorkerOp { at, span, what })
}

// How many entries are open after a call, so many being open before. No line has so many calls that the sum wraps.
fn open_count_after_call(entries: u64, call: &WorkerCall) -> Result<u64, Memory>
    ensures { IfOk result (λ n. n ≡ open_count_after entries (move_of_call call.now)) }
{
    match call {
        WorkerCall::Own { op: Op::Enter } => entries.checked_add(1).ok_or(Memory),
        WorkerCall::Own { op: Op::Exit } => Ok(entries.saturating_sub(1)),
        _ => Ok(entries),
    }
}

// Counts what a call opens or closes.
fn count_entry(entered: &mut [u64], op: &WorkerOp) -> Result<(), Memory>
    requires { op.now.span < length entered.old }
    ensures len { length entered.new ≡ length entered.old }
    ensures counted { OnOk result (entered.new ≡ open_counts_after entered.old op.now.span (move_of_call op.now.what)) }
{
    let entries = entered[op.span as usize];
    entered[op.span as usize] = open_count_after_call(entries, &op.what)?;
    Ok(())
}

// Whether no entry is open.
fn are_closed(entered: &[u64]) -> bool
    ensures { result ≡ list_all (λ n. n == 0) entered.now }
{
    entered.iter().all(|entries| *entries == 0)
}

// Tests a call that comes after a moment, and counts what it opens or closes.
fn test_and_count(
    alloc: Global,
    script: &ThreadScript,
    before: Moment,
    entered: &mut [u64],
    op: ThreadOp,
) -> Result<WorkerOp, ScriptStop>
    requires { length entered.old ≡ length script.now.shared }
    ensures tested { AnswersTest (λ o. o) result (op_tested script.now before entered.old op) }
    ensures len { length entered.new ≡ length entered.old }
    ensures counted { IfOk result (λ o. entered.new ≡ open_counts_after entered.old o.span (move_of_call o.what)) }
{
    let op = test_op(alloc, script, before, entered, op)?;
    count_entry(entered, &op)?;
    Ok(op)
}

// Tests calls that come after a moment, where so many entries are open. One that is left open is refused at the end.
fn test_each(
    alloc: Global,
    script: &ThreadScript,
    made_at: Moment,
    entered: &mut [u64],
    ops: Items<ThreadOp>,
) -> Result<Items<WorkerOp>, ScriptStop>
    requires { length entered.old ≡ length script.now.shared }
    ensures { AnswersTest (λ l. l) result (ops_tested script.now made_at entered.old ops) }
{
    let mut before = made_at;
    let mut tested = Items::new(alloc);
    for op in ops.into_vec() {
        let op = test_and_count(alloc, script, before, entered, op)?;
        before = op.at;
        tested.push(op)?;
    }
    let refusal = Refusal::InUse;
    require(Told::Step { refusal }, are_closed(entered))?;
    Ok(tested)
}

/// Tests the calls of a worker, which come after a moment. An entry that is left open is refused at the end.
pub(crate) fn test_ops(
    alloc: Global,
    script: &ThreadScript,
    made_at: Moment,
    ops: Items<ThreadOp>,
) -> Result<Items<WorkerOp>, ScriptStop>
    ensures { AnswersTest (λ l. l) result (ops_tested script.now made_at (replicate (length script.now.shared) 0) ops) }
{
    let mut entered = vec![in alloc; 0u64; script.shared.as_slice().len()]?;
    test_each(alloc, script, made_at, entered.as_mut_slice(), ops)
}
