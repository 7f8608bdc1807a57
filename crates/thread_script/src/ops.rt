//! The ops that the calls of workers come to.
ghost use Rattle.std.specs.Prelude.{◌≡◌, IfOk, option_map, slice_get};
ghost use Rattle.thread_script.specs.Plans.{text_admits, AreNoLevels, shared_callsite, op_of_record, op_of_admitted_event, op_of_call};

use crate::plan::Plan;
use crate::script::WorkerCall;
use crate::values::values_of;
use event_gate::{EventGate, Levels, TextFilter};
use otel_base::list::Items;
use otel_base::memory::Memory;
use otel_base::record::Moment;
use otel_base::text::Text;
use otel_state::{Op, event_op, span_update};
use std::alloc::Global;
use trace_base::callsite::Callsite;
use trace_base::field::{Value, ValueSet};

// Whether the script's filter lets a callsite through without levels. What a gate promises doesn't say that it is at its
// opening text still; where it names another, the filter is read anew and asked itself. Of a text that is no filter memory
// is told to want; a script that was tested has none.
#[tactic(auto, using(crate::proofs::Filters::by_gate, crate::proofs::Filters::by_text))]
fn is_admitted<G: EventGate>(
    alloc: Global,
    plan: &Plan,
    gate: &mut G,
    levels: &Levels,
    callsite: &Callsite,
) -> Result<bool, Memory>
    requires opening { G.opening gate.old ≡ plan.now.filter }
    requires levels { AreNoLevels levels.now }
    ensures same { G.opening gate.new ≡ G.opening gate.old }
    ensures yes { IfOk result (λ yes. yes ≡ text_admits plan.now.filter callsite.now) }
{
    let admission = gate.enabled(callsite, levels);
    if admission.reload == 0 {
        return Ok(admission.yes);
    }
    match TextFilter::read(alloc, plan.filter.as_str()) {
        Ok(filter) => Ok(filter.admits(callsite, levels.list.as_slice())),
        Err(_) => Err(Memory),
    }
}

// The callsite of a shared span.
fn shared_callsite(plan: &Plan, span: u64) -> Option<&Callsite>
    ensures { option_map (λ c. c.now) result ≡ shared_callsite plan.now span }
{
    let line = plan.shared.as_slice().get(span as usize)?;
    plan.callsites.as_slice().get(line.site as usize)
}

// What some fields write on a shared span, if its callsite is there.
fn record_op(
    alloc: Global,
    plan: &Plan,
    span: u64,
    fields: Items<(Text, Value)>,
) -> Result<Option<Op>, Memory>
    ensures { IfOk result (λ op. op ≡ op_of_record plan.now fields (shared_callsite plan.now span)) }
{
    let Some(callsite) = shared_callsite(plan, span) else {
        return Ok(None);
    };
    let values = values_of(alloc, callsite, fields)?;
    let update = span_update(alloc, callsite, &values, &plan.layer)?;
    Ok(Some(Op::Update { update }))
}

// What an event tells a span, if its callsite is there and the filter lets it through.
fn admitted_event_op<G: EventGate>(
    alloc: Global,
    plan: &Plan,
    gate: &mut G,
    levels: &Levels,
    at: Moment,
    site: u64,
    values: ValueSet,
) -> Result<Option<Op>, Memory>
    requires opening { G.opening gate.old ≡ plan.now.filter }
    requires levels { AreNoLevels levels.now }
    ensures same { G.opening gate.new ≡ G.opening gate.old }
    ensures op { IfOk result (λ op. op ≡ op_of_admitted_event plan.now at values (slice_get plan.now.callsites site)) }
{
    let Some(callsite) = plan.callsites.as_slice().get(site as usize) else {
        return Ok(None);
    };
    if !is_admitted(alloc, plan, gate, levels, callsite)? {
        return Ok(None);
    }
    Ok(Some(event_op(alloc, callsite, &values, &plan.layer, at)?))
}

/// The op of a call of a worker on a shared span, unless it is an event that isn't let through, or there is no such callsite.
/// A gate is asked once for each event.
pub fn op_of<G: EventGate>(
    alloc: Global,
    plan: &Plan,
    gate: &mut G,
    levels: &Levels,
    at: Moment,
    span: u64,
    what: WorkerCall,
) -> Result<Option<Op>, Memory>
    requires opening { G.opening gate.old ≡ plan.now.filter }
    requires levels { AreNoLevels levels.now }
    ensures same { G.opening gate.new ≡ G.opening gate.old }
    ensures op { IfOk result (λ op. op ≡ op_of_call plan.now span at what) }
{
    match what {
        WorkerCall::Record { fields } => record_op(alloc, plan, span, fields),
        WorkerCall::Event { site, values } => admitted_event_op(
            alloc, plan, gate, levels, at, site, values,
        ),
        WorkerCall::Own { op } => Ok(Some(op)),
    }
}
