//! Totals of traces.
ghost use Rattle.std.specs.Prelude.{◌≡◌, IfOk};
ghost use Rattle.std.specs.Option.{unwrap_or};
ghost use Rattle.std.specs.Ordering.{nat_cmp};
ghost use Rattle.std.specs.BTreeMap.{get};
ghost use Rattle.trace_tree.specs.Totals.{IsTally, IsTotals};

use crate::span::TreeSpan;
use otel_base::memory::Memory;
use std::alloc::Global;
use std::collections::BTreeMap;

/// How many finished spans a trace has, and how long they were entered together.
#[derive(Clone, Copy, Debug, PartialEq, Eq)]
pub struct TraceTotal {
    /// The id of the trace.
    pub trace: u128,
    /// How many finished spans it has.
    pub spans: u64,
    /// The sum of their busy times, in nanoseconds.
    pub busy: u128,
}

// The sums of a trace so far.
fn sums_at(sums: &BTreeMap<u128, (u64, u128)>, trace: u128) -> (u64, u128)
    ensures { result ≡ unwrap_or (get nat_cmp sums.now trace) (0, 0) }
{
    sums.get(&trace).copied().unwrap_or((0, 0))
}

// The sums of each trace.
fn tally(alloc: Global, finished: &[TreeSpan]) -> Result<BTreeMap<u128, (u64, u128)>, Memory>
    ensures { IfOk result (λ m. IsTally finished.now m) }
{
    let mut sums = BTreeMap::new(alloc);
    for span in finished {
        let trace = span.trace;
        let (spans, sum) = sums_at(&sums, trace);
        let more = sum + u128::from(span.busy);
        sums.insert(trace, (spans + 1, more))?;
    }
    Ok(sums)
}

/// The totals of the spans' traces, in the ascending order of their ids. `Memory` freely.
pub fn totals(alloc: Global, finished: &[TreeSpan]) -> Result<Vec<TraceTotal>, Memory>
    ensures { IfOk result (λ v. IsTotals finished.now v.items) }
{
    let sums = tally(alloc, finished)?;
    let mut all = Vec::new(alloc);
    for (trace, (spans, busy)) in &sums {
        all.push(TraceTotal {
            trace: *trace,
            spans: *spans,
            busy: *busy,
        })?;
    }
    Ok(all)
}
