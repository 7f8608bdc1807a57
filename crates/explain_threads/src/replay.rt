//! The order in which an output has the entries of each span, as a turnstile.
use crate::output::is_history;
use event_gate::TextFilter;
use input_lines::first_line;
use otel_base::memory::Memory;
use std::alloc::Global;
use std::sync::atomic::{AtomicU64, Ordering};
use std::thread::yield_now;
use thread_lines::read_script;
use thread_script::{ThreadScript, WorkerCall, WorkerOp};
use turnstile::Turnstile;

// How often a worker looks at most whether its turn has come.
const MAX_LOOKS: u64 = 10_000_000;

/// Holds each call and each release until the entries before it in an output were made on its span. Where one waits in vain,
/// the output has another order than any run, and nobody is held any more.
#[derive(Drop)]
pub struct Replay {
    // Of each span, the handles of the entries behind the maker's.
    callers: Vec<Vec<u64>>,
    // Of each span, how many of these entries were made.
    entry_counts: Vec<AtomicU64>,
    // Of each worker, the spans on which its calls and then its releases make entries.
    spans: Vec<Vec<Option<usize>>>,
    is_over: AtomicU64,
}

impl Replay {
    /// The order in which an output has the entries of a script's spans.
    pub fn of(alloc: Global, script: &[u8], output: &[u8]) -> Result<Replay, Memory> {
        let callers = callers_of(alloc, output)?;
        let spans = match read_script(alloc, script)? {
            Ok(script) => spans_of(alloc, &script)?,
            Err(_) => Vec::new(alloc),
        };
        Ok(Replay {
            entry_counts: counts(alloc, callers.len())?,
            callers,
            spans,
            is_over: AtomicU64::new(0),
        })
    }

    // The span on which a call makes an entry.
    fn span(&self, worker: u64, call: u64) -> Option<usize> {
        *self.spans.get(worker as usize)?.get(call as usize)?
    }

    // Whether the next entry of a span is a worker's.
    fn is_next(&self, span: usize, worker: u64) -> bool {
        let (Some(callers), Some(count)) = (self.callers.get(span), self.entry_counts.get(span))
        else {
            return true;
        };
        match callers.get(count.load(Ordering::SeqCst) as usize) {
            Some(caller) => *caller == worker.saturating_add(1),
            None => true,
        }
    }
}

impl Turnstile for Replay {
    fn before(&self, worker: u64, call: u64) {
        let Some(span) = self.span(worker, call) else {
            return;
        };
        for _ in 0..MAX_LOOKS {
            if self.is_next(span, worker) || self.is_over.load(Ordering::SeqCst) == 1 {
                return;
            }
            yield_now();
        }
        self.is_over.store(1, Ordering::SeqCst);
    }

    fn after(&self, worker: u64, call: u64) {
        let Some(span) = self.span(worker, call) else {
            return;
        };
        if let Some(count) = self.entry_counts.get(span) {
            count.fetch_add(1, Ordering::SeqCst);
        }
    }
}

// So many counts, which are 0.
fn counts(alloc: Global, count: usize) -> Result<Vec<AtomicU64>, Memory> {
    let mut counts = Vec::new(alloc);
    for _ in 0..count {
        counts.push(AtomicU64::new(0))?;
    }
    Ok(counts)
}

// Of each history of an output, the handles of the entries behind the maker's.
fn callers_of(alloc: Global, output: &[u8]) -> Result<Vec<Vec<u64>>, Memory> {
    let mut all = Vec::new(alloc);
    let mut rest = output;
    while !rest.is_empty() {
        let (line, after) = first_line(rest);
        rest = after;
        if is_history(line) {
            all.push(callers_in(alloc, line)?)?;
        }
    }
    Ok(all)
}

// The handles of the entries of a history line, but for the maker's. They have one digit, since there are at most eight
// workers.
fn callers_in(alloc: Global, line: &[u8]) -> Result<Vec<u64>, Memory> {
    let mut callers = Vec::new(alloc);
    let mut before = b' ';
    for byte in line {
        if before == b'[' && *byte >= b'1' && *byte <= b'9' {
            callers.push(u64::from(*byte - b'0'))?;
        }
        before = *byte;
    }
    Ok(callers)
}

// Of each worker, the spans on which its calls and then its releases make entries.
fn spans_of(alloc: Global, script: &ThreadScript) -> Result<Vec<Vec<Option<usize>>>, Memory> {
    let Ok(filter) = TextFilter::read(alloc, script.filter.as_str()) else {
        return Err(Memory);
    };
    let mut all = Vec::new(alloc);
    for ops in script.workers.as_slice() {
        let mut spans = Vec::new(alloc);
        for op in ops.as_slice() {
            spans.push(span_of(script, &filter, op))?;
        }
        for span in 0..script.shared.as_slice().len() {
            spans.push(Some(span))?;
        }
        all.push(spans)?;
    }
    Ok(all)
}

// The span on which a call makes an entry, unless it is an event that the filter doesn't let through.
fn span_of(script: &ThreadScript, filter: &TextFilter, op: &WorkerOp) -> Option<usize> {
    if let WorkerCall::Event { site, values: _ } = &op.what {
        let callsite = script.callsites.as_slice().get(*site as usize)?;
        if !filter.admits(callsite, &[]) {
            return None;
        }
    }
    Some(op.span as usize)
}
