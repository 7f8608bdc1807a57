//! Workers ask their gates, once for each event.
ghost use Rattle.std.specs.Prelude.{◌≡◌, All, IfOk, length, vec_len};

use crate::scripts::{call_count, script};
use event_gate::{Admission, EventGate, Levels, TextFilter};
use otel_base::memory::Memory;
use otel_base::text::Text;
use std::alloc::Global;
use std::sync::atomic::{AtomicU64, Ordering};
use std::sync::{Arc, Wait};
use std::test::{Fail, *};
use std::thread::Threads;
use thread_handles::Ended;
use thread_run::run_gated;
use trace_base::callsite::Callsite;
use turnstile::{OpenTurnstile, Turnstile};

// A gate that answers by the script's filter, which it reads anew each time, and counts its questions.
#[derive(Drop)]
struct CountingGate {
    alloc: Global,
    text: Text,
    asked: Arc<AtomicU64, Global>,
}

impl EventGate for CountingGate {
    ghost opening = { λ g. g.text };

    fn enabled(&mut self, callsite: &Callsite, levels: &Levels) -> Admission {
        self.asked.fetch_add(1, Ordering::SeqCst);
        let list = if levels.reload == 0 {
            levels.list.as_slice()
        } else {
            &[]
        };
        match TextFilter::read(self.alloc, self.text.as_str()) {
            Ok(filter) => Admission {
                yes: filter.admits(callsite, list),
                reload: 0,
            },
            Err(_) => Admission {
                yes: false,
                reload: 1,
            },
        }
    }
}

// So many counts.
fn zero_counts(alloc: Global, count: usize) -> Result<Vec<Arc<AtomicU64, Global>>, Memory>
    ensures { IfOk result (λ counts. vec_len counts ≡ count) }
{
    let mut counts = Vec::with_capacity(alloc, count)?;
    for _ in 0..count {
        counts.push_reserved(Arc::new(alloc, AtomicU64::new(0))?);
    }
    Ok(counts)
}

// A gate of a text for each count.
fn gates_of(
    alloc: Global,
    text: &Text,
    counts: &[Arc<AtomicU64, Global>],
) -> Result<Vec<CountingGate>, Memory>
    ensures count { IfOk result (λ gates. length gates.items ≡ length counts.now) }
    ensures texts { IfOk result (λ gates. All (λ g. g.text ≡ text.now) gates.items) }
{
    let mut gates = Vec::with_capacity(alloc, counts.len())?;
    for asked in counts {
        gates.push_reserved(CountingGate {
            alloc,
            text: text.clone()?,
            asked: Arc::try_clone(asked)?,
        });
    }
    Ok(gates)
}

/// What came of a script, and how often each worker's gate was asked.
#[derive(Drop)]
pub struct GateRun {
    pub ended: Vec<Ended>,
    pub counts: Vec<Arc<AtomicU64, Global>>,
}

/// How often the gate of a worker was asked, if there is such a worker.
pub fn times_asked(ran: &GateRun, worker: usize) -> Option<u64> {
    let count = ran.counts.get(worker)?;
    Some(count.load(Ordering::SeqCst))
}

/// Runs the script of some lines behind the settings, none of which is refused, with gates that count.
pub fn run<R: Threads + Wait + Sync, T: Turnstile + Sync>(
    rt: &R,
    alloc: Global,
    lines: &str,
    turns: &T,
) -> Result<GateRun, Memory> {
    let script = script(alloc, lines)?.ok_or(Memory)?;
    let counts = zero_counts(alloc, script.workers.as_slice().len())?;
    let gates = gates_of(alloc, &script.filter, counts.as_slice())?;
    let ended = run_gated(rt, alloc, script, gates, turns)?;
    Ok(GateRun { ended, counts })
}

// Worker 0 tells three events, of which the filter keeps two, and worker 1 records a field.
#[test]
fn workers_ask_gates(rt: HostRuntime) -> Result<(), Fail> {
    let lines =
        "{\"at\":0,\"shared\":0}\n{\"worker\":[{\"at\":1,\"do\":\"event\",\"site\":1,\"span\":0},{\"at\":1,\"do\":\"event\",\"site\":2,\"span\":0},{\"at\":1,\"do\":\"event\",\"site\":1,\"span\":0}]}\n{\"worker\":[{\"at\":2,\"do\":\"record\",\"fields\":[[\"a\",3]],\"span\":0}]}\n";
    let ran = run(&rt, rt.alloc(), lines, &OpenTurnstile)?;
    assert!(rt; times_asked(&ran, 0) == Some(3) && times_asked(&ran, 1) == Some(0));
    assert!(rt; ran.ended.len() == 1);
    for one in ran.ended.as_slice() {
        let history = one.history.as_slice();
        assert!(rt; call_count(history, 1) == 2 && call_count(history, 2) == 1);
    }
    Ok(())
}
