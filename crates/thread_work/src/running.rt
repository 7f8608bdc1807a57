//! Workers in threads over the shared spans of a script.
ghost use Rattle.std.specs.Prelude.{◌≡◌, vec_len, IfOk};
ghost use Rattle.thread_script.specs.Plans.{plan_of};
ghost use Rattle.thread_script.specs.Tests.{AllValidWork, AllAtOpening};
ghost use Rattle.thread_work.specs.Spans.{AreFirsts, AllEnded};

use crate::prepare::{Prepared, prepare};
use crate::spans::{end_handles, work_over};
use event_gate::EventGate;
use otel_base::memory::Memory;
use std::alloc::Global;
use std::sync::Wait;
use std::thread::Threads;
use thread_handles::Ended;
use thread_script::ThreadScript;
use trace_threads::handle::Handle;
use turnstile::Turnstile;

/// Runs the workers of a script in threads over its shared spans, of which the handles numbered 0 are given, in order.
/// Each worker has a gate of its own, which it asks once for each event; a worker for which no thread can be started is
/// run here. `turns` is called round each call of a worker, and round each of its releases, which are numbered on from
/// the calls. It answers for each span, in order: a history that does on this span what each worker asks by its list, and
/// nothing else; its record; and a pass of this very span that has seen just that history. `Memory` where there was none
/// for some call; then all handles have been ended.
pub fn work<R: Threads + Wait + Sync, G: EventGate + Send + Drop, T: Turnstile + Sync>(
    rt: &R,
    alloc: Global,
    script: ThreadScript,
    spans: Vec<Handle>,
    gates: Vec<G>,
    turns: &T,
) -> Result<Vec<Ended>, Memory>
    requires tested { AllValidWork (plan_of script) script.workers }
    requires spans { AreFirsts (plan_of script) spans.items }
    requires gates { AllAtOpening G.opening script.filter script.workers gates.items }
    ensures len { IfOk result (λ es. vec_len es ≡ vec_len spans) }
    ensures ended { IfOk result (λ es. AllEnded (plan_of script) spans.items script.workers es.items) }
{
    match prepare(rt, alloc, script, gates, spans.len()) {
        Ok(
            Prepared {
                plan,
                jobs,
                firsts,
                ended,
            },
        ) => work_over(rt, alloc, &plan, turns, spans, jobs, firsts, ended),
        Err(full) => {
            end_handles(rt, spans);
            Err(full)
        }
    }
}
