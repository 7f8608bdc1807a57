//! Workers at once: a turnstile holds the first call of one until the other's was answered.
use crate::scripts::{call_count, run};
use std::alloc::{AllocError, Global};
use std::sync::atomic::{AtomicU64, Ordering};
use std::test::{Fail, *};
use std::thread::yield_now;
use trace_stream::status::Status;
use turnstile::{OpenTurnstile, Turnstile};

// How often worker 0 looks at most whether worker 1's call was answered.
const MAX_LOOKS: u64 = 10_000_000;

// Holds the first call of worker 0 until that of worker 1 was answered.
#[derive(Drop)]
struct Hold {
    reached: AtomicU64,
    answered: AtomicU64,
    missed: AtomicU64,
}

impl Hold {
    fn await_answer(&self) {
        for _ in 0..MAX_LOOKS {
            if self.answered.load(Ordering::SeqCst) == 1 {
                return;
            }
            yield_now();
        }
        self.missed.store(1, Ordering::SeqCst);
    }
}

impl Turnstile for Hold {
    fn before(&self, worker: u64, call: u64) {
        if worker == 0 && call == 0 {
            self.reached.store(1, Ordering::SeqCst);
            self.await_answer();
        }
    }

    fn after(&self, worker: u64, call: u64) {
        if worker == 1 && call == 0 {
            self.answered.store(1, Ordering::SeqCst);
        }
    }
}

#[test]
fn two_workers_at_once(rt: HostRuntime) -> Result<(), Fail> {
    let hold = Hold {
        reached: AtomicU64::new(0),
        answered: AtomicU64::new(0),
        missed: AtomicU64::new(0),
    };
    let lines =
        "{\"at\":5,\"shared\":0}\n{\"worker\":[{\"at\":7,\"do\":\"record\",\"fields\":[[\"a\",1]],\"span\":0}]}\n{\"worker\":[{\"at\":8,\"do\":\"record\",\"fields\":[[\"b\",1]],\"span\":0}]}\n";
    let (status, ended) = run(&rt, rt.alloc(), lines, &hold)?;
    assert!(rt; status == Status::Ok);
    assert!(rt; hold.reached.load(Ordering::SeqCst) == 1);
    assert!(rt; hold.missed.load(Ordering::SeqCst) == 0);
    assert!(rt; ended.len() == 1);
    for one in ended.as_slice() {
        let history = one.history.as_slice();
        assert!(rt;
            history.len() == 7 && call_count(history, 1) == 1 && call_count(history, 2) == 1
        );
    }
    Ok(())
}

// Lines of so many spans, and of workers that enter and exit them in turn, so many times.
fn many_lines(alloc: Global, spans: u64, workers: u64, rounds: u64) -> Result<String, AllocError> {
    let mut text = String::new(alloc);
    for _ in 0..spans {
        text.push_str("{\"at\":0,\"shared\":0}\n")?;
    }
    for _ in 0..workers {
        text.push_str("{\"worker\":[")?;
        push_calls(alloc, &mut text, spans, rounds)?;
        text.push_str("{\"at\":9,\"do\":\"start\",\"span\":0}]}\n")?;
    }
    Ok(text)
}

fn push_calls(alloc: Global, text: &mut String, spans: u64, rounds: u64) -> Result<(), AllocError> {
    let mut span = 0u64;
    for _ in 0..rounds {
        let pair = format!(in alloc;
            "{{\"at\":7,\"do\":\"enter\",\"span\":{}}},{{\"at\":7,\"do\":\"exit\",\"span\":{}}},",
            span, span
        )?;
        text.push_str(pair.as_str())?;
        span = if span.saturating_add(1) < spans {
            span.saturating_add(1)
        } else {
            0
        };
    }
    Ok(())
}

// Each worker makes 1,001 calls. A span's history has the making and the end of each handle beside them.
#[test]
fn eight_workers_on_64_spans(rt: HostRuntime) -> Result<(), Fail> {
    let lines = many_lines(rt.alloc(), 64, 8, 500)?;
    let (status, ended) = run(&rt, rt.alloc(), lines.as_str(), &OpenTurnstile)?;
    assert!(rt; status == Status::Ok && ended.len() == 64);
    let mut entries = 0usize;
    for one in ended.as_slice() {
        entries = entries.saturating_add(one.history.as_slice().len());
    }
    assert!(rt; entries == 64 * 17 + 8 * 1001);
    Ok(())
}

#[test]
fn no_worker(rt: HostRuntime) -> Result<(), Fail> {
    let (status, ended) = run(&rt, rt.alloc(), "{\"at\":3,\"shared\":0}\n", &OpenTurnstile)?;
    assert!(rt; status == Status::Ok && ended.len() == 1);
    for one in ended.as_slice() {
        assert!(rt; one.history.as_slice().len() == 1 && one.finished.end == 3);
    }
    Ok(())
}
