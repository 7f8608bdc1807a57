//! Senders and the writer with ample memory.
use crate::lists::{is_merge, lists};
use std::sync::atomic::{AtomicU64, Ordering};
use std::test::{Fail, *};
use std::thread;
use trace_batch::batches::batches;
use trace_batch::relay::{relay, relay_on_stacks};
use turnstile::{OpenTurnstile, Turnstile};

// Holds the first push of sender 0 until that of sender 1 is done, for a number of turns at most.
#[derive(Drop)]
struct FirstPushHold {
    held: AtomicU64,
    done: AtomicU64,
    missed: AtomicU64,
}

impl Turnstile for FirstPushHold {
    fn before(&self, worker: u64, call: u64) {
        if worker == 0 && call == 0 {
            self.held.store(1, Ordering::SeqCst);
            for _ in 0..10_000_000u64 {
                if self.done.load(Ordering::SeqCst) == 1 {
                    return;
                }
                thread::yield_now();
            }
            self.missed.store(1, Ordering::SeqCst);
        }
    }

    fn after(&self, worker: u64, call: u64) {
        if worker == 1 && call == 0 {
            self.done.store(1, Ordering::SeqCst);
        }
    }
}

// Counts the pushes of all senders.
#[derive(Drop)]
struct Count {
    pushes: AtomicU64,
}

impl Turnstile for Count {
    fn before(&self, _worker: u64, _call: u64) {}

    fn after(&self, _worker: u64, _call: u64) {
        self.pushes.fetch_add(1, Ordering::SeqCst);
    }
}

// A sender whose lane is served late makes no call for the turnstile, so the test asks that both made one.
#[test]
fn two_senders_at_once(rt: HostRuntime) -> Result<(), Fail> {
    let counts = [3, 2];
    let gate = FirstPushHold {
        held: AtomicU64::new(0),
        done: AtomicU64::new(0),
        missed: AtomicU64::new(0),
    };
    let sent = relay(&rt, rt.alloc(), lists(rt.alloc(), &counts)?, &gate)?;
    assert!(rt; gate.held.load(Ordering::SeqCst) == 1 && gate.done.load(Ordering::SeqCst) == 1);
    assert!(rt; gate.missed.load(Ordering::SeqCst) == 0);
    assert!(rt; is_merge(rt.alloc(), sent.as_slice(), &counts)?);
    Ok(())
}

// The queue has 16 places.
#[test]
fn eight_senders_fill_the_queue_100_times_over(rt: HostRuntime) -> Result<(), Fail> {
    let counts = [500, 0, 1, 300, 16, 17, 799, 3];
    let turns = Count {
        pushes: AtomicU64::new(0),
    };
    let sent = relay(&rt, rt.alloc(), lists(rt.alloc(), &counts)?, &turns)?;
    assert!(rt; sent.len() == 1636 && turns.pushes.load(Ordering::SeqCst) == 1636);
    assert!(rt; is_merge(rt.alloc(), sent.as_slice(), &counts)?);
    Ok(())
}

// A stack of the greatest size is more than a host has. The other lanes' senders have theirs.
#[test]
fn a_lane_whose_thread_is_refused_is_served_by_the_writer(rt: HostRuntime) -> Result<(), Fail> {
    let counts = [20, 40, 20];
    let turns = Count {
        pushes: AtomicU64::new(0),
    };
    let stacks = [1 << 20, usize::MAX, 1 << 20];
    let sent = relay_on_stacks(
        &rt,
        rt.alloc(),
        lists(rt.alloc(), &counts)?,
        &stacks,
        &turns,
    )?;
    assert!(rt; turns.pushes.load(Ordering::SeqCst) == 40);
    assert!(rt; is_merge(rt.alloc(), sent.as_slice(), &counts)?);
    Ok(())
}

#[test]
fn no_lane_gives_nothing(rt: HostRuntime) -> Result<(), Fail> {
    let sent = relay(&rt, rt.alloc(), lists(rt.alloc(), &[])?, &OpenTurnstile)?;
    assert!(rt; sent.len() == 0);
    Ok(())
}

#[test]
fn all_batches_but_the_last_are_full(rt: HostRuntime) -> Result<(), Fail> {
    let sent = relay(&rt, rt.alloc(), lists(rt.alloc(), &[7])?, &OpenTurnstile)?;
    let cut = batches(rt.alloc(), sent, 3)?;
    assert!(rt; cut.len() == 3 && cut[0].len() == 3 && cut[1].len() == 3 && cut[2].len() == 1);
    assert!(rt; cut[2][0].place == 6);
    let none = batches(rt.alloc(), Vec::new(rt.alloc()), 3)?;
    assert!(rt; none.len() == 0);
    Ok(())
}
