//! How a lane's sender is started, in a thread of its own where one can be had.
ghost use Rattle.std.specs.Prelude.{◌≡◌, [], All};
ghost use Rattle.crossbeam_queue.specs.Passes.{view, IsPassOf};
ghost use Rattle.trace_batch.specs.Rule.{sender_view};
ghost use Rattle.trace_batch.specs.Sending.{Sends};
ghost use Rattle.trace_batch.specs.Starting.{EndsAsPromised};
ghost use Rattle.trace_batch.specs.declared.sender.SenderEnd.{SenderEnd};

use crate::item::{Finished, Item};
use crate::queue::{Queue, QueuePass};
use crate::sender::{SendProgress, SenderEnd, send};
use core::thread::{PromisedHandle, Stack};
use std::alloc::Global;
use std::sync::Wait;
use std::sync::atomic::Ordering;
use std::thread::{Promise, Scope, Threads};
use turnstile::Turnstile;

/// What the sender of a lane promises.
#[derive(Drop)]
pub struct SenderPromise<'a, F> {
    /// The queue that it puts into.
    pub queue: &'a Queue,
    /// The items of its lane.
    pub list: &'a [Item<F>],
    /// Its lane.
    pub lane: u64,
}

impl<'a, F: Finished> Promise<SenderEnd> for SenderPromise<'a, F> {
    ghost use Rattle.trace_batch.specs.Sending.{Sends};

    ghost kept_by = { λ p r. Sends F.text p.queue.now p.lane p.list.now r };
}

/// A lane's sender that was started.
pub enum Started<P: Promise<SenderEnd>> {
    /// It runs in a thread.
    Runs(PromisedHandle<SenderEnd, P>),
    /// No thread could be started, and it has ended without putting an item in.
    Ended(SenderEnd),
}

/// The stack of a lane's sender: of the size that is given for it, else of the usual one.
pub(crate) fn stack_of(stack_sizes: &[usize], lane: usize) -> Stack {
    match stack_sizes.get(lane) {
        Some(size) => Stack::new().stack_size(*size),
        None => Stack::new(),
    }
}

/// Starts the sender of a lane, which has this pass.
pub(crate) fn start<'s, E, R: Threads + Wait + Sync, F: Finished + Sync, T: Turnstile + Sync>(
    scope: &'s Scope<'s, E>,
    rt: &'s R,
    alloc: Global,
    queue: &'s Queue,
    list: &'s [Item<F>],
    lane: u64,
    stack: Stack,
    progress: &'s SendProgress,
    turns: &'s T,
    pass: QueuePass,
) -> Started<SenderPromise<'s, F>>
    requires queue { IsPassOf queue.now pass × (view pass ≡ sender_view lane []) }
    requires own { All (λ i. i.lane ≡ lane) list.now }
    ensures { (end : SenderEnd) → EndsAsPromised ⟦<SenderPromise<'s, F> as Promise<SenderEnd>>⟧.kept_by result end
        → Sends F.text queue.now lane list.now end }
{
    let promise = SenderPromise { queue, list, lane };
    let started = stack.spawn_scoped_with(
        scope,
        promise,
        move || -> SenderEnd
            requires queue { IsPassOf queue.now pass × (view pass ≡ sender_view lane []) }
            requires own { All (λ i. i.lane ≡ lane) list.now }
            ensures { Sends F.text queue.entry.now lane list.entry.now result }
        { send(rt, alloc, queue, list, lane, progress, turns, pass) },
    );
    match started {
        Ok(handle) => Started::Runs(handle),
        Err(refused) => {
            // The closure came back with the pass in it. It is called for the pass alone: it would wait for ever for
            // room in a queue that nobody empties.
            progress.refused_lane.store(lane, Ordering::SeqCst);
            Started::Ended((refused.value)())
        }
    }
}

/// What a sender leaves, once it has ended.
pub(crate) fn end_of<R: Threads, P: Promise<SenderEnd>>(rt: &R, started: Started<P>) -> SenderEnd
    ensures { EndsAsPromised P.kept_by started result }
{
    match started {
        Started::Runs(handle) => handle.join(rt),
        Started::Ended(ended) => ended,
    }
}
