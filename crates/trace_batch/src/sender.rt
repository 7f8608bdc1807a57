//! What a sender does: it makes the texts of its items, and puts them into the queue.
ghost use Rattle.std.specs.Prelude.{◌≡◌, [], All};
ghost use Rattle.crossbeam_queue.specs.Passes.{view, IsPassOf};
ghost use Rattle.trace_batch.specs.Rule.{sender_view, put_into, IsSenderOf};
ghost use Rattle.trace_batch.specs.Sending.{Sends};

use crate::item::{Finished, Item, Sent, sent_of};
use crate::queue::{Put, Queue, QueuePass};
use std::alloc::Global;
use std::sync::Wait;
use std::sync::atomic::{AtomicU64, Ordering};
use std::thread;
use turnstile::Turnstile;

/// What a sender leaves.
#[derive(Drop)]
pub struct SenderEnd {
    /// Its pass of the queue.
    pub pass: QueuePass,
    /// How many of its items it put in, from the first on.
    pub sent_count: usize,
    /// Whether it ended for want of memory.
    pub lacks_memory: bool,
}

/// The words by which the senders and the writer tell one another how far they are. No proof rests on them.
#[derive(Drop)]
pub struct SendProgress {
    /// The lane whose thread could not be started last; above all lanes where there is none.
    pub refused_lane: AtomicU64,
    /// How many senders have ended.
    pub ended_count: AtomicU64,
}

// Puts an item in, as soon as there is room.
fn push<R: Wait>(rt: &R, queue: &Queue, pass: &mut QueuePass, item: Sent)
    requires queue { IsPassOf queue.now pass.old }
    requires lane { IsSenderOf item.lane (view pass.old) }
    ensures queue { IsPassOf queue.now pass.new }
    ensures put { view pass.new ≡ put_into (view pass.old) item }
{
    let mut item = item;
    for _ in rt.forever() {
        match queue.push_as::<Put, R>(rt, pass, item) {
            Ok(()) => return,
            Err(back) => item = back,
        }
        thread::yield_now();
    }
    unreachable!()
}

/// Puts the items of a lane in, with their texts. It puts none in where it is called in the place of a thread that
/// could not be started, and stops where there is no memory for a text.
pub fn send<R: Wait, F: Finished, T: Turnstile>(
    rt: &R,
    alloc: Global,
    queue: &Queue,
    list: &[Item<F>],
    lane: u64,
    progress: &SendProgress,
    turns: &T,
    pass: QueuePass,
) -> SenderEnd
    requires queue { IsPassOf queue.now pass × (view pass ≡ sender_view lane []) }
    requires lane { All (λ i. i.lane ≡ lane) list.now }
    ensures { Sends F.text queue.now lane list.now result }
{
    let mut pass = pass;
    let mut sent = 0;
    let mut lacks_memory = false;
    if progress.refused_lane.load(Ordering::SeqCst) != lane {
        for item in list {
            let Ok(made) = sent_of(alloc, item) else {
                lacks_memory = true;
                break;
            };
            turns.before(lane, sent as u64);
            push(rt, queue, &mut pass, made);
            turns.after(lane, sent as u64);
            sent += 1;
        }
    }
    progress.ended_count.fetch_add(1, Ordering::SeqCst);
    SenderEnd {
        pass,
        sent_count: sent,
        lacks_memory,
    }
}
