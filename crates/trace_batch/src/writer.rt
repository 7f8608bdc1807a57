//! How the senders are started, and how the writer serves them.
ghost use Rattle.std.specs.Prelude.{◌≡◌, ◌<◌, ◌≤◌, ◌+◌, ◌∷◌, ◌++◌, ℕ, [], false, All, length, get_or, map, drop};
ghost use Rattle.crossbeam_queue.specs.Passes.{view, IsPassOf};
ghost use Rattle.trace_batch.specs.Merges.{sent_of};
ghost use Rattle.trace_batch.specs.Rule.{KnowsEndedLanes, lane_count_of};
ghost use Rattle.trace_batch.specs.Sending.{Sends};
ghost use Rattle.trace_batch.specs.Serving.{Serving, IsNewWriter};

use crate::item::{Finished, Item, Sent, sent_of};
use crate::queue::{EndsLane, OpensLane, Queue, QueuePass, Take};
use crate::sender::{SendProgress, SenderEnd};
use crate::start::{end_of, stack_of, start};
use otel_base::list::Items;
use otel_base::memory::Memory;
use std::alloc::Global;
use std::sync::Wait;
use std::sync::atomic::Ordering;
use std::thread;
use std::thread::{Scope, Threads};
use turnstile::Turnstile;

/// How far the writer is.
#[derive(Drop)]
pub struct Writer {
    /// Its pass of the queue.
    pub pass: QueuePass,
    /// What it took out of the queue.
    pub taken: Items<Sent>,
    /// What it served itself, which no sender had put in.
    pub late: Items<Sent>,
    /// Whether it or a sender found no memory.
    pub lacks_memory: bool,
}

// Keeps what was taken out, where there is memory for it.
fn keep(taken: &mut Items<Sent>, lacks_memory: &mut bool, sent: Sent)
    ensures { lacks_memory.new ≡ false → (lacks_memory.old ≡ false) × (taken.new ≡ taken.old ++ sent ∷ []) }
{
    if taken.push(sent).is_err() {
        *lacks_memory = true;
    }
}

// Takes an item out, if there is one.
fn take_one<R: Wait, F: Finished>(
    rt: &R,
    queue: &Queue,
    lists: &[Items<Item<F>>],
    writer: &mut Writer,
) -> bool
    requires queue { IsPassOf queue.now writer.old.pass }
    requires serving { Serving F.text lists.now (lane_count_of (view writer.old.pass)) writer.old }
    ensures queue { IsPassOf queue.now writer.new.pass }
    ensures lanes { lane_count_of (view writer.new.pass) ≡ lane_count_of (view writer.old.pass) }
    ensures serving { Serving F.text lists.now (lane_count_of (view writer.new.pass)) writer.new }
    ensures empty { result ≡ false → KnowsEndedLanes (view writer.new.pass) [] }
{
    match queue.pop_as::<Take, R>(rt, &mut writer.pass) {
        Some(sent) => {
            keep(&mut writer.taken, &mut writer.lacks_memory, sent);
            true
        }
        None => false,
    }
}

/// Takes items out until all senders have ended, and the queue is empty.
pub(crate) fn take_all<R: Wait, F: Finished>(
    rt: &R,
    queue: &Queue,
    lists: &[Items<Item<F>>],
    progress: &SendProgress,
    writer: &mut Writer,
)
    requires queue { IsPassOf queue.now writer.old.pass }
    requires serving { Serving F.text lists.now (lane_count_of (view writer.old.pass)) writer.old }
    ensures queue { IsPassOf queue.now writer.new.pass }
    ensures lanes { lane_count_of (view writer.new.pass) ≡ lane_count_of (view writer.old.pass) }
    ensures serving { Serving F.text lists.now (lane_count_of (view writer.new.pass)) writer.new }
    ensures empty { KnowsEndedLanes (view writer.new.pass) [] }
{
    for _ in rt.forever() {
        let have_ended = progress.ended_count.load(Ordering::SeqCst) == lists.len() as u64;
        let is_taken = take_one(rt, queue, lists, writer);
        if !is_taken {
            if have_ended {
                return;
            }
            thread::yield_now();
        }
    }
    unreachable!()
}

// Makes the texts of items that no sender put in.
fn serve_rest<F: Finished>(
    alloc: Global,
    rest: &[Item<F>],
    late: &mut Items<Sent>,
    lacks_memory: &mut bool,
)
    ensures { lacks_memory.new ≡ false → (lacks_memory.old ≡ false) × (late.new ≡ late.old ++ map (sent_of F.text) rest.now) }
{
    for item in rest {
        let Ok(sent) = sent_of(alloc, item) else {
            *lacks_memory = true;
            return;
        };
        if late.push(sent).is_err() {
            *lacks_memory = true;
            return;
        }
    }
}

// The items from one on.
fn items_from<F>(list: &[Item<F>], from: usize) -> &[Item<F>]
    ensures { result.now ≡ drop from list.now }
{
    if from < list.len() {
        &list[from..]
    } else {
        &[]
    }
}

// Takes in what the last lane's sender leaves, and serves what it didn't put in.
fn settle<F: Finished>(
    alloc: Global,
    queue: &Queue,
    lists: &[Items<Item<F>>],
    lane: usize,
    ended: SenderEnd,
    writer: &mut Writer,
)
    requires lane { lane < length lists.now }
    requires own { All (λ i. i.lane ≡ lane) (get_or lists.now lane []) }
    requires queue { IsPassOf queue.now writer.old.pass }
    requires serving { Serving F.text lists.now (lane + 1) writer.old }
    requires sends { Sends F.text queue.now lane (get_or lists.now lane []) ended }
    ensures queue { IsPassOf queue.now writer.new.pass }
    ensures serving { Serving F.text lists.now lane writer.new }
{
    let SenderEnd {
        pass,
        sent_count: sent,
        lacks_memory,
    } = ended;
    queue.absorb::<EndsLane>(&mut writer.pass, pass);
    writer.lacks_memory |= lacks_memory;
    let rest = items_from(lists[lane].as_slice(), sent);
    serve_rest(alloc, rest, &mut writer.late, &mut writer.lacks_memory);
}

/// Starts the senders of the lanes from one on, takes out what they put in, and takes in what they leave.
pub(crate) fn serve<'s, E, R: Threads + Wait + Sync, F: Finished + Sync, T: Turnstile + Sync>(
    scope: &'s Scope<'s, E>,
    rt: &'s R,
    alloc: Global,
    queue: &'s Queue,
    lists: &'s [Items<Item<F>>],
    lane: usize,
    stack_sizes: &[usize],
    progress: &'s SendProgress,
    turns: &'s T,
    writer: &mut Writer,
)
    requires lane { lane ≤ length lists.now }
    requires own { (l : ℕ) → l < length lists.now → All (λ i. i.lane ≡ l) (get_or lists.now l []) }
    requires queue { IsPassOf queue.now writer.old.pass }
    requires opens { IsNewWriter lane writer.old }
    ensures queue { IsPassOf queue.now writer.new.pass }
    ensures serving { Serving F.text lists.now lane writer.new }
{
    if lane >= lists.len() {
        take_all(rt, queue, lists, progress, writer);
        return;
    }
    let list = lists[lane].as_slice();
    let pass = queue.another::<OpensLane>(&mut writer.pass);
    let stack = stack_of(stack_sizes, lane);
    let started = start(
        scope,
        rt,
        alloc,
        queue,
        list,
        lane as u64,
        stack,
        progress,
        turns,
        pass,
    );
    serve(
        scope,
        rt,
        alloc,
        queue,
        lists,
        lane + 1,
        stack_sizes,
        progress,
        turns,
        writer,
    );
    settle(alloc, queue, lists, lane, end_of(rt, started), writer);
}
