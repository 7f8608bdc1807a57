//! Items to their texts, in as many threads as there are lanes.
ghost use Rattle.std.specs.Prelude.{◌≡◌, ◌<◌, ◌≤◌, ◌++◌, ℕ, [], false, All, length, get_or, IfOk};
ghost use Rattle.crossbeam_queue.specs.Passes.{IsPassOf};
ghost use Rattle.trace_batch.specs.declared.relay.TheConstants.{MAX_LANES};
ghost use Rattle.trace_batch.specs.Merges.{IsMerge};
ghost use Rattle.trace_batch.specs.Rule.{KnowsEndedLanes};
ghost use Rattle.trace_batch.specs.Serving.{Serving, IsNewWriter};

use crate::item::{Finished, Item, Sent};
use crate::queue::Queue;
use crate::sender::SendProgress;
use crate::writer::{Writer, serve, take_all};
use otel_base::list::Items;
use otel_base::memory::Memory;
use std::alloc::Global;
use std::sync::Wait;
use std::sync::atomic::AtomicU64;
use std::thread;
use std::thread::Threads;
use turnstile::Turnstile;

/// How many lanes there are at most.
pub const MAX_LANES: u64 = 8;

// How many items the queue holds at most.
const QUEUE_CAPACITY: usize = 16;

// What was taken out of the queue, and then what the writer served itself.
fn taken_and_late(writer: Writer) -> Result<Vec<Sent>, Memory>
    ensures { IfOk result (λ v. (writer.lacks_memory ≡ false) × (v.items ≡ writer.taken ++ writer.late)) }
{
    let Writer {
        pass: _,
        taken,
        late,
        lacks_memory,
    } = writer;
    if lacks_memory {
        return Err(Memory);
    }
    let mut all = taken.into_vec();
    for sent in late.into_vec() {
        all.push(sent)?;
    }
    Ok(all)
}

// Takes out what is left, and puts all together.
fn finish<R: Wait, F: Finished>(
    rt: &R,
    queue: &Queue,
    lists: &[Items<Item<F>>],
    progress: &SendProgress,
    writer: Writer,
) -> Result<Vec<Sent>, Memory>
    requires queue { IsPassOf queue.now writer.pass }
    requires serving { Serving F.text lists.now 0 writer }
    ensures { IfOk result (λ v. IsMerge F.text lists.now v.items) }
{
    let mut writer = writer;
    take_all(rt, queue, lists, progress, &mut writer);
    taken_and_late(writer)
}

// Starts a sender for each list, in threads that end before it returns.
fn run_senders<H: Threads + Wait + Sync, F: Finished + Sync, T: Turnstile + Sync>(
    rt: &H,
    alloc: Global,
    queue: &Queue,
    lists: &[Items<Item<F>>],
    stack_sizes: &[usize],
    progress: &SendProgress,
    turns: &T,
    writer: Writer,
) -> Writer
    requires own { (l : ℕ) → l < length lists.now → All (λ i. i.lane ≡ l) (get_or lists.now l []) }
    requires queue { IsPassOf queue.now writer.pass }
    requires opens { IsNewWriter 0 writer }
    ensures queue { IsPassOf queue.now result.pass }
    ensures serving { Serving F.text lists.now 0 result }
{
    thread::scope(
        thread::scope_env(),
        rt,
        move |scope| -> Writer
            requires own { (l : ℕ) → l < length lists.now → All (λ i. i.lane ≡ l) (get_or lists.now l []) }
            requires queue { IsPassOf queue.now writer.pass }
            requires opens { IsNewWriter 0 writer }
            ensures queue { IsPassOf queue.entry.now result.pass }
            ensures serving { Serving F.text lists.entry.now 0 result }
        {
            let mut writer = writer;
            serve(
                scope,
                rt,
                alloc,
                queue,
                lists,
                0,
                stack_sizes,
                progress,
                turns,
                &mut writer,
            );
            writer
        },
    )
}

/// The items of all lists with their texts: of each lane its items in order, and no others; between lanes any order. A
/// sender in a thread of its own makes the texts of a list, where a thread can be started; else the caller makes them.
/// Each push into the queue is one call for `turns`. `Memory` where a sender or the caller found none, once all senders
/// have ended.
pub fn relay<H: Threads + Wait + Sync, F: Finished + Sync + Drop, T: Turnstile + Sync>(
    rt: &H,
    alloc: Global,
    lists: Vec<Items<Item<F>>>,
    turns: &T,
) -> Result<Vec<Sent>, Memory>
    requires lanes { length lists.items ≤ MAX_LANES }
    requires own { (l : ℕ) → l < length lists.items → All (λ i. i.lane ≡ l) (get_or lists.items l []) }
    ensures { IfOk result (λ v. IsMerge F.text lists.items v.items) }
{
    relay_on_stacks(rt, alloc, lists, &[], turns)
}

/// As `relay`, where a lane's sender has a stack of the size in bytes that is given for it, if one is. A size that is
/// too large for the host refuses the lane its thread.
pub fn relay_on_stacks<H: Threads + Wait + Sync, F: Finished + Sync + Drop, T: Turnstile + Sync>(
    rt: &H,
    alloc: Global,
    lists: Vec<Items<Item<F>>>,
    stack_sizes: &[usize],
    turns: &T,
) -> Result<Vec<Sent>, Memory>
    requires lanes { length lists.items ≤ MAX_LANES }
    requires own { (l : ℕ) → l < length lists.items → All (λ i. i.lane ≡ l) (get_or lists.items l []) }
    ensures { IfOk result (λ v. IsMerge F.text lists.items v.items) }
{
    let (queue, pass) = Queue::ruled(alloc, QUEUE_CAPACITY)?;
    let progress = SendProgress {
        refused_lane: AtomicU64::new(u64::MAX),
        ended_count: AtomicU64::new(0),
    };
    let writer = Writer {
        pass,
        taken: Items::new(alloc),
        late: Items::new(alloc),
        lacks_memory: false,
    };
    let lists = lists.as_slice();
    let writer = run_senders(
        rt,
        alloc,
        &queue,
        lists,
        stack_sizes,
        &progress,
        turns,
        writer,
    );
    finish(rt, &queue, lists, &progress, writer)
}
