//! What the entries of a history tell.
ghost use Rattle.std.specs.Prelude.{◌≡◌, ◌+◌, ◌<◌, ◌==◌, ℕ, List, [], ◌∷◌, ◌++◌, IfOk, OnOk, if◌then◌else◌, slice_index_or, vec_len};
ghost use Rattle.thread_run.specs.Texts.{CallsAreCounted, deed_after, entry_deeds_after};
ghost use Rattle.trace_threads.specs.declared.history.Entry.{Entry};

use otel_base::memory::Memory;
use std::alloc::Global;
use trace_threads::history::{Entry, HandleAct};

/// What an entry of a history tells.
#[derive(Clone, Copy)]
pub struct EntryDeed {
    /// The number of the handle.
    pub caller: u64,
    /// What it did.
    pub deed: Deed,
}

/// What a handle did, as a history line tells it.
#[derive(Clone, Copy)]
pub enum Deed {
    /// It made a handle.
    Clone,
    /// It made a call, the one of this number among its own on the span, from 0.
    Call { number: u64 },
    /// It ended another handle, which no worker does.
    Join,
    /// It ended itself.
    Release,
}

// Has a place for a count, and maybe for others before it.
fn ensure_count(counts: &mut Vec<u64>, at: usize) -> Result<(), Memory>
    ensures same { OnOk result (
        (k : ℕ) → slice_index_or counts.new.items k 0 ≡ slice_index_or counts.old.items k 0) }
    ensures there { OnOk result (at < vec_len counts.new) }
{
    while counts.len() <= at {
        counts.push(0)?;
    }
    Ok(())
}

// The number of a caller's next call, by those that were counted, which is counted. No span has so many calls that a sum
// wraps.
fn take_call_number(counts: &mut Vec<u64>, caller: u64) -> Result<u64, Memory>
    ensures number { IfOk result (λ n. n ≡ slice_index_or counts.old.items caller 0) }
    ensures counted { OnOk result ((k : ℕ) → slice_index_or counts.new.items k 0
        ≡ (if caller == k then slice_index_or counts.old.items k 0 + 1 else slice_index_or counts.old.items k 0)) }
{
    let at = caller as usize;
    ensure_count(counts, at)?;
    let number = counts[at];
    counts[at] = number.checked_add(1).ok_or(Memory)?;
    Ok(number)
}

// What an entry tells, where the calls of each handle before it were counted; its own is counted too.
fn deed_of(counts: &mut Vec<u64>, entry: &Entry) -> Result<Deed, Memory>
    ensures deed { (before : List Entry) → CallsAreCounted before counts.old.items
        → IfOk result (λ d. d ≡ deed_after before entry.now.caller entry.now.what) }
    ensures counted { (before : List Entry) → CallsAreCounted before counts.old.items
        → OnOk result (CallsAreCounted (before ++ entry.now ∷ []) counts.new.items) }
{
    match &entry.what {
        HandleAct::Clone { new: _ } => Ok(Deed::Clone),
        HandleAct::Call { op: _ } => {
            let number = take_call_number(counts, entry.caller)?;
            Ok(Deed::Call { number })
        }
        HandleAct::Join { ended: _ } => Ok(Deed::Join),
        HandleAct::Release => Ok(Deed::Release),
    }
}

/// What the entries of a history tell, in order.
pub(crate) fn entry_deeds(alloc: Global, history: &[Entry]) -> Result<Vec<EntryDeed>, Memory>
    ensures { IfOk result (λ told. told.items ≡ entry_deeds_after [] history.now) }
{
    let mut counts = Vec::new(alloc);
    let mut told = Vec::new(alloc);
    for entry in history {
        let deed = deed_of(&mut counts, entry)?;
        told.push(EntryDeed {
            caller: entry.caller,
            deed,
        })?;
    }
    Ok(told)
}
