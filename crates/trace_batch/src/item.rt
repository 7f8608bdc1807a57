//! What is handed to a sender, and what comes of it.
ghost use Rattle.std.specs.Prelude.{◌≡◌, ℕ, List, IfOk};
ghost use Rattle.trace_batch.specs.Merges.{sent_of};

use otel_base::list::Items;
use otel_base::memory::Memory;
use std::alloc::Global;

/// Something that has finished, and of which a sender makes a text.
pub trait Finished {
    /// Its text, as the item of a lane and a place.
    ghost text: { Self → ℕ → ℕ → List ℕ };

    /// Makes its text; `Memory` where there is none for it.
    fn make_text(&self, alloc: Global, lane: u64, place: u64) -> Result<Items<u8>, Memory>
        ensures { IfOk result (λ bytes. bytes ≡ text self.now lane place) };
}

/// Something that has finished on a lane.
#[derive(Drop)]
pub struct Item<F> {
    /// The lane.
    pub lane: u64,
    /// Its number among all that have finished.
    pub place: u64,
    /// What has finished.
    pub finished: F,
}

/// An item whose text is made.
#[derive(Drop)]
pub struct Sent {
    /// The lane.
    pub lane: u64,
    /// Its number among all that have finished.
    pub place: u64,
    /// Its text.
    pub text: Items<u8>,
}

/// The item with its text; `Memory` where there is none for the text.
pub(crate) fn sent_of<F: Finished>(alloc: Global, item: &Item<F>) -> Result<Sent, Memory>
    ensures { IfOk result (λ sent. sent ≡ sent_of F.text item.now) }
{
    let text = item.finished.make_text(alloc, item.lane, item.place)?;
    Ok(Sent {
        lane: item.lane,
        place: item.place,
        text,
    })
}
