//! Lists of items for tests, and whether a list is a merge of some.
ghost use Rattle.std.specs.Prelude.{◌≡◌, ◌<◌, ◌+◌, ℕ, [], All, length, get_or, IfOk};

use otel_base::list::Items;
use otel_base::memory::Memory;
use std::alloc::Global;
use trace_batch::{Finished, Item, Sent};

/// Stands for a record: its text is its number, the lane and the place.
#[derive(Drop)]
pub struct NumberedRecord {
    /// The number.
    pub number: u64,
}

impl Finished for NumberedRecord {
    ghost use Rattle.std.specs.Prelude.{◌++◌, codes, decimal};

    ghost text = { λ finished lane place.
        decimal finished.number ++ codes " " ++ decimal lane ++ codes " " ++ decimal place };

    fn make_text(&self, alloc: Global, lane: u64, place: u64) -> Result<Items<u8>, Memory> {
        Ok(Items::from(format!(in alloc; "{} {lane} {place}", self.number)?.into_bytes()))
    }
}

// The number of an item, another for each of the first thousand of a lane.
fn number_of(lane: u64, place: u64) -> u64 {
    lane.wrapping_mul(1000).wrapping_add(place)
}

// So many items of a lane.
fn list(alloc: Global, lane: u64, count: u64) -> Result<Items<Item<NumberedRecord>>, Memory>
    ensures { IfOk result (λ items. All (λ i. i.lane ≡ lane) items) }
{
    let mut items = Items::new(alloc);
    for place in 0..count {
        let number = number_of(lane, place);
        items.push(Item {
            lane,
            place,
            finished: NumberedRecord { number },
        })?;
    }
    Ok(items)
}

/// Lists of so many items for the lanes from 0 on.
pub fn lists(alloc: Global, counts: &[u64]) -> Result<Vec<Items<Item<NumberedRecord>>>, Memory>
    ensures len { IfOk result (λ v. length v.items ≡ length counts.now) }
    ensures own { IfOk result (λ v. (l : ℕ) → l < length v.items → All (λ i. i.lane ≡ l) (get_or v.items l [])) }
{
    let mut all = Vec::new(alloc);
    for count in counts {
        let lane = all.len() as u64;
        all.push(list(alloc, lane, *count)?)?;
    }
    Ok(all)
}

// Whether an item is the next one of its lane, with its text. Then that lane has one more.
fn count_if_next(alloc: Global, one: &Sent, next: &mut [u64]) -> Result<bool, Memory> {
    let lane = usize::try_from(one.lane).unwrap_or(usize::MAX);
    if lane >= next.len() || next[lane] != one.place {
        return Ok(false);
    }
    next[lane] = next[lane].saturating_add(1);
    let number = number_of(one.lane, one.place);
    let text = format!(in alloc; "{number} {} {}", one.lane, one.place)?;
    Ok(one.text.as_slice() == text.as_bytes())
}

/// Whether a list has of each lane so many items in order, with their texts, and no others.
pub fn is_merge(alloc: Global, sent: &[Sent], counts: &[u64]) -> Result<bool, Memory> {
    let mut next = Vec::from_elem(alloc, 0u64, counts.len())?;
    for one in sent {
        if !count_if_next(alloc, one, next.as_mut_slice())? {
            return Ok(false);
        }
    }
    Ok(next.as_slice() == counts)
}
