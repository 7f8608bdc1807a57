//! The lists of the lanes, for their senders.
ghost use Rattle.std.specs.Prelude.{◌≡◌, ◌<◌, ◌∷◌, ◌++◌, ℕ, [], All, length, get_or, set, IfOk, OnOk};
ghost use Rattle.batch_lines.specs.Items.{items_of, items_on_lane};

use crate::finished::FinishedSpan;
use otel_base::list::Items;
use otel_base::memory::Memory;
use otel_base::record::Record;
use std::alloc::Global;
use trace_batch::Item;

// Adds an empty list.
fn add_list(alloc: Global, lists: &mut Vec<Items<Item<FinishedSpan>>>) -> Result<(), Memory>
    ensures { OnOk result (lists.new.items ≡ lists.old.items ++ [] ∷ []) }
{
    lists.push(Items::new(alloc))?;
    Ok(())
}

// So many empty lists.
fn empty_lists(alloc: Global, count: u64) -> Result<Vec<Items<Item<FinishedSpan>>>, Memory>
    ensures len { IfOk result (λ lists. length lists.items ≡ count) }
    ensures empty { IfOk result (λ lists. (l : ℕ) → get_or lists.items l [] ≡ []) }
{
    let mut lists = Vec::new(alloc);
    for _ in 0..count {
        add_list(alloc, &mut lists)?;
    }
    Ok(lists)
}

// Adds an item to the list of its lane.
fn add_item(
    lists: &mut Vec<Items<Item<FinishedSpan>>>,
    item: Item<FinishedSpan>,
) -> Result<(), Memory>
    requires { item.lane < length lists.old.items }
    ensures len { OnOk result (length lists.new.items ≡ length lists.old.items) }
    ensures added { OnOk result
        (lists.new.items ≡ set lists.old.items item.lane (get_or lists.old.items item.lane [] ++ item ∷ [])) }
{
    let lane = item.lane as usize;
    lists[lane].push(item)
}

// The lane of a record, by its place among them.
fn lane_at(lanes: &[u64], place: usize, count: u64) -> u64
    requires within { place < length lanes.now }
    requires each { All (λ lane. lane < count) lanes.now }
    ensures value { result ≡ get_or lanes.now place 0 }
    ensures few { result < count }
    ensures within { place < length lanes.now }
{
    lanes[place]
}

/// The records of each lane, in order, as items. `lanes` has the lane of each record.
pub fn lane_lists(
    alloc: Global,
    records: Vec<Record>,
    lanes: &[u64],
    count: u64,
) -> Result<Vec<Items<Item<FinishedSpan>>>, Memory>
    requires lanes { length lanes.now ≡ length records.items }
    requires each { All (λ lane. lane < count) lanes.now }
    ensures len { IfOk result (λ lists. length lists.items ≡ count) }
    ensures each { IfOk result (λ lists.
        (l : ℕ) → get_or lists.items l [] ≡ items_on_lane l (items_of records.items lanes.now)) }
{
    let mut lists = empty_lists(alloc, count)?;
    let mut place = 0;
    for record in records {
        let item = Item {
            lane: lane_at(lanes, place, count),
            place: place as u64 + 1,
            finished: FinishedSpan { content: record },
        };
        add_item(&mut lists, item)?;
        place += 1;
    }
    Ok(lists)
}
