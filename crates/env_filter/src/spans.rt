//! The matches of each span, by the span's id.
ghost use Rattle.std.specs.Prelude.{◌≡◌, ◌<◌, IfOk, Some, None};
ghost use Rattle.std.specs.HashMap.{spare};
ghost use Rattle.std.specs.Option.{option_map};
ghost use Rattle.env_filter.specs.spans.Keyed.{put, map_at};
ghost use Rattle.env_filter.specs.spans.Kept.{match_state_in, level_in, with_met};
ghost use Rattle.env_filter.specs.spans.Watching.{MatchState, found_in};

use crate::watch::Matches;
use otel_base::list::Items;
use otel_base::memory::Memory;
use std::alloc::Global;
use std::collections::HashMap;
use trace_base::field::ValueSet;
use trace_base::level::LevelFilter;
use trace_base::span::Id;

// The level of a span, if it has one.
pub(crate) fn level_of(spans: &HashMap<u64, Matches>, id: Id) -> Option<LevelFilter>
    ensures { result ≡ level_in spans.now.entries id }
{
    match spans.get(&id.place()) {
        Some(matches) => Some(matches.level()),
        None => None,
    }
}

// Which of the values that are asked of a span are met by some of these.
pub(crate) fn found_for(
    alloc: Global,
    spans: &HashMap<u64, Matches>,
    id: Id,
    values: &ValueSet,
) -> Result<Items<bool>, Memory>
    ensures { IfOk result (λ found. (w : MatchState) → match_state_in spans.now.entries id ≡ Some w
        → found ≡ found_in values.now.pairs w.cares) }
{
    match spans.get(&id.place()) {
        Some(matches) => Ok(Items::from(matches.asks_met(alloc, values)?)),
        None => Ok(Items::new(alloc)),
    }
}

// Notes what was found for a span.
pub(crate) fn note(spans: &mut HashMap<u64, Matches>, id: Id, found: &[bool])
    ensures { match_state_in spans.new.entries
        ≡ map_at (match_state_in spans.old.entries) id (option_map (with_met found.now)) }
{
    if let Some(matches) = spans.get_mut(&id.place()) {
        matches.note(found);
    }
}

// Adds a span, for which there is room.
pub(crate) fn add(spans: &mut HashMap<u64, Matches>, id: Id, matches: Matches)
    requires { 0 < spare spans.old }
    ensures { match_state_in spans.new.entries ≡ put (match_state_in spans.old.entries) id (Some matches) }
{
    let Ok(_) = spans.insert(id.place(), matches) else {
        unreachable!()
    };
}

// Forgets a span.
pub(crate) fn forget(spans: &mut HashMap<u64, Matches>, id: Id)
    ensures { match_state_in spans.new.entries ≡ put (match_state_in spans.old.entries) id None }
{
    spans.remove(&id.place());
}
