//! The levels of each lane, by the lane's id.
ghost use Rattle.std.specs.Prelude.{◌≡◌, ◌<◌, OnOk, true, None, Some};
ghost use Rattle.env_filter.specs.spans.Keyed.{value_at_key, map_at};
ghost use Rattle.env_filter.specs.spans.Levels.{levels_of};
ghost use Rattle.env_filter.specs.spans.Kept.{levels_in, room_in, with_open_level, without_open_level};

use crate::levels::Levels;
use otel_base::memory::Memory;
use std::alloc::Global;
use std::collections::HashMap;
use trace_base::level::LevelFilter;
use trace_base::span::Id;

// The levels of a lane in order.
pub(crate) fn levels_on(lanes: &HashMap<u64, Levels>, lane: u64) -> &[LevelFilter]
    ensures { result.now ≡ levels_of (levels_in lanes.now.entries lane) }
{
    match lanes.get(&lane) {
        Some(levels) => levels.levels(),
        None => &[],
    }
}

// Takes the room for one level more on a lane.
pub(crate) fn prepare(
    alloc: Global,
    lanes: &mut HashMap<u64, Levels>,
    lane: u64,
) -> Result<(), Memory>
    ensures leaves { levels_in lanes.new.entries ≡ levels_in lanes.old.entries }
    ensures room { OnOk result (0 < room_in lanes.new.entries lane) }
{
    if let Some(levels) = lanes.get_mut(&lane) {
        return levels.reserve();
    }
    add(alloc, lanes, lane)
}

// Adds a lane without levels, with the room for one.
fn add(alloc: Global, lanes: &mut HashMap<u64, Levels>, lane: u64) -> Result<(), Memory>
    requires { value_at_key lanes.old.entries lane ≡ None }
    ensures leaves { levels_in lanes.new.entries ≡ levels_in lanes.old.entries }
    ensures room { OnOk result (0 < room_in lanes.new.entries lane) }
{
    let mut levels = Levels::new(alloc);
    levels.reserve()?;
    lanes.insert(lane, levels)?;
    Ok(())
}

// Appends the level of an entry, for which there is room.
pub(crate) fn append(lanes: &mut HashMap<u64, Levels>, lane: u64, id: Id, level: LevelFilter)
    requires { 0 < room_in lanes.old.entries lane }
    ensures { levels_in lanes.new.entries ≡ map_at (levels_in lanes.old.entries) lane (with_open_level (Some level) id) }
{
    if let Some(levels) = lanes.get_mut(&lane) {
        levels.append(id, level);
    }
}

// Takes off the newest level that an entry of the span appended.
pub(crate) fn take_off(lanes: &mut HashMap<u64, Levels>, lane: u64, id: Id)
    ensures { levels_in lanes.new.entries ≡ map_at (levels_in lanes.old.entries) lane (without_open_level true id) }
{
    if let Some(levels) = lanes.get_mut(&lane) {
        levels.take_off(id);
    }
}
