//! The levels of a lane: each entry of a span that has a level appends it.
ghost use Rattle.std.specs.Prelude.{◌≡◌, ◌≢◌, ◌==◌, ◌<◌, ℕ, [], ◌∷◌, ◌++◌, OnOk, length, IfSome, IsNone, slice_index_or, vec_len, vec_capacity};
ghost use Rattle.std.specs.List.{remove};
ghost use Rattle.trace_base.specs.Spans.{without_last};
ghost use Rattle.env_filter.specs.spans.Levels.{LaneLevels, levels_of, open_levels, is_of_span};

use otel_base::memory::Memory;
use std::alloc::Global;
use std::marker::Model;
use trace_base::level::LevelFilter;
use trace_base::span::Id;

/// The levels of a lane, each with the span whose entry appended it.
#[derive(Drop)]
pub struct Levels {
    spans: Vec<Id>,
    levels: Vec<LevelFilter>,
}

impl Model for Levels {
    ghost use Rattle.std.specs.Prelude.{◌≡◌, ◌-◌, length, min, vec_capacity};
    ghost use Rattle.env_filter.specs.spans.Levels.{LaneLevels, open_levels};

    ghost Value = { LaneLevels };

    ghost view = { λ l. record { opened = open_levels l.spans.items l.levels.items; room = min (vec_capacity l.spans - length l.spans.items) (vec_capacity l.levels - length l.levels.items) } };

    ghost invariant = { λ l. length l.levels.items ≡ length l.spans.items };
}

impl Levels {
    /// No levels.
    pub fn new(alloc: Global) -> Levels
        ensures { result.opened ≡ [] }
    {
        Levels {
            spans: Vec::new(alloc),
            levels: Vec::new(alloc),
        }
    }

    /// The levels in order.
    pub fn levels(&self) -> &[LevelFilter]
        ensures { result.now ≡ levels_of self.now.opened }
    {
        self.levels.as_slice()
    }

    /// Takes the room for one level more.
    pub fn reserve(&mut self) -> Result<(), Memory>
        ensures room { OnOk result (0 < self.new.room) }
        ensures leaves { self.new.opened ≡ self.old.opened }
    {
        self.spans.reserve(1)?;
        self.levels.reserve(1)?;
        Ok(())
    }

    /// Appends the level of a span.
    pub fn append(&mut self, id: Id, level: LevelFilter)
        requires { 0 < self.old.room }
        ensures { self.new.opened ≡ self.old.opened ++ record { span = id; level = level } ∷ [] }
    {
        push_in_room(&mut self.spans, id);
        push_in_room(&mut self.levels, level);
    }

    /// Takes off the newest level that an entry of the span appended.
    pub fn take_off(&mut self, id: Id)
        ensures { self.new.opened ≡ without_last (is_of_span id) self.old.opened }
    {
        if let Some(at) = last_place(self.spans.as_slice(), id) {
            self.spans.remove(at);
            self.levels.remove(at);
        }
    }
}

// The last place of a span.
fn last_place(ids: &[Id], id: Id) -> Option<usize>
    ensures within { IfSome result (λ at. at < length ids.now) }
    ensures is { IfSome result (λ at. slice_index_or ids.now at 0 ≡ id) }
    ensures last { IfSome result (λ at. (k : ℕ) → at < k → k < length ids.now → slice_index_or ids.now k 0 ≢ id) }
    ensures none { IsNone result → (k : ℕ) → k < length ids.now → slice_index_or ids.now k 0 ≢ id }
{
    let mut above = ids.len();
    while above > 0 {
        above -= 1;
        if ids[above] == id {
            return Some(above);
        }
    }
    None
}

// Adds an item for which there is room.
pub(crate) fn push_in_room<T: Drop>(items: &mut Vec<T>, item: T)
    requires { vec_len items.old < vec_capacity items.old }
    ensures { items.new.items ≡ items.old.items ++ item ∷ [] }
{
    let _ = items.push(item);
}
