//! The hooks of a filter.
ghost use Rattle.std.specs.Prelude.{◌≡◌, ◌<◌, true};
ghost use Rattle.trace_base.specs.layers.Hooks.{OnNewSpan, OnRecord, OnEnter, OnExit, OnClose, ForNewSpan, ForRecord, ForEnter};
ghost use Rattle.env_filter.specs.spans.Keyed.{map_at};
ghost use Rattle.env_filter.specs.spans.Kept.{has_match_state, level_in, levels_in, room_in, with_open_level, without_open_level};
ghost use Rattle.env_filter.specs.Filtering.{plain_filter, after_hook, IsReadyFilter};

use crate::filter::EnvFilter;
use crate::levels::Levels;
use crate::watch::Matches;
use crate::{lanes, spans};
use otel_base::list::Items;
use std::collections::HashMap;
use trace_base::callsite::Callsite;
use trace_base::field::ValueSet;
use trace_base::lane::Lane;
use trace_base::span::{Id, Parent};

/// What a prepare made: the matches of a span that is made, if a directive cares for it, and what was found of values
/// that are recorded. The other room is in the filter.
#[derive(Drop)]
pub struct Ready {
    pub matches: Option<Matches>,
    pub found: Items<bool>,
}

impl EnvFilter {
    /// A span was made: which directives cared for it, and what the values that it was given met;
    /// `EnvFilter::on_new_span`.
    pub fn on_new_span(
        &mut self,
        prepared: Ready,
        id: Id,
        _lane: &Lane,
        _at: u64,
        _parent: Parent,
        _current: Option<Id>,
        _callsite: &Callsite,
        _values: &ValueSet,
    )
        requires { IsReadyFilter self.old (ForNewSpan _lane.now _callsite.now _values.now) prepared }
        ensures { plain_filter self.new ≡ after_hook (plain_filter self.old)
            (OnNewSpan id _lane.now _at _parent _current _callsite.now _values.now) }
    {
        let Ready { matches, found: _ } = prepared;
        match matches {
            Some(matches) => spans::add(&mut self.spans, id, matches),
            None => spans::forget(&mut self.spans, id),
        }
    }

    /// Values were recorded on a span: what they met, beside what was met before; `EnvFilter::on_record`.
    pub fn on_record(
        &mut self,
        prepared: Ready,
        id: Id,
        _at: u64,
        _callsite: &Callsite,
        _values: &ValueSet,
    )
        requires { IsReadyFilter self.old (ForRecord id _callsite.now _values.now) prepared }
        ensures { plain_filter self.new ≡ after_hook (plain_filter self.old) (OnRecord id _at _callsite.now _values.now) }
    {
        spans::note(&mut self.spans, id, prepared.found.as_slice());
    }

    /// A span was entered on a lane: its level, if it has one, is appended to the lane's; `EnvFilter::on_enter`.
    pub fn on_enter(&mut self, _prepared: Ready, id: Id, lane: &mut Lane, _at: u64)
        requires { IsReadyFilter self.old (ForEnter id lane.old.id) _prepared }
        ensures lane { lane.new ≡ lane.old }
        ensures now { plain_filter self.new ≡ after_hook (plain_filter self.old) (OnEnter id _at lane.old lane.new) }
    {
        append_level(&self.spans, &mut self.lanes, lane.id, id);
    }

    /// A span was exited on a lane: the newest level that an entry of it appended there is taken off, if it has a level;
    /// `EnvFilter::on_exit`.
    pub fn on_exit(&mut self, id: Id, lane: &mut Lane, _at: u64)
        ensures lane { lane.new ≡ lane.old }
        ensures now { plain_filter self.new ≡ after_hook (plain_filter self.old) (OnExit id _at lane.old lane.new) }
    {
        take_level_off(&self.spans, &mut self.lanes, lane.id, id);
    }

    /// A span closed: nothing is kept of it; `EnvFilter::on_close`.
    pub fn on_close(&mut self, id: Id, _at: u64)
        ensures { plain_filter self.new ≡ after_hook (plain_filter self.old) (OnClose id _at) }
    {
        spans::forget(&mut self.spans, id);
    }
}

// Appends the level of a span, if it has one.
fn append_level(spans: &HashMap<u64, Matches>, lanes: &mut HashMap<u64, Levels>, lane: u64, id: Id)
    requires { has_match_state spans.now.entries id ≡ true → 0 < room_in lanes.old.entries lane }
    ensures { levels_in lanes.new.entries
        ≡ map_at (levels_in lanes.old.entries) lane (with_open_level (level_in spans.now.entries id) id) }
{
    if let Some(level) = spans::level_of(spans, id) {
        lanes::append(lanes, lane, id, level);
    }
}

// Takes the newest level of the span off, if it has one.
fn take_level_off(
    spans: &HashMap<u64, Matches>,
    lanes: &mut HashMap<u64, Levels>,
    lane: u64,
    id: Id,
)
    ensures { levels_in lanes.new.entries
        ≡ map_at (levels_in lanes.old.entries) lane (without_open_level (has_match_state spans.now.entries id) id) }
{
    if spans::level_of(spans, id).is_some() {
        lanes::take_off(lanes, lane, id);
    }
}
