//! Filters by directives.
ghost use Rattle.std.specs.Prelude.{◌≡◌, ◌==◌, ◌&&◌, Some, is_some};
ghost use Rattle.std.specs.List.{list_any};
ghost use Rattle.trace_base.specs.words.Level.{is_within};
ghost use Rattle.env_directives.specs.Cares.{cares_for_span, is_span};
ghost use Rattle.env_filter.specs.spans.Levels.{levels_of};
ghost use Rattle.env_filter.specs.Filtering.{FilterWithRoom, plain_filter, span_level, is_cared, has_dynamics, interest_in, asks_values, hint_in, levels_admit, enables_in};
ghost use Rattle.env_filter.specs.spans.Histories.{IsLevelByCalls, AreLevelsByCalls};

use crate::levels::Levels;
use crate::watch::{Matches, more_verbose};
use crate::{lanes, spans, tables};
use env_directives::directive::set::DirectiveSet;
use env_directives::directive::{self, StaticDirective};
use env_directives::env::directive::Directive;
use std::alloc::Global;
use std::collections::HashMap;
use std::marker::Model;
use trace_base::callsite::{Callsite, Kind};
use trace_base::discard::Discard;
use trace_base::filter::Filter;
use trace_base::level::{Level, LevelFilter};
use trace_base::span::Id;
use trace_base::subscriber::Interest;

mod change;
pub mod hooks;
mod layer;
pub(crate) mod text;

/// Which spans and events are let through: by directives, by what was given to spans, and by the spans that are entered
/// on the lane that asks; `tracing_subscriber::filter::EnvFilter`.
pub struct EnvFilter {
    alloc: Global,
    // Whether the texts of values are patterns.
    patterns: bool,
    statics: DirectiveSet<StaticDirective>,
    dynamics: DirectiveSet<Directive>,
    spans: HashMap<u64, Matches>,
    lanes: HashMap<u64, Levels>,
}

/// It lets its tables go part by part, which crates above then needn't prove anew.
impl Drop for EnvFilter {
    fn drop(self) {
        let EnvFilter {
            alloc: _,
            patterns: _,
            statics: _statics,
            dynamics: _dynamics,
            spans: _spans,
            lanes: _lanes,
        } = self;
    }
}

impl Model for EnvFilter {
    ghost use Rattle.std.specs.HashMap.{spare};
    ghost use Rattle.env_filter.specs.Filtering.{FilterWithRoom};

    ghost Value = { FilterWithRoom };

    ghost view = { λ f. record { patterns = f.patterns; statics = f.statics; dynamics = f.dynamics; match_states = f.spans.entries; lanes = f.lanes.entries; span_room = spare f.spans } };
}

impl EnvFilter {
    /// Whether it takes what a callsite makes always, never, or has to be asked; `EnvFilter::register_callsite`. Always
    /// for spans that some dynamic directive cares for, and for what the static ones admit; else sometimes, where there
    /// are dynamic ones.
    pub fn register_callsite(&self, callsite: &Callsite) -> Interest
        ensures { result ≡ interest_in (plain_filter self.now) callsite.now }
    {
        if self.is_cared(callsite) || self.statics.enabled(callsite) {
            Interest::Always
        } else if self.has_dynamics() {
            Interest::Sometimes
        } else {
            Interest::Never
        }
    }

    /// Whether it lets a callsite through on a lane now; `EnvFilter::enabled`. The greatest level of the dynamic
    /// directives counts here for a span that one of them cares for too; the gate of a world doesn't ask for it.
    pub fn enabled(&self, lane: u64, callsite: &Callsite) -> bool
        ensures { result ≡ enables_in (plain_filter self.now) lane callsite.now }
    {
        let level = callsite.level;
        (self.has_dynamics()
            && self.dynamics.max_level().lets_through(level)
            && (self.is_cared(callsite) || self.lane_admits(lane, level)))
            || (self.statics.max_level().lets_through(level) && self.statics.enabled(callsite))
    }

    /// The level past which it lets nothing through; `EnvFilter::max_level_hint`. TRACE where a dynamic directive asks
    /// for a value, since the filter then has to see every span; else the greatest level that was ever added.
    pub fn max_level_hint(&self) -> Option<LevelFilter>
        ensures { result ≡ Some (hint_in (plain_filter self.now)) }
    {
        if asks_values(self.dynamics.as_slice()) {
            Some(LevelFilter::TRACE)
        } else {
            Some(more_verbose(self.statics.max_level(), self.dynamics.max_level()))
        }
    }

    /// The level of a live span that was made under this filter and that some dynamic directive cared for: the greatest
    /// of those directives each of whose values was met by some value given so far, else OFF.
    pub fn level(&self, id: Id) -> Option<LevelFilter>
        ensures value { result ≡ span_level (plain_filter self.now) id }
        ensures told { IsLevelByCalls (plain_filter self.now) id result }
    {
        spans::level_of(&self.spans, id)
    }

    /// The levels of a lane: each entry of a span that has a level appended that of its moment, and each exit took off
    /// the newest that an entry of its own span appended.
    pub fn levels(&self, lane: u64) -> &[LevelFilter]
        ensures value { result.now ≡ levels_of ((plain_filter self.now).lanes lane) }
        ensures told { AreLevelsByCalls (plain_filter self.now) lane result.now }
    {
        lanes::levels_on(&self.lanes, lane)
    }

    // Whether there are dynamic directives.
    fn has_dynamics(&self) -> bool
        ensures { result ≡ has_dynamics (plain_filter self.now) }
    {
        !self.dynamics.is_empty()
    }

    // Whether the callsite makes spans that some dynamic directive cares for.
    fn is_cared(&self, callsite: &Callsite) -> bool
        ensures { result ≡ is_cared (plain_filter self.now) callsite.now }
    {
        callsite.kind == Kind::Span && some_cares(self.dynamics.as_slice(), callsite)
    }

    // Whether a level is within one of the lane's levels.
    fn lane_admits(&self, lane: u64, level: Level) -> bool
        ensures { result ≡ levels_admit level ((plain_filter self.now).lanes lane) }
    {
        levels_admit(self.levels(lane), level)
    }
}

fn some_cares(directives: &[Directive], callsite: &Callsite) -> bool
    ensures { result ≡ list_any (λ d. cares_for_span d callsite.now) directives.now }
{
    directives
        .iter()
        .any(|directive| cares(directive, callsite))
}

fn cares(directive: &Directive, callsite: &Callsite) -> bool
    ensures { result ≡ cares_for_span directive.now callsite.now }
{
    directive::Match::cares_about(directive, callsite)
}

fn levels_admit(levels: &[LevelFilter], level: Level) -> bool
    ensures { result ≡ list_any (λ f. is_within level f) levels.now }
{
    levels.iter().any(|filter| filter.lets_through(level))
}

fn asks_values(directives: &[Directive]) -> bool
    ensures { result ≡ asks_values directives.now }
{
    directives
        .iter()
        .any(|directive| tables::some_asks_value(directive.fields()))
}

/// It decides as the layer does.
impl Filter for EnvFilter {
    ghost interest = { λ s. interest_in (plain_filter s) };

    ghost enables = { λ s. enables_in (plain_filter s) };

    ghost hint = { λ s. Some (hint_in (plain_filter s)) };

    fn enabled(&self, lane: u64, callsite: &Callsite) -> bool {
        self.enabled(lane, callsite)
    }

    fn callsite_enabled(&self, callsite: &Callsite) -> Interest {
        self.register_callsite(callsite)
    }

    fn max_level_hint(&self) -> Option<LevelFilter> {
        self.max_level_hint()
    }
}

/// It holds nothing that has to be spent.
impl Discard for EnvFilter {
    fn discard(self) {}
}
