//! A filter as a layer.
ghost use Rattle.std.specs.Prelude.{◌≡◌, ◌<◌, false, true, Some, OnOk, Err};
ghost use Rattle.std.proofs.Common.{refl, ap, ◌∙◌};
ghost use Rattle.otel_base.specs.declared.enter_error.EnterError.TheVariants.{Full};
ghost use Rattle.trace_base.specs.declared.lane.Lane.{Lane};
ghost use Rattle.env_filter.specs.spans.Kept.{has_match_state, levels_in, room_in};
ghost use Rattle.env_filter.specs.Filtering.{plain_filter, IsWholeFilter, seen_in, interest_in, hint_in, enables_in, DoesFilter, IsReadyFilter};
ghost use Rattle.env_filter.specs.laws.HookLemmas.{same_seen, same_does, filter_sees, filter_lanes, keeps_gate, keeps_whole, same_gate, same_enables, same_whole};

use crate::filter::EnvFilter;
use crate::filter::hooks::Ready;
use crate::levels::Levels;
use crate::watch::{self, Matches};
use crate::{lanes, spans};
use otel_base::enter_error::EnterError;
use otel_base::list::Items;
use otel_base::memory::Memory;
use std::alloc::Global;
use std::collections::HashMap;
use trace_base::callsite::Callsite;
use trace_base::field::ValueSet;
use trace_base::lane::Lane;
use trace_base::layer::Layer;
use trace_base::level::LevelFilter;
use trace_base::span::{Id, Parent};
use trace_base::subscriber::Interest;

/// Its hooks are those of the filter itself.
impl Layer for EnvFilter {
    type Ready = Ready;

    ghost seen = { λ s. seen_in (plain_filter s) };

    ghost kept = { λ s lane number. 0 };

    ghost attaches = { λ s. false };

    ghost interest = { λ s. interest_in (plain_filter s) };

    ghost enables = { λ s. enables_in (plain_filter s) };

    ghost hint = { λ s. Some (hint_in (plain_filter s)) };

    ghost is_whole = { λ s. IsWholeFilter (plain_filter s) };

    ghost same_but_room = { λ s t. (plain_filter t) ≡ (plain_filter s) };

    ghost does = { DoesFilter };

    ghost ready = { IsReadyFilter };

    ghost same_refl = { λ s. refl };

    ghost same_trans = { λ s t u h k. k ∙ h };

    ghost same_seen = { same_seen };

    ghost same_kept = { λ s t h. refl };

    ghost same_attaches = { λ s t h. refl };

    ghost same_gate = { same_gate };

    ghost same_enables = { same_enables };

    ghost same_whole = { same_whole };

    ghost same_does = { same_does };

    ghost sees = { filter_sees };

    ghost keeps_lanes = { filter_lanes };

    ghost none_kept_without_entries = { λ s lane number none. refl };

    ghost passive = { λ s id at before later t d unknown. ap (λ (l : Lane). l.contexts.live) d.given };

    ghost keeps_attaches = { λ s hook t d. refl };

    ghost keeps_gate = { keeps_gate };

    ghost keeps_whole = { keeps_whole };

    fn register_callsite(&self, callsite: &Callsite) -> Interest {
        self.register_callsite(callsite)
    }

    fn enabled(&self, lane: u64, callsite: &Callsite) -> bool {
        self.enabled(lane, callsite)
    }

    fn max_level_hint(&self) -> Option<LevelFilter> {
        self.max_level_hint()
    }

    fn prepare_new_span(
        &mut self,
        _lane: &Lane,
        callsite: &Callsite,
        values: &ValueSet,
    ) -> Result<Ready, Memory> {
        let matches = watch::new_matches(self.alloc, self.dynamics.as_slice(), callsite, values)?;
        self.spans.reserve(1)?;
        Ok(Ready {
            matches,
            found: Items::new(self.alloc),
        })
    }

    fn on_new_span(
        &mut self,
        prepared: Ready,
        id: Id,
        lane: &Lane,
        at: u64,
        parent: Parent,
        current: Option<Id>,
        callsite: &Callsite,
        values: &ValueSet,
    ) {
        self.on_new_span(prepared, id, lane, at, parent, current, callsite, values);
    }

    fn prepare_record(
        &mut self,
        id: Id,
        _callsite: &Callsite,
        values: &ValueSet,
    ) -> Result<Ready, Memory> {
        let found = spans::found_for(self.alloc, &self.spans, id, values)?;
        Ok(Ready {
            matches: None,
            found,
        })
    }

    fn on_record(
        &mut self,
        prepared: Ready,
        id: Id,
        at: u64,
        callsite: &Callsite,
        values: &ValueSet,
    ) {
        self.on_record(prepared, id, at, callsite, values);
    }

    fn prepare_follows_from(&mut self, _id: Id, _from: Id) -> Result<Ready, Memory> {
        Ok(nothing(self.alloc))
    }

    fn on_follows_from(&mut self, _prepared: Ready, _id: Id, _from: Id, _at: u64) {}

    fn prepare_event(
        &mut self,
        _reached: Option<Id>,
        _callsite: &Callsite,
        _values: &ValueSet,
    ) -> Result<Ready, Memory> {
        Ok(nothing(self.alloc))
    }

    fn on_event(
        &mut self,
        _prepared: Ready,
        _reached: Option<Id>,
        _lane: &Lane,
        _at: u64,
        _callsite: &Callsite,
        _values: &ValueSet,
    ) {}

    fn prepare_enter(&mut self, id: Id, lane: &mut Lane) -> Result<Ready, EnterError> {
        prepare_entry(self.alloc, &self.spans, &mut self.lanes, lane.id, id)?;
        Ok(nothing(self.alloc))
    }

    fn on_enter(&mut self, prepared: Ready, id: Id, lane: &mut Lane, at: u64) {
        self.on_enter(prepared, id, lane, at);
    }

    fn on_exit(&mut self, id: Id, lane: &mut Lane, at: u64) {
        self.on_exit(id, lane, at);
    }

    fn on_close(&mut self, id: Id, at: u64) {
        self.on_close(id, at);
    }
}

// What hooks need no room for.
fn nothing(alloc: Global) -> Ready {
    Ready {
        matches: None,
        found: Items::new(alloc),
    }
}

// Takes the room for a level on the lane, where the span has one.
fn prepare_entry(
    alloc: Global,
    spans: &HashMap<u64, Matches>,
    lanes: &mut HashMap<u64, Levels>,
    lane: u64,
    id: Id,
) -> Result<(), EnterError>
    ensures not_full { ¬ (result ≡ Err Full) }
    ensures leaves { levels_in lanes.new.entries ≡ levels_in lanes.old.entries }
    ensures room { OnOk result
        (has_match_state spans.now.entries id ≡ true → 0 < room_in lanes.new.entries lane) }
{
    if spans::level_of(spans, id).is_some() {
        if let Err(Memory) = lanes::prepare(alloc, lanes, lane) {
            return Err(EnterError::Memory);
        }
    }
    Ok(())
}
