//! Targets as a layer and as a filter: they decide by callsites alone.
ghost use Rattle.std.specs.Prelude.{◌≡◌, Some, false};
ghost use Rattle.std.proofs.Common.{refl, ap, ◌∙◌};
ghost use Rattle.trace_base.specs.declared.lane.Lane.{Lane};
ghost use Rattle.env_directives.specs.orders.Choice.{admits};
ghost use Rattle.trace_base.specs.layers.Unseeing.{no_known_spans, LeavesLanes, unseeing_sees, unseeing_lanes};
ghost use Rattle.env_directives.specs.Deciding.{interest_in, enables_in};

use crate::targets::Targets;
use otel_base::enter_error::EnterError;
use otel_base::memory::Memory;
use trace_base::callsite::Callsite;
use trace_base::discard::Discard;
use trace_base::field::ValueSet;
use trace_base::filter::Filter;
use trace_base::lane::Lane;
use trace_base::layer::Layer;
use trace_base::level::LevelFilter;
use trace_base::span::{Id, Parent};
use trace_base::subscriber::Interest;

/// What a prepare of targets makes: nothing, since their hooks do nothing.
#[derive(Drop)]
pub struct Ready {}

impl Targets {
    // Always or never, by the directive that decides.
    fn interest(&self, callsite: &Callsite) -> Interest
        ensures { result ≡ interest_in self.now callsite.now }
    {
        if self.set.enabled(callsite) {
            Interest::Always
        } else {
            Interest::Never
        }
    }
}

/// Nothing of theirs has to be spent.
impl Discard for Targets {
    fn discard(self) {}
}

/// It lets a callsite through where the directive that decides for it does, on each lane and at each moment.
impl Filter for Targets {
    ghost interest = { interest_in };

    ghost enables = { enables_in };

    ghost hint = { λ t. Some t.greatest };

    fn enabled(&self, _lane: u64, callsite: &Callsite) -> bool {
        self.set.enabled(callsite)
    }

    fn callsite_enabled(&self, callsite: &Callsite) -> Interest {
        self.interest(callsite)
    }

    fn max_level_hint(&self) -> Option<LevelFilter> {
        Some(self.set.max_level())
    }
}

/// The same, with hooks that do nothing: it knows no span.
impl Layer for Targets {
    type Ready = Ready;

    ghost seen = { λ t. no_known_spans };

    ghost kept = { λ t lane number. 0 };

    ghost attaches = { λ t. false };

    ghost interest = { interest_in };

    ghost enables = { enables_in };

    ghost hint = { λ t. Some t.greatest };

    ghost is_whole = { λ t. Unit {0} };

    ghost same_but_room = { λ s t. t ≡ s };

    ghost does = { λ s hook t. (t ≡ s) × LeavesLanes hook };

    ghost ready = { λ t preparation r. Unit {0} };

    ghost same_refl = { λ s. refl };

    ghost same_trans = { λ s t u h k. k ∙ h };

    ghost same_seen = { λ s t h. refl };

    ghost same_kept = { λ s t h. refl };

    ghost same_attaches = { λ s t h. refl };

    ghost same_gate = { λ s t h. (ap interest_in h, ap (λ t. Some t.greatest) h) };

    ghost same_enables = { λ s t h. ap enables_in h };

    ghost same_whole = { λ s t h w. w };

    ghost same_does = { λ s t hook u h d. (d.0 ∙ h, d.1) };

    ghost sees = { λ s hook t d. unseeing_sees hook };

    ghost keeps_lanes = { λ s hook t d. unseeing_lanes hook d.1 };

    ghost none_kept_without_entries = { λ s lane number none. refl };

    ghost passive = { λ s id at before later t d unknown. ap (λ (l : Lane). l.contexts.live) d.1 };

    ghost keeps_attaches = { λ s hook t d. refl };

    ghost keeps_gate = { λ s hook t d. (ap interest_in d.0, ap (λ t. Some t.greatest) d.0) };

    ghost keeps_whole = { λ s hook t d w. w };

    fn register_callsite(&self, callsite: &Callsite) -> Interest {
        self.interest(callsite)
    }

    fn enabled(&self, _lane: u64, callsite: &Callsite) -> bool {
        self.set.enabled(callsite)
    }

    fn max_level_hint(&self) -> Option<LevelFilter> {
        Some(self.set.max_level())
    }

    fn prepare_new_span(
        &mut self,
        _lane: &Lane,
        _callsite: &Callsite,
        _values: &ValueSet,
    ) -> Result<Ready, Memory> {
        Ok(Ready {})
    }

    fn on_new_span(
        &mut self,
        _prepared: Ready,
        _id: Id,
        _lane: &Lane,
        _at: u64,
        _parent: Parent,
        _current: Option<Id>,
        _callsite: &Callsite,
        _values: &ValueSet,
    ) {}

    fn prepare_record(
        &mut self,
        _id: Id,
        _callsite: &Callsite,
        _values: &ValueSet,
    ) -> Result<Ready, Memory> {
        Ok(Ready {})
    }

    fn on_record(
        &mut self,
        _prepared: Ready,
        _id: Id,
        _at: u64,
        _callsite: &Callsite,
        _values: &ValueSet,
    ) {}

    fn prepare_follows_from(&mut self, _id: Id, _from: Id) -> Result<Ready, Memory> {
        Ok(Ready {})
    }

    fn on_follows_from(&mut self, _prepared: Ready, _id: Id, _from: Id, _at: u64) {}

    fn prepare_event(
        &mut self,
        _reached: Option<Id>,
        _callsite: &Callsite,
        _values: &ValueSet,
    ) -> Result<Ready, Memory> {
        Ok(Ready {})
    }

    fn on_event(
        &mut self,
        _prepared: Ready,
        _reached: Option<Id>,
        _lane: &Lane,
        _at: u64,
        _callsite: &Callsite,
        _values: &ValueSet,
    ) {}

    fn prepare_enter(&mut self, _id: Id, _lane: &mut Lane) -> Result<Ready, EnterError> {
        Ok(Ready {})
    }

    fn on_enter(&mut self, _prepared: Ready, _id: Id, _lane: &mut Lane, _at: u64) {}

    fn on_exit(&mut self, _id: Id, _lane: &mut Lane, _at: u64) {}

    fn on_close(&mut self, _id: Id, _at: u64) {}
}
