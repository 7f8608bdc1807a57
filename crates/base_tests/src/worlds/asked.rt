//! A layer that answers what it is told to, and notes its hooks.
ghost use Rattle.std.specs.Prelude.{◌≡◌, false};
ghost use Rattle.std.proofs.Common.{refl, ap, ◌∙◌};
ghost use Rattle.trace_base.specs.declared.lane.Lane.{Lane};
ghost use Rattle.trace_base.specs.layers.Unseeing.{no_known_spans, LeavesLanes, unseeing_sees, unseeing_lanes};

use otel_base::enter_error::EnterError;
use otel_base::memory::Memory;
use std::cell::Cell;
use std::rc::Rc;
use trace_base::callsite::Callsite;
use trace_base::discard::Discard;
use trace_base::field::ValueSet;
use trace_base::lane::Lane;
use trace_base::layer::Layer;
use trace_base::level::LevelFilter;
use trace_base::span::{Id, Parent};
use trace_base::subscriber::Interest;

/// What layers note into, each two decimals: the layer's number, and that of the hook, 0 for what comes before one.
#[derive(Drop)]
pub struct Notes {
    /// The layer's number.
    pub layer_number: u64,
    /// What was noted.
    pub log: Rc<Cell<u64>>,
}

/// Answers what it is told to answer, and knows no span.
#[derive(Drop)]
pub struct NotingLayer {
    /// Its interest in each callsite.
    pub interest: Interest,
    /// Whether it enables each.
    pub enables: bool,
    /// Its hint.
    pub hint: Option<LevelFilter>,
    /// What it notes into, if it notes.
    pub notes: Option<Notes>,
}

impl NotingLayer {
    fn note(&self, hook: u64) {
        if let Some(notes) = &self.notes {
            let log = notes.log.get().wrapping_mul(100);
            let entry = notes.layer_number.wrapping_mul(10).wrapping_add(hook);
            notes.log.set(log.wrapping_add(entry));
        }
    }
}

/// What a prepare made: nothing.
#[derive(Drop)]
pub struct Prepared {}

impl Layer for NotingLayer {
    type Ready = Prepared;

    ghost seen = { λ s. no_known_spans };

    ghost kept = { λ s lane number. 0 };

    ghost attaches = { λ s. false };

    ghost interest = { λ s c. s.interest };

    ghost enables = { λ s lane c. s.enables };

    ghost hint = { λ s. s.hint };

    ghost is_whole = { λ s. Unit {0} };

    ghost same_but_room = { λ s t. t ≡ s };

    ghost does = { λ s hook t. (t ≡ s) × LeavesLanes hook };

    ghost ready = { λ s preparation r. Unit {0} };

    ghost same_refl = { λ s. refl };

    ghost same_trans = { λ s t u h k. k ∙ h };

    ghost same_seen = { λ s t h. refl };

    ghost same_kept = { λ s t h. refl };

    ghost same_attaches = { λ s t h. refl };

    ghost same_gate = { λ s t h. (ap (λ r c. r.interest) h, ap (λ r. r.hint) h) };

    ghost same_enables = { λ s t h. ap (λ r lane c. r.enables) h };

    ghost same_whole = { λ s t h w. w };

    ghost same_does = { λ s t hook u h d. (d.0 ∙ h, d.1) };

    ghost sees = { λ s hook t d. unseeing_sees hook };

    ghost keeps_lanes = { λ s hook t d. unseeing_lanes hook d.1 };

    ghost none_kept_without_entries = { λ s lane number none. refl };

    ghost passive = { λ s id at before later t d neither. ap (λ (l : Lane). l.contexts.live) d.1 };

    ghost keeps_attaches = { λ s hook t d. refl };

    ghost keeps_gate = { λ s hook t d. (ap (λ r c. r.interest) d.0, ap (λ r. r.hint) d.0) };

    ghost keeps_whole = { λ s hook t d w. w };

    fn register_callsite(&self, _callsite: &Callsite) -> Interest {
        self.interest
    }

    fn enabled(&self, _lane: u64, _callsite: &Callsite) -> bool {
        self.enables
    }

    fn max_level_hint(&self) -> Option<LevelFilter> {
        self.hint
    }

    fn prepare_new_span(
        &mut self,
        _lane: &Lane,
        _callsite: &Callsite,
        _values: &ValueSet,
    ) -> Result<Prepared, Memory> {
        self.note(0);
        Ok(Prepared {})
    }

    fn on_new_span(
        &mut self,
        _prepared: Prepared,
        _id: Id,
        _lane: &Lane,
        _at: u64,
        _parent: Parent,
        _current: Option<Id>,
        _callsite: &Callsite,
        _values: &ValueSet,
    ) {
        self.note(1);
    }

    fn prepare_record(
        &mut self,
        _id: Id,
        _callsite: &Callsite,
        _values: &ValueSet,
    ) -> Result<Prepared, Memory> {
        self.note(0);
        Ok(Prepared {})
    }

    fn on_record(
        &mut self,
        _prepared: Prepared,
        _id: Id,
        _at: u64,
        _callsite: &Callsite,
        _values: &ValueSet,
    ) {
        self.note(2);
    }

    fn prepare_follows_from(&mut self, _id: Id, _from: Id) -> Result<Prepared, Memory> {
        self.note(0);
        Ok(Prepared {})
    }

    fn on_follows_from(&mut self, _prepared: Prepared, _id: Id, _from: Id, _at: u64) {
        self.note(3);
    }

    fn prepare_event(
        &mut self,
        _reached: Option<Id>,
        _callsite: &Callsite,
        _values: &ValueSet,
    ) -> Result<Prepared, Memory> {
        self.note(0);
        Ok(Prepared {})
    }

    fn on_event(
        &mut self,
        _prepared: Prepared,
        _reached: Option<Id>,
        _lane: &Lane,
        _at: u64,
        _callsite: &Callsite,
        _values: &ValueSet,
    ) {
        self.note(4);
    }

    fn prepare_enter(&mut self, _id: Id, _lane: &mut Lane) -> Result<Prepared, EnterError> {
        self.note(0);
        Ok(Prepared {})
    }

    fn on_enter(&mut self, _prepared: Prepared, _id: Id, _lane: &mut Lane, _at: u64) {
        self.note(5);
    }

    fn on_exit(&mut self, _id: Id, _lane: &mut Lane, _at: u64) {
        self.note(6);
    }

    fn on_close(&mut self, _id: Id, _at: u64) {
        self.note(7);
    }
}

impl Discard for NotingLayer {
    fn discard(self) {}
}
