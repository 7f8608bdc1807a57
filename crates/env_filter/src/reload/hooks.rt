//! The hooks of a layer that can be exchanged: those of the layer inside, or nothing.
ghost use Rattle.std.specs.Prelude.{false, None};
ghost use Rattle.trace_base.specs.layers.Unseeing.{no_known_spans, LeavesLanes};
ghost use Rattle.env_filter.specs.Reloading.{layer_or, HoldsIfThere, BothOrNeither, none_kept, sometimes, never_enabled, both_refl, both_trans, both_alike, both_keep, both_compose, both_see, both_lanes, both_passive, none_kept_through};

use crate::reload::Layer;
use otel_base::enter_error::EnterError;
use otel_base::memory::Memory;
use trace_base::callsite::Callsite;
use trace_base::field::ValueSet;
use trace_base::filter::Filter;
use trace_base::lane::Lane;
use trace_base::layer;
use trace_base::level::LevelFilter;
use trace_base::span::{Id, Parent};
use trace_base::subscriber::Interest;

/// It does what the layer inside does. Retired it takes nothing: it has to be asked each time, and says no.
impl<L: layer::Layer> layer::Layer for Layer<L> {
    type Ready = Option<L::Ready>;

    ghost seen = { λ s. layer_or no_known_spans L.seen s.inner };

    ghost kept = { λ s. layer_or none_kept L.kept s.inner };

    ghost attaches = { λ s. layer_or false L.attaches s.inner };

    ghost interest = { λ s. layer_or sometimes L.interest s.inner };

    ghost enables = { λ s. layer_or never_enabled L.enables s.inner };

    ghost hint = { λ s. layer_or None L.hint s.inner };

    ghost is_whole = { λ s. HoldsIfThere L.is_whole s.inner };

    ghost same_but_room = { λ s t. BothOrNeither L.same_but_room (Unit {0}) s.inner t.inner };

    ghost does = { λ s hook t. BothOrNeither (λ l m. L.does l hook m) (LeavesLanes hook) s.inner t.inner };

    ghost ready = { λ s preparation r. BothOrNeither (λ l q. L.ready l preparation q) (Unit {0}) s.inner r };

    ghost same_refl = { λ s. both_refl L.same_but_room L.same_refl s.inner };

    ghost same_trans = { λ s t u h k. both_trans L.same_but_room L.same_trans s.inner t.inner u.inner h k };

    ghost same_seen = { λ s t h. both_alike L.same_but_room (Unit {0}) no_known_spans L.seen L.same_seen s.inner t.inner h };

    ghost same_kept = { λ s t h. both_alike L.same_but_room (Unit {0}) none_kept L.kept L.same_kept s.inner t.inner h };

    ghost same_attaches = { λ s t h. both_alike L.same_but_room (Unit {0}) false L.attaches L.same_attaches s.inner t.inner h };

    ghost same_gate = { λ s t h. (both_alike L.same_but_room (Unit {0}) sometimes L.interest (λ l m k. (L.same_gate l m k).0) s.inner t.inner h, both_alike L.same_but_room (Unit {0}) None L.hint (λ l m k. (L.same_gate l m k).1) s.inner t.inner h) };

    ghost same_enables = { λ s t h. both_alike L.same_but_room (Unit {0}) never_enabled L.enables L.same_enables s.inner t.inner h };

    ghost same_whole = { λ s t h w. both_keep L.same_but_room (Unit {0}) L.is_whole L.same_whole s.inner t.inner h w };

    ghost same_does = { λ s t hook u h d. both_compose L.same_but_room (λ l m. L.does l hook m) (LeavesLanes hook) (λ l m n. L.same_does l m hook n) s.inner t.inner u.inner h d };

    ghost sees = { λ s hook t d. both_see L.seen L.does (LeavesLanes hook) hook (λ l m. L.sees l hook m) s.inner t.inner d };

    ghost keeps_lanes = { λ s hook t d. both_lanes L.attaches L.kept L.does hook (λ l m. L.keeps_lanes l hook m) s.inner t.inner d };

    ghost none_kept_without_entries = { λ s lane number none. none_kept_through L.seen L.kept lane number (λ l. L.none_kept_without_entries l lane number) s.inner none };

    ghost passive = { λ s id at before later t d unknown. both_passive L.seen L.does id at before later (λ l m. L.passive l id at before later m) s.inner t.inner d unknown };

    ghost keeps_attaches = { λ s hook t d. both_alike (λ l m. L.does l hook m) (LeavesLanes hook) false L.attaches (λ l m. L.keeps_attaches l hook m) s.inner t.inner d };

    ghost keeps_gate = { λ s hook t d. (both_alike (λ l m. L.does l hook m) (LeavesLanes hook) sometimes L.interest (λ l m k. (L.keeps_gate l hook m k).0) s.inner t.inner d, both_alike (λ l m. L.does l hook m) (LeavesLanes hook) None L.hint (λ l m k. (L.keeps_gate l hook m k).1) s.inner t.inner d) };

    ghost keeps_whole = { λ s hook t d w. both_keep (λ l m. L.does l hook m) (LeavesLanes hook) L.is_whole (λ l m. L.keeps_whole l hook m) s.inner t.inner d w };

    fn register_callsite(&self, callsite: &Callsite) -> Interest {
        match &self.inner {
            Some(layer) => layer.register_callsite(callsite),
            None => Interest::Sometimes,
        }
    }

    fn enabled(&self, lane: u64, callsite: &Callsite) -> bool {
        match &self.inner {
            Some(layer) => layer.enabled(lane, callsite),
            None => false,
        }
    }

    fn max_level_hint(&self) -> Option<LevelFilter> {
        match &self.inner {
            Some(layer) => layer.max_level_hint(),
            None => None,
        }
    }

    fn prepare_new_span(
        &mut self,
        lane: &Lane,
        callsite: &Callsite,
        values: &ValueSet,
    ) -> Result<Option<L::Ready>, Memory> {
        match &mut self.inner {
            Some(layer) => Ok(Some(layer.prepare_new_span(lane, callsite, values)?)),
            None => Ok(None),
        }
    }

    fn on_new_span(
        &mut self,
        prepared: Option<L::Ready>,
        id: Id,
        lane: &Lane,
        at: u64,
        parent: Parent,
        current: Option<Id>,
        callsite: &Callsite,
        values: &ValueSet,
    ) {
        if let Some(layer) = &mut self.inner {
            if let Some(ready) = prepared {
                layer.on_new_span(ready, id, lane, at, parent, current, callsite, values);
            }
        }
    }

    fn prepare_record(
        &mut self,
        id: Id,
        callsite: &Callsite,
        values: &ValueSet,
    ) -> Result<Option<L::Ready>, Memory> {
        match &mut self.inner {
            Some(layer) => Ok(Some(layer.prepare_record(id, callsite, values)?)),
            None => Ok(None),
        }
    }

    fn on_record(
        &mut self,
        prepared: Option<L::Ready>,
        id: Id,
        at: u64,
        callsite: &Callsite,
        values: &ValueSet,
    ) {
        if let Some(layer) = &mut self.inner {
            if let Some(ready) = prepared {
                layer.on_record(ready, id, at, callsite, values);
            }
        }
    }

    fn prepare_follows_from(&mut self, id: Id, from: Id) -> Result<Option<L::Ready>, Memory> {
        match &mut self.inner {
            Some(layer) => Ok(Some(layer.prepare_follows_from(id, from)?)),
            None => Ok(None),
        }
    }

    fn on_follows_from(&mut self, prepared: Option<L::Ready>, id: Id, from: Id, at: u64) {
        if let Some(layer) = &mut self.inner {
            if let Some(ready) = prepared {
                layer.on_follows_from(ready, id, from, at);
            }
        }
    }

    fn prepare_event(
        &mut self,
        reached: Option<Id>,
        callsite: &Callsite,
        values: &ValueSet,
    ) -> Result<Option<L::Ready>, Memory> {
        match &mut self.inner {
            Some(layer) => Ok(Some(layer.prepare_event(reached, callsite, values)?)),
            None => Ok(None),
        }
    }

    fn on_event(
        &mut self,
        prepared: Option<L::Ready>,
        reached: Option<Id>,
        lane: &Lane,
        at: u64,
        callsite: &Callsite,
        values: &ValueSet,
    ) {
        if let Some(layer) = &mut self.inner {
            if let Some(ready) = prepared {
                layer.on_event(ready, reached, lane, at, callsite, values);
            }
        }
    }

    fn prepare_enter(&mut self, id: Id, lane: &mut Lane) -> Result<Option<L::Ready>, EnterError> {
        match &mut self.inner {
            Some(layer) => Ok(Some(layer.prepare_enter(id, lane)?)),
            None => Ok(None),
        }
    }

    fn on_enter(&mut self, prepared: Option<L::Ready>, id: Id, lane: &mut Lane, at: u64) {
        if let Some(layer) = &mut self.inner {
            if let Some(ready) = prepared {
                layer.on_enter(ready, id, lane, at);
            }
        }
    }

    fn on_exit(&mut self, id: Id, lane: &mut Lane, at: u64) {
        if let Some(layer) = &mut self.inner {
            layer.on_exit(id, lane, at);
        }
    }

    fn on_close(&mut self, id: Id, at: u64) {
        if let Some(layer) = &mut self.inner {
            layer.on_close(id, at);
        }
    }
}

/// It decides as the filter inside does. Retired it lets nothing through: it has to be asked each time, and says no.
impl<L: Filter> Filter for Layer<L> {
    ghost interest = { λ s. layer_or sometimes L.interest s.inner };

    ghost enables = { λ s. layer_or never_enabled L.enables s.inner };

    ghost hint = { λ s. layer_or None L.hint s.inner };

    fn enabled(&self, lane: u64, callsite: &Callsite) -> bool {
        match &self.inner {
            Some(filter) => filter.enabled(lane, callsite),
            None => false,
        }
    }

    fn callsite_enabled(&self, callsite: &Callsite) -> Interest {
        match &self.inner {
            Some(filter) => filter.callsite_enabled(callsite),
            None => Interest::Sometimes,
        }
    }

    fn max_level_hint(&self) -> Option<LevelFilter> {
        match &self.inner {
            Some(filter) => filter.max_level_hint(),
            None => None,
        }
    }
}
