//! The registry: who holds a span, when it closes, and which spans each lane has entered.
ghost use Rattle.std.specs.Prelude.{◌≡◌, ℕ, ◌<◌, ◌==◌, [], true, false, IfSome, None, if◌then◌else◌};
ghost use Rattle.std.proofs.Common.{refl, ◌∙◌, ap};
ghost use Rattle.trace_base.specs.declared.lane.Lane.{Lane};
ghost use Rattle.trace_base.specs.declared.subscriber.Interest.TheVariants as interests;
ghost use Rattle.trace_base.specs.Spans.{Spans, span_at, entries_on, with_hold, without_hold, parent_to_release};
ghost use Rattle.trace_base.specs.Calls.{TryClose};
ghost use Rattle.trace_base.specs.Conditions.{HasUnboundHold, IsLive, HasFewHolds};
ghost use Rattle.trace_base.specs.Sound.{IsSound};
ghost use Rattle.span_registry.specs.Registering.{RegistryValue, DoesRegistry, no_spans, registry_same, registry_lanes};

use crate::entries::{add_entry, current, entries, remove_entry};
use crate::lane_entries::LaneEntries;
use crate::table::Table;
use otel_base::enter_error::EnterError;
use otel_base::memory::Memory;
use std::alloc::Global;
use std::marker::Model;
use trace_base::callsite::{Callsite, SiteId};
use trace_base::discard::Discard;
use trace_base::field::ValueSet;
use trace_base::lane::Lane;
use trace_base::level::LevelFilter;
use trace_base::span::{Closing, Id, Parent};
use trace_base::subscriber::{Interest, Subscriber};

/// The spans that are live, with their holds, and the entries that are open on each lane;
/// `tracing_subscriber::Registry`. It takes everything, and no lane has contexts of it.
#[derive(Drop)]
pub struct Registry {
    alloc: Global,
    table: Table,
    lanes: Vec<LaneEntries>,
}

impl Model for Registry {
    ghost use Rattle.trace_base.specs.Sound.{IsSound};
    ghost use Rattle.span_registry.specs.Registering.{RegistryValue};

    ghost Value = { RegistryValue };

    ghost view = { λ r. record { spans = record { made = r.table.made; lanes = r.lanes.items }; slots = r.table.slots } };

    ghost invariant = { λ r. IsSound (record { made = r.table.made; lanes = r.lanes.items }) };
}

impl Registry {
    /// A registry without spans, which takes no memory yet; `Registry::default` of the Rust crate.
    pub fn new(alloc: Global) -> Registry
        ensures { result ≡ record { spans = no_spans; slots = 0 } }
    {
        Registry {
            alloc,
            table: Table::new(alloc),
            lanes: Vec::new(alloc),
        }
    }

    /// What holds of every registry.
    pub fn sound(&self)
        ensures { IsSound self.now.spans }
    {
        let _ = &self.alloc;
    }

    /// How many holds a span has, 0 where it isn't live: one for each handle, for each lane with an entry of it, and
    /// for each open child.
    pub fn holds(&self, id: Id) -> u64
        ensures value { result ≡ (span_at self.now.spans.made id).holds }
    {
        self.table.holds(id)
    }

    /// The span's parent, none for a root and where the span isn't live.
    pub fn parent(&self, id: Id) -> Option<Id>
        ensures value { result ≡ (span_at self.now.spans.made id).parent }
    {
        self.table.parent(id)
    }

    /// The entries of a lane, in order.
    pub fn entries(&self, lane: u64) -> &[Id]
        ensures value { result.now ≡ entries_on lane self.now.spans.lanes }
    {
        entries(self.lanes.as_slice(), lane)
    }

    /// How many slots for spans there are: as many as were live at once. A slot is used again after its span closed.
    pub fn slots(&self) -> u64
        ensures value { result ≡ self.now.slots }
    {
        self.table.slots()
    }

    /// Releases one hold of a span, and answers the parent that is to be released next: none at the end of the chain.
    pub fn next_closed(&mut self, id: Id) -> Option<Id>
        requires { HasUnboundHold self.old.spans id }
        ensures value { result ≡ parent_to_release self.old.spans.made id }
        ensures spans { self.new.spans ≡ record self.old.spans { made = without_hold self.old.spans.made id } }
        ensures slots { self.new.slots ≡ self.old.slots }
        ensures next_held { IfSome result (λ p. (p < id) × HasUnboundHold self.new.spans p) }
        ensures did { (at : ℕ) → DoesRegistry self.old (TryClose id at) self.new }
    {
        self.table.release(id).next
    }
}

impl Subscriber for Registry {
    ghost spans = { λ s. s.spans };

    ghost kept = { λ s lane number. 0 };

    ghost attaches = { λ s. false };

    ghost activates = { λ s id. false };

    ghost interest = { λ s c. interests.Always };

    ghost enables = { λ s lane c. true };

    ghost hint = { λ s. None };

    ghost is_whole = { λ s. Unit {0} };

    ghost same_but_room = { λ s t. t ≡ s };

    ghost does = { DoesRegistry };

    ghost same_refl = { λ s. refl };

    ghost same_trans = { λ s t u h k. k ∙ h };

    ghost same_spans = { λ s t h. ap (λ (r : RegistryValue). r.spans) h };

    ghost same_kept = { λ s t h. refl };

    ghost same_attaches = { λ s t h. refl };

    ghost same_activates = { λ s t h. refl };

    ghost same_gate = { λ s t h. (refl, refl) };

    ghost same_enables = { λ s t h. refl };

    ghost same_whole = { λ s t h w. w };

    ghost same_does = { registry_same };

    ghost sound = { λ s call t d. d.sound };

    ghost allowed = { λ s call t d. d.allowed };

    ghost shows = { λ s call t d. d.shows };

    ghost keeps_lanes = { registry_lanes };

    ghost none_kept_without_entries = { λ s lane number w none. refl };

    ghost passive = { λ s id at before later t d neither. ap (λ (l : Lane). l.contexts.live) d.lane };

    ghost keeps_attaches = { λ s call t d. refl };

    ghost keeps_gate = { λ s call t d. (refl, refl) };

    ghost keeps_whole = { λ s call t d w. w };

    fn register_callsite(&mut self, _callsite: &Callsite) -> Result<Interest, Memory> {
        Ok(Interest::Always)
    }

    fn enabled(&self, _lane: u64, _callsite: &Callsite) -> bool {
        true
    }

    fn max_level_hint(&self) -> Option<LevelFilter> {
        None
    }

    fn new_span(
        &mut self,
        _lane: &Lane,
        _at: u64,
        parent: Parent,
        current: Option<Id>,
        site: SiteId,
        _callsite: &Callsite,
        _values: &ValueSet,
    ) -> Result<Id, Memory> {
        self.table.add(parent.span(current), site)
    }

    fn record(
        &mut self,
        _id: Id,
        _at: u64,
        _callsite: &Callsite,
        _values: &ValueSet,
    ) -> Result<(), Memory> {
        self.sound();
        Ok(())
    }

    fn record_follows_from(&mut self, _id: Id, _from: Id, _at: u64) -> Result<(), Memory> {
        self.sound();
        Ok(())
    }

    fn event(
        &mut self,
        _lane: &Lane,
        _at: u64,
        _parent: Parent,
        _current: Option<Id>,
        _site: SiteId,
        _callsite: &Callsite,
        _values: &ValueSet,
    ) -> Result<(), Memory> {
        self.sound();
        Ok(())
    }

    fn enter(&mut self, id: Id, lane: &mut Lane, _at: u64) -> Result<(), EnterError> {
        let again = add_entry(self.alloc, &mut self.lanes, lane.id, id)?;
        hold_unless(again, &mut self.table, id);
        Ok(())
    }

    fn exit(&mut self, id: Id, lane: &mut Lane, _at: u64) {
        let last = remove_entry(&mut self.lanes, lane.id, id);
        release_if(last, &mut self.table, id);
    }

    fn clone_span(&mut self, id: Id) {
        self.table.hold(id);
    }

    fn try_close(&mut self, id: Id, _at: u64) -> Closing {
        self.table.release(id)
    }

    fn current_id(&self, lane: u64) -> Option<Id> {
        current(self.lanes.as_slice(), lane)
    }

    fn current_span(&self, lane: u64) -> Option<(Id, SiteId)> {
        let id = current(self.lanes.as_slice(), lane)?;
        Some((id, self.table.site(id)))
    }
}

impl Discard for Registry {
    fn discard(self) {}
}

// One hold more, unless the span is entered already.
fn hold_unless(again: bool, table: &mut Table, id: Id)
    requires live { IsLive table.old.made id }
    requires few { HasFewHolds table.old.made id }
    ensures made { table.new.made ≡ (if again then table.old.made else with_hold table.old.made id) }
    ensures slots { table.new.slots ≡ table.old.slots }
{
    if !again {
        table.hold(id);
    }
}

// One hold less, with the last entry.
fn release_if(last: bool, table: &mut Table, id: Id)
    requires { IsLive table.old.made id }
    ensures made { table.new.made ≡ (if last then without_hold table.old.made id else table.old.made) }
    ensures slots { table.new.slots ≡ table.old.slots }
{
    if last {
        table.release(id);
    }
}
