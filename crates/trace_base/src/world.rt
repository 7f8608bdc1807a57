//! Worlds: callsites, subscribers, and the gate between them.
ghost use Rattle.std.specs.Prelude.{◌≡◌, ◌<◌, ◌≤◌, ℕ, Bool, Option, List, [], ◌∷◌, ◌++◌, map, take, length, Some, None, OnOk, OnErr, IfSome, IfOk, IfErr, slice_get};
ghost use Rattle.trace_base.specs.Gate.{WorldValue, gate, hint_allows, dispatch_on, cached_at, Admits, AdmitsFresh, IsFresh, AreSame, HasRows, IsInWorld, interests_in, interests_of_sites};
ghost use Rattle.std.specs.Borrow.{sem};
ghost use Rattle.trace_base.specs.Lending.{LendsSubscriber};

use crate::callsite::{Callsite, SiteId};
use crate::discard::Discard;
use crate::dispatcher::{Dispatch, default_or_global};
use crate::lane::Lane;
use crate::level::{Level, LevelFilter};
use crate::subscriber::{Interest, Subscriber};
use otel_base::memory::Memory;
use std::alloc::Global;
use std::marker::Model;

// The interests of all subscribers in one callsite.
#[derive(Drop)]
struct Row {
    interests: Vec<Interest>,
}

impl Model for Row {
    ghost use Rattle.std.specs.Prelude.{List};
    ghost use Rattle.trace_base.specs.declared.subscriber.Interest.{Interest};

    ghost Value = { List Interest };

    ghost view = { λ r. r.interests.items };
}

/// Callsites, subscribers, the interest of each in each callsite as it was when it was asked, and the global
/// subscriber: what `tracing_core` keeps in statics, as a value that is handed from call to call.
pub struct World<S> {
    alloc: Global,
    sites: Vec<Callsite>,
    subscribers: Vec<S>,
    cached: Vec<Row>,
    global: Option<Dispatch>,
}

impl<S> Model for World<S> {
    ghost use Rattle.std.specs.Prelude.{length};
    ghost use Rattle.trace_base.specs.Gate.{WorldValue, IsSoundWorld};

    ghost Value = { WorldValue S };

    ghost view = { λ w. record { sites = w.sites.items; subscribers = w.subscribers.items; cached = w.cached.items; global = w.global } };

    ghost invariant = { λ w. IsSoundWorld (length w.sites.items) (length w.subscribers.items) w.cached.items w.global };
}

impl<S: Subscriber> World<S> {
    /// A world without callsites and subscribers, which takes no memory yet.
    pub fn new(alloc: Global) -> World<S>
        ensures { result ≡ record { sites = []; subscribers = []; cached = []; global = None } }
    {
        World {
            alloc,
            sites: Vec::new(alloc),
            subscribers: Vec::new(alloc),
            cached: Vec::new(alloc),
            global: None,
        }
    }

    /// The allocator that it takes its memory from.
    pub fn allocator(&self) -> Global {
        self.alloc
    }

    /// Adds a callsite, and asks each subscriber for its interest; `tracing_core::callsite::register`.
    pub fn add_site(&mut self, callsite: Callsite) -> Result<SiteId, Memory>
        ensures site { IfOk result (λ site. site ≡ length self.old.sites) }
        ensures sites { OnOk result (self.new.sites ≡ self.old.sites ++ callsite ∷ []) }
        ensures cached { OnOk result (self.new.cached ≡ self.old.cached ++ interests_in S.interest self.old.subscribers callsite ∷ []) }
        ensures same { AreSame S.same_but_room self.old.subscribers self.new.subscribers }
        ensures global { self.new.global ≡ self.old.global }
        ensures memory_leaves { OnErr result ((self.new.sites ≡ self.old.sites) × (self.new.cached ≡ self.old.cached)) }
    {
        let site = SiteId::at(self.sites.len() as u64);
        let row = ask(self.alloc, &mut self.subscribers, &callsite)?;
        self.sites.reserve(1)?;
        self.cached.push(row)?;
        let Ok(()) = self.sites.push(callsite) else {
            unreachable!()
        };
        Ok(site)
    }

    /// The name of the callsite at a place, if there is one.
    pub fn site_at(&self, place: u64) -> Option<SiteId>
        ensures some { IfSome result (λ site. (site ≡ place) × (place < length self.now.sites)) }
        ensures none { result ≡ None → length self.now.sites ≤ place }
    {
        if place < self.sites.len() as u64 {
            Some(SiteId::at(place))
        } else {
            None
        }
    }

    /// A callsite.
    pub fn site(&self, site: SiteId) -> &Callsite
        requires { site < length self.now.sites }
        ensures { slice_get self.now.sites site ≡ Some result.now }
    {
        &self.sites[site.number() as usize]
    }

    /// Adds a subscriber and asks all of them for their interests again, as `tracing_core::Dispatch::new` does. After
    /// `Memory` it is handed back.
    pub fn add(&mut self, subscriber: S) -> Result<Dispatch, (S, Memory)>
        ensures dispatch { IfOk result (λ dispatch. dispatch ≡ length self.old.subscribers) }
        ensures ok { OnOk result (AreSame S.same_but_room (self.old.subscribers ++ subscriber ∷ []) self.new.subscribers) }
        ensures fresh { OnOk result (IsFresh S.interest self.new) }
        ensures sites { self.new.sites ≡ self.old.sites }
        ensures global { self.new.global ≡ self.old.global }

        // For want of memory the subscriber comes back.
        ensures back { IfErr result (λ refused. S.same_but_room subscriber refused.0) }
        ensures memory_same { OnErr result (AreSame S.same_but_room self.old.subscribers self.new.subscribers) }
        ensures memory_leaves { OnErr result (self.new.cached ≡ self.old.cached) }
    {
        let dispatch = Dispatch::at(self.subscribers.len() as u64);
        if let Err(refused) = self.subscribers.push(subscriber) {
            return Err((refused.value, Memory));
        }
        match ask_all(self.alloc, &mut self.subscribers, self.sites.as_slice()) {
            Ok(cached) => {
                self.cached = cached;
                Ok(dispatch)
            }
            Err(memory) => match self.subscribers.pop() {
                Some(subscriber) => Err((subscriber, memory)),
                None => unreachable!(),
            },
        }
    }

    /// A subscriber.
    pub fn subscriber(&self, dispatch: Dispatch) -> &S
        requires { dispatch < length self.now.subscribers }
        ensures { slice_get self.now.subscribers dispatch ≡ Some result.now }
    {
        &self.subscribers[dispatch.number() as usize]
    }

    /// A subscriber, to be changed.
    pub fn subscriber_mut(&mut self, dispatch: Dispatch) -> &mut S
        requires { dispatch < length self.old.subscribers }
        ensures* lends { sem 𝓛 (LendsSubscriber S.row self.entry dispatch result) }
        ensures value { slice_get self.old.subscribers dispatch ≡ Some result.now }
    {
        &mut self.subscribers[dispatch.number() as usize]
    }

    /// A subscriber, to be changed, and a callsite beside it.
    pub fn subscriber_and_site(&mut self, dispatch: Dispatch, site: SiteId) -> (&mut S, &Callsite)
        requires there { dispatch < length self.old.subscribers }
        requires site { site < length self.old.sites }
        ensures* lends { sem 𝓛 (LendsSubscriber S.row self.entry dispatch result.0) }
        ensures value { slice_get self.old.subscribers dispatch ≡ Some result.0.now }
        ensures callsite { slice_get self.old.sites site ≡ Some result.1.now }
    {
        (
            &mut self.subscribers[dispatch.number() as usize],
            &self.sites[site.number() as usize],
        )
    }

    /// A subscriber, to be changed, and a callsite beside it with the interest that was cached: what is admitted by `passes`
    /// is made of these without a second look-up.
    pub fn subscriber_site_and_interest(
        &mut self,
        dispatch: Dispatch,
        site: SiteId,
    ) -> (&mut S, &Callsite, Interest)
        requires there { dispatch < length self.old.subscribers }
        requires site { site < length self.old.sites }
        ensures* lends { sem 𝓛 (LendsSubscriber S.row self.entry dispatch result.0) }
        ensures value { slice_get self.old.subscribers dispatch ≡ Some result.0.now }
        ensures callsite { slice_get self.old.sites site ≡ Some result.1.now }
        ensures interest { result.2 ≡ cached_at self.old.cached dispatch site }
    {
        let at = dispatch.number() as usize;
        let place = site.number() as usize;
        let interest = self.cached[place].interests[at];
        (&mut self.subscribers[at], &self.sites[place], interest)
    }

    /// Asks all subscribers for their interests in all callsites again;
    /// `tracing_core::callsite::rebuild_interest_cache`. After `Memory` the interests stand as before.
    pub fn rebuild_interest(&mut self) -> Result<(), Memory>
        ensures fresh { OnOk result (IsFresh S.interest self.new) }
        ensures same { AreSame S.same_but_room self.old.subscribers self.new.subscribers }
        ensures sites { self.new.sites ≡ self.old.sites }
        ensures global { self.new.global ≡ self.old.global }
        ensures memory_leaves { OnErr result (self.new.cached ≡ self.old.cached) }
    {
        let rows = ask_all(self.alloc, &mut self.subscribers, self.sites.as_slice())?;
        self.cached = rows;
        Ok(())
    }

    /// Whether what a callsite makes on a lane is taken, by the interest that was cached: the test that the macros of
    /// `tracing` make. No where no subscriber serves the lane.
    pub fn admits(&self, lane: &Lane, site: SiteId) -> bool
        requires site { site < length self.now.sites }
        requires own { IsInWorld self.now lane.now.default }
        ensures { Admits S.hint S.enables self.now lane.now.id site (dispatch_on lane.now.default self.now.global) result }
    {
        match default_or_global(&lane.default, &self.global) {
            None => false,
            Some(dispatch) => {
                let at = dispatch.number() as usize;
                let place = site.number() as usize;
                let row = &self.cached[place];
                passes(
                    row.interests[at],
                    &self.subscribers[at],
                    lane.id,
                    &self.sites[place],
                )
            }
        }
    }

    /// The global subscriber, if one is set.
    pub(crate) fn global(&self) -> Option<Dispatch>
        ensures value { result ≡ self.now.global }
        ensures there { IsInWorld self.now result }
    {
        match &self.global {
            Some(dispatch) => Some(*dispatch),
            None => None,
        }
    }

    /// Sets the global subscriber.
    pub(crate) fn set_global(&mut self, dispatch: Dispatch)
        requires { dispatch < length self.old.subscribers }
        ensures { self.new ≡ record self.old { global = Some dispatch } }
    {
        self.global = Some(dispatch);
    }
}

impl<S: Discard> Discard for World<S> {
    fn discard(self) {
        let World {
            alloc: _,
            sites: _,
            subscribers,
            cached: _,
            global: _,
        } = self;
        subscribers.discard();
    }
}

// Whether the hint lets the level through.
fn hint_allows(hint: Option<LevelFilter>, level: Level) -> bool
    ensures { result ≡ hint_allows hint level }
{
    match hint {
        None => true,
        Some(hint) => hint.lets_through(level),
    }
}

/// The test of `World::admits`, for who has looked up the subscriber that serves a lane and a callsite with its interest.
pub fn passes<S: Subscriber>(
    interest: Interest,
    subscriber: &S,
    lane: u64,
    callsite: &Callsite,
) -> bool
    ensures { result ≡ gate interest (S.hint subscriber.now) (S.enables subscriber.now lane callsite.now) callsite.now.level }
{
    match interest {
        Interest::Never => false,
        Interest::Sometimes => hint_allows(subscriber.max_level_hint(), callsite.level)
            && subscriber.enabled(lane, callsite),
        Interest::Always => hint_allows(subscriber.max_level_hint(), callsite.level),
    }
}

// The interests of all subscribers in a callsite.
fn ask<S: Subscriber>(
    alloc: Global,
    subscribers: &mut Vec<S>,
    callsite: &Callsite,
) -> Result<Row, Memory>
    ensures row { IfOk result (λ row. row ≡ interests_in S.interest subscribers.old.items callsite.now) }
    ensures same { AreSame S.same_but_room subscribers.old.items subscribers.new.items }
{
    let mut interests = Vec::new(alloc);
    for at in 0..subscribers.len() {
        interests.push(subscribers[at].register_callsite(callsite)?)?;
    }
    Ok(Row { interests })
}

// The interests of all subscribers in all callsites.
fn ask_all<S: Subscriber>(
    alloc: Global,
    subscribers: &mut Vec<S>,
    sites: &[Callsite],
) -> Result<Vec<Row>, Memory>
    ensures rows { IfOk result (λ rows. rows.items ≡ interests_of_sites S.interest subscribers.old.items sites.now) }
    ensures same { AreSame S.same_but_room subscribers.old.items subscribers.new.items }
{
    let mut rows = Vec::new(alloc);
    for site in sites {
        rows.push(ask(alloc, subscribers, site)?)?;
    }
    Ok(rows)
}
