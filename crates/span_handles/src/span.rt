//! Handles of spans.
ghost use Rattle.std.specs.Prelude.{◌≡◌, ◌<◌, ◌↔◌, ℕ, length, is_some, Option, Some, None, IfOk, OnErr, IfSome, IsTrue, option_map};
ghost use Rattle.trace_base.specs.declared.span.Parent.TheVariants as parent;
ghost use Rattle.trace_base.specs.Gate.{IsInWorld, dispatch_on};
ghost use Rattle.trace_base.specs.Calls.{CloneSpan};
ghost use Rattle.trace_base.specs.Conditions.{AreFew, HasFewHolds, ParentHasFewHolds, IsLiveParent};
ghost use Rattle.span_handles.specs.Worlds.{Has, Chain};
ghost use Rattle.span_handles.specs.Handles.{Handle, no_handle, id_of, same_held, IsKnown, HasOn, HasIf, IsSite, IsOf, ReplacedOn, MayMake, MayMakeIf, as_parent, CopiesCurrent, callsite_in, field_in, ClosesOn};
ghost use Rattle.span_handles.specs.Knowing.{KeepsHandles, KeepsOthers, GainsOne, LosesOne};
ghost use Rattle.span_handles.specs.Makers.{MakesBy, MakesHandle};

use crate::calls::{copy_current, hold, make, make_if, release};
use otel_base::memory::Memory;
use std::marker::Model;
use trace_base::callsite::{Callsite, SiteId};
use trace_base::discard::Discard;
use trace_base::dispatcher::{Dispatch, get_default};
use trace_base::field::{AsField, Field, ValueSet};
use trace_base::lane::Lane;
use trace_base::span::{Id, Parent};
use trace_base::subscriber::Subscriber;
use trace_base::world::World;

/// A handle: one hold of a span, or disabled; `tracing::Span`, which isn't spent by itself. It has to be spent, by
/// `close`, by `entered` or by `discard`. A call on a disabled handle makes no call of a subscriber.
pub struct Span {
    pub(crate) held: Option<(Dispatch, Id)>,
    pub(crate) site: Option<SiteId>,
}

impl Model for Span {
    ghost use Rattle.span_handles.specs.Handles.{Handle};

    ghost Value = { Handle };

    ghost view = { λ s. record { held = s.held; site = s.site } };
}

/// Making handles.
impl Span {
    /// A new span under the lane's current one, by the subscriber that serves the lane; `Span::new`. The caller has
    /// asked `World::admits`. Without a subscriber it is `Span::none`.
    pub fn new<S: Subscriber>(
        world: &mut World<S>,
        lane: &Lane,
        at: u64,
        site: SiteId,
        values: &ValueSet,
    ) -> Result<Span, Memory>
        requires own { IsInWorld world.old lane.now.default }
        requires site { site < length world.old.sites }
        requires may { MayMakeIf S.spans S.is_whole world.old lane.now.id parent.Current
            (dispatch_on lane.now.default world.old.global) }
        ensures makes { MakesHandle S.spans S.does S.same_but_room world.old world.new lane.now at parent.Current site
            values.now (dispatch_on lane.now.default world.old.global) result }
    {
        let dispatch = get_default(world, lane);
        make_if(world, dispatch, lane, at, Parent::Current, site, values)
    }

    /// A new root; `Span::new_root`. Else as `new`.
    pub fn new_root<S: Subscriber>(
        world: &mut World<S>,
        lane: &Lane,
        at: u64,
        site: SiteId,
        values: &ValueSet,
    ) -> Result<Span, Memory>
        requires own { IsInWorld world.old lane.now.default }
        requires site { site < length world.old.sites }
        requires may { MayMakeIf S.spans S.is_whole world.old lane.now.id parent.Root
            (dispatch_on lane.now.default world.old.global) }
        ensures makes { MakesHandle S.spans S.does S.same_but_room world.old world.new lane.now at parent.Root site
            values.now (dispatch_on lane.now.default world.old.global) result }
    {
        let dispatch = get_default(world, lane);
        make_if(world, dispatch, lane, at, Parent::Root, site, values)
    }

    /// A new child of a handle's span, and a root where the handle is disabled; `Span::child_of`. Else as `new`.
    pub fn child_of<S: Subscriber>(
        parent: &Span,
        world: &mut World<S>,
        lane: &Lane,
        at: u64,
        site: SiteId,
        values: &ValueSet,
    ) -> Result<Span, Memory>
        requires own { IsInWorld world.old lane.now.default }
        requires of_dispatch { IfSome (dispatch_on lane.now.default world.old.global) (IsOf parent.now.held) }
        requires site { site < length world.old.sites }
        requires may { MayMakeIf S.spans S.is_whole world.old lane.now.id (as_parent parent.now.held)
            (dispatch_on lane.now.default world.old.global) }
        ensures makes { MakesHandle S.spans S.does S.same_but_room world.old world.new lane.now at (as_parent parent.now.held) site
            values.now (dispatch_on lane.now.default world.old.global) result }
    {
        let dispatch = get_default(world, lane);
        make_if(world, dispatch, lane, at, parent.as_parent(), site, values)
    }

    /// As these three, under a parent that is told at run time.
    pub fn make<S: Subscriber>(
        world: &mut World<S>,
        lane: &Lane,
        at: u64,
        parent: Parent,
        site: SiteId,
        values: &ValueSet,
    ) -> Result<Span, Memory>
        requires own { IsInWorld world.old lane.now.default }
        requires site { site < length world.old.sites }
        requires may { MayMakeIf S.spans S.is_whole world.old lane.now.id parent
            (dispatch_on lane.now.default world.old.global) }
        ensures makes { MakesHandle S.spans S.does S.same_but_room world.old world.new lane.now at parent site
            values.now (dispatch_on lane.now.default world.old.global) result }
    {
        let dispatch = get_default(world, lane);
        make_if(world, dispatch, lane, at, parent, site, values)
    }

    /// As `new`, by this subscriber; `Span::new_with`.
    pub fn new_with<S: Subscriber>(
        world: &mut World<S>,
        lane: &Lane,
        at: u64,
        site: SiteId,
        values: &ValueSet,
        dispatch: Dispatch,
    ) -> Result<Span, Memory>
        requires site { site < length world.old.sites }
        requires may { MayMake S.spans S.is_whole world.old lane.now.id parent.Current dispatch }
        ensures makes { MakesHandle S.spans S.does S.same_but_room world.old world.new lane.now at parent.Current site
            values.now (Some dispatch) result }
    {
        make(world, dispatch, lane, at, Parent::Current, site, values)
    }

    /// As `new_root`, by this subscriber; `Span::new_root_with`.
    pub fn new_root_with<S: Subscriber>(
        world: &mut World<S>,
        lane: &Lane,
        at: u64,
        site: SiteId,
        values: &ValueSet,
        dispatch: Dispatch,
    ) -> Result<Span, Memory>
        requires site { site < length world.old.sites }
        requires may { MayMake S.spans S.is_whole world.old lane.now.id parent.Root dispatch }
        ensures makes { MakesHandle S.spans S.does S.same_but_room world.old world.new lane.now at parent.Root site
            values.now (Some dispatch) result }
    {
        make(world, dispatch, lane, at, Parent::Root, site, values)
    }

    /// As `child_of`, by this subscriber; `Span::child_of_with`.
    pub fn child_of_with<S: Subscriber>(
        parent: &Span,
        world: &mut World<S>,
        lane: &Lane,
        at: u64,
        site: SiteId,
        values: &ValueSet,
        dispatch: Dispatch,
    ) -> Result<Span, Memory>
        requires of_dispatch { IsOf parent.now.held dispatch }
        requires site { site < length world.old.sites }
        requires may { MayMake S.spans S.is_whole world.old lane.now.id (as_parent parent.now.held)
            dispatch }
        ensures makes { MakesHandle S.spans S.does S.same_but_room world.old world.new lane.now at (as_parent parent.now.held) site
            values.now (Some dispatch) result }
    {
        make(world, dispatch, lane, at, parent.as_parent(), site, values)
    }

    /// As `make`, by a subscriber and at a callsite that were looked up, as `World::subscriber_site_and_interest` does: the
    /// caller has asked `passes`.
    pub fn make_by<S: Subscriber>(
        dispatch: Dispatch,
        subscriber: &mut S,
        lane: &Lane,
        at: u64,
        parent: Parent,
        site: SiteId,
        callsite: &Callsite,
        values: &ValueSet,
    ) -> Result<Span, Memory>
        requires whole { S.is_whole subscriber.old }
        requires live { IsLiveParent (S.spans subscriber.old).made parent }
        requires few { AreFew (S.spans subscriber.old) }
        requires few_holds { ParentHasFewHolds (S.spans subscriber.old) lane.now.id parent }
        ensures ok { IfOk result (MakesBy S.spans S.does subscriber.old subscriber.new lane.now at parent site
            callsite.now values.now dispatch) }
        ensures memory_leaves { OnErr result (S.same_but_room subscriber.old subscriber.new) }
    {
        let current = subscriber.current_id(lane.id);
        let id = subscriber.new_span(lane, at, parent, current, site, callsite, values)?;
        Ok(Span {
            held: Some((dispatch, id)),
            site: Some(site),
        })
    }

    /// A disabled handle with a callsite; `Span::new_disabled`.
    pub fn new_disabled(site: SiteId) -> Span
        ensures { result ≡ record { held = None; site = Some site } }
    {
        Span {
            held: None,
            site: Some(site),
        }
    }

    /// A disabled handle without a callsite; `Span::none`.
    pub fn none() -> Span
        ensures { result ≡ no_handle }
    {
        Span {
            held: None,
            site: None,
        }
    }

    /// A handle of the lane's current span, and `Span::none` where there is none; `Span::current`.
    pub fn current<S: Subscriber>(world: &mut World<S>, lane: &Lane) -> Span
        requires own { IsInWorld world.old lane.now.default }
        requires whole { HasIf S.is_whole world.old (dispatch_on lane.now.default world.old.global) }
        requires few_holds { HasIf (λ s. ParentHasFewHolds (S.spans s) lane.now.id parent.Current) world.old
            (dispatch_on lane.now.default world.old.global) }
        ensures value { CopiesCurrent S.spans S.does world.old world.new lane.now.id
            (dispatch_on lane.now.default world.old.global) result }
        ensures known { IsKnown S.spans world.new result.held }
        ensures keeps { KeepsHandles S.spans world.old world.new }
        ensures more { GainsOne S.spans world.old world.new result.held }
    {
        match get_default(world, lane) {
            None => Span::none(),
            Some(dispatch) => copy_current(world, dispatch, lane.id),
        }
    }

    /// The handle itself if it is enabled, else one of the lane's current span; `Span::or_current`.
    pub fn or_current<S: Subscriber>(self, world: &mut World<S>, lane: &Lane) -> Span
        requires own { IsInWorld world.old lane.now.default }
        requires whole { HasIf S.is_whole world.old (dispatch_on lane.now.default world.old.global) }
        requires few_holds { HasIf (λ s. ParentHasFewHolds (S.spans s) lane.now.id parent.Current) world.old
            (dispatch_on lane.now.default world.old.global) }

        ensures enabled { IfSome self.held (λ held. (result ≡ self) × (world.new ≡ world.old)) }
        ensures disabled { self.held ≡ None
            → CopiesCurrent S.spans S.does world.old world.new lane.now.id
            (dispatch_on lane.now.default world.old.global) result }
        ensures known { IsKnown S.spans world.old self.held → IsKnown S.spans world.new result.held }
        ensures keeps { KeepsHandles S.spans world.old world.new }
        ensures more { self.held ≡ None → GainsOne S.spans world.old world.new result.held }
    {
        if self.held.is_some() {
            return self;
        }
        self.discard();
        Span::current(world, lane)
    }

    /// Another handle of the same span, which takes one hold more; `Clone` of the Rust crate's handle.
    pub fn clone_handle<S: Subscriber>(&self, world: &mut World<S>) -> Span
        requires known { IsKnown S.spans world.old self.now.held }
        requires whole { HasOn (λ s id. S.is_whole s) world.old self.now.held }
        requires few_holds { HasOn (λ s id. HasFewHolds (S.spans s).made id) world.old self.now.held }

        ensures value { result ≡ self.now }
        ensures did { ReplacedOn (λ id s t. S.does s (CloneSpan id) t) world.old world.new self.now.held }
        ensures known { IsKnown S.spans world.new result.held }
        ensures keeps { KeepsHandles S.spans world.old world.new }
        ensures more { GainsOne S.spans world.old world.new self.now.held }
    {
        let site = self.site;
        match &self.held {
            None => Span { held: None, site },
            Some((dispatch, id)) => {
                hold(world, *dispatch, *id);
                Span {
                    held: Some((*dispatch, *id)),
                    site,
                }
            }
        }
    }

    /// Spends the handle and its hold, and answers whether its span closed; `Drop` of the Rust crate's handle. With its
    /// last hold a span closes, and then its parent is released, and so on up. Of two handles the other stays known.
    pub fn close<S: Subscriber>(self, world: &mut World<S>, at: u64) -> bool
        requires known { IsKnown S.spans world.old self.held }
        requires whole { HasOn (λ s id. S.is_whole s) world.old self.held }
        ensures value { ClosesOn S.spans world.old self.held result }
        ensures did { ReplacedOn (λ id s t. Chain S.spans S.does at (Some id) s t) world.old world.new
            self.held }
        ensures keeps { KeepsOthers S.spans world.old world.new self.held }
        ensures fewer { LosesOne S.spans world.old world.new self.held }
    {
        let Span { held, site: _ } = self;
        match held {
            None => false,
            Some((dispatch, id)) => release(world, dispatch, id, at),
        }
    }

    /// Spends the handle, and keeps its hold for good.
    pub fn discard(self) {
        let Span { held: _, site: _ } = self;
    }
}

/// Asking handles.
impl Span {
    /// The callsite, and none exactly where the handle has none; `Span::metadata`.
    pub fn metadata<'w, S: Subscriber>(&self, world: &'w World<S>) -> Option<&'w Callsite>
        requires { IsSite world.now self.now.site }
        ensures { option_map (λ c. c.now) result ≡ callsite_in world.now self.now.site }
    {
        match &self.site {
            Some(site) => Some(world.site(*site)),
            None => None,
        }
    }

    /// The field of the callsite that something names, if it names one there; `Span::field`.
    pub fn field<S: Subscriber, Q: AsField>(&self, world: &World<S>, field: &Q) -> Option<Field>
        requires { IsSite world.now self.now.site }
        ensures { result ≡ field_in (Q.field_of field.now) world.now self.now.site }
    {
        match &self.site {
            Some(site) => field.as_field(*site, world.site(*site)),
            None => None,
        }
    }

    /// Whether the callsite has a field of that name; `Span::has_field`.
    pub fn has_field<S: Subscriber, Q: AsField>(&self, world: &World<S>, field: &Q) -> bool
        requires { IsSite world.now self.now.site }
        ensures { result ≡ is_some (field_in (Q.field_of field.now) world.now self.now.site) }
    {
        self.field(world, field).is_some()
    }

    /// The span's id, and none exactly where the handle is disabled; `Span::id`.
    pub fn id(&self) -> Option<Id>
        ensures { result ≡ id_of self.now.held }
    {
        match &self.held {
            Some((_, id)) => Some(*id),
            None => None,
        }
    }

    /// Whether the handle has no span; `Span::is_disabled`.
    pub fn is_disabled(&self) -> bool
        ensures { IsTrue result ↔ self.now.held ≡ None }
    {
        self.held.is_none()
    }

    /// Whether it has neither a span nor a callsite; `Span::is_none`.
    pub fn is_none(&self) -> bool
        ensures { IsTrue result ↔ self.now ≡ no_handle }
    {
        self.held.is_none() && self.site.is_none()
    }

    /// Whether both handles are of one span, so both are enabled; `PartialEq` of the Rust crate's handles.
    pub fn same_span(&self, other: &Span) -> bool
        ensures { result ≡ same_held self.now.held other.now.held }
    {
        match (&self.held, &other.held) {
            (Some((dispatch, id)), Some((of, other))) => *dispatch == *of && *id == *other,
            _ => false,
        }
    }

    /// What a closure makes of the span's id and its subscriber, and none exactly where the handle is disabled;
    /// `Span::with_subscriber`.
    pub fn with_subscriber<T, F: FnOnce((Id, Dispatch)) -> T>(&self, f: F) -> Option<T>
        requires { IfSome self.now.held (λ held. F.pre f (held.1, held.0)) }
        ensures none { self.now.held ≡ None → result ≡ None }
        ensures some { IfSome self.now.held
            (λ held. (answer : T) × (result ≡ Some answer) × F.post f (held.1, held.0) answer) }
    {
        match &self.held {
            Some((dispatch, id)) => Some(f((*id, *dispatch))),
            None => None,
        }
    }

    /// The parent that it is to a child: a disabled handle makes a root.
    pub fn as_parent(&self) -> Parent
        ensures { result ≡ as_parent self.now.held }
    {
        match &self.held {
            Some((_, id)) => Parent::Of(*id),
            None => Parent::Root,
        }
    }
}

/// Its hold is kept for good.
impl Discard for Span {
    fn discard(self) {
        Span::discard(self);
    }
}

/// The span's id, and none exactly where the handle is disabled.
impl From<&Span> for Option<Id> {
    ghost from_gives = { λ span id. id ≡ id_of span.now.held };

    fn from(span: &Span) -> Option<Id> {
        span.id()
    }
}
