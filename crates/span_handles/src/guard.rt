//! Guards of entries, and calls inside a span.
ghost use Rattle.std.specs.Prelude.{◌≡◌, ℕ, Option, Some, None, Err, IfOk, IfErr, OnOk, OnErr, IsErr, IsOk};
ghost use Rattle.otel_base.specs.declared.enter_error.EnterError.TheVariants.{Full};
ghost use Rattle.trace_base.specs.Calls.{Enter, Exit};
ghost use Rattle.trace_base.specs.Conditions.{HasFewHolds, MayExit};
ghost use Rattle.trace_base.specs.lanes.Contexts.{AreAttached};
ghost use Rattle.span_handles.specs.Handles.{Handle, IsKnown, HasOn, ReplacedOn, id_of};
ghost use Rattle.span_handles.specs.Knowing.{KeepsHandles};
ghost use Rattle.span_handles.specs.Entries.{IsThere, IsAttachedOn, BeginsInside, KeepsEntry, KeepsLaneButRoom, MeetsFullLane};

use crate::entry::Entry;
use crate::span::Span;
use otel_base::enter_error::EnterError;
use std::marker::Model;
use trace_base::lane::Lane;
use trace_base::span::Id;
use trace_base::subscriber::Subscriber;
use trace_base::world::World;

/// An open entry that borrows its handle; `tracing::span::Entered`, which isn't spent by itself. It has to be spent, by
/// `exit`.
pub struct Entered<'a> {
    span: &'a Span,
    entry: Entry,
    lane: u64,
}

impl<'a> Model for Entered<'a> {
    ghost use Rattle.std.specs.Prelude.{◌≡◌};
    ghost use Rattle.span_handles.specs.Entries.{EntryGuard};

    ghost Value = { EntryGuard };

    ghost view = { λ g. record { span = g.span.now; lane = g.lane } };

    ghost invariant = { λ g. g.entry ≡ g.span.now.held };
}

/// An open entry that owns its handle; `tracing::span::EnteredSpan`, which isn't spent by itself. It has to be spent, by
/// `exit`, which hands the handle back.
pub struct EnteredSpan {
    span: Span,
    entry: Entry,
    lane: u64,
}

impl Model for EnteredSpan {
    ghost use Rattle.std.specs.Prelude.{◌≡◌};
    ghost use Rattle.span_handles.specs.Entries.{EntryGuard};

    ghost Value = { EntryGuard };

    ghost view = { λ g. record { span = g.span; lane = g.lane } };

    ghost invariant = { λ g. g.entry ≡ g.span.held };
}

/// Entering spans.
impl Span {
    /// Enters the span on a lane until the guard exits; `Span::enter`. Its faults are those of `open_entry`.
    pub fn enter<'a, S: Subscriber>(
        &'a self,
        world: &mut World<S>,
        lane: &mut Lane,
        at: u64,
    ) -> Result<Entered<'a>, EnterError>
        requires known { IsKnown S.spans world.old self.now.held }
        requires whole { HasOn (λ s id. S.is_whole s) world.old self.now.held }
        requires few_holds { HasOn (λ s id. HasFewHolds (S.spans s).made id) world.old self.now.held }

        ensures value { IfOk result (λ guard. guard ≡ record { span = self.now; lane = lane.old.id }) }
        ensures did { OnOk result
            (ReplacedOn (λ id s t. S.does s (Enter id at lane.old lane.new) t) world.old world.new
            self.now.held) }
        ensures none { self.now.held ≡ None → lane.new ≡ lane.old }
        ensures known { IsKnown S.spans world.new self.now.held }
        ensures keeps { KeepsHandles S.spans world.old world.new }
        ensures disabled { self.now.held ≡ None → IsOk result }

        // A refused entry leaves the world and the lane as they are, but for room.
        ensures leaves { OnErr result (ReplacedOn (λ id s t. S.same_but_room s t) world.old world.new self.now.held) }
        ensures lane_leaves { OnErr result (KeepsLaneButRoom lane.old lane.new) }
        ensures full { result ≡ Err Full → MeetsFullLane S.activates world.old lane.old self.now.held }
        ensures full_refused { MeetsFullLane S.activates world.old lane.old self.now.held → IsErr result }
    {
        let on = lane.id;
        let entry = self.open_entry(world, lane, at)?;
        Ok(Entered {
            span: self,
            entry,
            lane: on,
        })
    }

    /// Enters the span on a lane, in a guard that owns the handle; `Span::entered`. Its faults are those of
    /// `open_entry`, and the handle comes back beside them.
    pub fn entered<S: Subscriber>(
        self,
        world: &mut World<S>,
        lane: &mut Lane,
        at: u64,
    ) -> Result<EnteredSpan, (Span, EnterError)>
        requires known { IsKnown S.spans world.old self.held }
        requires whole { HasOn (λ s id. S.is_whole s) world.old self.held }
        requires few_holds { HasOn (λ s id. HasFewHolds (S.spans s).made id) world.old self.held }

        ensures value { IfOk result (λ guard. guard ≡ record { span = self; lane = lane.old.id }) }
        ensures did { OnOk result
            (ReplacedOn (λ id s t. S.does s (Enter id at lane.old lane.new) t) world.old world.new
            self.held) }
        ensures none { self.held ≡ None → lane.new ≡ lane.old }
        ensures known { IsKnown S.spans world.new self.held }
        ensures keeps { KeepsHandles S.spans world.old world.new }
        ensures disabled { self.held ≡ None → IsOk result }

        // A refused entry hands the handle back, and leaves the world and the lane as they are, but for room.
        ensures back { IfErr result (λ refused. refused.0 ≡ self) }
        ensures leaves { OnErr result (ReplacedOn (λ id s t. S.same_but_room s t) world.old world.new self.held) }
        ensures lane_leaves { OnErr result (KeepsLaneButRoom lane.old lane.new) }
        ensures full { IfErr result
            (λ refused. refused.1 ≡ Full → MeetsFullLane S.activates world.old lane.old self.held) }
        ensures full_refused { MeetsFullLane S.activates world.old lane.old self.held → IsErr result }
    {
        let on = lane.id;
        match self.open_entry(world, lane, at) {
            Ok(entry) => Ok(EnteredSpan {
                span: self,
                entry,
                lane: on,
            }),
            Err(error) => Err((self, error)),
        }
    }
}

/// Running inside spans.
impl Span {
    /// Runs a closure inside the span, which is entered before and exited after it; `Span::in_scope`. A disabled handle
    /// runs it too. Its faults are those of `open_entry`, and then it isn't run.
    pub fn in_scope<S: Subscriber, T, F: FnOnce(&mut World<S>, &mut Lane) -> T>(
        &self,
        world: &mut World<S>,
        lane: &mut Lane,
        at: u64,
        f: F,
    ) -> Result<T, EnterError>
        requires known { IsKnown S.spans world.old self.now.held }
        requires whole { HasOn (λ s id. S.is_whole s) world.old self.now.held }
        requires few_holds { HasOn (λ s id. HasFewHolds (S.spans s).made id) world.old self.now.held }
        requires still { IsAttachedOn S.kept lane.old world.old self.now.held }

        // The closure finds the span entered, and leaves it so that it can be exited.
        requires callable { (w : _) (l : _) → BeginsInside S.does at self.now.held world.old lane.old w.now l.now
            → F.pre f w l }
        requires keeps { (w : _) (l : _) (r : T) (t : _) (m : _)
            → BeginsInside S.does at self.now.held world.old lane.old w.now l.now → F.post f w l r t m
            → KeepsEntry S.spans S.kept S.is_whole self.now.held w.now l.now t.now m.now }

        ensures ok { IfOk result
            (λ answer. (w : _) × (l : _) × (t : _) × (m : _)
            × BeginsInside S.does at self.now.held world.old lane.old w.now l.now × F.post f w l answer t m
            × ReplacedOn (λ id s u. S.does s (Exit id at m.now lane.new) u) t.now world.new self.now.held
            × (self.now.held ≡ None → lane.new ≡ m.now)) }
        ensures known { IsKnown S.spans world.new self.now.held }

        // Where the closure leaves known handles known, the call does.
        ensures keeps { ((w : _) (l : _) (r : T) (t : _) (m : _)
            → BeginsInside S.does at self.now.held world.old lane.old w.now l.now → F.post f w l r t m
            → KeepsHandles S.spans w.now t.now) → KeepsHandles S.spans world.old world.new }
        ensures disabled { self.now.held ≡ None → IsOk result }

        ensures leaves { OnErr result (ReplacedOn (λ id s t. S.same_but_room s t) world.old world.new self.now.held) }
        ensures lane_leaves { OnErr result (KeepsLaneButRoom lane.old lane.new) }
        ensures full { result ≡ Err Full → MeetsFullLane S.activates world.old lane.old self.now.held }
        ensures full_refused { MeetsFullLane S.activates world.old lane.old self.now.held → IsErr result }
    {
        let entry = self.open_entry(world, lane, at)?;
        let answer = f(world, lane);
        self.close_entry(entry, world, lane, at);
        Ok(answer)
    }
}

impl<'a> Entered<'a> {
    /// Exits, and spends the guard; `Drop` of the Rust crate's guard.
    pub fn exit<S: Subscriber>(self, world: &mut World<S>, lane: &mut Lane, at: u64)
        requires lane { lane.old.id ≡ self.lane }
        requires there { IsThere world.old self.span.held }
        requires whole { HasOn (λ s id. S.is_whole s) world.old self.span.held }
        requires may { HasOn (λ s id. MayExit (S.spans s) id lane.old.id) world.old self.span.held }
        requires still { HasOn (λ s id. AreAttached (S.kept s) lane.old) world.old self.span.held }

        ensures did { ReplacedOn (λ id s t. S.does s (Exit id at lane.old lane.new) t) world.old world.new
            self.entry.span.held }
        ensures none { self.entry.span.held ≡ None → lane.new ≡ lane.old }
        ensures known { IsKnown S.spans world.old self.entry.span.held → IsKnown S.spans world.new self.entry.span.held }
        ensures keeps { KeepsHandles S.spans world.old world.new }
    {
        let Entered {
            span,
            entry,
            lane: _,
        } = self;
        span.close_entry(entry, world, lane, at);
    }

    /// The id of the lane that was entered on.
    pub fn lane(&self) -> u64
        ensures { result ≡ self.now.lane }
    {
        self.lane
    }
}

impl EnteredSpan {
    /// Exits, and hands the handle back; `EnteredSpan::exit`.
    pub fn exit<S: Subscriber>(self, world: &mut World<S>, lane: &mut Lane, at: u64) -> Span
        requires lane { lane.old.id ≡ self.lane }
        requires there { IsThere world.old self.span.held }
        requires whole { HasOn (λ s id. S.is_whole s) world.old self.span.held }
        requires may { HasOn (λ s id. MayExit (S.spans s) id lane.old.id) world.old self.span.held }
        requires still { HasOn (λ s id. AreAttached (S.kept s) lane.old) world.old self.span.held }

        ensures value { result ≡ self.span }
        ensures did { ReplacedOn (λ id s t. S.does s (Exit id at lane.old lane.new) t) world.old world.new
            self.span.held }
        ensures none { self.span.held ≡ None → lane.new ≡ lane.old }
        ensures known { IsKnown S.spans world.old self.span.held → IsKnown S.spans world.new self.span.held }
        ensures keeps { KeepsHandles S.spans world.old world.new }
    {
        let EnteredSpan {
            span,
            entry,
            lane: _,
        } = self;
        span.close_entry(entry, world, lane, at);
        span
    }

    /// The span's id, and none exactly where the handle is disabled; `EnteredSpan::id`.
    pub fn id(&self) -> Option<Id>
        ensures { result ≡ id_of self.now.span.held }
    {
        self.span.id()
    }

    /// The handle; `Deref` of the Rust crate's guard.
    pub fn span(&self) -> &Span
        ensures { result.now ≡ self.now.span }
    {
        &self.span
    }

    /// The id of the lane that was entered on.
    pub fn lane(&self) -> u64
        ensures { result ≡ self.now.lane }
    {
        self.lane
    }
}

/// The span's id, and none exactly where the handle is disabled.
impl From<&EnteredSpan> for Option<Id> {
    ghost from_gives = { λ guard id. id ≡ id_of guard.now.span.held };

    fn from(guard: &EnteredSpan) -> Option<Id> {
        guard.id()
    }
}
