//! The calls of handles in a scene.
ghost use Rattle.std.specs.Prelude.{◌≡◌, ◌<◌, None, IfOk, IfSome, OnOk, OnErr};
ghost use Rattle.trace_base.specs.declared.span.Parent.TheVariants as parent;
ghost use Rattle.trace_base.specs.Calls.{Exit};
ghost use Rattle.span_handles.specs.Handles.{IsKnown, Makes, ReplacedOn, ClosesOn, as_parent};
ghost use Rattle.span_handles.specs.Knowing.{KeepsOthers};
ghost use Rattle.span_handles.specs.Entries.{BeginsInside, KeepsLaneButRoom};
ghost use Rattle.explain_stack.specs.Order.{SceneInOrder, IsKnownWithSite, KeepsScene};
ghost use Rattle.explain_stack.specs.Puts.{ClosesHeld};

use crate::scene::Scene;
use crate::stack::Stack;
use otel_base::enter_error::EnterError;
use otel_base::memory::Memory;
use span_handles::entry::Entry;
use span_handles::span::Span;
use trace_base::callsite::SiteId;
use trace_base::field::ValueSet;

impl<S: Stack> Scene<S> {
    /// A new child of a handle's span, a root under a disabled one; none where no more are made.
    pub fn make_under(
        &mut self,
        at: u64,
        parent: &Span,
        site: SiteId,
        values: &ValueSet,
    ) -> Result<Option<Span>, Memory>
        requires order { SceneInOrder S.spans S.kept S.is_whole self.old }
        requires known { IsKnown S.spans self.old.world parent.now.held }
        requires site { site < self.old.site_count }
        ensures keeps { KeepsScene S.spans S.kept S.is_whole self.old self.new }
        ensures made { IfOk result (λ made. IfSome made (IsKnownWithSite S.spans self.new.site_count self.new.world)) }
        ensures makes { IfOk result (λ made. IfSome made
            (Makes S.spans S.does self.old.world self.new.world self.old.lane at (as_parent parent.now.held) site
            values.now self.old.dispatch)) }
    {
        if self.span_count >= 1000 || !self.can_hold(parent) {
            return Ok(None);
        }
        let span = Span::child_of_with(
            parent,
            &mut self.world,
            &self.lane,
            at,
            site,
            values,
            self.dispatch,
        )?;
        self.span_count += 1;
        Ok(Some(span))
    }

    /// A new child of the lane's current span, a root where there is none; none where no more are made.
    pub fn make_under_current(
        &mut self,
        at: u64,
        site: SiteId,
        values: &ValueSet,
    ) -> Result<Option<Span>, Memory>
        requires order { SceneInOrder S.spans S.kept S.is_whole self.old }
        requires site { site < self.old.site_count }
        ensures keeps { KeepsScene S.spans S.kept S.is_whole self.old self.new }
        ensures made { IfOk result (λ made. IfSome made (IsKnownWithSite S.spans self.new.site_count self.new.world)) }
        ensures makes { IfOk result (λ made. IfSome made
            (Makes S.spans S.does self.old.world self.new.world self.old.lane at parent.Current site values.now
            self.old.dispatch)) }
    {
        if self.span_count >= 1000 || !self.can_hold_current() {
            return Ok(None);
        }
        let span = Span::new_with(&mut self.world, &self.lane, at, site, values, self.dispatch)?;
        self.span_count += 1;
        Ok(Some(span))
    }

    /// Enters a span; none where it can't be entered.
    pub fn enter(&mut self, at: u64, span: &Span) -> Result<Option<Entry>, Memory>
        requires order { SceneInOrder S.spans S.kept S.is_whole self.old }
        requires known { IsKnown S.spans self.old.world span.now.held }
        ensures keeps { KeepsScene S.spans S.kept S.is_whole self.old self.new }
        ensures entry { IfOk result (λ entry. IfSome entry (λ e. e ≡ span.now.held)) }
        ensures enters { IfOk result (λ entry. IfSome entry
            (λ e. BeginsInside S.does at span.now.held self.old.world self.old.lane self.new.world self.new.lane)) }
        ensures refused { IfOk result (λ entry. entry ≡ None → KeepsLaneButRoom self.old.lane self.new.lane) }
    {
        if !self.can_hold(span) {
            return Ok(None);
        }
        match span.open_entry(&mut self.world, &mut self.lane, at) {
            Ok(entry) => Ok(Some(entry)),
            Err(EnterError::Full) => Ok(None),
            Err(EnterError::Memory) => Err(Memory),
        }
    }

    /// Exits a span, and spends the entry; that comes back where none is open.
    pub fn exit(&mut self, at: u64, span: &Span, entry: Entry) -> Option<Entry>
        requires order { SceneInOrder S.spans S.kept S.is_whole self.old }
        requires known { IsKnown S.spans self.old.world span.now.held }
        requires own { entry ≡ span.now.held }
        ensures keeps { KeepsScene S.spans S.kept S.is_whole self.old self.new }
        ensures back { IfSome result (λ e. e ≡ span.now.held) }
        ensures refused { IfSome result (λ e. self.new ≡ self.old) }
        ensures exits { result ≡ None
            → ReplacedOn (λ id s t. S.does s (Exit id at self.old.lane self.new.lane) t) self.old.world self.new.world
            span.now.held }
    {
        if !self.has_open_entry(span) {
            return Some(entry);
        }
        span.close_entry(entry, &mut self.world, &mut self.lane, at);
        None
    }

    /// Closes a handle, and answers whether its span closed.
    pub fn close(&mut self, at: u64, span: Span) -> bool
        requires order { SceneInOrder S.spans S.kept S.is_whole self.old }
        requires known { IsKnown S.spans self.old.world span.held }
        ensures order { SceneInOrder S.spans S.kept S.is_whole self.new }
        ensures others { KeepsOthers S.spans self.old.world self.new.world span.held }
        ensures sites { self.new.site_count ≡ self.old.site_count }
        ensures value { ClosesOn S.spans self.old.world span.held result }
        ensures closes { ClosesHeld S.spans S.does at self.old.world self.new.world span.held }
    {
        span.close(&mut self.world, at)
    }

    /// Records values on a span.
    pub fn record(&mut self, at: u64, span: &Span, values: &ValueSet) -> Result<(), Memory>
        requires order { SceneInOrder S.spans S.kept S.is_whole self.old }
        requires held { IsKnownWithSite S.spans self.old.site_count self.old.world span.now }
        ensures keeps { KeepsScene S.spans S.kept S.is_whole self.old self.new }
    {
        span.record_all(&mut self.world, at, values)?;
        Ok(())
    }

    /// Records that a span follows from another, where both are of the scene's stack.
    pub fn follow(&mut self, at: u64, span: &Span, from: &Span) -> Result<(), Memory>
        requires order { SceneInOrder S.spans S.kept S.is_whole self.old }
        requires known { IsKnown S.spans self.old.world span.now.held }
        requires from { IsKnown S.spans self.old.world from.now.held }
        ensures keeps { KeepsScene S.spans S.kept S.is_whole self.old self.new }
    {
        if self.can_hold(span) && self.can_hold(from) {
            span.follows_from(&mut self.world, at, from)?;
        }
        Ok(())
    }
}
