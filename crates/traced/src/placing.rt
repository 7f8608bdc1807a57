//! Roots and children, made where the gate lets their callsites through.
ghost use Rattle.std.specs.Prelude.{IfSome};
ghost use Rattle.trace_base.specs.declared.span.Parent.TheVariants as parent;
ghost use Rattle.trace_base.specs.Gate.{dispatch_on};
ghost use Rattle.span_handles.specs.Handles.{as_parent, IsOf};
ghost use Rattle.traced.specs.Standing.{CanMake};
ghost use Rattle.traced.specs.Making.{MakesIfGateAdmits};

use crate::laws::lawful;
use otel_base::memory::Memory;
use span_handles::span::Span;
use trace_base::callsite::SiteId;
use trace_base::field::ValueSet;
use trace_base::lane::Lane;
use trace_base::subscriber::Subscriber;
use trace_base::world::World;

/// A root, else as `span`; `tracing::span!` with `parent: None`.
pub fn root<S: Subscriber>(
    world: &mut World<S>,
    lane: &Lane,
    at: u64,
    site: SiteId,
    values: &ValueSet,
) -> Result<Span, Memory>
    requires { CanMake S.Subscriber world.old lane.now parent.Root site }
    ensures { MakesIfGateAdmits S.Subscriber world.old world.new lane.now at parent.Root site values.now result }
{
    lawful::<S>();
    if world.admits(lane, site) {
        Span::new_root(world, lane, at, site, values)
    } else {
        Ok(Span::none())
    }
}

/// A child of a handle's span, and a root where the handle is disabled, else as `span`; `tracing::span!` with `parent`.
pub fn child_of<S: Subscriber>(
    parent: &Span,
    world: &mut World<S>,
    lane: &Lane,
    at: u64,
    site: SiteId,
    values: &ValueSet,
) -> Result<Span, Memory>
    requires may { CanMake S.Subscriber world.old lane.now (as_parent parent.now.held) site }
    requires of_lane { IfSome (dispatch_on lane.now.default world.old.global) (IsOf parent.now.held) }
    ensures { MakesIfGateAdmits S.Subscriber world.old world.new lane.now at (as_parent parent.now.held) site
        values.now result }
{
    lawful::<S>();
    if world.admits(lane, site) {
        Span::child_of(parent, world, lane, at, site, values)
    } else {
        Ok(Span::none())
    }
}
