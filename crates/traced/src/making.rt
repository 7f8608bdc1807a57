//! Spans under the current one, made where the gate lets their callsites through.
ghost use Rattle.trace_base.specs.declared.span.Parent.TheVariants as parent;
ghost use Rattle.traced.specs.Standing.{CanMake};
ghost use Rattle.traced.specs.Making.{MakesIfGateAdmits};

use crate::laws::lawful;
use otel_base::memory::Memory;
use span_handles::span::Span;
use trace_base::callsite::SiteId;
use trace_base::field::ValueSet;
use trace_base::lane::Lane;
use trace_base::subscriber::Subscriber;
use trace_base::world::World;

/// A span under the lane's current one, if the gate lets its callsite through, else `Span::none`; `tracing::span!`.
pub fn span<S: Subscriber>(
    world: &mut World<S>,
    lane: &Lane,
    at: u64,
    site: SiteId,
    values: &ValueSet,
) -> Result<Span, Memory>
    requires { CanMake S.Subscriber world.old lane.now parent.Current site }
    ensures { MakesIfGateAdmits S.Subscriber world.old world.new lane.now at parent.Current site values.now result }
{
    lawful::<S>();
    if world.admits(lane, site) {
        Span::new(world, lane, at, site, values)
    } else {
        Ok(Span::none())
    }
}
