//! Events told where the gate lets their callsites through.
ghost use Rattle.trace_base.specs.declared.span.Parent.TheVariants as parent;
ghost use Rattle.traced.specs.Standing.{CanTell};
ghost use Rattle.traced.specs.Telling.{Tells};

use crate::laws::lawful;
use otel_base::memory::Memory;
use trace_base::callsite::SiteId;
use trace_base::field::ValueSet;
use trace_base::lane::Lane;
use trace_base::span::Parent;
use trace_base::subscriber::Subscriber;
use trace_base::world::World;

/// An event on the lane's current span, if the gate lets its callsite through; `tracing::event!`.
pub fn event<S: Subscriber>(
    world: &mut World<S>,
    lane: &Lane,
    at: u64,
    site: SiteId,
    values: &ValueSet,
) -> Result<(), Memory>
    requires { CanTell S.Subscriber world.old lane.now site }
    ensures { Tells S.Subscriber world.old world.new lane.now at parent.Current site values.now result }
{
    lawful::<S>();
    if world.admits(lane, site) {
        span_handles::event::dispatch(world, lane, at, Parent::Current, site, values)
    } else {
        Ok(())
    }
}
