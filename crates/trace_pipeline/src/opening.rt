//! What a pipeline begins with.
ghost use Rattle.std.specs.Prelude.{◌≡◌, ◌++◌, ◌<◌, [], ◌∷◌, length, map, Some, IfOk, OnOk};
ghost use Rattle.trace_base.specs.Gate.{AreSame, IsFresh};

use otel_base::list::Items;
use otel_base::memory::Memory;
use otel_base::stack::ContextStack;
use otel_base::text::Text;
use std::alloc::Global;
use trace_base::callsite::Callsite;
use trace_base::discard::Discard;
use trace_base::dispatcher::Dispatch;
use trace_base::lane::Lane;
use trace_base::subscriber::Subscriber;
use trace_base::world::World;

/// Lanes without contexts, whose own subscriber this is.
pub fn new_lanes(
    alloc: Global,
    ids_and_names: Items<(u64, Option<Text>)>,
    dispatch: Dispatch,
) -> Result<Vec<Lane>, Memory>
    ensures ids { IfOk result (λ lanes. map (λ l. l.id) lanes.items ≡ map (λ n. n.0) ids_and_names) }
    ensures names { IfOk result (λ lanes. map (λ l. l.name) lanes.items ≡ map (λ n. n.1) ids_and_names) }
    ensures contexts { IfOk result (λ lanes. map (λ l. l.contexts.live) lanes.items ≡ map (λ l. []) lanes.items) }
    ensures served { IfOk result (λ lanes. map (λ l. l.default) lanes.items ≡ map (λ l. Some dispatch) lanes.items) }
{
    let mut lanes = Vec::new(alloc);
    for (id, name) in ids_and_names.into_vec() {
        lanes.push(Lane {
            id,
            name,
            default: Some(dispatch),
            contexts: ContextStack::new(alloc),
        })?;
    }
    Ok(lanes)
}

/// A world with callsites and one subscriber.
pub fn new_world<S: Subscriber + Discard>(
    alloc: Global,
    callsites: Vec<Callsite>,
    subscriber: S,
) -> Result<(World<S>, Dispatch), Memory>
    ensures dispatch { IfOk result (λ opened. opened.1 ≡ 0) }
    ensures subscriber { IfOk result (λ opened. AreSame S.same_but_room (subscriber ∷ []) opened.0.subscribers) }
    ensures fresh { IfOk result (λ opened. IsFresh S.interest opened.0) }
    ensures sites { IfOk result (λ opened. opened.0.sites ≡ callsites.items) }
{
    let mut world = World::new(alloc);
    if add_sites(&mut world, callsites).is_err() {
        subscriber.discard();
        world.discard();
        return Err(Memory);
    }
    match world.add(subscriber) {
        Ok(dispatch) => Ok((world, dispatch)),
        Err((subscriber, memory)) => {
            subscriber.discard();
            world.discard();
            Err(memory)
        }
    }
}

// Adds callsites to a world.
fn add_sites<S: Subscriber>(world: &mut World<S>, callsites: Vec<Callsite>) -> Result<(), Memory>
    ensures sites { OnOk result (world.new.sites ≡ world.old.sites ++ callsites.items) }
    ensures subscribers { length world.new.subscribers ≡ length world.old.subscribers }
{
    for callsite in callsites {
        world.add_site(callsite)?;
    }
    Ok(())
}
