//! Worlds that calls can be made in.
ghost use Rattle.std.specs.Prelude.{◌≡◌, ◌≤◌, ◌+◌, ◌++◌, ◌∷◌, [], ℕ, List, None, Some, length, IfOk, IfErr, OnOk, OnErr};
ghost use Rattle.trace_base.specs.declared.lane.Lane.{Lane};
ghost use Rattle.trace_base.specs.Gate.{AreSame, IsFresh};
ghost use Rattle.traced.specs.Standing.{StandsReady, AreAssigned, IsUnused};

use crate::laws::lawful;
use otel_base::memory::Memory;
use otel_base::stack::ContextStack;
use std::alloc::Global;
use trace_base::dispatcher::Dispatch;
use trace_base::lane::Lane;
use trace_base::subscriber::Subscriber;
use trace_base::world::World;

/// Adds a stack that knows no span, as `World::add` does. Calls can then be made on lanes that it serves.
pub fn start<S: Subscriber>(world: &mut World<S>, stack: S) -> Result<Dispatch, (S, Memory)>
    requires { IsUnused S.Subscriber stack }
    ensures dispatch { IfOk result (λ dispatch. dispatch ≡ length world.old.subscribers) }
    ensures stands { IfOk result (λ dispatch. (sites : ℕ) (lanes : List Lane) → sites ≤ length world.old.sites
        → AreAssigned world.new.global dispatch lanes → StandsReady S.Subscriber 0 dispatch sites world.new lanes) }
    ensures count { OnOk result (length world.new.subscribers ≡ length world.old.subscribers + 1) }
    ensures ok { OnOk result (AreSame S.same_but_room (world.old.subscribers ++ stack ∷ []) world.new.subscribers) }
    ensures fresh { OnOk result (IsFresh S.interest world.new) }
    ensures sites { world.new.sites ≡ world.old.sites }
    ensures global { world.new.global ≡ world.old.global }
    ensures back { IfErr result (λ refused. S.same_but_room stack refused.0) }
    ensures memory_same { OnErr result (AreSame S.same_but_room world.old.subscribers world.new.subscribers) }
{
    lawful::<S>();
    world.add(stack)
}

/// A lane with an id, which a stack serves.
pub fn lane(alloc: Global, id: u64, dispatch: Dispatch) -> Lane
    ensures id { result.id ≡ id }
    ensures name { result.name ≡ None }
    ensures own { result.default ≡ Some dispatch }
{
    Lane {
        id,
        name: None,
        default: Some(dispatch),
        contexts: ContextStack::new(alloc),
    }
}
