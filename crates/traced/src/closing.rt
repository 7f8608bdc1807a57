//! Handles that are closed.
ghost use Rattle.span_handles.specs.Handles.{ClosesOn};
ghost use Rattle.span_handles.specs.Knowing.{KeepsOthers, LosesOne};
ghost use Rattle.traced.specs.Standing.{CanClose};
ghost use Rattle.traced.specs.Moving.{Closes};

use crate::laws::lawful;
use span_handles::span::Span;
use trace_base::subscriber::Subscriber;
use trace_base::world::World;

/// Closes a handle, as `Span::close` does. A span that was made since some earlier moment, and nothing else but what was
/// closed and exited again, leaves all as it was then.
pub fn close<S: Subscriber>(span: Span, world: &mut World<S>, at: u64) -> bool
    requires { CanClose S.Subscriber world.old span }
    ensures value { ClosesOn S.spans world.old span.held result }
    ensures keeps { KeepsOthers S.spans world.old world.new span.held }
    ensures fewer { LosesOne S.spans world.old world.new span.held }
    ensures closes { Closes S.Subscriber world.old world.new at span }
{
    lawful::<S>();
    span.close(world, at)
}
