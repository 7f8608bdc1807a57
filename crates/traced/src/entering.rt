//! Spans that are entered and exited.
ghost use Rattle.std.specs.Prelude.{◌≡◌, None, Err, IfOk, OnErr, IsOk, IsErr};
ghost use Rattle.otel_base.specs.declared.enter_error.EnterError.TheVariants.{Full};
ghost use Rattle.span_handles.specs.Entries.{MeetsFullLane};
ghost use Rattle.traced.specs.Standing.{CanEnter, CanExit};
ghost use Rattle.traced.specs.Moving.{Enters, Refuses, Exits};

use crate::laws::lawful;
use otel_base::enter_error::EnterError;
use span_handles::guard::Entered;
use span_handles::span::Span;
use trace_base::lane::Lane;
use trace_base::subscriber::Subscriber;
use trace_base::world::World;

/// Enters a span on a lane until the guard exits, as `Span::enter` does, and with its faults.
pub fn enter<'a, S: Subscriber>(
    span: &'a Span,
    world: &mut World<S>,
    lane: &mut Lane,
    at: u64,
) -> Result<Entered<'a>, EnterError>
    requires { CanEnter S.Subscriber world.old span.now }
    ensures entered { IfOk result (Enters S.Subscriber world.old world.new lane.old lane.new at span.now) }
    ensures refused { OnErr result (Refuses S.Subscriber world.old world.new lane.old lane.new span.now) }
    ensures disabled { span.now.held ≡ None → IsOk result }
    ensures full { result ≡ Err Full → MeetsFullLane S.activates world.old lane.old span.now.held }
    ensures full_refused { MeetsFullLane S.activates world.old lane.old span.now.held → IsErr result }
{
    lawful::<S>();
    span.enter(world, lane, at)
}

/// Exits what a guard entered, as `Entered::exit` does. Where the entry was made since some earlier moment, and nothing
/// else but what was closed and exited again, it leaves all as it was then.
pub fn exit<S: Subscriber>(guard: Entered<'_>, world: &mut World<S>, lane: &mut Lane, at: u64)
    requires { CanExit S.Subscriber world.old lane.old guard }
    ensures { Exits S.Subscriber world.old world.new lane.old lane.new at guard.entry }
{
    lawful::<S>();
    guard.exit(world, lane, at);
}
