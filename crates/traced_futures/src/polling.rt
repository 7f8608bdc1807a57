//! Polls of futures inside their spans, and the close of their handles.
ghost use Rattle.std.specs.Prelude.{◌≡◌, Err};
ghost use Rattle.otel_base.specs.declared.enter_error.EnterError.TheVariants.{Full};
ghost use Rattle.futures.specs.Task.{Keeps};
ghost use Rattle.span_handles.specs.Entries.{MeetsFullLane};
ghost use Rattle.span_futures.specs.Polls.{IfEnded, UnlessEnded};
ghost use Rattle.traced.specs.Standing.{CanClose, CanEnter};
ghost use Rattle.traced.specs.Moving.{Closes};
ghost use Rattle.traced_futures.specs.Polling.{CanLend, PollsPlain, Polls, is_ready};

use futures::Future;
use futures::task::{Context, Poll};
use otel_base::enter_error::EnterError;
use span_futures::instrument::Instrumented;
use span_futures::plain::Plain;
use span_futures::traced_future::TracedFuture;
use trace_base::lane::Lane;
use trace_base::subscriber::Subscriber;
use trace_base::world::World;
use traced::laws::lawful;

/// Polls a future that knows nothing of worlds inside its span, which is entered and exited at this moment. `Full` and
/// `Memory` come where it can't be entered; then the future isn't polled.
pub fn poll<S: Subscriber, F: Future>(
    future: &mut Instrumented<Plain<F>>,
    world: &mut World<S>,
    lane: &mut Lane,
    at: u64,
    cx: &mut Context<'_>,
) -> Result<Poll<F::Output>, EnterError>
    requires may { F.can_poll future.old.inner.future }
    requires enters { CanEnter S.Subscriber world.old future.old.span }
    requires lends { CanLend S.Subscriber world.old lane.old }

    ensures did { PollsPlain S.Subscriber future.old world.old lane.old at result future.new world.new lane.new }
    ensures span { future.new.span ≡ future.old.span }
    ensures value { IfEnded result (F.gives future.old.inner.future) }
    ensures again { UnlessEnded result (F.can_poll future.new.inner.future) }
    ensures full { result ≡ Err Full → MeetsFullLane S.activates world.old lane.old future.old.span.held }
    ensures polls { Polls S.Subscriber world.old world.new lane.old lane.new future.old.span }
    ensures context { Keeps cx.old cx.new }
{
    lawful::<S>();
    future.poll_in(world, lane, at, cx)
}

/// Whether a poll came to a value; `Poll::is_ready`, and false where the span couldn't be entered.
pub fn is_ready<T>(polled: &Result<Poll<T>, EnterError>) -> bool
    ensures { result ≡ is_ready polled.now }
{
    matches!(polled, Ok(Poll::Ready(_)))
}

/// Closes the handle, and gives the future back, as `Instrumented::into_inner` does.
pub fn into_inner<S: Subscriber, T>(future: Instrumented<T>, world: &mut World<S>, at: u64) -> T
    requires { CanClose S.Subscriber world.old future.span }
    ensures value { result ≡ future.inner }
    ensures closes { Closes S.Subscriber world.old world.new at future.span }
{
    lawful::<S>();
    future.into_inner(world, at)
}
