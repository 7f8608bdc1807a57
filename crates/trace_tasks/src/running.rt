//! A task that is polled.
ghost use Rattle.std.specs.Prelude.{◌≡◌};
ghost use Rattle.trace_tasks.specs.Acts.{PollsSteps, Asks};

use crate::acts::do_step;
use crate::script::Step;
use futures::task::{Context, Poll};
use otel_base::enter_error::EnterError;
use otel_base::memory::Memory;
use otel_layer::part::OtelSubscriber;
use span_futures::traced_future::TracedFuture;
use std::alloc::Global;
use std::collections::VecDeque;
use trace_base::lane::Lane;
use trace_base::world::World;

/// The steps of a task that are left. A poll does those up to a yield, or up to the end, and lets them go.
#[derive(Drop)]
pub struct TaskFuture {
    /// The allocator of what its steps give.
    pub alloc: Global,
    /// The steps, the next one first.
    pub steps: VecDeque<Step>,
}

impl<S: OtelSubscriber> TracedFuture<S> for TaskFuture {
    type Output = ();

    ghost can_poll = { λ f. Unit {0} };

    ghost needs = { λ f source. ⊥ };

    ghost gives = { λ f x. Unit {0} };

    ghost knows = { λ f world. Unit {0} };

    ghost has_room = { λ f world lane at. Unit {0} };

    ghost polls = { λ f world lane at r g new later.
        PollsSteps S.Subscriber.spans S.Subscriber.hint S.Subscriber.enables S.Subscriber.does S.OtelPart.touches
        S.Subscriber.same_but_room f.steps.items world lane at r g.steps.items new later };

    ghost besides = { Asks S.OtelPart.touches };

    ghost carries = { λ f old new known parts was. tt };

    fn poll_in(
        &mut self,
        world: &mut World<S>,
        lane: &mut Lane,
        at: u64,
        cx: &mut Context<'_>,
    ) -> Result<Poll<()>, EnterError> {
        while let Some(step) = self.steps.pop_front() {
            if matches!(step, Step::Yield) {
                drop(step);
                return Ok(cx.yield_now());
            }
            match do_step(self.alloc, world, lane, at, step) {
                Ok(()) => {}
                Err(Memory) => return Err(EnterError::Memory),
            }
        }
        Ok(Poll::Ready(()))
    }
}
