//! The desk of the shop: its world, the lane that takes orders and the one that packs them.
ghost use Rattle.std.specs.Prelude.{◌≡◌, ◌<◌, ◌^◌, ◌+◌, ◌⊎◌, IfOk, Ok, Err};
ghost use Rattle.traced_futures.specs.Programs.{IsFull, IsUnused};
ghost use Rattle.example_desk.specs.declared.fault.Fault.TheVariants as fault;
ghost use Rattle.example_desk.specs.Orders.{front_first, back_first, CanCall, CanCallWith, Leaves, KeepsPayment, Asks, AsksTwice, Pays, Wraps, Packs, PaysAndPacks, Inside, ServesOrder};

use crate::fault::Fault;
use crate::order_values::OrderValues;
use crate::payment::Payment;
use crate::sites::Sites;
use futures::task;
use otel_base::context::Context;
use otel_base::memory::Memory;
use otel_layer::part::OtelSubscriber;
use span_futures::instrument::{Instrument, Instrumented};
use span_futures::plain::Plain;
use span_handles::span::Span;
use std::alloc::Global;
use trace_base::discard::Discard;
use trace_base::dispatcher::Dispatch;
use trace_base::lane::Lane;
use trace_base::world::World;

/// A world with one stack, two lanes and the callsites.
pub struct Desk<S> {
    pub world: World<S>,
    pub front: Lane,
    pub back: Lane,
    pub sites: Sites,
}

impl<S: OtelSubscriber + Discard> Desk<S> {
    /// A desk with a stack that knows no span and two lanes, 1 and 2, and the name of the stack.
    pub fn new(alloc: Global, stack: S) -> Result<(Desk<S>, Dispatch), Memory>
        requires { IsUnused S.Subscriber stack }
        ensures { IfOk result (λ made. CanCall S.Subscriber 0 front_first made.0 × (made.1 ≡ 0)
            × (made.0.front.id ≡ 1) × (made.0.back.id ≡ 2)) }
    {
        let mut world = World::new(alloc);
        let Ok(sites) = Sites::new(alloc, &mut world) else {
            stack.discard();
            world.discard();
            return Err(Memory);
        };
        match traced::start(&mut world, stack) {
            Ok(dispatch) => {
                let desk = Desk {
                    world,
                    front: traced::lane(alloc, 1, dispatch),
                    back: traced::lane(alloc, 2, dispatch),
                    sites,
                };
                Ok((desk, dispatch))
            }
            Err((stack, memory)) => {
                stack.discard();
                world.discard();
                Err(memory)
            }
        }
    }
}

#[tactic(auto, using(traced_futures::proofs::Rules::polling))]
impl<S: OtelSubscriber> Desk<S> {
    /// An order, which came with a context. It is `Full` only where a lane is.
    pub fn order(
        &mut self,
        given: &OrderValues,
        remote: Context,
        cx: &mut task::Context<'_>,
    ) -> Result<(), Fault>
        requires { CanCall S.Subscriber given.now.at front_first self.old }
        ensures ends { Leaves S.Subscriber given.now 100 front_first self.old self.new result (ServesOrder S.touches remote) }
        ensures full { result ≡ Err fault.Full → IsFull self.old.front ⊎ IsFull self.old.back }
    {
        let (at, site) = (given.at, given.sites.order);
        let order = traced::span(&mut self.world, &self.front, at, site, &given.order)?;
        // A refused order is disabled, and then there is nothing to set a parent of.
        let _ = traced_layer::set_parent(&order, &mut self.world, at + 1, remote);
        let told = self.inside(&order, given, cx);
        traced::close(order, &mut self.world, at + 60);
        told
    }

    // What is done inside an order, on the front lane.
    fn inside(
        &mut self,
        order: &Span,
        given: &OrderValues,
        cx: &mut task::Context<'_>,
    ) -> Result<(), Fault>
        requires { CanCallWith S.Subscriber (given.now.at + 10) front_first order.now self.old }
        ensures ends { Leaves S.Subscriber given.now 60 front_first self.old self.new result (Inside order.now) }
        ensures full { result ≡ Err fault.Full → IsFull self.old.front ⊎ IsFull self.old.back }
    {
        let at = given.at;
        let guard = traced::enter(order, &mut self.world, &mut self.front, at + 10)?;
        let told = self.pay_and_pack(order, given, cx);
        traced::exit(guard, &mut self.world, &mut self.front, at + 50);
        told
    }

    // What is done there.
    fn pay_and_pack(
        &mut self,
        order: &Span,
        given: &OrderValues,
        cx: &mut task::Context<'_>,
    ) -> Result<(), Fault>
        requires { CanCallWith S.Subscriber (given.now.at + 20) front_first order.now self.old }
        ensures ends { Leaves S.Subscriber given.now 60 front_first self.old self.new result (PaysAndPacks order.now) }
        ensures full { result ≡ Err fault.Full → IsFull self.old.back }
    {
        self.pay(given, cx)?;
        self.pack(order, given)
    }

    // A payment, by a future under a span of its own, and an event where it is made.
    fn pay(&mut self, given: &OrderValues, cx: &mut task::Context<'_>) -> Result<(), Memory>
        requires { CanCall S.Subscriber (given.now.at + 20) front_first self.old }
        ensures ends { Leaves S.Subscriber given.now 30 front_first self.old self.new result Pays }
        ensures back { self.new.back ≡ self.old.back }
    {
        let (at, pay, paid) = (given.at, given.sites.pay, given.sites.paid);
        let span = traced::span(&mut self.world, &self.front, at + 20, pay, &given.pay)?;
        let future = Payment { asked: false };
        let mut payment = Plain { future }.instrument(span);
        let made = self.ask_twice(given, &mut payment, cx);
        traced_futures::into_inner(payment, &mut self.world, at + 26);
        if made {
            traced::event(&mut self.world, &self.front, at + 27, paid, &given.paid)
        } else {
            Ok(())
        }
    }

    // Asks twice for a payment.
    fn ask_twice(
        &mut self,
        given: &OrderValues,
        payment: &mut Instrumented<Plain<Payment>>,
        cx: &mut task::Context<'_>,
    ) -> bool
        requires { CanCallWith S.Subscriber (given.now.at + 21) front_first payment.old.span self.old }
        ensures keeps { KeepsPayment S.Subscriber (given.now.at + 26) payment.old self.old payment.new self.new }
        ensures asks_twice { AsksTwice S.Subscriber given.now result payment.old self.old payment.new self.new }
    {
        let made = self.poll_payment(given.at + 22, payment, cx);
        if made {
            true
        } else {
            self.poll_payment(given.at + 24, payment, cx)
        }
    }

    // Whether a payment is made, by a poll inside its span. Where that can't be entered, it isn't.
    fn poll_payment(
        &mut self,
        at: u64,
        payment: &mut Instrumented<Plain<Payment>>,
        cx: &mut task::Context<'_>,
    ) -> bool
        requires ready { CanCallWith S.Subscriber at front_first payment.old.span self.old }
        requires early { at < 2 ^ 63 }
        ensures keeps { KeepsPayment S.Subscriber (at + 1) payment.old self.old payment.new self.new }
        ensures asks { Asks S.Subscriber at result payment.old self.old payment.new self.new }
    {
        let polled = traced_futures::poll(payment, &mut self.world, &mut self.front, at, cx);
        traced_futures::is_ready(&polled)
    }

    // Packs on the back lane, in a child of the order.
    fn pack(&mut self, order: &Span, given: &OrderValues) -> Result<(), Fault>
        requires { CanCallWith S.Subscriber (given.now.at + 30) back_first order.now self.old }
        ensures ends { Leaves S.Subscriber given.now 60 back_first self.old self.new result (Packs order.now) }
        ensures front { self.new.front ≡ self.old.front }
        ensures full { result ≡ Err fault.Full → IsFull self.old.back }
    {
        let pack = traced::child_of(
            order,
            &mut self.world,
            &self.back,
            given.at + 30,
            given.sites.pack,
            &given.pack,
        )?;
        let told = self.wrap(&pack, given);
        traced::close(pack, &mut self.world, given.at + 45);
        told
    }

    // What is told while an order is packed.
    fn wrap(&mut self, pack: &Span, given: &OrderValues) -> Result<(), Fault>
        requires { CanCallWith S.Subscriber (given.now.at + 35) back_first pack.now self.old }
        ensures ends { Leaves S.Subscriber given.now 60 back_first self.old self.new result (Wraps pack.now) }
        ensures front { self.new.front ≡ self.old.front }
        ensures full { result ≡ Err fault.Full → IsFull self.old.back }
    {
        let (at, site) = (given.at, given.sites.failed);
        let guard = traced::enter(pack, &mut self.world, &mut self.back, at + 35)?;
        let told = traced::event(&mut self.world, &self.back, at + 40, site, &given.failed);
        traced::exit(guard, &mut self.world, &mut self.back, at + 40);
        told.map_err(|_| Fault::Memory)
    }
}
