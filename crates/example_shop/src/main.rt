//! A shop whose orders are traced on two lanes, over a stack whose filter is exchanged before the last of them. It prints the
//! records of its spans. Its calls are `example_desk`, and `docs/USING.md` is read beside it.
#![tactic(auto)]

ghost use Rattle.std.specs.Prelude.{◌≡◌, ◌<◌, ◌^◌, ◌+◌, length};
ghost use Rattle.env_filter.specs.Filtering.{plain_filter, IsNewFilter};
ghost use Rattle.example_desk.specs.Orders.{front_first, CanCall};

mod report;

use env_filter::filter::EnvFilter;
use example_desk::desk::Desk;
use example_desk::fault::Fault;
use example_desk::order_values::OrderValues;
use futures::task;
use futures::test::MockTask;
use otel_base::context::{Context, SpanContext};
use otel_base::memory::Memory;
use otel_state::settings::LayerSettings;
use span_stack::gate::put_in_force;
use span_stack::laws::takes_record;
use span_stack::stack::{Stack, new_stack, take_record};
use std::alloc::Global;
use std::io::{self, ErrorKind};
use trace_base::discard::Discard;
use trace_base::dispatcher::Dispatch;
use trace_base::subscriber::Subscriber;

fn main(rt: HostRuntime) -> io::Result<()> {
    let task = MockTask::new(&rt)?;
    let alloc = rt.alloc();
    match task.enter(|cx| run(alloc, cx)) {
        Ok(told) => print!(rt; "{told}")?,
        Err(Fault::Full) => return Err(io::Error::from(ErrorKind::QuotaExceeded)),
        Err(Fault::Memory) => return Err(io::Error::from(ErrorKind::OutOfMemory)),
    }
    Ok(())
}

// Serves three orders, and tells what was recorded.
fn run(alloc: Global, cx: &mut task::Context<'_>) -> Result<String, Fault> {
    let filter = EnvFilter::new(alloc, "info,[order{user=ada}]=debug")?;
    let stack = new_stack(alloc, LayerSettings::default(), filter, None);
    let (mut desk, dispatch) = Desk::new(alloc, stack)?;
    let served = serve(alloc, &mut desk, dispatch, cx);
    let told = tell_records(alloc, desk, dispatch);
    served?;
    Ok(told?)
}

// Two orders, another filter, and a third one.
#[tactic(auto, using(traced::proofs::KeptLemmas::alone_there))]
fn serve(
    alloc: Global,
    desk: &mut Desk<Stack>,
    dispatch: Dispatch,
    cx: &mut task::Context<'_>,
) -> Result<(), Fault>
    requires ready { CanCall ⟦<Stack as Subscriber>⟧ 0 front_first desk.old }
    requires first { dispatch ≡ 0 }
    ensures { dispatch < length desk.new.world.subscribers }
{
    let remote = Context {
        span: Some(SpanContext { trace: 77, span: 7 }),
    };
    take_order(alloc, desk, 0, "ada", remote, cx)?;
    take_order(alloc, desk, 100, "bob", Context::empty(), cx)?;
    let filter = EnvFilter::new(alloc, "warn,[order]=info")?;
    refilter(desk, dispatch, filter)?;
    take_order(alloc, desk, 200, "cleo", Context::empty(), cx)
}

// An order of a user at a moment.
fn take_order(
    alloc: Global,
    desk: &mut Desk<Stack>,
    at: u64,
    user: &str,
    remote: Context,
    cx: &mut task::Context<'_>,
) -> Result<(), Fault>
    requires ready { CanCall ⟦<Stack as Subscriber>⟧ at front_first desk.old }
    requires early { at < 2 ^ 62 }
    ensures { CanCall ⟦<Stack as Subscriber>⟧ (at + 100) front_first desk.new }
{
    let given = OrderValues::new(alloc, at, desk.sites, user)?;
    desk.order(&given, remote, cx)
}

// Puts another filter in force, if there is one.
fn refilter(desk: &mut Desk<Stack>, dispatch: Dispatch, filter: EnvFilter) -> Result<(), Memory>
    requires ready { CanCall ⟦<Stack as Subscriber>⟧ 200 front_first desk.old }
    requires first { dispatch ≡ 0 }
    requires new { IsNewFilter (plain_filter filter) }
    ensures { CanCall ⟦<Stack as Subscriber>⟧ 200 front_first desk.new }
{
    let stack = desk.world.subscriber(dispatch);
    if stack.layer().with_current(|_| ()).is_err() {
        return Ok(());
    }
    put_in_force(&mut desk.world, dispatch, filter)
}

// Takes the records, and tells them.
fn tell_records(alloc: Global, desk: Desk<Stack>, dispatch: Dispatch) -> Result<String, Memory>
    requires { dispatch < length desk.world.subscribers }
{
    let Desk {
        mut world,
        front: _,
        back: _,
        sites: _,
    } = desk;
    let mut told = String::new(alloc);
    let mut outcome = Ok(());
    while let Some(record) = take_record(&mut world, dispatch) {
        takes_record();
        outcome = report::add_record(alloc, &mut told, &record);
        drop(record);
        if outcome.is_err() {
            break;
        }
    }
    world.discard();
    outcome?;
    Ok(told)
}
