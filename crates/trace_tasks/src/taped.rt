//! Runs of tasks over a tape.
ghost use Rattle.std.specs.Prelude.{◌≡◌, ◌≢◌, ◌<◌, ◌^◌, ◌+◌, ℕ, List, [], length, sum_by, true, false, None, Err, IfOk, OnOk};
ghost use Rattle.futures.specs.Task.{Keeps};
ghost use Rattle.otel_base.specs.declared.enter_error.EnterError.TheVariants as faults;
ghost use Rattle.trace_base.specs.declared.callsite.Callsite.{Callsite};
ghost use Rattle.trace_base.specs.declared.lane.Lane.{Lane};
ghost use Rattle.trace_base.specs.Gate.{WorldValue};
ghost use Rattle.trace_tape.specs.Tapes.{TapeValue, DoesTape};
ghost use Rattle.trace_tape.specs.PartCalls.{TouchesTape};
ghost use Rattle.trace_tasks.specs.declared.script.Task.{Task};
ghost use Rattle.trace_tasks.specs.Begun.{AllHaveCallsites, RunsTasks};
ghost use Rattle.trace_tasks.specs.Carrying.{TaskScene};
ghost use Rattle.trace_tasks.specs.Flat.{poll_count, tasks_at_first, flat_list, yield_count};
ghost use Rattle.trace_tasks.specs.Spelled.{TasksAreDeclared, IsNewTape, KeepsOnTape, tape_spans};
ghost use Rattle.trace_tasks.specs.Stops.{GaveUp};
ghost use Rattle.trace_tasks.specs.TapeTurns.{WaitOnTape, TakesAll, OnlyRequestsChange, HandsOn, HandsTurnsOn};
ghost use Rattle.trace_tasks.specs.Turning.{ReadyToPoll, dispatch_serving};
ghost use Rattle.trace_tasks.specs.Waiting.{AllWait, polls_in};

use crate::begin::begin_all;
use crate::queue::{close_all, take_turn};
use crate::request_sink::RequestSink;
use crate::running::TaskFuture;
use crate::script::Task;
use futures::task::Context;
use otel_base::enter_error::EnterError;
use otel_base::list::Items;
use otel_base::memory::Memory;
use span_futures::instrument::Instrumented;
use span_script::request::Request;
use std::alloc::Global;
use std::collections::VecDeque;
use trace_base::dispatcher::Dispatch;
use trace_base::lane::Lane;
use trace_base::world::World;
use trace_tape::tape::Tape;

/// What `run_tasks` comes to over a new tape: the tape keeps exactly the flat list, and the run is never `Full`.
pub fn runs_over_a_tape()
    ensures spelled { (tasks : List Task) (old new : WorldValue TapeValue) (before later : Lane) (tape : TapeValue) (polls : ℕ)
        → IsNewTape old (dispatch_serving before) tape
        → ReadyToPoll tape_spans (λ s lane number. 0) (λ s. Unit {0}) old before
        → TasksAreDeclared old.sites tasks → poll_count (tasks_at_first 0 tasks) < 2 ^ 60
        → RunsTasks tape_spans (λ s. None) (λ s lane c. true) DoesTape TouchesTape old.sites tasks old new before later polls
        → KeepsOnTape (dispatch_serving before) (flat_list old.sites tasks) new }
    ensures never_full { (d : ℕ) (sites : List Callsite) (tasks : List Task) (s : TaskScene TapeValue)
        (new : WorldValue TapeValue) (later : Lane)
        → ¬ (GaveUp tape_spans (λ s. None) (λ s lane c. true) (λ s id. false) DoesTape TouchesTape (λ s t. t ≡ s)
        d sites tasks faults.Full s new later) }
{}

/// Runs tasks over a new tape, and hands the requests that they spell on, those of a poll as soon as it has ended: the sink
/// takes exactly the flat list. Answers how many polls that has: one for each task and one for each yield. Never `Full`,
/// `Memory` freely.
pub fn run_on_tape<K: RequestSink>(
    alloc: Global,
    tasks: Items<Task>,
    world: &mut World<Tape>,
    lane: &mut Lane,
    dispatch: Dispatch,
    cx: &mut Context<'_>,
    sink: &mut K,
) -> Result<u64, EnterError>
    requires serves { dispatch_serving lane.old ≡ dispatch }
    requires new_tape { (tape : _) × IsNewTape world.old dispatch tape }
    requires ready { ReadyToPoll tape_spans (λ s lane number. 0) (λ s. Unit {0}) world.old lane.old }
    requires sited { AllHaveCallsites (length world.old.sites) tasks }
    requires tested { TasksAreDeclared world.old.sites tasks }
    requires few { length tasks < 2 ^ 63 }
    requires few_polls { poll_count (tasks_at_first 0 tasks) < 2 ^ 60 }

    ensures polls { IfOk result (λ polls. polls ≡ sum_by (λ t. yield_count t.steps) tasks + length tasks) }
    ensures never_full { result ≢ Err faults.Full }
    ensures taken { IfOk result (λ polls. TakesAll K.takes (flat_list world.old.sites tasks) sink.old sink.new) }
    ensures context { Keeps cx.old cx.new }
{
    let mut queue = VecDeque::new(alloc);
    let answer = begin_and_spell(alloc, tasks, &mut queue, world, lane, dispatch, cx, sink);
    queue.destroy_empty();
    answer
}

// Begins tasks, and polls them until none is left.
fn begin_and_spell<K: RequestSink>(
    alloc: Global,
    tasks: Items<Task>,
    queue: &mut VecDeque<Instrumented<TaskFuture>>,
    world: &mut World<Tape>,
    lane: &mut Lane,
    dispatch: Dispatch,
    cx: &mut Context<'_>,
    sink: &mut K,
) -> Result<u64, EnterError>
    requires none { queue.old.items ≡ [] }
    requires serves { dispatch_serving lane.old ≡ dispatch }
    requires new_tape { (tape : _) × IsNewTape world.old dispatch tape }
    requires ready { ReadyToPoll tape_spans (λ s lane number. 0) (λ s. Unit {0}) world.old lane.old }
    requires sited { AllHaveCallsites (length world.old.sites) tasks }
    requires tested { TasksAreDeclared world.old.sites tasks }
    requires few { length tasks < 2 ^ 63 }
    requires few_polls { poll_count (tasks_at_first 0 tasks) < 2 ^ 60 }

    ensures polls { IfOk result (λ polls. polls ≡ sum_by (λ t. yield_count t.steps) tasks + length tasks) }
    ensures never_full { result ≢ Err faults.Full }
    ensures taken { IfOk result (λ polls. TakesAll K.takes (flat_list world.old.sites tasks) sink.old sink.new) }
    ensures empty { queue.new.items ≡ [] }
    ensures context { Keeps cx.old cx.new }
{
    match begin_all(alloc, tasks, queue, world, lane) {
        Ok(()) => {}
        Err(Memory) => {
            close_all(queue, world, 0);
            return Err(EnterError::Memory);
        }
    }
    let mut makings = Vec::new(alloc);
    match hand_on(world, dispatch, &mut makings, sink) {
        Ok(()) => spell_turns(queue, world, lane, dispatch, cx, sink),
        Err(Memory) => {
            close_all(queue, world, 0);
            Err(EnterError::Memory)
        }
    }
}

// Polls the tasks of a queue in turn until none is left, and hands on what each poll spelled; answers the number of polls.
fn spell_turns<K: RequestSink>(
    queue: &mut VecDeque<Instrumented<TaskFuture>>,
    world: &mut World<Tape>,
    lane: &mut Lane,
    dispatch: Dispatch,
    cx: &mut Context<'_>,
    sink: &mut K,
) -> Result<u64, EnterError>
    requires serves { dispatch_serving lane.old ≡ dispatch }
    requires ready { ReadyToPoll tape_spans (λ s lane number. 0) (λ s. Unit {0}) world.old lane.old }
    requires wait { AllWait tape_spans world.old (dispatch_serving lane.old) queue.old.items }
    requires few { polls_in queue.old.items < 2 ^ 60 }

    ensures turns { IfOk result (λ polls. (ts : _) → WaitOnTape dispatch world.old.sites 0 ts world.old lane.old queue.old.items
        → HandsTurnsOn K.takes world.old.sites ts polls sink.old sink.new) }
    ensures never_full { result ≢ Err faults.Full }
    ensures empty { queue.new.items ≡ [] }
    ensures context { Keeps cx.old cx.new }
{
    // The requests of a poll, in room that is taken once.
    let mut batch = Vec::new(world.allocator());
    let mut polls = 0;
    while take_turn(queue, world, lane, 10 * (polls + 1), cx)? {
        if let Err(Memory) = hand_on(world, dispatch, &mut batch, sink) {
            close_all(queue, world, 10 * (polls + 1));
            return Err(EnterError::Memory);
        }
        polls += 1;
    }
    Ok(polls)
}

// Hands the requests on a tape on, by way of an empty batch. None is left on it.
fn hand_on<K: RequestSink>(
    world: &mut World<Tape>,
    dispatch: Dispatch,
    batch: &mut Vec<Request>,
    sink: &mut K,
) -> Result<(), Memory>
    requires there { dispatch < length world.old.subscribers }
    requires empty { batch.old.items ≡ [] }
    ensures changes { OnlyRequestsChange dispatch world.old world.new }
    ensures ok { OnOk result (HandsOn K.takes dispatch world.old world.new sink.old sink.new) }
    ensures empty { OnOk result (batch.new.items ≡ []) }
{
    world.subscriber_mut(dispatch).move_requests(batch)?;
    push_all(sink, batch)
}

// Hands requests on, the first one first.
fn push_all<K: RequestSink>(sink: &mut K, requests: &mut Vec<Request>) -> Result<(), Memory>
    ensures taken { OnOk result (TakesAll K.takes requests.old.items sink.old sink.new) }
    ensures none { OnOk result (requests.new.items ≡ []) }
{
    requests.reverse();
    while let Some(request) = requests.pop() {
        sink.push(request)?;
    }
    Ok(())
}
