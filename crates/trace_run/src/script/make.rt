//! Making a script and running it: what it came to is written as one line.
ghost use Rattle.std.specs.Prelude.{◌≡◌, ◌∷◌, ◌≤◌, ◌<◌, [], IfOk, OnOk};
ghost use Rattle.span_script.specs.Tables.{History};
ghost use Rattle.trace_lines.specs.Generated.{generated_requests};
ghost use Rattle.trace_lines.specs.Replay.{busy_in, busy_of};
ghost use Rattle.trace_records.specs.Following.{without_outputs};
ghost use Rattle.trace_run.specs.Commands.Make.{LeavesSummary, CompletesSummary};
ghost use Rattle.trace_run.specs.Making.{SumsUp, IsGeneratedSummaryLine, with_records, StandsWithTotals, ServesRequests};
ghost use Rattle.trace_stream.specs.Streams.{CountsFault, StopsWriting};

use otel_base::memory::Memory;
use otel_base::record::Record;
use otel_base::value::{KeyValue, OtelValue};
use span_script::request::Request;
use std::alloc::Global;
use trace_base::discard::Discard;
use trace_lines::TextBuffer;
use trace_lines::generated::laws::validity;
use trace_lines::generated::{MAX_ROUNDS, generated_settings, requests_of_round};
use trace_lines::write::add_summary_line;
use trace_lines::write::summary::Summary;
use trace_pipeline::pipeline::Pipeline;
use trace_stream::failed::Failed;
use trace_stream::sink::{Sink, write_all};
use trace_stream::status::Status;

/// Runs the script of so many rounds, and writes its summary. It reads nothing; nothing is written where no memory
/// was to be had.
pub fn make<W: Sink>(alloc: Global, rounds: u64, sink: &mut W) -> Status
    requires { rounds ≤ MAX_ROUNDS }
    ensures leaves { LeavesSummary result rounds (W.holds sink.old) (W.holds sink.new) }
    ensures cause { result ≡ Status.WriteFault → CountsFault (W.faults sink.old) (W.faults sink.new) }
    ensures complete { CompletesSummary result (W.faults sink.old) (W.faults sink.new) }
    ensures write_stops { result ≡ Status.WriteFault → StopsWriting W.faults W.holds sink.old sink.new }
{
    let Ok(text) = generated_summary_line(alloc, rounds) else {
        return Status::Memory;
    };
    match write_all(sink, text.as_slice()) {
        Ok(()) => Status::Ok,
        Err(Failed) => Status::WriteFault,
    }
}

// The line of the summary.
fn generated_summary_line(alloc: Global, rounds: u64) -> Result<Vec<u8>, Memory>
    requires { rounds ≤ MAX_ROUNDS }
    ensures { IfOk result (λ text. IsGeneratedSummaryLine rounds text.items) }
{
    let summary = run_rounds(alloc, rounds)?;
    let mut text = TextBuffer::new(alloc);
    add_summary_line(&mut text, &summary)?;
    Ok(text.into_vec())
}

// Runs the script, and sums up what it came to.
fn run_rounds(alloc: Global, rounds: u64) -> Result<Summary, Memory>
    requires { rounds ≤ MAX_ROUNDS }
    ensures { IfOk result (λ summary. SumsUp rounds summary) }
{
    validity();
    let settings = generated_settings(alloc)?;
    let Ok(mut pipeline) = Pipeline::open(alloc, settings) else {
        return Err(Memory);
    };
    let mut totals = Totals {
        busy: 0,
        events: 0,
        records: 0,
        requests: 0,
    };
    let served = serve_rounds(alloc, rounds, &mut pipeline, &mut totals);
    let open_spans = pipeline.open_spans();
    pipeline.discard();
    served?;
    // No script is so long that the sums wrap.
    let lines = totals.requests.checked_add(totals.records).ok_or(Memory)?;
    Ok(Summary {
        busy: totals.busy,
        events: totals.events,
        lines: lines.checked_add(1).ok_or(Memory)?,
        open_spans,
        records: totals.records,
        requests: totals.requests,
    })
}

/// What the requests so far came to, in numbers.
#[derive(Clone, Copy, Debug, PartialEq, Eq)]
pub struct Totals {
    /// The nanoseconds for which the spans of the records were entered.
    pub busy: u64,
    /// The events of the records.
    pub events: u64,
    /// The records.
    pub records: u64,
    /// The requests.
    pub requests: u64,
}

// Serves so many rounds.
fn serve_rounds(
    alloc: Global,
    rounds: u64,
    pipeline: &mut Pipeline,
    totals: &mut Totals,
) -> Result<(), Memory>
    requires { rounds ≤ MAX_ROUNDS }
    ensures { StandsWithTotals [] pipeline.old totals.old
        → OnOk result (ServesRequests (generated_requests rounds) [] pipeline.new totals.new) }
{
    for i in 0..rounds {
        let requests = requests_of_round(alloc, i)?;
        serve_all(pipeline, totals, requests)?;
    }
    Ok(())
}

// Serves some requests.
fn serve_all(
    pipeline: &mut Pipeline,
    totals: &mut Totals,
    requests: Vec<Request>,
) -> Result<(), Memory>
    ensures { (h : History) → StandsWithTotals h pipeline.old totals.old
        → OnOk result (ServesRequests requests.items h pipeline.new totals.new) }
{
    for request in requests {
        serve(pipeline, totals, request)?;
    }
    Ok(())
}

// Serves a request. None that is made is refused but for want of memory.
fn serve(pipeline: &mut Pipeline, totals: &mut Totals, request: Request) -> Result<(), Memory>
    ensures { (h : History) → StandsWithTotals h pipeline.old totals.old
        → OnOk result (ServesRequests (request ∷ []) h pipeline.new totals.new) }
{
    let Ok(_) = pipeline.step(request) else {
        return Err(Memory);
    };
    totals.requests = totals.requests.checked_add(1).ok_or(Memory)?;
    take_records(pipeline, totals)?;
    Ok(())
}

// Takes the finished records, and adds them to the totals.
fn take_records(pipeline: &mut Pipeline, totals: &mut Totals) -> Result<(), Memory>
    ensures totals { OnOk result (totals.new ≡ with_records totals.old pipeline.old.recording.finished) }
    ensures taken { OnOk result (pipeline.new.recording.finished ≡ []) }
    ensures state { without_outputs pipeline.new ≡ without_outputs pipeline.old }
{
    while let Some(finished) = pipeline.take_record() {
        totals.add(&finished)?;
    }
    Ok(())
}

impl Totals {
    // Adds a record.
    fn add(&mut self, finished: &Record) -> Result<(), Memory>
        ensures { OnOk result (self.new ≡ with_records self.old (finished.now ∷ [])) }
    {
        let events = finished.events.as_slice().len() as u64;
        self.busy = self.busy.checked_add(busy_of(finished)?).ok_or(Memory)?;
        self.events = self.events.checked_add(events).ok_or(Memory)?;
        self.records = self.records.checked_add(1).ok_or(Memory)?;
        Ok(())
    }
}

// The nanoseconds for which a record's span was entered, by its attributes.
fn busy_of(finished: &Record) -> Result<u64, Memory>
    ensures { IfOk result (λ busy. busy ≡ busy_of finished.now) }
{
    let mut busy: u64 = 0;
    for attribute in finished.attributes.as_slice() {
        busy = busy.checked_add(busy_in(attribute)).ok_or(Memory)?;
    }
    Ok(busy)
}

fn busy_in(attribute: &KeyValue) -> u64
    ensures { result ≡ busy_in attribute.now }
{
    if attribute.key.as_str() != "busy_ns" {
        return 0;
    }
    match &attribute.value {
        OtelValue::I64(number) if *number > 0 => *number as u64,
        OtelValue::I64(_) | OtelValue::Bool(_) | OtelValue::Str(_) | OtelValue::List(_) => 0,
    }
}
