//! The command `batch`: a script is run, and the records of its finished spans are written in batches.
//!
//! Its answers are made in threads, so it may wait, which an `AllLinesCommand` may not; it goes the same way as `answer_all`.
ghost use Rattle.std.specs.Prelude.{◌≡◌, ◌<◌, ℕ, not, Some, IfOk};
ghost use Rattle.trace_batch.specs.declared.relay.TheConstants.{MAX_LANES};
ghost use Rattle.trace_lines.specs.Lines.{lines_of};
ghost use Rattle.trace_stream.specs.reading.AllLines.{AnswersCut, WritesAnswer};
ghost use Rattle.trace_stream.specs.Carries.{CarriesOut, StopsAtFault};
ghost use Rattle.trace_run.specs.Commands.Batch.{TellsBatchesOfLines, accepts_batch, meaning_of_batches};
ghost use Rattle.trace_stream.specs.Streams.{StopsReading, StopsWriting, streams_of};

use batch_lines::batches_text;
use input_lines::{Answer, refused_answer};
use otel_base::memory::Memory;
use otel_base::record::Record;
use std::alloc::Global;
use std::sync::Wait;
use std::thread::Threads;
use trace_batch::relay::MAX_LANES;
use trace_lines::limits::MAX_INPUT;
use trace_records::{FinishedSpans, follow_lines, refusal_of};
use trace_stream::all_lines::status_of;
use trace_stream::failed::Failed;
use trace_stream::input::{End, Input, read_all};
use trace_stream::lines::whole_part;
use trace_stream::sink::{Sink, write_all};
use trace_stream::source::Source;
use trace_stream::status::Status;
use turnstile::Turnstile;

/// How many records a batch has at most.
pub const MAX_BATCH_ITEMS: u64 = 1000;

/// Runs a script of at most eight lanes, and writes its records in batches of a size. It waits for the threads that make
/// the records' texts; `turns` is called round each push into their queue.
pub fn run_batch<H: Threads + Wait + Sync, T: Turnstile + Sync, R: Source, W: Sink>(
    rt: &H,
    alloc: Global,
    turns: &T,
    size: u64,
    source: &mut R,
    sink: &mut W,
) -> Status
    requires { (meaning_of_batches size).IsPossible }
    ensures carries { let at = streams_of R.remaining R.ends R.faults W.holds W.faults in
        CarriesOut (meaning_of_batches size) result (at source.old sink.old) (at source.new sink.new) }
    ensures stops { StopsAtFault result (StopsReading R.faults R.remaining source.old source.new)
        (StopsWriting W.faults W.holds sink.old sink.new) }
{
    let Ok(input) = read_all(alloc, source) else {
        return Status::Memory;
    };
    let Ok(answer) = batch_input(rt, alloc, turns, size, &input) else {
        return Status::Memory;
    };
    match write_all(sink, answer.text.as_slice()) {
        Ok(()) => status_of(answer.refused, input.end),
        Err(Failed) => Status::WriteFault,
    }
}

// What is written for what was read: all of it, or its whole lines that end within the longest input.
fn batch_input<H: Threads + Wait + Sync, T: Turnstile + Sync>(
    rt: &H,
    alloc: Global,
    turns: &T,
    size: u64,
    input: &Input,
) -> Result<Answer, Memory>
    requires { 0 < size }
    ensures { IfOk result (λ answer.
        WritesAnswer accepts_batch (TellsBatchesOfLines size) input.now.end input.now.bytes.items answer) }
{
    match input.end {
        End::Whole => batch_answer(rt, alloc, turns, size, input.bytes.as_slice()),
        End::Fault | End::TooLong => {
            let most = input.bytes.len().min(MAX_INPUT);
            batch_cut(alloc, whole_part(&input.bytes[..most]))
        }
    }
}

// What is written for all lines of an input, which are these bytes.
fn batch_answer<H: Threads + Wait + Sync, T: Turnstile + Sync>(
    rt: &H,
    alloc: Global,
    turns: &T,
    size: u64,
    bytes: &[u8],
) -> Result<Answer, Memory>
    requires { 0 < size }
    ensures text { IfOk result (λ answer. TellsBatchesOfLines size (lines_of bytes.now) answer.text.items) }
    ensures refused { IfOk result (λ answer. accepts_batch (lines_of bytes.now) ≡ not answer.refused) }
{
    match follow_lines::<Record>(alloc, Some(MAX_LANES), bytes)?.end()? {
        Ok(finished) => {
            let FinishedSpans {
                spans,
                lanes,
                lane_count,
                open_spans,
            } = finished;
            let text = batches_text(
                rt,
                alloc,
                turns,
                size,
                spans,
                lanes.as_slice(),
                lane_count,
                open_spans,
            )?;
            let refused = false;
            Ok(Answer { text, refused })
        }
        Err(line) => refused_answer(alloc, line),
    }
}

// What is written for whole lines at which an input breaks off, whatever the size.
fn batch_cut(alloc: Global, part: &[u8]) -> Result<Answer, Memory>
    ensures { (size : ℕ) → IfOk result (λ answer. AnswersCut accepts_batch (TellsBatchesOfLines size)
        answer.refused (lines_of part.now) answer.text.items) }
{
    match refusal_of(alloc, Some(MAX_LANES), part)? {
        Some(text) => Ok(Answer {
            text,
            refused: true,
        }),
        None => Ok(Answer {
            text: Vec::new(alloc),
            refused: false,
        }),
    }
}
