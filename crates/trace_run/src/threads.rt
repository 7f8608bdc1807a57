//! The command `threads`: workers in threads call spans that they share, and the history of each span is written with its
//! record.
//!
//! It waits for its threads, which an `AllLinesCommand` may not; it goes the same way as `answer_all`.
ghost use Rattle.std.specs.Prelude.{IfOk};
ghost use Rattle.thread_run.specs.Inputs.{TellsThreads, accepts_threads};
ghost use Rattle.trace_lines.specs.Lines.{lines_of};
ghost use Rattle.trace_stream.specs.reading.AllLines.{AnswersCut, WritesAnswer};
ghost use Rattle.trace_stream.specs.Carries.{CarriesOut, StopsAtFault};
ghost use Rattle.trace_run.specs.Commands.Threads.{AnswersEnded, ComesOf, meaning_of_threads};
ghost use Rattle.trace_stream.specs.Streams.{StopsReading, StopsWriting, streams_of};

use input_lines::Answer;
use otel_base::memory::Memory;
use std::alloc::Global;
use std::sync::Wait;
use std::thread::Threads;
use thread_handles::Ended;
use thread_run::{ThreadsOutcome, threads_outcome, threads_refusal};
use trace_lines::limits::MAX_INPUT;
use trace_stream::all_lines::status_of;
use trace_stream::failed::Failed;
use trace_stream::input::{End, Input, read_all};
use trace_stream::lines::whole_part;
use trace_stream::sink::{Sink, write_all};
use trace_stream::source::Source;
use trace_stream::status::Status;
use turnstile::Turnstile;

/// Runs a script for threads. All its lines are tested before any thread starts. It waits for the threads of its workers;
/// `turns` is called round each of their calls. Beside its status it answers, at `Ok`, what came of each shared span: a
/// history that fits, its record, and the pass that has seen it.
pub fn run_threads<H: Threads + Wait + Sync, R: Source, W: Sink, T: Turnstile + Sync>(
    rt: &H,
    alloc: Global,
    source: &mut R,
    sink: &mut W,
    turns: &T,
) -> (Status, Vec<Ended>)
    ensures carries { let at = streams_of R.remaining R.ends R.faults W.holds W.faults in
        CarriesOut meaning_of_threads result.0 (at source.old sink.old) (at source.new sink.new) }
    ensures ended { let at = streams_of R.remaining R.ends R.faults W.holds W.faults in
        AnswersEnded result.0 result.1.items (at source.old sink.old) (at source.new sink.new) }
    ensures stops { StopsAtFault result.0 (StopsReading R.faults R.remaining source.old source.new)
        (StopsWriting W.faults W.holds sink.old sink.new) }
{
    let Ok(input) = read_all(alloc, source) else {
        return (Status::Memory, Vec::new(alloc));
    };
    let Ok(outcome) = threads_input(rt, alloc, &input, turns) else {
        return (Status::Memory, Vec::new(alloc));
    };
    match write_all(sink, outcome.answer.text.as_slice()) {
        Ok(()) => (status_of(outcome.answer.refused, input.end), outcome.ended),
        Err(Failed) => (Status::WriteFault, Vec::new(alloc)),
    }
}

// What comes of what was read: of all of it, or of its whole lines that end within the longest input.
fn threads_input<H: Threads + Wait + Sync, T: Turnstile + Sync>(
    rt: &H,
    alloc: Global,
    input: &Input,
    turns: &T,
) -> Result<ThreadsOutcome, Memory>
    ensures tells { IfOk result (λ outcome.
        WritesAnswer accepts_threads TellsThreads input.now.end input.now.bytes.items outcome.answer) }
    ensures ended { IfOk result (λ outcome.
        ComesOf input.now.end input.now.bytes.items outcome.ended.items outcome.answer.text.items) }
{
    match input.end {
        End::Whole => threads_outcome(rt, alloc, turns, input.bytes.as_slice()),
        End::Fault | End::TooLong => {
            let most = input.bytes.len().min(MAX_INPUT);
            let answer = threads_cut(alloc, whole_part(&input.bytes[..most]))?;
            let ended = Vec::new(alloc);
            Ok(ThreadsOutcome { answer, ended })
        }
    }
}

// What is written for whole lines at which an input breaks off.
fn threads_cut(alloc: Global, part: &[u8]) -> Result<Answer, Memory>
    ensures { IfOk result (λ answer. AnswersCut accepts_threads TellsThreads
        answer.refused (lines_of part.now) answer.text.items) }
{
    match threads_refusal(alloc, part)? {
        Some(text) => Ok(Answer {
            text,
            refused: true,
        }),
        None => Ok(Answer {
            text: Vec::new(alloc),
            refused: false,
        }),
    }
}
