//! Running a script: its input is read in blocks, each line is answered once it is whole, and its answer is written before
//! the next block is read.
ghost use Rattle.std.specs.Prelude.{◌≡◌, ◌≢◌, ◌+◌, ◌<◌, ◌≤◌, [], false, length, IfSome};
ghost use Rattle.trace_stream.specs.reading.Answers.{is_refused};
ghost use Rattle.trace_stream.specs.Carries.{CarriesOut, HasCause, IsTooLongForCause, StopsAtFault};
ghost use Rattle.trace_stream.specs.Runs.{answering_of_run, meaning_of_runs};
ghost use Rattle.trace_stream.specs.Progress.{HasAnsweredLines};
ghost use Rattle.trace_stream.specs.reading.Reading.{LeavesStreams, PutsNothingOrFront, IsRefusedForCause};
ghost use Rattle.trace_stream.specs.Streams.{MeetsEnd, StopsReading, StopsWriting, streams_of};

use crate::failed::Failed;
use crate::input::{BLOCK_SIZE, zeros};
use crate::progress::{Progress, Stop};
use crate::sink::Sink;
use crate::source::Source;
use crate::status::Status;
use std::alloc::Global;
use trace_base::discard::Discard;
use trace_lines::Signal;
use trace_lines::limits::MAX_INPUT;

/// Runs a script: each line is answered once it is whole, and all answers are written before more is read.
pub fn run<R: Source, W: Sink>(
    alloc: Global,
    signal: Signal,
    source: &mut R,
    sink: &mut W,
) -> Status
    ensures carries { let at = streams_of R.remaining R.ends R.faults W.holds W.faults in
        CarriesOut (meaning_of_runs signal) result (at source.old sink.old) (at source.new sink.new) }
    ensures stops { StopsAtFault result (StopsReading R.faults R.remaining source.old source.new)
        (StopsWriting W.faults W.holds sink.old sink.new) }
{
    let Ok(mut room) = zeros(alloc, BLOCK_SIZE) else {
        return Status::Memory;
    };
    let mut progress = Progress::new(alloc);
    let status = run_blocks(
        alloc,
        signal,
        &mut progress,
        room.as_mut_slice(),
        source,
        sink,
    );
    progress.discard();
    status
}

// Reads the source block by block, to its end, to a fault, to a refused line, or until more was read than an input may
// have. Behind its end it isn't read again.
fn run_blocks<R: Source, W: Sink>(
    alloc: Global,
    signal: Signal,
    progress: &mut Progress,
    block: &mut [u8],
    source: &mut R,
    sink: &mut W,
) -> Status
    requires room { 0 < length block.old }
    requires keeps { HasAnsweredLines signal [] [] progress.old }
    requires empty { progress.old.answers.written.text.items ≡ [] }
    requires going { is_refused progress.old.answers.stage ≡ false }

    // Where the source doesn't tell its bytes, the clauses below these two still tie each status to what happened.
    ensures leaves { IfSome (R.remaining source.old) (λ bytes. LeavesStreams (answering_of_run signal) result bytes
        (R.remaining source.new) (W.holds sink.old) (W.holds sink.new)) }
    ensures front { IfSome (R.remaining source.old) (λ bytes.
        PutsNothingOrFront (answering_of_run signal) bytes (W.holds sink.old) (W.holds sink.new)) }

    ensures causes { let at = streams_of R.remaining R.ends R.faults W.holds W.faults in
        HasCause result (at source.old sink.old) (at source.new sink.new) }
    ensures stops { StopsAtFault result (StopsReading R.faults R.remaining source.old source.new)
        (StopsWriting W.faults W.holds sink.old sink.new) }
    ensures refused { let at = streams_of R.remaining R.ends R.faults W.holds W.faults in
        IsRefusedForCause (answering_of_run signal) result (at source.old sink.old) (at source.new sink.new) }
    ensures met { result ≡ Status.Ok → MeetsEnd (R.ends source.old) (R.ends source.new) }
    ensures over { let at = streams_of R.remaining R.ends R.faults W.holds W.faults in
        IsTooLongForCause result (at source.old sink.old) (at source.new sink.new) }
    ensures end_once { R.ends source.new ≤ R.ends source.old + 1 }
    ensures usage { result ≢ Status.Usage }
{
    let mut total = 0;
    while total <= MAX_INPUT {
        let count = match source.read(block) {
            Ok(0) => {
                return match progress.finish(alloc, signal, sink) {
                    Ok(true) => Status::Ok,
                    Ok(false) => Status::Refused,
                    Err(Stop::Memory) => Status::Memory,
                    Err(Stop::Write) => Status::WriteFault,
                };
            }
            Ok(count) => count,
            Err(Failed) => return Status::ReadFault,
        };
        // What comes behind the longest input isn't answered.
        let piece = &block[..count.min(MAX_INPUT - total)];
        match progress.feed(alloc, signal, piece, sink) {
            Ok(()) => {}
            Err(Stop::Memory) => return Status::Memory,
            Err(Stop::Write) => return Status::WriteFault,
        }
        if progress.answers.is_refused() {
            return Status::Refused;
        }
        total += count;
    }
    Status::TooLong
}
