//! The entry point of the program, over any source and any sink.
ghost use Rattle.std.specs.Prelude.{◌≡◌, ◌↔◌, map, false, None, IfSome, string_bytes};
ghost use Rattle.trace_stream.specs.Carries.{CarriesOut, StopsAtFault};
ghost use Rattle.trace_run.specs.Commands.{invocation_of, meaning_by};
ghost use Rattle.trace_run.specs.Renames.{RenamesIds};
ghost use Rattle.trace_stream.specs.Streams.{StopsReading, StopsWriting, streams_of};

use crate::batch::run_batch;
use crate::invocation::{Invocation, invocation_of};
use crate::script::run_script;
use crate::threads::run_threads;
use std::alloc::{AllocGlobal, Global};
use std::random::RandomSource;
use std::sync::Wait;
use std::thread::Threads;
use trace_stream::sink::Sink;
use trace_stream::source::Source;
use trace_stream::status::Status;
use turnstile::OpenTurnstile;

/// Carries out what the words ask for, and answers how it ended. Words that ask for nothing touch neither source
/// nor sink. The host is asked for threads by `batch` and `threads` alone, which wait for them, and for a task to poll in
/// by `tasks` alone.
pub fn top<H: Threads + Wait + Sync + RandomSource + AllocGlobal, R: Source, W: Sink>(
    rt: &H,
    alloc: Global,
    words: &[String],
    source: &mut R,
    sink: &mut W,
) -> Status
    ensures usage { (result ≡ Status.Usage) ↔ (invocation_of (map string_bytes words.now) ≡ None) }
    ensures usage_leaves { result ≡ Status.Usage → (source.new ≡ source.old) × (sink.new ≡ sink.old) }
    ensures carries { let at = streams_of R.remaining R.ends R.faults W.holds W.faults in
        IfSome (invocation_of (map string_bytes words.now)) (λ asked.
        CarriesOut (meaning_by asked) result (at source.old sink.old) (at source.new sink.new)) }
    ensures renames { let at = streams_of R.remaining R.ends R.faults W.holds W.faults in
        IfSome (invocation_of (map string_bytes words.now)) (λ asked.
        RenamesIds asked result (at source.old sink.old) (at source.new sink.new)) }
    // A command that reads nothing doesn't touch the source, told or not.
    ensures unread { IfSome (invocation_of (map string_bytes words.now)) (λ asked.
        (meaning_by asked).reads ≡ false → source.new ≡ source.old) }
    ensures stops { StopsAtFault result (StopsReading R.faults R.remaining source.old source.new)
        (StopsWriting W.faults W.holds sink.old sink.new) }
{
    match invocation_of(words) {
        Some(Invocation::WithoutThreads { command }) => run_script(
            rt, alloc, command, source, sink,
        ),
        Some(Invocation::Batch { size }) => run_batch(
            rt,
            alloc,
            &OpenTurnstile,
            size,
            source,
            sink,
        ),
        Some(Invocation::Threads) => run_threads(rt, alloc, source, sink, &OpenTurnstile).0,
        None => Status::Usage,
    }
}
