//! The commands of the program that need no threads, over any source and any sink: by which word each is asked for, and who
//! carries it out.
ghost use Rattle.std.specs.Prelude.{◌≡◌, false};
ghost use Rattle.trace_stream.specs.Carries.{CarriesOut, StopsAtFault};
ghost use Rattle.trace_stream.specs.Streams.{StopsReading, StopsWriting, streams_of};
ghost use Rattle.trace_run.specs.Commands.{command_by, command_with, meaning_of};
ghost use Rattle.trace_run.specs.Renames.{RenamesIds};
ghost use Rattle.trace_run.specs.declared.invocation.Invocation.TheVariants.{WithoutThreads};

mod make;
pub mod tasks;
pub mod tree;

use crate::invocation::number_up_to;
use crate::script::tasks::Tasks;
use crate::script::tree::Tree;
use std::alloc::{AllocGlobal, Global};
use std::random::RandomSource;
use trace_lines::Signal;
use trace_lines::generated::MAX_ROUNDS;
use trace_stream::all_lines::answer_all;
use trace_stream::run::run;
use trace_stream::sink::Sink;
use trace_stream::source::Source;
use trace_stream::status::Status;

/// What the program does without threads.
#[derive(Clone, Copy, Debug, PartialEq, Eq)]
pub enum Command {
    /// To run a script, and to tell this of it.
    Run { signal: Signal },
    /// To make the script of so many rounds, run it, and tell what it came to.
    Make { rounds: u64 },
    /// To run a script, and to tell its finished spans as trees.
    Tree,
    /// To run a script of tasks, and to tell the finished spans of these.
    Tasks,
}

/// The command that a word alone asks for, if it asks for one.
pub(crate) fn command_by(word: &str) -> Option<Command>
    ensures { result ≡ command_by word.now }
{
    match word {
        "run" => Some(Command::Run {
            signal: Signal::Traces,
        }),
        "metrics" => Some(Command::Run {
            signal: Signal::Metrics,
        }),
        "tree" => Some(Command::Tree),
        "tasks" => Some(Command::Tasks),
        _ => None,
    }
}

/// The command that a word asks for with a number, if it asks for one.
pub(crate) fn command_with(word: &str, number: &str) -> Option<Command>
    ensures { result ≡ command_with word.now number.now }
{
    match word {
        "make" => {
            let rounds = number_up_to(MAX_ROUNDS, number)?;
            Some(Command::Make { rounds })
        }
        _ => None,
    }
}

/// Carries a command out, which makes at most 50,000 rounds. A line that is refused is told before a fault of the source
/// and too long an input. The runtime is asked by `tasks` alone, whose polls need a task to poll in.
pub fn run_script<H: RandomSource + AllocGlobal, R: Source, W: Sink>(
    rt: &H,
    alloc: Global,
    command: Command,
    source: &mut R,
    sink: &mut W,
) -> Status
    requires { (meaning_of command).IsPossible }
    ensures carries { let at = streams_of R.remaining R.ends R.faults W.holds W.faults in
        CarriesOut (meaning_of command) result (at source.old sink.old) (at source.new sink.new) }
    ensures renames { let at = streams_of R.remaining R.ends R.faults W.holds W.faults in
        RenamesIds (WithoutThreads command) result (at source.old sink.old) (at source.new sink.new) }
    // A command that reads nothing doesn't touch the source, told or not.
    ensures unread { (meaning_of command).reads ≡ false → source.new ≡ source.old }
    ensures stops { StopsAtFault result (StopsReading R.faults R.remaining source.old source.new)
        (StopsWriting W.faults W.holds sink.old sink.new) }
{
    match command {
        Command::Run { signal } => run(alloc, signal, source, sink),
        Command::Make { rounds } => make::make(alloc, rounds, sink),
        Command::Tree => answer_all(alloc, &mut Tree, source, sink),
        Command::Tasks => answer_all(alloc, &mut Tasks { rt }, source, sink),
    }
}
