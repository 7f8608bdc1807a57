//! Commands that read all lines before they write.
ghost use Rattle.std.specs.Prelude.{◌≡◌, ℕ, List, Bool, not, None, IfSome, IfOk};
ghost use Rattle.trace_lines.specs.Lines.{lines_of};
ghost use Rattle.input_lines.specs.Refusals.{Refuses, NoneRefused};
ghost use Rattle.trace_stream.specs.reading.AllLines.{meaning_of_all_lines, AnswersCut, WritesAnswer, status_at_end};
ghost use Rattle.trace_stream.specs.Carries.{CarriesOut, StopsAtFault};
ghost use Rattle.trace_stream.specs.Streams.{StopsReading, StopsWriting, streams_of};

use crate::failed::Failed;
use crate::input::{End, Input, read_all};
use crate::lines::whole_part;
use crate::sink::{Sink, write_all};
use crate::source::Source;
use crate::status::Status;
use input_lines::Answer;
use otel_base::memory::Memory;
use std::alloc::Global;
use trace_lines::limits::MAX_INPUT;

/// A command that reads all lines before it writes.
pub trait AllLinesCommand {
    /// Whether none of the lines is refused, and a settings line is among them.
    ghost accepts: { Self → List (List ℕ) → Bool };

    /// Whether a text may be what is written for all lines of an input.
    ghost writes: { Self → List (List ℕ) → List ℕ → Type 0 };

    /// What is written for all lines of an input, which are these bytes. `Memory` freely.
    fn answer(&mut self, alloc: Global, bytes: &[u8]) -> Result<Answer, Memory>
        ensures text { IfOk result (λ answer. writes self.old (lines_of bytes.now) answer.text.items) }
        ensures refused { IfOk result (λ answer. accepts self.old (lines_of bytes.now) ≡ not answer.refused) };

    /// The refusal line, if one of the lines that these bytes are is refused, whatever lines follow. `Memory` freely.
    fn refusal(&mut self, alloc: Global, bytes: &[u8]) -> Result<Option<Vec<u8>>, Memory>
        ensures some { IfOk result (λ refusal. IfSome refusal (λ text.
            Refuses (accepts self.old) (writes self.old) (lines_of bytes.now) text.items)) }
        ensures none { IfOk result (λ refusal. refusal ≡ None → NoneRefused (accepts self.old) (lines_of bytes.now)) };
}

/// Carries out a command that reads all lines before it writes. Nothing is written where a read failed, too much came, or no
/// memory was to be had, unless a whole line is refused.
pub fn answer_all<C: AllLinesCommand, R: Source, W: Sink>(
    alloc: Global,
    command: &mut C,
    source: &mut R,
    sink: &mut W,
) -> Status
    ensures carries { let at = streams_of R.remaining R.ends R.faults W.holds W.faults in
        CarriesOut (meaning_of_all_lines (C.accepts command.old) (C.writes command.old)) result
        (at source.old sink.old) (at source.new sink.new) }
    ensures stops { StopsAtFault result (StopsReading R.faults R.remaining source.old source.new)
        (StopsWriting W.faults W.holds sink.old sink.new) }
{
    let Ok(input) = read_all(alloc, source) else {
        return Status::Memory;
    };
    let Ok(answer) = answer_input(alloc, command, &input) else {
        return Status::Memory;
    };
    match write_all(sink, answer.text.as_slice()) {
        Ok(()) => status_of(answer.refused, input.end),
        Err(Failed) => Status::WriteFault,
    }
}

// What is written for what was read: all of it, or its whole lines that end within the longest input.
fn answer_input<C: AllLinesCommand>(
    alloc: Global,
    command: &mut C,
    input: &Input,
) -> Result<Answer, Memory>
    ensures { IfOk result (λ answer.
        WritesAnswer (C.accepts command.old) (C.writes command.old) input.now.end input.now.bytes.items answer) }
{
    match input.end {
        End::Whole => command.answer(alloc, input.bytes.as_slice()),
        End::Fault | End::TooLong => {
            let size = input.bytes.len().min(MAX_INPUT);
            answer_cut(alloc, command, whole_part(&input.bytes[..size]))
        }
    }
}

// What is written for whole lines at which an input breaks off.
fn answer_cut<C: AllLinesCommand>(
    alloc: Global,
    command: &mut C,
    part: &[u8],
) -> Result<Answer, Memory>
    ensures { IfOk result (λ answer. AnswersCut (C.accepts command.old) (C.writes command.old)
        answer.refused (lines_of part.now) answer.text.items) }
{
    match command.refusal(alloc, part)? {
        Some(text) => Ok(Answer {
            text,
            refused: true,
        }),
        None => Ok(Answer {
            text: Vec::new(alloc),
            refused: false,
        }),
    }
}

/// The status of a command whose text is written.
pub fn status_of(refused: bool, end: End) -> Status
    ensures { result ≡ status_at_end refused end }
{
    if refused {
        return Status::Refused;
    }
    match end {
        End::Whole => Status::Ok,
        End::Fault => Status::ReadFault,
        End::TooLong => Status::TooLong,
    }
}
