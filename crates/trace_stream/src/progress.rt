//! Answering an input piece by piece, as it is read.
ghost use Rattle.std.specs.Prelude.{◌≡◌, ◌++◌, ◌∷◌, ℕ, List, Option, [], false, IfOk, IfErr, OnOk, OnErr};
ghost use Rattle.trace_lines.specs.Report.{report};
ghost use Rattle.trace_stream.specs.reading.Answers.{is_refused};
ghost use Rattle.trace_stream.specs.reading.Breaks.{has_feed};
ghost use Rattle.trace_stream.specs.Streams.{CountsFault, StopsWriting};
ghost use Rattle.trace_stream.specs.Progress.{IsMidway, HasAnsweredLines, FeedsTo, FinishesRun};

use crate::answers::Answers;
use crate::failed::Failed;
use crate::lines::cut_line;
use crate::sink::Sink;
use otel_base::memory::Memory;
use std::alloc::Global;
use trace_base::discard::Discard;
use trace_lines::Signal;

// How many bytes are kept before they are written.
const FLUSH_SIZE: usize = 65_536;

/// A run under way: what the lines that came whole are answered, and what came of the next line. It has to be spent.
pub struct Progress {
    /// The answers to the lines that came whole.
    pub answers: Answers,
    /// What came of the next line.
    pub partial_line: Vec<u8>,
}

/// What is kept is dropped.
impl Discard for Progress {
    fn discard(self) {
        let Progress {
            answers,
            partial_line: _,
        } = self;
        answers.discard();
    }
}

/// Why a run can't go on.
#[derive(Clone, Copy, Debug, PartialEq, Eq)]
pub enum Stop {
    /// No memory was to be had.
    Memory,
    /// A write failed.
    Write,
}

impl Progress {
    /// A run before its first byte.
    pub fn new(alloc: Global) -> Progress
        ensures keeps { (signal : Signal) → HasAnsweredLines signal [] [] result }
        ensures text { result.answers.written.text.items ≡ [] }
        ensures going { is_refused result.answers.stage ≡ false }
    {
        Progress {
            answers: Answers::new(alloc),
            partial_line: Vec::new(alloc),
        }
    }

    // Answers the line that these bytes end. `Memory` freely.
    fn answer_line(&mut self, alloc: Global, signal: Signal, line: &[u8]) -> Result<(), Memory>
        requires { has_feed line.now ≡ false }
        ensures { (put front : List ℕ) → HasAnsweredLines signal put front self.old
            → OnOk result (HasAnsweredLines signal put (front ++ line.now ++ 10 ∷ []) self.new) }
    {
        if self.partial_line.is_empty() {
            return self.answers.answer_line(alloc, signal, line);
        }
        self.partial_line.extend_from_slice(line)?;
        self.answers
            .answer_line(alloc, signal, self.partial_line.as_slice())?;
        self.partial_line.clear();
        Ok(())
    }

    // Hands what is answered to the sink.
    fn flush<W: Sink>(&mut self, sink: &mut W) -> Result<(), Failed>
        ensures midway { (signal : Signal) (before : Option (List ℕ)) (front : List ℕ)
            → IsMidway signal before (W.holds sink.old) front self.old
            → FeedsTo signal result before (W.holds sink.new) front self.new }
        ensures empty { OnOk result (self.new.answers.written.text.items ≡ []) }
        ensures sure { OnOk result (W.faults sink.new ≡ W.faults sink.old) }
        ensures cause { OnErr result (CountsFault (W.faults sink.old) (W.faults sink.new)) }
        ensures stops { OnErr result (StopsWriting W.faults W.holds sink.old sink.new) }
    {
        match self.answers.written.flush(sink) {
            Ok(()) => Ok(()),
            Err(Failed) => Err(Failed),
        }
    }

    // The same, once there is much of it.
    fn flush_if_full<W: Sink>(&mut self, sink: &mut W) -> Result<(), Failed>
        ensures midway { (signal : Signal) (before : Option (List ℕ)) (front : List ℕ)
            → IsMidway signal before (W.holds sink.old) front self.old
            → FeedsTo signal result before (W.holds sink.new) front self.new }
        ensures sure { OnOk result (W.faults sink.new ≡ W.faults sink.old) }
        ensures cause { OnErr result (CountsFault (W.faults sink.old) (W.faults sink.new)) }
        ensures stops { OnErr result (StopsWriting W.faults W.holds sink.old sink.new) }
    {
        if self.answers.written.text.len() < FLUSH_SIZE {
            return Ok(());
        }
        self.flush(sink)
    }

    /// Takes in a piece of the input: answers the lines that it ends, and writes their answers. It stops at a fault of
    /// the sink, or for want of memory.
    pub fn feed<W: Sink>(
        &mut self,
        alloc: Global,
        signal: Signal,
        piece: &[u8],
        sink: &mut W,
    ) -> Result<(), Stop>
        ensures midway { (before : Option (List ℕ)) (front : List ℕ)
            → IsMidway signal before (W.holds sink.old) front self.old
            → FeedsTo signal result before (W.holds sink.new) (front ++ piece.now) self.new }
        ensures empty { OnOk result (self.new.answers.written.text.items ≡ []) }
        ensures sure { OnOk result (W.faults sink.new ≡ W.faults sink.old) }
        ensures cause { IfErr result (λ why. why ≡ Stop.Write
            → CountsFault (W.faults sink.old) (W.faults sink.new)) }
        ensures stops { IfErr result (λ why. why ≡ Stop.Write
            → StopsWriting W.faults W.holds sink.old sink.new) }
    {
        let mut rest = piece;
        while let Some((line, after)) = cut_line(rest) {
            let Ok(()) = self.answer_line(alloc, signal, line) else {
                return Err(Stop::Memory);
            };
            let Ok(()) = self.flush_if_full(sink) else {
                return Err(Stop::Write);
            };
            rest = after;
        }
        let Ok(()) = self.partial_line.extend_from_slice(rest) else {
            return Err(Stop::Memory);
        };
        let Ok(()) = self.flush(sink) else {
            return Err(Stop::Write);
        };
        Ok(())
    }

    // Answers what came of the last line, and that no line follows. Whether the lines are accepted is told. `Memory` freely.
    fn end(&mut self, alloc: Global, signal: Signal) -> Result<bool, Memory>
        ensures { (put front : List ℕ) → HasAnsweredLines signal put front self.old
            → IfOk result (λ accepted. report signal front
            ≡ record { written = put ++ self.new.answers.written.text.items; accepted = accepted }) }
    {
        if self.partial_line.is_empty() {
            return self.answers.end(signal);
        }
        self.answers
            .answer_line(alloc, signal, self.partial_line.as_slice())?;
        self.answers.end(signal)
    }

    /// Ends a run of which all is written that was answered: answers what came of the last line, and that no line follows,
    /// and writes that. Whether the lines are accepted is told. It stops as `feed` does.
    pub fn finish<W: Sink>(
        &mut self,
        alloc: Global,
        signal: Signal,
        sink: &mut W,
    ) -> Result<bool, Stop>
        requires { self.old.answers.written.text.items ≡ [] }
        ensures ends { (before : Option (List ℕ)) (front : List ℕ)
            → IsMidway signal before (W.holds sink.old) front self.old
            → FinishesRun signal result before (W.holds sink.new) front }
        ensures cause { IfErr result (λ why. why ≡ Stop.Write
            → CountsFault (W.faults sink.old) (W.faults sink.new)) }
        ensures stops { IfErr result (λ why. why ≡ Stop.Write
            → StopsWriting W.faults W.holds sink.old sink.new) }
    {
        let Ok(accepted) = self.end(alloc, signal) else {
            return Err(Stop::Memory);
        };
        let Ok(()) = self.answers.written.flush(sink) else {
            return Err(Stop::Write);
        };
        Ok(accepted)
    }
}
