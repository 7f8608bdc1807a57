//! Answering lines one after another, whichever lines follow them.
ghost use Rattle.std.specs.Prelude.{◌≡◌, ℕ, List, [], ◌∷◌, ◌++◌, ◌+◌, false, true, IfOk, OnOk};
ghost use Rattle.trace_lines.specs.Lines.{is_blank};
ghost use Rattle.trace_lines.specs.Report.{report_from};
ghost use Rattle.trace_stream.specs.reading.Answers.{IsOpening, IsRunning, AnswersAt, StandsBehindRequest, AnswersTo, is_refused};

use crate::written::Written;
use input_lines::is_blank;
use otel_base::memory::Memory;
use std::alloc::Global;
use std::mem;
use trace_base::discard::Discard;
use trace_lines::{Signal, Told};
use trace_pipeline::pipeline::Pipeline;
use trace_records::line::{OpenedPipeline, answer_line, open_pipeline};

/// Where a run stands between two lines.
pub enum RunStage {
    /// No settings line came: each line so far is blank.
    Opening,
    /// The settings line came, and each request is answered.
    Running { pipeline: Pipeline },
    /// A line was refused, and its refusal line is the last that is written.
    Refused,
}

/// The pipeline is given up, if there is one.
impl Discard for RunStage {
    fn discard(self) {
        match self {
            RunStage::Opening | RunStage::Refused => {}
            RunStage::Running { pipeline } => pipeline.discard(),
        }
    }
}

/// What the lines so far are answered. It has to be spent.
pub struct Answers {
    /// What is written for them.
    pub written: Written,
    /// How many they are, blank ones included.
    pub line_count: u64,
    /// Where the run stands.
    pub stage: RunStage,
}

/// What is written is dropped.
impl Discard for Answers {
    fn discard(self) {
        let Answers {
            written: _,
            line_count: _,
            stage,
        } = self;
        stage.discard();
    }
}

// Goes on to another stage.
fn set_stage(stage: &mut RunStage, next: RunStage)
    ensures { stage.new ≡ next }
{
    mem::replace(stage, next).discard();
}

// Ends at a line that is refused.
#[cold]
#[inline(never)]
fn stop(stage: &mut RunStage)
    ensures { stage.new ≡ RunStage.Refused }
{
    set_stage(stage, RunStage::Refused);
}

impl Answers {
    /// The answers to no line, whatever is told.
    pub fn new(alloc: Global) -> Answers
        ensures answers { (signal : Signal) → AnswersTo signal [] [] result }
        ensures text { result.written.text.items ≡ [] }
        ensures going { is_refused result.stage ≡ false }
    {
        Answers {
            written: Written::new(alloc),
            line_count: 0,
            stage: RunStage::Opening,
        }
    }

    // Answers the first line that isn't blank. It stands apart, so that no other line has room for a stage.
    #[cold]
    #[inline(never)]
    fn begin(&mut self, alloc: Global, signal: Signal, line: &[u8]) -> Result<(), Memory>
        ensures { (put : List ℕ) (before : List (List ℕ)) (count : ℕ)
            → IsOpening signal before count (put ++ self.old.written.text.items) self.old.written.count
            → self.old.line_count ≡ count + 1 → is_blank line.now ≡ false
            → OnOk result (AnswersTo signal put (before ++ line.now ∷ []) self.new) }
    {
        let next = open(alloc, signal, &mut self.written, self.line_count, line)?;
        set_stage(&mut self.stage, next);
        Ok(())
    }

    /// Answers one line more. Behind a refused line nothing is written. `Memory` freely; what is left then answers
    /// no lines.
    pub fn answer_line(&mut self, alloc: Global, signal: Signal, line: &[u8]) -> Result<(), Memory>
        ensures { (put : List ℕ) (lines : List (List ℕ)) → AnswersTo signal put lines self.old
            → OnOk result (AnswersTo signal put (lines ++ line.now ∷ []) self.new) }
    {
        // No input has so many lines that the sum wraps.
        let number = self.line_count.checked_add(1).ok_or(Memory)?;
        self.line_count = number;
        if is_blank(line) {
            return Ok(());
        }
        match &mut self.stage {
            RunStage::Opening => self.begin(alloc, signal, line),
            RunStage::Running { pipeline } => {
                let served = answer(alloc, signal, pipeline, &mut self.written, number, line)?;
                if !served {
                    stop(&mut self.stage);
                }
                Ok(())
            }
            RunStage::Refused => Ok(()),
        }
    }

    /// Whether a line was refused.
    pub fn is_refused(&self) -> bool
        ensures { result ≡ is_refused self.now.stage }
    {
        match &self.stage {
            RunStage::Opening | RunStage::Running { .. } => false,
            RunStage::Refused => true,
        }
    }

    /// Answers that no line follows: the end line comes last, or the refusal of an input without a settings line.
    /// Whether the lines are accepted is told. `Memory` freely.
    pub fn end(&mut self, signal: Signal) -> Result<bool, Memory>
        ensures { (put : List ℕ) (lines : List (List ℕ)) → AnswersTo signal put lines self.old
            → IfOk result (λ accepted. report_from signal 0 lines
            ≡ record { written = put ++ self.new.written.text.items; accepted = accepted }) }
    {
        match &self.stage {
            RunStage::Opening => {
                // No input has so many lines that the sum wraps.
                let end = self.line_count.checked_add(1).ok_or(Memory)?;
                self.written.refuse(end, &Told::BadLine)?;
                Ok(false)
            }
            RunStage::Running { pipeline } => {
                let spans = pipeline.open_spans();
                self.written.end(signal, spans)?;
                Ok(true)
            }
            RunStage::Refused => Ok(false),
        }
    }
}

/// Opens the run at the first line that isn't blank, and tells where it stands then.
pub fn open(
    alloc: Global,
    signal: Signal,
    written: &mut Written,
    lines: u64,
    line: &[u8],
) -> Result<RunStage, Memory>
    ensures { (put : List ℕ) (before : List (List ℕ)) (count : ℕ)
        → IsOpening signal before count (put ++ written.old.text.items) written.old.count → lines ≡ count + 1
        → is_blank line.now ≡ false
        → IfOk result (λ stage. AnswersAt signal stage (before ++ line.now ∷ []) lines
        (put ++ written.new.text.items) written.new.count) }
{
    match open_pipeline(alloc, None, line)? {
        Ok(opened) => {
            let OpenedPipeline {
                pipeline,
                lane_count: _,
            } = opened;
            Ok(RunStage::Running { pipeline })
        }
        Err(told) => {
            written.refuse(lines, &told)?;
            Ok(RunStage::Refused)
        }
    }
}

/// Answers the request on a line, and tells whether it was served.
pub fn answer(
    alloc: Global,
    signal: Signal,
    pipeline: &mut Pipeline,
    written: &mut Written,
    lines: u64,
    line: &[u8],
) -> Result<bool, Memory>
    ensures { (put : List ℕ) (before : List (List ℕ)) (count : ℕ)
        → IsRunning signal before count pipeline.old (put ++ written.old.text.items) written.old.count
        → lines ≡ count + 1 → is_blank line.now ≡ false
        → IfOk result (λ served. StandsBehindRequest signal served (before ++ line.now ∷ []) lines pipeline.new
        (put ++ written.new.text.items) written.new.count) }
{
    match answer_line(alloc, pipeline, line)? {
        Ok(answered) => {
            written.answer(signal, lines, &answered.reply, pipeline)?;
            Ok(true)
        }
        Err(told) => {
            written.refuse(lines, &told)?;
            Ok(false)
        }
    }
}
