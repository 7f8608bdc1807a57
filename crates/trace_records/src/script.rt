//! A script that runs line by line.
ghost use Rattle.std.specs.Prelude.{◌≡◌, ℕ, List, Option, [], ◌∷◌, ◌++◌, OnOk, IfOk};
ghost use Rattle.trace_records.specs.Following.{HasFollowed, EndsAs, TellsRefusedLine};

use crate::finished::{FinishedSpans, drop_measures};
use crate::from_record::FromRecord;
use crate::line::{OpenedPipeline, answer_line, open_pipeline};
use input_lines::{RefusedLine, is_blank};
use otel_base::memory::Memory;
use std::alloc::Global;
use std::mem;
use trace_base::discard::Discard;
use trace_lines::Told;
use trace_pipeline::pipeline::Pipeline;

/// Where a script stands between two lines.
pub enum ScriptStage {
    /// No settings line came: each line so far is blank.
    Opening,
    /// The settings line came, and each request was answered.
    Running { pipeline: Pipeline },
    /// A line was refused, and those behind it do nothing.
    Refused { refused: RefusedLine },
}

/// The pipeline is given up, if there is one.
impl Discard for ScriptStage {
    fn discard(self) {
        match self {
            ScriptStage::Opening => {}
            ScriptStage::Running { pipeline } => pipeline.discard(),
            ScriptStage::Refused { refused } => drop(refused),
        }
    }
}

/// A script that runs line by line, and the spans that finished so far. It has to be spent, by `end` or `discard`.
pub struct ScriptRun<K> {
    /// How many lines came, blank ones included.
    pub line_count: u64,
    /// Where the script stands.
    pub stage: ScriptStage,
    /// The spans that finished so far.
    pub finished: FinishedSpans<K>,
}

/// What is kept is dropped.
impl<K: FromRecord> Discard for ScriptRun<K> {
    fn discard(self) {
        let ScriptRun {
            line_count: _,
            stage,
            finished: _,
        } = self;
        stage.discard();
    }
}

// Goes on to another stage.
fn set_stage(stage: &mut ScriptStage, next: ScriptStage)
    ensures { stage.new ≡ next }
{
    mem::replace(stage, next).discard();
}

impl<K: FromRecord> ScriptRun<K> {
    /// A script before its first line.
    pub fn new(alloc: Global) -> ScriptRun<K>
        ensures { (most : Option ℕ) → HasFollowed K.of_record most [] result }
    {
        ScriptRun {
            line_count: 0,
            stage: ScriptStage::Opening,
            finished: FinishedSpans::new(alloc),
        }
    }

    /// Runs one line more of a script that may have so many lanes. Behind a refused line nothing is run. `Memory` freely;
    /// what is left then follows no lines.
    pub fn follow_line(
        &mut self,
        alloc: Global,
        most_lanes: Option<u64>,
        line: &[u8],
    ) -> Result<(), Memory>
        ensures { (lines : List (List ℕ)) → HasFollowed K.of_record most_lanes lines self.old
            → OnOk result (HasFollowed K.of_record most_lanes (lines ++ line.now ∷ []) self.new) }
    {
        // No input has so many lines that the sum wraps.
        let number = self.line_count.checked_add(1).ok_or(Memory)?;
        self.line_count = number;
        if is_blank(line) {
            return Ok(());
        }
        match &mut self.stage {
            ScriptStage::Opening => match open_pipeline(alloc, most_lanes, line)? {
                Ok(
                    OpenedPipeline {
                        pipeline,
                        lane_count,
                    },
                ) => {
                    self.finished.lane_count = lane_count;
                    set_stage(&mut self.stage, ScriptStage::Running { pipeline });
                    Ok(())
                }
                Err(told) => {
                    self.refuse(number, told);
                    Ok(())
                }
            },
            ScriptStage::Running { pipeline } => match answer_line(alloc, pipeline, line)? {
                Ok(answered) => {
                    drop_measures(pipeline);
                    self.finished.take_records(pipeline, answered.lane_place)
                }
                Err(told) => {
                    self.refuse(number, told);
                    Ok(())
                }
            },
            ScriptStage::Refused { .. } => Ok(()),
        }
    }

    // Stops at a line that is refused.
    fn refuse(&mut self, line: u64, told: Told)
        ensures { self.new.stage ≡ ScriptStage.Refused (record { line = line; told = told }) }
    {
        let refused = RefusedLine { line, told };
        set_stage(&mut self.stage, ScriptStage::Refused { refused });
    }

    /// The line that is refused whatever lines follow, if one is.
    pub fn refused_line(&self) -> Option<RefusedLine>
        ensures { (most : Option ℕ) (lines : List (List ℕ)) → HasFollowed K.of_record most lines self.now
            → TellsRefusedLine most lines result }
    {
        match &self.stage {
            ScriptStage::Opening => None,
            ScriptStage::Running { .. } => None,
            ScriptStage::Refused { refused } => {
                let RefusedLine { line, told } = *refused;
                Some(RefusedLine { line, told })
            }
        }
    }

    /// What came of the lines, where no line follows: the finished spans, or the first refusal, which is that of an input
    /// without a settings line where all lines are blank. `Memory` freely.
    pub fn end(self) -> Result<Result<FinishedSpans<K>, RefusedLine>, Memory>
        ensures { (most : Option ℕ) (lines : List (List ℕ)) → HasFollowed K.of_record most lines self
            → IfOk result (EndsAs K.of_record most lines) }
    {
        let ScriptRun {
            line_count,
            stage,
            mut finished,
        } = self;
        match stage {
            ScriptStage::Opening => {
                // No input has so many lines that the sum wraps.
                let line = line_count.checked_add(1).ok_or(Memory)?;
                let told = Told::BadLine;
                Ok(Err(RefusedLine { line, told }))
            }
            ScriptStage::Running { pipeline } => {
                finished.open_spans = pipeline.open_spans();
                pipeline.discard();
                Ok(Ok(finished))
            }
            ScriptStage::Refused { refused } => Ok(Err(refused)),
        }
    }
}
