//! A script of tasks that is read line by line.
ghost use Rattle.std.specs.Prelude.{◌≡◌, ◌≢◌, ℕ, List, [], ◌∷◌, ◌++◌, OnOk, IfOk, IfErr};
ghost use Rattle.task_runs.specs.Reading.{HasReadLines, ReadsSettings, ReadsTask, IsRefusedBy, EndsAs};

use input_lines::{RefusedLine, is_blank};
use otel_base::list::Items;
use otel_base::memory::Memory;
use span_script::open_error::OpenError;
use span_script::reply::Refusal;
use span_script::settings::Settings;
use std::alloc::Global;
use task_lines::{missing_name, read_task};
use trace_lines::{LineError, Told, read_settings};
use trace_pipeline::read_filters;
use trace_tasks::script::{Task, TaskScript};

/// Where a reader stands between two lines.
#[derive(Drop)]
pub enum ReadStage {
    /// No settings line came: each line so far is blank.
    Opening,
    /// The settings line came, and each line behind it is a task's.
    Reading { script: TaskScript },
    /// A line was refused, and those behind it aren't read.
    Refused { refused: RefusedLine },
}

/// A script of tasks that is read line by line.
#[derive(Drop)]
pub struct TaskReader {
    /// How many lines came, blank ones included.
    pub line_count: u64,
    /// Where it stands.
    pub stage: ReadStage,
}

impl TaskReader {
    /// A reader before the first line.
    pub fn new() -> TaskReader
        ensures { HasReadLines [] result }
    {
        TaskReader {
            line_count: 0,
            stage: ReadStage::Opening,
        }
    }

    /// Reads one line more. Behind a refused line nothing is read. `Memory` freely; what is left then stands for no lines.
    pub fn line(&mut self, alloc: Global, line: &[u8]) -> Result<(), Memory>
        ensures { (lines : List (List ℕ)) → HasReadLines lines self.old
            → OnOk result (HasReadLines (lines ++ line.now ∷ []) self.new) }
    {
        // No input has so many lines that the sum wraps.
        let number = self.line_count.checked_add(1).ok_or(Memory)?;
        self.line_count = number;
        if is_blank(line) {
            return Ok(());
        }
        match &mut self.stage {
            ReadStage::Opening => match settings_on(alloc, line)? {
                Ok(settings) => {
                    let tasks = Items::new(alloc);
                    let script = TaskScript { settings, tasks };
                    self.stage = ReadStage::Reading { script };
                    Ok(())
                }
                Err(told) => {
                    self.refuse(number, told);
                    Ok(())
                }
            },
            ReadStage::Reading { script } => match task_on(alloc, &script.settings, line)? {
                Ok(task) => script.tasks.push(task),
                Err(told) => {
                    self.refuse(number, told);
                    Ok(())
                }
            },
            ReadStage::Refused { .. } => Ok(()),
        }
    }

    // Stops at a line that is refused.
    fn refuse(&mut self, line: u64, told: Told)
        ensures stage { self.new.stage ≡ ReadStage.Refused (record { line = line; told = told }) }
        ensures lines { self.new.line_count ≡ self.old.line_count }
    {
        let refused = RefusedLine { line, told };
        self.stage = ReadStage::Refused { refused };
    }

    /// The line that is refused whatever lines follow, if one is.
    pub fn refused_line(&self) -> Option<RefusedLine>
        ensures { (lines : List (List ℕ)) → HasReadLines lines self.now → IsRefusedBy lines result }
    {
        match &self.stage {
            ReadStage::Opening => None,
            ReadStage::Reading { .. } => None,
            ReadStage::Refused { refused } => {
                let RefusedLine { line, told } = *refused;
                Some(RefusedLine { line, told })
            }
        }
    }

    /// What came of the lines, where no line follows: the script, or the first refusal, which is that of an input without a
    /// settings line where all lines are blank. `Memory` freely.
    pub fn end(self) -> Result<Result<TaskScript, RefusedLine>, Memory>
        ensures { (lines : List (List ℕ)) → HasReadLines lines self → IfOk result (EndsAs lines) }
    {
        let TaskReader { line_count, stage } = self;
        match stage {
            ReadStage::Opening => {
                // No input has so many lines that the sum wraps.
                let line = line_count.checked_add(1).ok_or(Memory)?;
                let told = Told::BadLine;
                Ok(Err(RefusedLine { line, told }))
            }
            ReadStage::Reading { script } => Ok(Ok(script)),
            ReadStage::Refused { refused } => Ok(Err(refused)),
        }
    }
}

// The settings on a line, or why the line is refused: it spells none, or a text of directives isn't read.
fn settings_on(alloc: Global, line: &[u8]) -> Result<Result<Settings, Told>, Memory>
    ensures { IfOk result (ReadsSettings line.now) }
{
    let settings = match read_settings(alloc, line) {
        Ok(settings) => settings,
        Err(LineError::BadLine) => return Ok(Err(Told::BadLine)),
        Err(LineError::Memory) => return Err(Memory),
    };
    match read_filters(alloc, &settings.filter, &settings.counting) {
        Ok(filters) => {
            drop(filters);
            Ok(Ok(settings))
        }
        Err(OpenError::Directive { counting, piece }) => {
            drop(settings);
            Ok(Err(Told::Directive { counting, piece }))
        }
        Err(OpenError::Memory) => {
            drop(settings);
            Err(Memory)
        }
    }
}

// The task on a line, or why the line is refused: it spells none, or names what isn't there.
fn task_on(alloc: Global, settings: &Settings, line: &[u8]) -> Result<Result<Task, Told>, Memory>
    ensures { IfOk result (ReadsTask settings.now line.now) }
{
    let task = match read_task(alloc, line) {
        Ok(task) => task,
        Err(LineError::BadLine) => return Ok(Err(Told::BadLine)),
        Err(LineError::Memory) => return Err(Memory),
    };
    match missing_name(settings, &task) {
        None => Ok(Ok(task)),
        Some(what) => {
            drop(task);
            let refusal = Refusal::UnknownName { what };
            Ok(Err(Told::Step { refusal }))
        }
    }
}
