//! What is written of the records of a run.
ghost use Rattle.std.specs.Prelude.{◌≡◌, ◌+◌, ◌++◌, [], length, OnOk, IfOk};
ghost use Rattle.trace_lines.specs.Report.{record_lines};
ghost use Rattle.trace_lines.specs.text.Texts.{end_text};
ghost use Rattle.trace_records.specs.Following.{without_outputs};

use otel_base::memory::Memory;
use std::alloc::Global;
use trace_lines::{TextBuffer, add_end_line, add_record_line};
use trace_pipeline::pipeline::Pipeline;

/// The lines of the records so far, which are numbered from 1.
#[derive(Drop)]
pub(crate) struct RecordLines {
    pub(crate) text: TextBuffer,
    pub(crate) count: u64,
}

impl RecordLines {
    // No lines.
    pub(crate) fn new(alloc: Global) -> RecordLines
        ensures text { result.text.items ≡ [] }
        ensures count { result.count ≡ 0 }
    {
        RecordLines {
            text: TextBuffer::new(alloc),
            count: 0,
        }
    }

    // Takes the records that wait, and writes their lines.
    pub(crate) fn take_records(&mut self, pipeline: &mut Pipeline) -> Result<(), Memory>
        ensures lines { OnOk result (self.new.text.items
            ≡ self.old.text.items ++ record_lines (self.old.count + 1) pipeline.old.recording.finished) }
        ensures count { OnOk result (self.new.count ≡ self.old.count + length pipeline.old.recording.finished) }
        ensures taken { OnOk result (pipeline.new.recording.finished ≡ []) }
        ensures state { without_outputs pipeline.new ≡ without_outputs pipeline.old }
    {
        while let Some(finished) = pipeline.take_record() {
            // No run has so many records that the sum wraps.
            let number = self.count.checked_add(1).ok_or(Memory)?;
            add_record_line(&mut self.text, number, &finished)?;
            self.count = number;
        }
        Ok(())
    }

    // The lines, and the end line for a run that leaves so many spans open.
    pub(crate) fn end(self, left_open: u64) -> Result<Vec<u8>, Memory>
        ensures { IfOk result (λ text. text.items ≡ self.text.items ++ end_text left_open self.count) }
    {
        let RecordLines { mut text, count } = self;
        add_end_line(&mut text, left_open, count)?;
        Ok(text.into_vec())
    }
}
