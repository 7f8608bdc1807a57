//! What a run writes, line by line.
ghost use Rattle.std.specs.Prelude.{◌≡◌, ◌≢◌, ◌++◌, ◌+◌, ◌≤◌, [], length, OnOk, OnErr};
ghost use Rattle.trace_lines.specs.Report.{record_lines, measure_lines, last_text};
ghost use Rattle.trace_lines.specs.text.Texts.{reply_text, refusal_text};
ghost use Rattle.trace_records.specs.Following.{without_outputs};
ghost use Rattle.trace_stream.specs.reading.Answers.{IsAnswered};
ghost use Rattle.trace_stream.specs.Streams.{CountsFault, Puts, PutsFront, StopsWriting};

use crate::failed::Failed;
use crate::sink::{Sink, write_all};
use otel_base::memory::Memory;
use std::alloc::Global;
use trace_lines::{
    Refusal, Reply, Signal, TextBuffer, Told, add_end_line, add_measure_line,
    add_measures_end_line, add_record_line, add_refusal_line, add_reply_line,
};
use trace_pipeline::pipeline::Pipeline;
use trace_records::finished::drop_measures;

/// What is written so far.
#[derive(Drop)]
pub struct Written {
    /// The lines, each with its line feed.
    pub text: TextBuffer,
    /// How many records or measures are among them.
    pub count: u64,
}

impl Written {
    /// Nothing is written yet.
    pub fn new(alloc: Global) -> Written
        ensures text { result.text.items ≡ [] }
        ensures count { result.count ≡ 0 }
    {
        Written {
            text: TextBuffer::new(alloc),
            count: 0,
        }
    }

    /// Writes the refusal line of a line.
    pub fn refuse(&mut self, line: u64, told: &Told) -> Result<(), Memory>
        requires { told.now ≢ Told.Step Refusal.Memory }
        ensures text { OnOk result (self.new.text.items ≡ self.old.text.items ++ refusal_text line told.now) }
        ensures count { self.new.count ≡ self.old.count }
    {
        add_refusal_line(&mut self.text, line, told)?;
        Ok(())
    }

    /// Writes what is told of the request on a line that was served, and takes the records and the measures that wait.
    pub fn answer(
        &mut self,
        signal: Signal,
        line: u64,
        reply: &Reply,
        pipeline: &mut Pipeline,
    ) -> Result<(), Memory>
        ensures { OnOk result (IsAnswered signal line reply.now pipeline.old pipeline.new self.old self.new) }
    {
        match signal {
            Signal::Traces => {
                self.write_reply(line, reply)?;
                self.write_records(pipeline)?;
                drop_measures(pipeline);
                Ok(())
            }
            Signal::Metrics => {
                self.write_measures(line, pipeline)?;
                drop_records(pipeline);
                Ok(())
            }
        }
    }

    // Writes the reply line of a line.
    fn write_reply(&mut self, line: u64, reply: &Reply) -> Result<(), Memory>
        ensures text { OnOk result (self.new.text.items ≡ self.old.text.items ++ reply_text line reply.now) }
        ensures count { self.new.count ≡ self.old.count }
    {
        add_reply_line(&mut self.text, line, reply)?;
        Ok(())
    }

    // Takes the records, and writes their lines.
    fn write_records(&mut self, pipeline: &mut Pipeline) -> Result<(), Memory>
        ensures lines { OnOk result (self.new.text.items
            ≡ self.old.text.items ++ record_lines (self.old.count + 1) pipeline.old.recording.finished) }
        ensures count { OnOk result (
            self.new.count ≡ self.old.count + length pipeline.old.recording.finished) }
        ensures taken { OnOk result (pipeline.new.recording.finished ≡ []) }
        ensures state { without_outputs pipeline.new ≡ without_outputs pipeline.old }
    {
        while let Some(finished) = pipeline.take_record() {
            // No run has so many records that the sum wraps.
            let number = self.count.checked_add(1).ok_or(Memory)?;
            add_record_line(&mut self.text, number, &finished)?;
            self.count = number;
        }
        Ok(())
    }

    // Takes the measures of the event on a line, and writes their lines.
    fn write_measures(&mut self, line: u64, pipeline: &mut Pipeline) -> Result<(), Memory>
        ensures lines { OnOk result (
            self.new.text.items ≡ self.old.text.items ++ measure_lines line pipeline.old.measures) }
        ensures count { OnOk result (self.new.count ≡ self.old.count + length pipeline.old.measures) }
        ensures taken { OnOk result (pipeline.new.measures ≡ []) }
        ensures state { without_outputs pipeline.new ≡ without_outputs pipeline.old }
    {
        while let Some(measure) = pipeline.take_measure() {
            // No run has so many measures that the sum wraps.
            let count = self.count.checked_add(1).ok_or(Memory)?;
            add_measure_line(&mut self.text, line, &measure)?;
            self.count = count;
        }
        Ok(())
    }

    /// Writes the end line, for a run that leaves so many spans open.
    pub fn end(&mut self, signal: Signal, spans: u64) -> Result<(), Memory>
        ensures { OnOk result (
            self.new.text.items ≡ self.old.text.items ++ last_text signal spans self.old.count) }
    {
        match signal {
            Signal::Traces => add_end_line(&mut self.text, spans, self.count)?,
            Signal::Metrics => add_measures_end_line(&mut self.text, self.count)?,
        }
        Ok(())
    }

    /// Hands what is written to the sink, and begins anew behind it. Where that fails, the sink has a front of it.
    pub fn flush<W: Sink>(&mut self, sink: &mut W) -> Result<(), Failed>
        ensures ok { OnOk result (Puts (W.holds sink.old) (W.holds sink.new) self.old.text.items) }
        ensures err { OnErr result (PutsFront (W.holds sink.old) (W.holds sink.new) self.old.text.items) }
        ensures empty { OnOk result (self.new.text.items ≡ []) }
        ensures told { self.new.count ≡ self.old.count }
        ensures sure { OnOk result (W.faults sink.new ≡ W.faults sink.old) }
        ensures count { W.faults sink.old ≤ W.faults sink.new }
        ensures cause { OnErr result (CountsFault (W.faults sink.old) (W.faults sink.new)) }
        ensures stops { OnErr result (StopsWriting W.faults W.holds sink.old sink.new) }
    {
        write_all(sink, self.text.as_slice())?;
        self.text.clear();
        Ok(())
    }
}

// Takes the records, and drops them.
fn drop_records(pipeline: &mut Pipeline)
    ensures taken { pipeline.new.recording.finished ≡ [] }
    ensures measures { pipeline.new.measures ≡ pipeline.old.measures }
    ensures state { without_outputs pipeline.new ≡ without_outputs pipeline.old }
{
    while pipeline.take_record().is_some() {}
}
