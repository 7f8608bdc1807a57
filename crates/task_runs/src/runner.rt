//! A pipeline that runs requests as they come, and the lines of its records.
ghost use Rattle.std.specs.Prelude.{List, map, [], IfOk};
ghost use Rattle.span_script.specs.Outcomes.{outcome_of};
ghost use Rattle.span_script.specs.Setups.{Setup, HaveDistinctIds, setup_by};
ghost use Rattle.span_script.specs.declared.request.Request.{Request};
ghost use Rattle.task_runs.specs.Texts.{TellsOutcome};
ghost use Rattle.task_runs.specs.Writing.{WrittenSoFar, RunsRequest};

use crate::text::RecordLines;
use otel_base::memory::Memory;
use span_script::request::Request;
use span_script::settings::Settings;
use std::alloc::Global;
use trace_base::discard::Discard;
use trace_pipeline::pipeline::Pipeline;
use trace_tasks::request_sink::RequestSink;

/// A pipeline that runs requests as they come, and the lines of the records so far.
pub(crate) struct Runner {
    pub(crate) pipeline: Pipeline,
    pub(crate) lines: RecordLines,
}

impl Runner {
    // A new pipeline. `Memory` also where a text of directives isn't read.
    pub(crate) fn open(alloc: Global, settings: Settings) -> Result<Runner, Memory>
        requires { HaveDistinctIds (map (λ l. l.0) settings.lanes) }
        ensures { IfOk result (λ runner. (requests : List Request)
            → WrittenSoFar (setup_by settings) requests requests runner.pipeline runner.lines) }
    {
        let Ok(pipeline) = Pipeline::open(alloc, settings) else {
            return Err(Memory);
        };
        let lines = RecordLines::new(alloc);
        Ok(Runner { pipeline, lines })
    }

    // The lines of all records, and the end line.
    pub(crate) fn end(self) -> Result<Vec<u8>, Memory>
        ensures { (setup : Setup) (requests : List Request) → WrittenSoFar setup requests [] self.pipeline self.lines
            → IfOk result (λ text. TellsOutcome (outcome_of setup requests) text.items) }
    {
        let Runner { pipeline, lines } = self;
        let left_open = pipeline.open_spans();
        pipeline.discard();
        lines.end(left_open)
    }
}

impl RequestSink for Runner {
    ghost takes = { RunsRequest };

    fn push(&mut self, request: Request) -> Result<(), Memory> {
        let Ok(_) = self.pipeline.step(request) else {
            return Err(Memory);
        };
        self.lines.take_records(&mut self.pipeline)
    }
}

impl Discard for Runner {
    fn discard(self) {
        let Runner { pipeline, lines } = self;
        pipeline.discard();
        drop(lines);
    }
}
