//! What one line of a script does: the settings line opens a pipeline, and each line behind it is a request.
ghost use Rattle.std.specs.Prelude.{◌≡◌, Option, IfOk, IfErr, OnOk, OnErr, true, false};
ghost use Rattle.span_script.specs.Fits.{StandsFor, is_for_memory};
ghost use Rattle.span_script.specs.Tables.{History, tables};
ghost use Rattle.input_lines.specs.Refusals.{HasRefusalLine};
ghost use Rattle.trace_records.specs.Scripts.{allows_lanes};
ghost use Rattle.trace_records.specs.Lines.{OpensLine, AnswersLine};

use otel_base::memory::Memory;
use span_script::open_error::OpenError;
use std::alloc::Global;
use trace_base::discard::Discard;
use trace_lines::read::{LineError, read_request, read_settings};
use trace_lines::{Refusal, Reply, Told};
use trace_pipeline::pipeline::Pipeline;

/// What a settings line opens.
pub struct OpenedPipeline {
    /// The pipeline, before any request. It has to be spent.
    pub pipeline: Pipeline,
    /// How many lanes the settings give.
    pub lane_count: u64,
}

/// What a request is answered.
#[derive(Clone, Copy)]
pub struct RequestAnswer {
    /// The lane that it came on, by its place.
    pub lane_place: u64,
    /// The reply.
    pub reply: Reply,
}

// Whether so many lanes are no more than the most that are taken.
fn allows_lanes(most_lanes: Option<u64>, lane_count: u64) -> bool
    ensures { result ≡ allows_lanes most_lanes lane_count }
{
    match most_lanes {
        Some(most) => lane_count <= most,
        None => true,
    }
}

/// Opens a pipeline by the settings on a line, or tells why the line is refused: it spells none, a text of directives isn't
/// read, or there are more lanes than the most that are taken. `Memory` freely.
pub fn open_pipeline(
    alloc: Global,
    most_lanes: Option<u64>,
    line: &[u8],
) -> Result<Result<OpenedPipeline, Told>, Memory>
    ensures { IfOk result (OpensLine most_lanes line.now) }
{
    let settings = match read_settings(alloc, line) {
        Ok(settings) => settings,
        Err(LineError::BadLine) => return Ok(Err(Told::BadLine)),
        Err(LineError::Memory) => return Err(Memory),
    };
    let lane_count = settings.lanes.as_slice().len() as u64;
    match Pipeline::open(alloc, settings) {
        Ok(pipeline) => {
            if allows_lanes(most_lanes, lane_count) {
                Ok(Ok(OpenedPipeline {
                    pipeline,
                    lane_count,
                }))
            } else {
                pipeline.discard();
                Ok(Err(Told::Lanes))
            }
        }
        Err(OpenError::Directive { counting, piece }) => {
            Ok(Err(Told::Directive { counting, piece }))
        }
        Err(OpenError::Memory) => Err(Memory),
    }
}

/// Answers the request on a line, or tells why the line is refused. `Memory` freely.
pub fn answer_line(
    alloc: Global,
    pipeline: &mut Pipeline,
    line: &[u8],
) -> Result<Result<RequestAnswer, Told>, Memory>
    ensures answers { (h : History) → StandsFor pipeline.old (tables pipeline.old.setup h)
        → IfOk result (AnswersLine line.now h pipeline.old pipeline.new) }
    ensures told { IfOk result (λ answered. IfErr answered HasRefusalLine) }
{
    let request = match read_request(alloc, line) {
        Ok(request) => request,
        Err(LineError::BadLine) => return Ok(Err(Told::BadLine)),
        Err(LineError::Memory) => return Err(Memory),
    };
    let lane_place = request.lane_place;
    match pipeline.step(request) {
        Ok(reply) => Ok(Ok(RequestAnswer { lane_place, reply })),
        Err(refusal) => {
            let told = line_refusal(refusal)?;
            Ok(Err(told))
        }
    }
}

// What a refusal line tells of a refusal. Want of memory has no such line.
fn line_refusal(refusal: Refusal) -> Result<Told, Memory>
    ensures same { IfOk result (λ told. told ≡ Told.Step refusal) }
    ensures other { OnOk result (is_for_memory refusal ≡ false) }
    ensures memory { OnErr result (is_for_memory refusal ≡ true) }
{
    match refusal {
        Refusal::Memory => Err(Memory),
        Refusal::BadMoment { .. }
        | Refusal::UnknownName { .. }
        | Refusal::InUse
        | Refusal::WrongLane { .. }
        | Refusal::Full { .. }
        | Refusal::Directive { .. } => Ok(Told::Step { refusal }),
    }
}
