//! The finished spans of a script.
ghost use Rattle.std.specs.Prelude.{◌≡◌, ◌++◌, [], map, OnOk};
ghost use Rattle.trace_records.specs.Following.{without_outputs};

use crate::from_record::FromRecord;
use otel_base::memory::Memory;
use std::alloc::Global;
use trace_pipeline::pipeline::Pipeline;

/// The finished spans of a script.
#[derive(Drop)]
pub struct FinishedSpans<K> {
    /// What is kept of each, in the order in which the spans closed.
    pub spans: Vec<K>,
    /// For each of them the lane of the drop that closed it, by its place.
    pub lanes: Vec<u64>,
    /// How many lanes the settings give.
    pub lane_count: u64,
    /// How many spans are open at the end.
    pub open_spans: u64,
}

impl<K: FromRecord> FinishedSpans<K> {
    /// None.
    pub fn new(alloc: Global) -> FinishedSpans<K>
        ensures spans { result.spans.items ≡ [] }
        ensures lanes { result.lanes.items ≡ [] }
    {
        FinishedSpans {
            spans: Vec::new(alloc),
            lanes: Vec::new(alloc),
            lane_count: 0,
            open_spans: 0,
        }
    }

    /// Takes the records that wait, which came by a drop on a lane, and keeps what is wanted of each.
    pub fn take_records(&mut self, pipeline: &mut Pipeline, lane: u64) -> Result<(), Memory>
        ensures spans { OnOk result (self.new.spans.items
            ≡ self.old.spans.items ++ map K.of_record pipeline.old.recording.finished) }
        ensures lanes { OnOk result (self.new.lanes.items
            ≡ self.old.lanes.items ++ map (λ r. lane) pipeline.old.recording.finished) }
        ensures count { self.new.lane_count ≡ self.old.lane_count }
        ensures taken { OnOk result (pipeline.new.recording.finished ≡ []) }
        ensures state { without_outputs pipeline.new ≡ without_outputs pipeline.old }
    {
        while let Some(finished) = pipeline.take_record() {
            self.spans.push(K::from_record(finished))?;
            self.lanes.push(lane)?;
        }
        Ok(())
    }
}

/// Takes the measures that wait, and drops them.
pub fn drop_measures(pipeline: &mut Pipeline)
    ensures taken { pipeline.new.measures ≡ [] }
    ensures records { pipeline.new.recording.finished ≡ pipeline.old.recording.finished }
    ensures state { without_outputs pipeline.new ≡ without_outputs pipeline.old }
{
    while pipeline.take_measure().is_some() {}
}
