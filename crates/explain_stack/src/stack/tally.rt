//! A tracer of the program's own.
ghost use Rattle.std.specs.Prelude.{◌≡◌, []};
ghost use Rattle.explain_stack.specs.Tallies.{Tallies, one_more};
ghost use Rattle.explain_stack.specs.Counting.{tally_counts};

use crate::stack::ReportingTracer;
use crate::told;
use otel_base::context::{Context, SpanContext};
use otel_base::memory::Memory;
use otel_base::record::Record;
use otel_base::recorder::Recorder;
use otel_base::tracer::Tracer;
use std::alloc::Global;

/// A recorder that counts what it is asked for, and may tell it; a count stands still at 2^64 - 1.
#[derive(Drop)]
pub struct Tally {
    pub(crate) recorder: Recorder,
    pub(crate) tells_counts: bool,
    pub(crate) reserved: u64,
    pub(crate) finished: u64,
}

impl Tally {
    /// One that was asked for nothing.
    pub fn new(alloc: Global, tells_counts: bool) -> Tally
        ensures { result ≡ record {
          recorder = record { started = 0; spare = 0; finished = [] };
          tells_counts = tells_counts;
          reserved = 0;
          finished = 0;
        } }
    {
        Tally {
            recorder: Recorder::new(alloc),
            tells_counts,
            reserved: 0,
            finished: 0,
        }
    }

    /// For how many finishes it was asked for room, and how many it was handed.
    pub fn counts(&self) -> (u64, u64)
        ensures { result ≡ (self.now.reserved, self.now.finished) }
    {
        (self.reserved, self.finished)
    }

    fn tell_counts(&self, alloc: Global, told: &mut String) -> Result<(), Memory> {
        if self.tells_counts {
            let (reserved, finished) = self.counts();
            let line = format!(in alloc; "  reserved {reserved}, finished {finished}\n")?;
            told::add(told, line)?;
        }
        Ok(())
    }
}

impl ReportingTracer for Tally {
    fn tell(&mut self, alloc: Global, told: &mut String) -> Result<(), Memory> {
        for _ in 0..100 {
            if !tell_next(alloc, told, self.recorder.take())? {
                break;
            }
        }
        self.tell_counts(alloc, told)
    }
}

// Tells a record, if there is one.
fn tell_next(alloc: Global, told: &mut String, next: Option<Record>) -> Result<bool, Memory> {
    let Some(next) = next else {
        return Ok(false);
    };
    let done = told::add_record(alloc, told, &next);
    drop(next);
    done?;
    Ok(true)
}

impl Tracer for Tally {
    ghost spare = { λ t. t.recorder.spare };

    ghost started = { λ t. t.recorder.started };

    ghost does = { Tallies };

    ghost counts = { tally_counts };

    fn start(&mut self, parent: &Context) -> SpanContext {
        self.recorder.start(parent)
    }

    fn reserve(&mut self) -> Result<(), Memory> {
        self.recorder.reserve()?;
        self.reserved = one_more(self.reserved);
        Ok(())
    }

    fn finish(&mut self, span: Record) {
        self.recorder.finish(span);
        self.finished = one_more(self.finished);
    }
}

fn one_more(count: u64) -> u64
    ensures { result ≡ one_more count }
{
    count.saturating_add(1)
}
