//! Records as items of batches.

use otel_base::list::Items;
use otel_base::memory::Memory;
use otel_base::record::Record;
use std::alloc::Global;
use trace_batch::Finished;
use trace_lines::TextBuffer;
use trace_lines::write::record::add_record;

/// A span that has closed. Its text is the object of its record's line, with its lane.
#[derive(Drop)]
pub struct FinishedSpan {
    /// Its record.
    pub content: Record,
}

impl Finished for FinishedSpan {
    ghost use Rattle.batch_lines.specs.Items.{object_text};

    ghost text = { object_text };

    fn make_text(&self, alloc: Global, lane: u64, place: u64) -> Result<Items<u8>, Memory> {
        let mut out = TextBuffer::new(alloc);
        add_record(&mut out, place, Some(lane), &self.content)?;
        Ok(Items::from(out.into_vec()))
    }
}
