//! What a run came to, in numbers, and its line.
ghost use Rattle.serde_json.specs.Written.{compact_text};
ghost use Rattle.trace_lines.specs.Replay.{summary_data};
ghost use Rattle.trace_lines.specs.text.Writes.{Writes};

use super::pieces::{add, add_number};
use super::text_buffer::TextBuffer;
use std::alloc::AllocError;

/// What a run came to, in numbers.
#[derive(Clone, Copy, Debug, PartialEq, Eq)]
pub struct Summary {
    /// For how many nanoseconds the spans of its records were entered.
    pub busy: u64,
    /// How many events its records have.
    pub events: u64,
    /// How many lines it writes.
    pub lines: u64,
    /// How many spans are open at its end.
    pub open_spans: u64,
    /// How many records it has.
    pub records: u64,
    /// How many requests it serves.
    pub requests: u64,
}

/// Adds the numbers, by their names.
pub(crate) fn add_summary(out: &mut TextBuffer, summary: &Summary) -> Result<(), AllocError>
    ensures { Writes result out.old out.new (compact_text (summary_data summary.now)) }
{
    add_number(out, "{\"busy\":", summary.busy)?;
    add_number(out, ",\"events\":", summary.events)?;
    add_number(out, ",\"lines\":", summary.lines)?;
    add_number(out, ",\"open\":", summary.open_spans)?;
    add_number(out, ",\"records\":", summary.records)?;
    add_number(out, ",\"requests\":", summary.requests)?;
    add(out, "}")?;
    Ok(())
}
