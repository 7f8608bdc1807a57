//! End lines as JSON.
ghost use Rattle.serde_json.specs.Written.{compact_text};
ghost use Rattle.trace_lines.specs.text.Texts.{end_data, measures_end_data};
ghost use Rattle.trace_lines.specs.text.Writes.{Writes};

use super::pieces::{add, add_number};
use super::text_buffer::TextBuffer;
use std::alloc::AllocError;

/// Adds how many spans are open and how many records were written.
pub fn add_end(out: &mut TextBuffer, open_spans: u64, records: u64) -> Result<(), AllocError>
    ensures { Writes result out.old out.new (compact_text (end_data open_spans records)) }
{
    add_number(out, "{\"done\":true,\"open\":", open_spans)?;
    add_number(out, ",\"records\":", records)?;
    add(out, "}")?;
    Ok(())
}

/// Adds how many measures were written.
pub fn add_measures_end(out: &mut TextBuffer, measures: u64) -> Result<(), AllocError>
    ensures { Writes result out.old out.new (compact_text (measures_end_data measures)) }
{
    add_number(out, "{\"done\":true,\"measures\":", measures)?;
    add(out, "}")?;
    Ok(())
}
