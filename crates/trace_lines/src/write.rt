//! Writing lines: replies, records, measures, refusals and end lines, each with its line feed. Each function answers `Memory`
//! freely, and nothing else; what an `add_` form then has added is not said. No Rust item stands behind these lines.
ghost use Rattle.std.specs.Prelude.{◌≡◌, ◌≢◌, ◌++◌, IfOk, string_bytes};
ghost use Rattle.std.specs.Str.{IsUtf8};
ghost use Rattle.trace_lines.specs.text.Writes.{Writes};
ghost use Rattle.trace_lines.specs.Replay.{summary_text};
ghost use Rattle.trace_lines.specs.text.Texts.{reply_text, record_text, measure_text, refusal_text, end_text, measures_end_text};
ghost use Rattle.span_script.specs.declared.reply.Refusal.{Refusal};

mod array;
mod attribute;
mod end;
pub(crate) mod escape;
pub mod hex;
mod measure;
pub mod pieces;
pub mod record;
mod refusal;
mod reply;
pub mod summary;
pub mod text_buffer;
mod value;

use crate::told::Told;
use end::{add_end, add_measures_end};
use measure::add_measure;
use otel_base::memory::Memory;
use otel_base::record::Record;
use otel_metrics::measure::Measure;
use pieces::add;
use record::add_record;
use refusal::add_refusal;
use reply::add_reply;
use span_script::reply::Reply;
use std::alloc::{AllocError, Global};
use summary::{Summary, add_summary};
pub use text_buffer::TextBuffer;
pub use value::record_object;

/// Adds the line of a reply.
pub fn add_reply_line(out: &mut TextBuffer, line: u64, reply: &Reply) -> Result<(), AllocError>
    ensures { Writes result out.old out.new (reply_text line reply.now) }
{
    add_reply(out, line, reply)?;
    add(out, "\n")?;
    Ok(())
}

/// Adds the line of a record.
pub fn add_record_line(
    out: &mut TextBuffer,
    number: u64,
    finished: &Record,
) -> Result<(), AllocError>
    ensures { Writes result out.old out.new (record_text number finished.now) }
{
    add_record(out, number, None, finished)?;
    add(out, "\n")?;
    Ok(())
}

/// Adds the line of a measure.
pub fn add_measure_line(
    out: &mut TextBuffer,
    line: u64,
    measure: &Measure,
) -> Result<(), AllocError>
    ensures { Writes result out.old out.new (measure_text line measure.now) }
{
    add_measure(out, line, measure)?;
    add(out, "\n")?;
    Ok(())
}

/// Adds the line of a refusal. Want of memory has no such line.
pub fn add_refusal_line(out: &mut TextBuffer, line: u64, told: &Told) -> Result<(), AllocError>
    requires { told.now ≢ Told.Step Refusal.Memory }
    ensures { Writes result out.old out.new (refusal_text line told.now) }
{
    add_refusal(out, line, told)?;
    add(out, "\n")?;
    Ok(())
}

/// Adds the end line of a run that tells traces.
pub fn add_end_line(out: &mut TextBuffer, open_spans: u64, records: u64) -> Result<(), AllocError>
    ensures { Writes result out.old out.new (end_text open_spans records) }
{
    add_end(out, open_spans, records)?;
    add(out, "\n")?;
    Ok(())
}

/// Adds the end line of a run that tells metrics.
pub fn add_measures_end_line(out: &mut TextBuffer, measures: u64) -> Result<(), AllocError>
    ensures { Writes result out.old out.new (measures_end_text measures) }
{
    add_measures_end(out, measures)?;
    add(out, "\n")?;
    Ok(())
}

/// Adds the line of a summary.
pub fn add_summary_line(out: &mut TextBuffer, summary: &Summary) -> Result<(), AllocError>
    ensures { Writes result out.old out.new (summary_text summary.now) }
{
    add_summary(out, summary)?;
    add(out, "\n")?;
    Ok(())
}

// The text that was written to a buffer of its own, without a copy.
#[tactic(auto, using(crate::proofs::texts::HexLemmas::is_ok))]
fn text_of(written: TextBuffer) -> String
    requires { IsUtf8 written.items }
    ensures { string_bytes result ≡ written.items }
{
    String::from_utf8(written.into_vec()).unwrap()
}

/// The reply line of the request on a line.
pub fn reply_line(alloc: Global, line: u64, reply: &Reply) -> Result<String, Memory>
    ensures { IfOk result (λ text. string_bytes text ≡ reply_text line reply.now) }
{
    let mut out = TextBuffer::new(alloc);
    add_reply_line(&mut out, line, reply)?;
    Ok(text_of(out))
}

/// The line of the record with a number; what an exporter would be given.
pub fn record_line(alloc: Global, number: u64, finished: &Record) -> Result<String, Memory>
    ensures { IfOk result (λ text. string_bytes text ≡ record_text number finished.now) }
{
    let mut out = TextBuffer::new(alloc);
    add_record_line(&mut out, number, finished)?;
    Ok(text_of(out))
}

/// The line of a measure of the event on a line; what an exporter of metrics would be given.
pub fn measure_line(alloc: Global, line: u64, measure: &Measure) -> Result<String, Memory>
    ensures { IfOk result (λ text. string_bytes text ≡ measure_text line measure.now) }
{
    let mut out = TextBuffer::new(alloc);
    add_measure_line(&mut out, line, measure)?;
    Ok(text_of(out))
}

/// The line that tells why a line is refused. Want of memory has no such line.
pub fn refusal_line(alloc: Global, line: u64, told: &Told) -> Result<String, Memory>
    requires { told.now ≢ Told.Step Refusal.Memory }
    ensures { IfOk result (λ text. string_bytes text ≡ refusal_text line told.now) }
{
    let mut out = TextBuffer::new(alloc);
    add_refusal_line(&mut out, line, told)?;
    Ok(text_of(out))
}

/// The last line of a run that tells traces.
pub fn end_line(alloc: Global, open_spans: u64, records: u64) -> Result<String, Memory>
    ensures { IfOk result (λ text. string_bytes text ≡ end_text open_spans records) }
{
    let mut out = TextBuffer::new(alloc);
    add_end_line(&mut out, open_spans, records)?;
    Ok(text_of(out))
}

/// The last line of a run that tells metrics.
pub fn measures_end_line(alloc: Global, measures: u64) -> Result<String, Memory>
    ensures { IfOk result (λ text. string_bytes text ≡ measures_end_text measures) }
{
    let mut out = TextBuffer::new(alloc);
    add_measures_end_line(&mut out, measures)?;
    Ok(text_of(out))
}
