//! The lines of batches and of the end, each with its line feed.
ghost use Rattle.std.specs.Prelude.{◌≡◌, ◌++◌, OnOk, false};
ghost use Rattle.trace_lines.specs.text.Writes.{Writes};
ghost use Rattle.batch_lines.specs.Texts.{listed_texts, batch_text, batches_end_data, batches_end_text};
ghost use Rattle.serde_json.specs.Written.{compact_text};

use std::alloc::AllocError;
use trace_batch::Sent;
use trace_lines::TextBuffer;
use trace_lines::write::pieces::{add, add_number, separator};

// Adds the text of an item.
fn add_sent(out: &mut TextBuffer, front: &str, sent: &Sent) -> Result<(), AllocError>
    ensures { OnOk result (out.new.items ≡ out.old.items ++ (front.now ++ sent.now.text)) }
{
    add(out, front)?;
    out.extend_from_slice(sent.text.as_slice())?;
    Ok(())
}

// Adds the texts of items, with commas between them.
fn add_items(out: &mut TextBuffer, batch: &[Sent]) -> Result<(), AllocError>
    ensures { OnOk result (out.new.items ≡ out.old.items ++ listed_texts false batch.now) }
{
    let mut later = false;
    for sent in batch {
        add_sent(out, separator(later), sent)?;
        later = true;
    }
    Ok(())
}

/// Adds the line of the batch with a number.
pub fn add_batch(out: &mut TextBuffer, number: u64, batch: &[Sent]) -> Result<(), AllocError>
    ensures { OnOk result (out.new.items ≡ out.old.items ++ batch_text number batch.now) }
{
    add(out, "{\"batch\":[")?;
    add_items(out, batch)?;
    add_number(out, "],\"number\":", number)?;
    add(out, "}\n")?;
    Ok(())
}

// Adds how many batches and records there are, and how many spans are open.
fn add_counts(
    out: &mut TextBuffer,
    batches: u64,
    open_spans: u64,
    records: u64,
) -> Result<(), AllocError>
    ensures { Writes result out.old out.new (compact_text (batches_end_data batches open_spans records)) }
{
    add_number(out, "{\"batches\":", batches)?;
    add_number(out, ",\"done\":true,\"open\":", open_spans)?;
    add_number(out, ",\"records\":", records)?;
    add(out, "}")?;
    Ok(())
}

/// Adds the end line: how many batches and records there are, and how many spans are open.
pub fn add_end(
    out: &mut TextBuffer,
    batches: u64,
    open_spans: u64,
    records: u64,
) -> Result<(), AllocError>
    ensures { Writes result out.old out.new (batches_end_text batches open_spans records) }
{
    add_counts(out, batches, open_spans, records)?;
    add(out, "\n")?;
    Ok(())
}
