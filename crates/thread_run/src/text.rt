//! The lines of what came of a script for threads.
ghost use Rattle.std.specs.Prelude.{◌≡◌, ◌++◌, ◌+◌, ◌<◌, ◌^◌, IfOk};
ghost use Rattle.serde_json.specs.Written.{compact_text};
ghost use Rattle.trace_lines.specs.reading.Object.{array_of};
ghost use Rattle.trace_lines.specs.text.Texts.{record_text};
ghost use Rattle.trace_lines.specs.text.Writes.{Writes};
ghost use Rattle.thread_run.specs.Texts.{deed_data, entry_data, history_text, entries_line, spans_text, ended_text};

use crate::entry::{Deed, EntryDeed, entry_deeds};
use otel_base::memory::Memory;
use std::alloc::{AllocError, Global};
use thread_handles::Ended;
use trace_lines::write::pieces::{add, add_number, add_text, separator};
use trace_lines::{TextBuffer, add_end_line, add_record_line};

// Adds what a handle did.
fn add_deed(out: &mut TextBuffer, front: &str, deed: Deed) -> Result<(), AllocError>
    ensures { Writes result out.old out.new (front.now ++ compact_text (deed_data deed)) }
{
    match deed {
        Deed::Clone => add_text(out, front, "clone"),
        Deed::Join => add_text(out, front, "join"),
        Deed::Release => add_text(out, front, "release"),
        Deed::Call { number } => add_number(out, front, number),
    }
}

// Adds an entry.
fn add_entry(out: &mut TextBuffer, front: &str, entry: &EntryDeed) -> Result<(), AllocError>
    ensures { Writes result out.old out.new (front.now ++ compact_text (entry_data entry.now)) }
{
    add(out, front)?;
    add_number(out, "[", entry.caller)?;
    add_deed(out, ",", entry.deed)?;
    add(out, "]")?;
    Ok(())
}

// Adds the entries of a history.
fn add_entries(out: &mut TextBuffer, front: &str, entries: &[EntryDeed]) -> Result<(), AllocError>
    ensures { Writes result out.old out.new (front.now ++ compact_text (array_of entry_data entries.now)) }
{
    add(out, front)?;
    add(out, "[")?;
    let mut later = false;
    for entry in entries {
        add_entry(out, separator(later), entry)?;
        later = true;
    }
    add(out, "]")?;
    Ok(())
}

// Adds the line of what the entries of a span tell.
fn add_history(out: &mut TextBuffer, place: u64, entries: &[EntryDeed]) -> Result<(), AllocError>
    ensures { Writes result out.old out.new (entries_line place entries.now) }
{
    add_entries(out, "{\"history\":", entries)?;
    add_number(out, ",\"shared\":", place)?;
    add(out, "}")?;
    add(out, "\n")?;
    Ok(())
}

// Adds the lines of the span at a place: its history and its record.
#[tactic(auto, using(crate::proofs::TextsLemmas::span_added))]
fn add_span(alloc: Global, out: TextBuffer, place: u64, ended: &Ended) -> Result<TextBuffer, Memory>
    requires { place < 2 ^ 63 }
    ensures { IfOk result (λ text. text.items ≡ out.items ++ (history_text place ended.now.history ++ record_text (place + 1) ended.now.finished)) }
{
    let mut out = out;
    let entries = entry_deeds(alloc, ended.history.as_slice())?;
    add_history(&mut out, place, entries.as_slice())?;
    add_record_line(&mut out, place + 1, &ended.finished)?;
    Ok(out)
}

/// The lines of what came of a script: for each span its history and its record, and then the end line. `Memory` freely.
#[tactic(auto, using(crate::proofs::TextsLemmas::spans_more, crate::proofs::TextsLemmas::spans_all, crate::proofs::TextsLemmas::end_added))]
pub fn ended_text(alloc: Global, ended: &[Ended]) -> Result<Vec<u8>, Memory>
    ensures { IfOk result (λ text. text.items ≡ ended_text ended.now) }
{
    let mut out = TextBuffer::new(alloc);
    for place in 0..ended.len() {
        out = add_span(alloc, out, place as u64, &ended[place])?;
    }
    add_end_line(&mut out, 0, ended.len() as u64)?;
    Ok(out.into_vec())
}
