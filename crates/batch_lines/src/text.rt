//! All that is written of the records of a script.
ghost use Rattle.std.specs.Prelude.{◌≡◌, ◌<◌, ◌≤◌, ◌++◌, All, length, map, IfOk, OnOk};
ghost use Rattle.trace_batch.specs.declared.relay.TheConstants.{MAX_LANES};
ghost use Rattle.batch_lines.specs.Texts.{IsMergeOf, TellsBatches, batch_text, batch_lines, batches_end_text};

use crate::line::{add_batch, add_end};
use crate::lists::lane_lists;
use otel_base::memory::Memory;
use otel_base::record::Record;
use std::alloc::{AllocError, Global};
use std::sync::Wait;
use std::thread::Threads;
use trace_batch::Sent;
use trace_batch::batches::batches;
use trace_batch::relay::relay;
use trace_lines::TextBuffer;
use turnstile::Turnstile;

// Adds the line of the batch with a number.
fn add_line(out: &mut TextBuffer, number: u64, batch: &Vec<Sent>) -> Result<(), AllocError>
    ensures { OnOk result (out.new.items ≡ out.old.items ++ batch_text number batch.now.items) }
{
    add_batch(out, number, batch.as_slice())
}

// Adds the lines of batches, numbered from 1 on.
fn add_batches(out: &mut TextBuffer, batches: &[Vec<Sent>]) -> Result<(), AllocError>
    ensures { OnOk result (out.new.items ≡ out.old.items ++ batch_lines 0 (map (λ b. b.items) batches.now)) }
{
    let mut number = 0;
    for batch in batches {
        number += 1;
        add_line(out, number, batch)?;
    }
    Ok(())
}

// What the writer gets of the records: a merge of those of the lanes.
fn send_all<H: Threads + Wait + Sync, T: Turnstile + Sync>(
    rt: &H,
    alloc: Global,
    turns: &T,
    records: Vec<Record>,
    lanes: &[u64],
    lane_count: u64,
) -> Result<Vec<Sent>, Memory>
    requires lanes { length lanes.now ≡ length records.items }
    requires each { All (λ lane. lane < lane_count) lanes.now }
    requires few { lane_count ≤ MAX_LANES }
    ensures { IfOk result (λ sent. IsMergeOf records.items lanes.now sent.items) }
{
    let lists = lane_lists(alloc, records, lanes, lane_count)?;
    let sent = relay(rt, alloc, lists, turns)?;
    Ok(sent)
}

// The lines of batches, and the end line.
fn text_of_batches(
    alloc: Global,
    batches: &Vec<Vec<Sent>>,
    open_spans: u64,
    records: u64,
) -> Result<Vec<u8>, Memory>
    ensures { IfOk result (λ text. text.items ≡ batch_lines 0 (map (λ b. b.items) batches.now.items)
        ++ batches_end_text (length batches.now.items) open_spans records) }
{
    let mut out = TextBuffer::new(alloc);
    add_batches(&mut out, batches.as_slice())?;
    add_end(&mut out, batches.len() as u64, open_spans, records)?;
    Ok(out.into_vec())
}

/// The records of a script in batches of `size`, as lines, and the end line. `lanes` has for each record the lane on which
/// its span closed, out of so many; a thread for each lane makes the texts of its records. `Memory` freely.
pub fn batches_text<H: Threads + Wait + Sync, T: Turnstile + Sync>(
    rt: &H,
    alloc: Global,
    turns: &T,
    size: u64,
    records: Vec<Record>,
    lanes: &[u64],
    lane_count: u64,
    open_spans: u64,
) -> Result<Vec<u8>, Memory>
    requires size { 0 < size }
    requires lanes { length lanes.now ≡ length records.items }
    requires each { All (λ lane. lane < lane_count) lanes.now }
    requires few { lane_count ≤ MAX_LANES }
    ensures { IfOk result (λ text. TellsBatches size records.items lanes.now open_spans text.items) }
{
    let count = records.len() as u64;
    let sent = send_all(rt, alloc, turns, records, lanes, lane_count)?;
    let cut = batches(alloc, sent, size)?;
    let text = text_of_batches(alloc, &cut, open_spans, count)?;
    Ok(text)
}
