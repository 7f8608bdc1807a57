//! Converts what `trace_tool run` writes into what other tools read: all turns on `Record`, a record line as it stands.
#![tactic(auto)]

mod chrome;
mod duration;
mod html;
mod otlp;
mod record;
mod scale;
mod text;
mod traces;

use crate::chrome::ChromeRows;
use crate::otlp::Batch;
use crate::record::record_of;
use crate::traces::{Trace, Traces};
use convert_base::{Fault, Format, width_of};
use std::io::{BufRead, BufReader};
use std::process::ExitCode;
use std::{env, mem};

fn main(rt: HostRuntime) -> ExitCode {
    match convert(&rt) {
        Ok(()) => ExitCode::SUCCESS,
        Err(fault) => {
            // Where the error output fails too, the status still tells.
            let _ = eprintln!(&rt; "trace_convert: {fault}");
            ExitCode::from(fault.exit_status())
        }
    }
}

// Converts the whole standard input by the words that are given.
fn convert(rt: &HostRuntime) -> Result<(), Fault> {
    let mut words = env::args(rt).map_err(|error| Fault::of_text(&error, Fault::Usage))?;
    words.next();
    let word = words.next().ok_or(Fault::Usage)?;
    let format = Format::of(word.as_str()).ok_or(Fault::Usage)?;
    let option = words.next();
    if words.next().is_some() {
        return Err(Fault::Usage);
    }
    match (format, option) {
        (Format::Otlp, Some(service)) => write_otlp(rt, service.as_str()),
        (Format::Otlp, None) => write_otlp(rt, DEFAULT_SERVICE),
        (Format::Text, Some(width)) => {
            let width = width_of(width.as_str()).ok_or(Fault::Usage)?;
            write_text(rt, width)
        }
        (Format::Text, None) => write_text(rt, DEFAULT_WIDTH),
        (Format::Chrome, None) => write_chrome(rt),
        (Format::Html, None) => write_html(rt),
        (Format::Chrome | Format::Html, Some(_)) => Err(Fault::Usage),
    }
}

// The service's name where none is given, by the conventions of OpenTelemetry.
const DEFAULT_SERVICE: &str = "unknown_service";
// The columns of a line where no number is given.
const DEFAULT_WIDTH: usize = 100;

// A line for each batch of records. Those before a fault of the input are written too.
fn write_otlp(rt: &HostRuntime, service: &str) -> Result<(), Fault> {
    let mut batch = Batch::new(rt.alloc());
    let read = write_whole_batches(rt, &mut batch, service);
    write_batch(rt, batch, service)?;
    read
}

// Leaves the last records, which make no whole batch, in `batch`.
fn write_whole_batches(rt: &HostRuntime, batch: &mut Batch, service: &str) -> Result<(), Fault> {
    let mut number = 0u64;
    for line in BufReader::new(rt.alloc(), rt.reader())?.lines(rt.alloc()) {
        number = number.saturating_add(1);
        if let Some(record) = record_of(rt.alloc(), line, number)? {
            if batch.add(rt.alloc(), record)? {
                let whole = mem::replace(batch, Batch::new(rt.alloc()));
                write_batch(rt, whole, service)?;
            }
        }
    }
    Ok(())
}

fn write_batch(rt: &HostRuntime, batch: Batch, service: &str) -> Result<(), Fault> {
    if let Some(line) = batch.line(rt.alloc(), service)? {
        println!(rt; "{line}")?;
    }
    Ok(())
}

// One array, an event a line.
fn write_chrome(rt: &HostRuntime) -> Result<(), Fault> {
    let traces = read_traces(rt)?;
    let mut rows = ChromeRows::default();
    println!(rt; "[")?;
    for trace in traces {
        let lines = rows.lines(rt.alloc(), trace)?;
        print!(rt; "{lines}")?;
    }
    println!(rt; "\n]")?;
    Ok(())
}

// A waterfall for a terminal, a blank line between the traces.
fn write_text(rt: &HostRuntime, width: usize) -> Result<(), Fault> {
    let mut is_first = true;
    for trace in read_traces(rt)? {
        if !is_first {
            println!(rt; "")?;
        }
        is_first = false;
        let lines = text::lines(rt.alloc(), &trace, width)?;
        print!(rt; "{lines}")?;
    }
    Ok(())
}

// One page.
fn write_html(rt: &HostRuntime) -> Result<(), Fault> {
    let traces = read_traces(rt)?;
    print!(rt; "{}", html::HEAD)?;
    for trace in traces {
        let section = html::section(rt.alloc(), &trace)?;
        print!(rt; "{section}")?;
    }
    print!(rt; "{}", html::FOOT)?;
    Ok(())
}

// All records of the input, by their traces.
fn read_traces(rt: &HostRuntime) -> Result<Vec<Trace>, Fault> {
    let mut traces = Traces::new(rt.alloc());
    let mut number = 0u64;
    for line in BufReader::new(rt.alloc(), rt.reader())?.lines(rt.alloc()) {
        number = number.saturating_add(1);
        if let Some(record) = record_of(rt.alloc(), line, number)? {
            traces.add(rt.alloc(), record)?;
        }
    }
    traces.into_sorted()
}
