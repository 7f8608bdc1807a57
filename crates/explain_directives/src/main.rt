//! Explains texts of directives: reads texts, one a line, and prints behind each what it was read as, or its fault.
#![tactic(auto)]

mod answer;
mod explain;
mod question;

use crate::explain::explain;
use explain_base::Reading;
use std::io::{self, ErrorKind};

fn main(rt: HostRuntime) -> io::Result<()> {
    let mut reading = Reading::Filter;
    for line in rt.lines(rt.alloc()) {
        reading = explain_line(&rt, reading, line?.as_str())?;
    }
    Ok(())
}

// Prints a line, and behind it what it is read as. What the next line is read as comes back.
fn explain_line(rt: &HostRuntime, reading: Reading, line: &str) -> io::Result<Reading> {
    println!(rt; "{line}")?;
    if let Some(words) = line.strip_prefix('#') {
        return Ok(reading.named_or_same(words.trim()));
    }
    let told = explain(rt.alloc(), reading, line).map_err(|_| ErrorKind::OutOfMemory)?;
    print!(rt; "{told}")?;
    Ok(reading)
}
