//! Explains what filters let through: reads calls, one a line, and prints behind each what the filter answers to it.
#![tactic(auto)]

mod answers;
mod exchanging;
mod session;
mod targets;
mod variables;
mod words;

use crate::session::Session;
use otel_base::memory::Memory;
use std::io::{self, ErrorKind};

fn main(rt: HostRuntime) -> io::Result<()> {
    let mut session = Session::new(rt.alloc());
    run(&rt, &mut session)
}

// Answers each line.
fn run(rt: &HostRuntime, session: &mut Session) -> io::Result<()> {
    for line in rt.lines(rt.alloc()) {
        answer(rt, session, line?.as_str())?;
    }
    Ok(())
}

// Prints a line, and behind it what is answered to it if it is a call.
fn answer(rt: &HostRuntime, session: &mut Session, line: &str) -> io::Result<()> {
    println!(rt; "{line}")?;
    if line.starts_with('#') {
        return Ok(());
    }
    let told = answer_text(rt, session, line).map_err(|_| ErrorKind::OutOfMemory)?;
    print!(rt; "{told}")?;
    Ok(())
}

fn answer_text(rt: &HostRuntime, session: &mut Session, line: &str) -> Result<String, Memory> {
    match line.strip_prefix("process ") {
        Some(words) => variables::read_process_variable(rt.alloc(), rt, words),
        None => session.answer(line),
    }
}
