//! Runs of the program over sources and sinks in memory. What it writes of scripts from a file is shown by `cases/`.

mod faults;
mod measures;
mod objects;
mod polled_tasks;
mod scripts;
mod steps;
mod whole_runs;

use std::random::RandomSource;
use std::sync::Wait;
use std::test::Fail;
use std::thread::Threads;
use trace_run::top::top;
use trace_stream::sink::{MemSink, Sink, StdSink};
use trace_stream::source::{MemSource, Source, StdSource};
use trace_stream::status::Status;
use trace_stream::turns::Turn;

const SETTINGS: &str =
    r#"{"callsites":[{"fields":["a","f","otel.status_code"],"kind":"span","level":"info","name":"s","target":"app"},{"fields":["error","message"],"kind":"event","level":"info","name":"e","target":"app"},{"fields":["error","message"],"kind":"event","level":"error","name":"x","target":"app"},{"fields":[],"kind":"event","level":"debug","name":"d","target":"app"},{"fields":[],"kind":"span","level":"trace","name":"t","target":"app"}],"filter":"info","lanes":[{"id":1,"name":"main"},{"id":2}],"layer":{"location":false,"target":false,"threads":false}}"#;

// The requests of the first span.
const FIRST_REQUESTS: &str = r#"{"at":0,"do":"new","lane":0,"site":0}
{"at":10,"do":"enter","handle":0,"lane":0}
{"at":30,"do":"exit","guard":0,"lane":0}
{"at":50,"do":"drop","handle":0,"lane":0}
"#;

// What they are answered: a reply each, and the record behind the last.
const ANSWERS: &str = r#"{"enabled":true,"handle":0,"reply":2}
{"guard":0,"reply":3}
{"reply":4}
{"reply":5}
{"attributes":[["busy_ns",20],["idle_ns",10]],"end":30,"events":[],"kind":"internal","links":[],"name":"s","parent":"0000000000000000","record":1,"span":"0000000000000001","start":0,"status":"unset","trace":"00000000000000000000000000000001"}
{"done":true,"open":0,"records":1}
"#;

// Adds a line and its line feed.
fn add_line(text: &mut String, line: &str) -> Result<(), Fail> {
    text.push_str(line)?;
    text.push('\n')?;
    Ok(())
}

// The settings line, with these bytes behind it.
fn script<R: AllocGlobal>(rt: &R, rest: &str) -> Result<String, Fail> {
    let mut text = String::new(rt.alloc());
    add_line(&mut text, SETTINGS)?;
    text.push_str(rest)?;
    Ok(text)
}

// The first bytes of a text, and behind them a status.
fn front_and_status<R: AllocGlobal>(
    rt: &R,
    text: &str,
    size: usize,
    status: Status,
) -> Result<String, Fail> {
    let front = text.get(..size).ok_or("a front")?;
    Ok(format!(in rt.alloc(); "{front}= {}\n", status.number())?)
}

fn run<H: Threads + Wait + Sync + RandomSource + AllocGlobal, R: Source, W: Sink>(
    rt: &H,
    source: &mut R,
    sink: &mut W,
    word: &str,
) -> Result<Status, Fail> {
    let mut words = Vec::new(rt.alloc());
    words.push(String::from_str(rt.alloc(), word)?)?;
    Ok(top(rt, rt.alloc(), words.as_slice(), source, sink))
}

// What is written for an input by the command of a word, over these turns of reads and writes, and behind it the status.
fn run_command<H: Threads + Wait + Sync + RandomSource + AllocGlobal>(
    rt: &H,
    word: &str,
    input: &[u8],
    reads: &[Turn],
    writes: &[Turn],
) -> Result<String, Fail> {
    let mut source = MemSource::new(input, reads);
    let mut sink = MemSink::new(rt.alloc(), writes);
    let status = run(rt, &mut source, &mut sink, word)?;
    let text = str::from_utf8(sink.as_slice()).ok().ok_or("no text")?;
    front_and_status(rt, text, text.len(), status)
}

// The same by `run`.
fn run_script<H: Threads + Wait + Sync + RandomSource + AllocGlobal>(
    rt: &H,
    input: &[u8],
    reads: &[Turn],
    writes: &[Turn],
) -> Result<String, Fail> {
    run_command(rt, "run", input, reads, writes)
}

#[test]
fn runs_over_readers_and_writers(rt: HostRuntime) -> Result<(), Fail> {
    let input = script(&rt, FIRST_REQUESTS)?;
    let mut source = StdSource::new(input.as_bytes());
    let mut sink = StdSink::new(Vec::new(rt.alloc()));
    let status = run(&rt, &mut source, &mut sink, "run")?;
    let told = sink.get_ref().as_slice() == ANSWERS.as_bytes();
    let left = source.get_ref().len();
    assert_eq!(rt; (status, told, left), (Status::Ok, true, 0));
    Ok(())
}
