//! The program of the quick build: it does `run` and `metrics` as `trace_tool` does, and leaves itself at a path for the
//! next call. It is smaller than that program, so that it is built sooner.
#![tactic(auto)]

use std::io::{self, ErrorKind};
use std::process::ExitCode;
use std::{env, fs};
use trace_lines::Signal;
use trace_stream::run::run;
use trace_stream::{Status, StdSink, StdSource};

fn main(rt: HostRuntime) -> ExitCode {
    let status = match words(&rt) {
        Ok(words) => answer(&rt, words.as_slice()),
        Err(error) if error.kind() == ErrorKind::OutOfMemory => Status::Memory,
        Err(_) => Status::Usage,
    };
    status.exit_code()
}

// The program's name, and its arguments.
fn words(rt: &HostRuntime) -> io::Result<Vec<String>> {
    let mut words = Vec::new(rt.alloc());
    for word in env::args(rt)? {
        words.push(word)?;
    }
    Ok(words)
}

// Carries out a word. Behind it may come a path.
fn answer(rt: &HostRuntime, words: &[String]) -> Status {
    match words {
        [_, word] => carry_out(rt, word.as_str()),
        [program, word, path] => {
            copy_program(rt, program.as_str(), path.as_str());
            carry_out(rt, word.as_str())
        }
        _ => Status::Usage,
    }
}

// Copies the program to a path. Where that fails, the next call builds it anew.
fn copy_program(rt: &HostRuntime, program: &str, path: &str) {
    let _ = fs::copy(rt, program, path);
}

// Runs a script, and tells what the word asks for.
fn carry_out(rt: &HostRuntime, word: &str) -> Status {
    let signal = match word {
        "run" => Signal::Traces,
        "metrics" => Signal::Metrics,
        _ => return Status::Usage,
    };
    let mut source = StdSource::new(rt.stdin());
    let mut sink = StdSink::new(rt.stdout());
    run(rt.alloc(), signal, &mut source, &mut sink)
}
