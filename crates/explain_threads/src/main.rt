//! Tells whether an output of `threads` fits its script: reads the script and behind it the output, and runs the script again
//! with the calls and releases in the order that the output tells. Everything turns on `fits`.
#![tactic(auto)]

mod fits;
mod output;
mod replay;

use crate::fits::fits;
use crate::output::output_start;
use std::io::{self, Read};
use std::process::ExitCode;

/// The status where nothing can be told, since reading, writing or memory failed.
const FAILED: u8 = 2;

fn main(rt: HostRuntime) -> ExitCode {
    let Ok(bytes) = read(&rt) else {
        return ExitCode::from(FAILED);
    };
    let (script, output) = bytes.split_at(output_start(bytes.as_slice()));
    let Ok(is_fit) = fits(&rt, rt.alloc(), script, output) else {
        return ExitCode::from(FAILED);
    };
    match tell(&rt, is_fit) {
        Ok(()) if is_fit => ExitCode::SUCCESS,
        Ok(()) => ExitCode::FAILURE,
        Err(_) => ExitCode::from(FAILED),
    }
}

// Reads the whole standard input.
fn read(rt: &HostRuntime) -> io::Result<Vec<u8>> {
    let mut bytes = Vec::new(rt.alloc());
    rt.stdin().read_to_end(&mut bytes)?;
    Ok(bytes)
}

fn tell(rt: &HostRuntime, is_fit: bool) -> io::Result<()> {
    if is_fit {
        println!(rt; "The output fits the script.")
    } else {
        println!(rt; "The output doesn't fit the script.")
    }
}
