//! The script that lines come to.
ghost use Rattle.std.specs.Prelude.{◌≡◌, ◌+◌, IfErr, IfOk};
ghost use Rattle.trace_lines.specs.Lines.{lines_of};
ghost use Rattle.input_lines.specs.Refusals.{HasRefusalLine};
ghost use Rattle.thread_lines.specs.Runnable.{IsRunnable};
ghost use Rattle.thread_lines.specs.Steps.{script_of, script_from, lines_added};

use crate::added::{add_text, open_script};
use crate::stop::ScriptStop;
use input_lines::{RefusedLine, first_line, is_blank};
use otel_base::memory::Memory;
use std::alloc::Global;
use thread_script::ThreadScript;
use trace_lines::Told;

// A line's number, so many lines having come before. No input has so many that the sum wraps.
fn next_number(number: u64) -> Result<u64, Memory>
    ensures { IfOk result (λ n. n ≡ number + 1) }
{
    number.checked_add(1).ok_or(Memory)
}

// The line that was refused, unless memory wanted.
fn refused_line(line: u64, stop: ScriptStop) -> Result<RefusedLine, Memory>
    ensures { IfOk result (λ r. (r.line ≡ line) × (stop ≡ ScriptStop.Refused r.told)) }
{
    match stop {
        ScriptStop::Refused { told } => Ok(RefusedLine { line, told }),
        ScriptStop::Memory => Err(Memory),
    }
}

// Adds the lines behind the settings line, so many lines having come before.
fn add_lines(
    alloc: Global,
    script: ThreadScript,
    number: u64,
    bytes: &[u8],
) -> Result<Result<ThreadScript, RefusedLine>, Memory>
    requires { IsRunnable script }
    ensures added { IfOk result (λ r. r ≡ lines_added script number (lines_of bytes.now)) }
    ensures runnable { IfOk result (λ r. IfOk r IsRunnable) }
{
    let mut script = script;
    let mut number = number;
    let mut rest = bytes;
    while !rest.is_empty() {
        let (line, after) = first_line(rest);
        rest = after;
        number = next_number(number)?;
        if is_blank(line) {
            continue;
        }
        if let Err(stop) = add_text(alloc, &mut script, line) {
            return Ok(Err(refused_line(number, stop)?));
        }
    }
    Ok(Ok(script))
}

/// The script that the lines of some bytes come to, or the first line that is refused; that is one past the last where none
/// is a settings line. `Memory` freely.
pub fn read_script(alloc: Global, bytes: &[u8]) -> Result<Result<ThreadScript, RefusedLine>, Memory>
    ensures script { IfOk result (λ r. r ≡ script_of (lines_of bytes.now)) }
    ensures runnable { IfOk result (λ r. IfOk r IsRunnable) }
    ensures told { IfOk result (λ r. IfErr r (λ refused. HasRefusalLine refused.told)) }
{
    let mut number = 0u64;
    let mut rest = bytes;
    while !rest.is_empty() {
        let (line, after) = first_line(rest);
        rest = after;
        number = next_number(number)?;
        if !is_blank(line) {
            return match open_script(alloc, line) {
                Ok(script) => add_lines(alloc, script, number, rest),
                Err(stop) => Ok(Err(refused_line(number, stop)?)),
            };
        }
    }
    let line = next_number(number)?;
    Ok(Err(RefusedLine {
        line,
        told: Told::BadLine,
    }))
}
