//! Following the lines of a whole script.
ghost use Rattle.std.specs.Prelude.{◌≡◌, None, IfSome, IfOk};
ghost use Rattle.trace_lines.specs.Lines.{lines_of};
ghost use Rattle.input_lines.specs.Refusals.{NoneRefused};
ghost use Rattle.trace_records.specs.Following.{HasFollowed};
ghost use Rattle.trace_records.specs.Inputs.{AreRefused, accepts_within};

use crate::from_record::FromRecord;
use crate::script::ScriptRun;
use input_lines::{first_line, refused_answer};
use otel_base::memory::Memory;
use std::alloc::Global;
use trace_base::discard::Discard;
use trace_tree::TreeSpan;

/// The script that has followed the lines of some bytes, and may have so many lanes. `Memory` freely.
pub fn follow_lines<K: FromRecord>(
    alloc: Global,
    most_lanes: Option<u64>,
    bytes: &[u8],
) -> Result<ScriptRun<K>, Memory>
    ensures { IfOk result (HasFollowed K.of_record most_lanes (lines_of bytes.now)) }
{
    let mut run = ScriptRun::<K>::new(alloc);
    let mut rest = bytes;
    while !rest.is_empty() {
        let (line, after) = first_line(rest);
        if run.follow_line(alloc, most_lanes, line).is_err() {
            run.discard();
            return Err(Memory);
        }
        rest = after;
    }
    Ok(run)
}

/// The refusal line, if one of the lines that these bytes are is refused whatever lines follow, in a script that may have so
/// many lanes. `Memory` freely.
pub fn refusal_of(
    alloc: Global,
    most_lanes: Option<u64>,
    bytes: &[u8],
) -> Result<Option<Vec<u8>>, Memory>
    ensures some { IfOk result (λ refusal. IfSome refusal (λ text.
        AreRefused most_lanes (lines_of bytes.now) text.items)) }
    ensures none { IfOk result (λ refusal. refusal ≡ None
        → NoneRefused (accepts_within most_lanes) (lines_of bytes.now)) }
{
    let run = follow_lines::<TreeSpan>(alloc, most_lanes, bytes)?;
    let refused = run.refused_line();
    run.discard();
    match refused {
        Some(line) => Ok(Some(refused_answer(alloc, line)?.text)),
        None => Ok(None),
    }
}
