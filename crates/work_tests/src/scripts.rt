//! Scripts for the tests, as lines.
ghost use Rattle.std.specs.Prelude.{IfOk, IfSome};
ghost use Rattle.thread_lines.specs.Runnable.{IsRunnable};

use otel_base::memory::Memory;
use std::alloc::Global;
use std::sync::Wait;
use std::thread::Threads;
use thread_handles::Ended;
use thread_lines::read_script;
use thread_script::ThreadScript;
use trace_run::threads::run_threads;
use trace_stream::sink::SureSink;
use trace_stream::source::SureSource;
use trace_stream::status::Status;
use trace_threads::history::{Entry, HandleAct};
use turnstile::Turnstile;

/// Settings with nine lanes, a callsite of spans that declares the field `a`, and callsites of events of the levels INFO and
/// DEBUG, of which the filter keeps the first.
pub const SETTINGS: &str =
    "{\"callsites\":[{\"fields\":[\"a\"],\"kind\":\"span\",\"level\":\"info\",\"name\":\"s\",\"target\":\"app\"},{\"fields\":[],\"kind\":\"event\",\"level\":\"info\",\"name\":\"e\",\"target\":\"app\"},{\"fields\":[],\"kind\":\"event\",\"level\":\"debug\",\"name\":\"d\",\"target\":\"app\"}],\"filter\":\"info\",\"lanes\":[{\"id\":1},{\"id\":2},{\"id\":3},{\"id\":4},{\"id\":5},{\"id\":6},{\"id\":7},{\"id\":8}]}\n";

/// The script of some lines behind the settings, none where a line is refused.
pub fn script(alloc: Global, lines: &str) -> Result<Option<ThreadScript>, Memory>
    ensures { IfOk result (λ s. IfSome s IsRunnable) }
{
    let mut text = String::from_str(alloc, SETTINGS)?;
    text.push_str(lines)?;
    match read_script(alloc, text.as_bytes())? {
        Ok(script) => Ok(Some(script)),
        Err(_) => Ok(None),
    }
}

/// What the command `threads` answers for some lines behind the settings.
pub fn run<R: Threads + Wait + Sync, T: Turnstile + Sync>(
    rt: &R,
    alloc: Global,
    lines: &str,
    turns: &T,
) -> Result<(Status, Vec<Ended>), Memory> {
    let mut text = String::from_str(alloc, SETTINGS)?;
    text.push_str(lines)?;
    let mut source = SureSource::new(text.as_bytes());
    let mut sink = SureSink::new(alloc);
    Ok(run_threads(rt, alloc, &mut source, &mut sink, turns))
}

/// How many calls of a handle a history has.
pub fn call_count(history: &[Entry], caller: u64) -> u64 {
    let mut count = 0u64;
    for entry in history {
        if entry.caller == caller && is_call(entry) {
            count = count.saturating_add(1);
        }
    }
    count
}

fn is_call(entry: &Entry) -> bool {
    match &entry.what {
        HandleAct::Call { op: _ } => true,
        _ => false,
    }
}
