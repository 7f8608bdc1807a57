//! What one line adds to a script for threads.
ghost use Rattle.std.specs.Prelude.{◌≡◌, IfOk, OnOk};
ghost use Rattle.span_script.specs.Admission.{fault_in, text_read, opening_read};
ghost use Rattle.thread_lines.specs.Answers.{AnswersTest, AddsToScript, stop_of};
ghost use Rattle.thread_lines.specs.Runnable.{HasFilter, IsRunnable};
ghost use Rattle.thread_lines.specs.Steps.{last_shared_moment, directives_tested, script_opened, shared_added, worker_added, text_added};

use crate::limits::{MAX_SHARED_SPANS, MAX_WORKERS};
use crate::line::{ThreadLine, ThreadOp};
use crate::read::read_thread_line;
use crate::require::{require, span_site, test_lane, test_moment};
use crate::stop::ScriptStop;
use crate::worker_ops::test_ops;
use event_gate::{GateError, TextFilter};
use otel_base::list::Items;
use otel_base::memory::Memory;
use otel_base::record::Moment;
use otel_base::text::Text;
use std::alloc::Global;
use thread_script::{SharedLine, ThreadScript};
use trace_lines::{LineError, Settings, Told, read_settings};

// Why nothing was read of a line.
fn stop_of(error: LineError) -> ScriptStop
    ensures { result ≡ stop_of error }
{
    match error {
        LineError::BadLine => ScriptStop::Refused {
            told: Told::BadLine,
        },
        LineError::Memory => ScriptStop::Memory,
    }
}

// Tests the text of a filter, which is one for counting or not.
fn test_directives(alloc: Global, counting: bool, text: &Text) -> Result<(), ScriptStop>
    ensures directives { AnswersTest (λ u. u) result (directives_tested (fault_in counting (text_read text.now))) }
    ensures filter { OnOk result (HasFilter text.now) }
{
    match TextFilter::read(alloc, text.as_str()) {
        Ok(_) => Ok(()),
        Err(GateError::Directive { piece }) => Err(ScriptStop::Refused {
            told: Told::Directive { counting, piece },
        }),
        Err(GateError::Memory) => Err(ScriptStop::Memory),
    }
}

// Tests the texts of settings, that of the filter first.
fn test_texts(alloc: Global, settings: &Settings) -> Result<(), ScriptStop>
    ensures directives { AnswersTest (λ u. u) result (directives_tested (opening_read settings.now.filter settings.now.counting)) }
    ensures filter { OnOk result (HasFilter settings.now.filter) }
{
    test_directives(alloc, false, &settings.filter)?;
    match &settings.counting {
        Some(text) => test_directives(alloc, true, text),
        None => Ok(()),
    }
}

/// The script of a settings line, before its other lines.
pub(crate) fn open_script(alloc: Global, line: &[u8]) -> Result<ThreadScript, ScriptStop>
    ensures opened { AnswersTest (λ s. s) result (script_opened line.now) }
    ensures runnable { IfOk result IsRunnable }
{
    let settings = read_settings(alloc, line).map_err(stop_of)?;
    test_texts(alloc, &settings)?;
    let Settings {
        filter,
        counting: _,
        lanes,
        callsites,
        layer,
    } = settings;
    Ok(ThreadScript {
        filter,
        callsites,
        lanes,
        layer,
        shared: Items::new(alloc),
        workers: Items::new(alloc),
    })
}

// The moment of the last shared span, 0 where there is none.
fn last_shared_moment(shared: &[SharedLine]) -> Moment
    ensures { result ≡ last_shared_moment shared.now }
{
    match shared.last() {
        Some(line) => line.at,
        None => 0,
    }
}

// Adds a shared span.
fn add_shared(script: &mut ThreadScript, line: SharedLine) -> Result<(), ScriptStop>
    ensures { AddsToScript script.new result (shared_added script.old line) }
{
    let shared = script.shared.as_slice();
    let has_room = script.workers.as_slice().is_empty() && shared.len() < MAX_SHARED_SPANS;
    require(Told::BadLine, has_room)?;
    test_moment(last_shared_moment(shared), line.at)?;
    test_lane(script, 0)?;
    span_site(script, line.site)?;
    script.shared.push(line)?;
    Ok(())
}

// Adds a worker.
fn add_worker(
    alloc: Global,
    script: &mut ThreadScript,
    ops: Items<ThreadOp>,
) -> Result<(), ScriptStop>
    ensures { AddsToScript script.new result (worker_added script.old ops) }
{
    let worker = script.workers.as_slice().len();
    require(Told::BadLine, worker < MAX_WORKERS)?;
    test_lane(script, worker)?;
    let made_at = last_shared_moment(script.shared.as_slice());
    let ops = test_ops(alloc, script, made_at, ops)?;
    script.workers.push(ops)?;
    Ok(())
}

/// Adds the line behind the settings line that a text spells.
pub(crate) fn add_text(
    alloc: Global,
    script: &mut ThreadScript,
    text: &[u8],
) -> Result<(), ScriptStop>
    ensures { AddsToScript script.new result (text_added script.old text.now) }
{
    match read_thread_line(alloc, text).map_err(stop_of)? {
        ThreadLine::Shared { at, site } => add_shared(script, SharedLine { at, site }),
        ThreadLine::Worker { ops } => add_worker(alloc, script, ops),
    }
}
