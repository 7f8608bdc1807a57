//! Reading the lines of scripts for threads.
ghost use Rattle.trace_lines.specs.forms.Forms.{all_of};
ghost use Rattle.trace_lines.specs.reading.Gives.{Gives};
ghost use Rattle.trace_lines.specs.reading.Spelled.{value_on_line};
ghost use Rattle.line_members.specs.Left.{members_left};
ghost use Rattle.thread_lines.specs.ThreadForm.{shared_form, thread_form, worker_of};
ghost use Rattle.serde_json.specs.View.{view};

mod op;
mod worker;

use crate::line::ThreadLine;
use line_members::Members;
use serde_json::Value as Json;
use std::alloc::Global;
use trace_lines::{LineError, read_value};

// A worker, as the value of its member spells it.
fn worker_of(alloc: Global, value: Json) -> Result<ThreadLine, LineError>
    ensures { Gives (λ l. l) result (worker_of (view value)) }
{
    let ops = worker::ops_of(alloc, value)?;
    Ok(ThreadLine::Worker { ops })
}

// Takes the members of a shared span.
#[tactic(auto, unfolding(crate::specs::ThreadForm::shared_form))]
fn shared_line(members: &mut Members) -> Result<ThreadLine, LineError>
    ensures { Gives (λ l. (l, members_left members.new)) result (shared_form (members_left members.old)) }
{
    let at = members.whole("at")?;
    let site = members.whole("shared")?;
    Ok(ThreadLine::Shared { at, site })
}

// Takes the members of a line: those of a worker, or of a shared span.
#[tactic(auto, unfolding(crate::specs::ThreadForm::thread_form))]
fn thread_line(alloc: Global, members: &mut Members) -> Result<ThreadLine, LineError>
    ensures { Gives (λ l. (l, members_left members.new)) result (thread_form (members_left members.old)) }
{
    match members.optional("worker") {
        Some(value) => worker_of(alloc, value),
        None => shared_line(members),
    }
}

/// Reads a line of a script for threads, behind its settings line. `BadLine` exactly where it is no JSON, no object, or
/// one of no form; `Memory` freely.
pub fn read_thread_line(alloc: Global, line: &[u8]) -> Result<ThreadLine, LineError>
    ensures { Gives (λ l. l) result (value_on_line (all_of thread_form) line.now) }
{
    let mut members = Members::of(read_value(alloc, line)?)?;
    let read = thread_line(alloc, &mut members)?;
    members.end()?;
    Ok(read)
}
