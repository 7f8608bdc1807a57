//! The calls of a worker, which stand in an array.
ghost use Rattle.std.specs.Prelude.{option_and_then};
ghost use Rattle.serde_json.specs.Find.{as_array};
ghost use Rattle.serde_json.specs.View.{view, items_view};
ghost use Rattle.trace_lines.specs.forms.Forms.{each};
ghost use Rattle.trace_lines.specs.reading.Gives.{Gives};
ghost use Rattle.thread_lines.specs.ThreadForm.{op_of};

use crate::line::ThreadOp;
use crate::read::op::op;
use line_members::Members;
use otel_base::list::Items;
use serde_json::Value as Json;
use std::alloc::Global;
use trace_lines::LineError;

// The call that a value spells.
fn op_of(alloc: Global, value: Json) -> Result<ThreadOp, LineError>
    ensures { Gives (λ o. o) result (op_of (view value)) }
{
    let mut members = Members::of(value)?;
    let read = op(alloc, &mut members)?;
    members.end()?;
    Ok(read)
}

// The calls that the items of an array spell.
fn ops_of_items(alloc: Global, values: Vec<Json>) -> Result<Items<ThreadOp>, LineError>
    ensures { Gives (λ l. l) result (each op_of (items_view values.items)) }
{
    let mut ops = Items::new(alloc);
    for value in values {
        ops.push(op_of(alloc, value)?)?;
    }
    Ok(ops)
}

/// The calls that a value spells, which has to be an array.
pub(crate) fn ops_of(alloc: Global, value: Json) -> Result<Items<ThreadOp>, LineError>
    ensures { Gives (λ l. l) result (option_and_then (each op_of) (as_array (view value))) }
{
    match value {
        Json::Array(values) => ops_of_items(alloc, values),
        _ => Err(LineError::BadLine),
    }
}
