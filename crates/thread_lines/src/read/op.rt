//! What a call of a worker spells.
ghost use Rattle.std.specs.Prelude.{◌≡◌};
ghost use Rattle.serde_json.specs.View.{view};
ghost use Rattle.trace_lines.specs.forms.AttributeForm.{attributes_form};
ghost use Rattle.trace_lines.specs.forms.ExtensionForm.{as_moment, time_form};
ghost use Rattle.trace_lines.specs.reading.Gives.{Gives};
ghost use Rattle.line_members.specs.Left.{members_left};
ghost use Rattle.thread_lines.specs.ThreadForm.{record_op_form, event_op_form, attribute_op_form, status_op_form, added_event_form, valid_context, link_op_form, call_by, op_form};

use crate::line::{ThreadCall, ThreadOp};
use line_members::Members;
use line_members::members::whole_number_of;
use otel_base::context::SpanContext;
use otel_base::list::Items;
use otel_base::record::{Link, Moment, OtelEvent};
use otel_base::value::KeyValue;
use otel_state::Op;
use serde_json::Value as Json;
use std::alloc::Global;
use trace_lines::{
    LAST_MOMENT, LineError, read_attribute_value, read_attributes, read_fields, read_span_id,
    read_status, read_trace_id,
};

// Takes the attributes that are given, which are none where nothing is said.
fn given_attributes(alloc: Global, members: &mut Members) -> Result<Items<KeyValue>, LineError>
    ensures { Gives (λ l. (l, members_left members.new)) result (attributes_form (members_left members.old)) }
{
    match members.optional("attributes") {
        Some(value) => read_attributes(alloc, &value),
        None => Ok(Items::new(alloc)),
    }
}

// A moment up to the last.
fn moment_of(value: &Json) -> Result<Moment, LineError>
    ensures { Gives (λ n. n) result (as_moment (view value.now)) }
{
    let at = whole_number_of(value)?;
    if at <= LAST_MOMENT {
        Ok(at)
    } else {
        Err(LineError::BadLine)
    }
}

// Takes the time of an event, if it is said.
fn time(members: &mut Members) -> Result<Option<Moment>, LineError>
    ensures { Gives (λ t. (t, members_left members.new)) result (time_form (members_left members.old)) }
{
    match members.optional("time") {
        Some(value) => Ok(Some(moment_of(&value)?)),
        None => Ok(None),
    }
}

#[tactic(auto, unfolding(crate::specs::ThreadForm::record_op_form))]
fn record_op(alloc: Global, members: &mut Members) -> Result<ThreadCall, LineError>
    ensures { Gives (λ c. (c, members_left members.new)) result (record_op_form (members_left members.old)) }
{
    let value = members.member("fields")?;
    let fields = read_fields(alloc, &value)?;
    Ok(ThreadCall::Record { fields })
}

#[tactic(auto, unfolding(crate::specs::ThreadForm::event_op_form))]
fn event_op(alloc: Global, members: &mut Members) -> Result<ThreadCall, LineError>
    ensures { Gives (λ c. (c, members_left members.new)) result (event_op_form (members_left members.old)) }
{
    let site = members.whole("site")?;
    let fields = members.given_fields(alloc)?;
    Ok(ThreadCall::Event { site, fields })
}

#[tactic(auto, unfolding(crate::specs::ThreadForm::attribute_op_form))]
fn attribute_op(alloc: Global, members: &mut Members) -> Result<Op, LineError>
    ensures { Gives (λ o. (o, members_left members.new)) result (attribute_op_form (members_left members.old)) }
{
    let key = members.text("key")?;
    let value = members.member("value")?;
    let value = read_attribute_value(alloc, &value)?;
    let pair = KeyValue { key, value };
    Ok(Op::SetAttribute { pair })
}

#[tactic(auto, unfolding(crate::specs::ThreadForm::status_op_form))]
fn status_op(alloc: Global, members: &mut Members) -> Result<Op, LineError>
    ensures { Gives (λ o. (o, members_left members.new)) result (status_op_form (members_left members.old)) }
{
    let value = members.member("status")?;
    let status = read_status(alloc, &value)?;
    Ok(Op::SetStatus { status })
}

// An event at the time that is said, else at the moment of its call.
#[tactic(auto, unfolding(crate::specs::ThreadForm::added_event_form))]
fn added_event(alloc: Global, at: Moment, members: &mut Members) -> Result<Op, LineError>
    ensures { Gives (λ o. (o, members_left members.new)) result (added_event_form at (members_left members.old)) }
{
    let name = members.text("name")?;
    let attributes = given_attributes(alloc, members)?;
    let time = time(members)?.unwrap_or(at);
    let event = OtelEvent {
        name,
        time,
        attributes,
    };
    Ok(Op::AddEvent { event })
}

// Ids of which neither may be 0.
fn valid_context(trace: u128, span: u64) -> Result<SpanContext, LineError>
    ensures { Gives (λ c. c) result (valid_context trace span) }
{
    if trace == 0 || span == 0 {
        return Err(LineError::BadLine);
    }
    Ok(SpanContext { trace, span })
}

#[tactic(auto, unfolding(crate::specs::ThreadForm::link_op_form))]
fn link_op(alloc: Global, members: &mut Members) -> Result<Op, LineError>
    ensures { Gives (λ o. (o, members_left members.new)) result (link_op_form (members_left members.old)) }
{
    let trace = members.member("trace")?;
    let trace = read_trace_id(&trace)?;
    let span = members.member("span_id")?;
    let span = read_span_id(&span)?;
    let context = valid_context(trace, span)?;
    let attributes = given_attributes(alloc, members)?;
    let link = Link {
        context,
        attributes,
    };
    Ok(Op::Link { link })
}

// What a word of `do` goes on with. Workers have no other word.
fn call_by(
    alloc: Global,
    at: Moment,
    word: &str,
    members: &mut Members,
) -> Result<ThreadCall, LineError>
    ensures { Gives (λ c. (c, members_left members.new)) result (call_by at word.now (members_left members.old)) }
{
    let op = match word {
        "record" => return record_op(alloc, members),
        "event" => return event_op(alloc, members),
        "set_attribute" => attribute_op(alloc, members)?,
        "set_status" => status_op(alloc, members)?,
        "add_event" => added_event(alloc, at, members)?,
        "add_link" => link_op(alloc, members)?,
        "enter" => Op::Enter,
        "exit" => Op::Exit,
        "start" => Op::Start {
            own: SpanContext { trace: 0, span: 0 },
        },
        _ => return Err(LineError::BadLine),
    };
    Ok(ThreadCall::Own { op })
}

/// Takes the members of a call.
#[tactic(auto, unfolding(crate::specs::ThreadForm::op_form))]
pub(crate) fn op(alloc: Global, members: &mut Members) -> Result<ThreadOp, LineError>
    ensures { Gives (λ o. (o, members_left members.new)) result (op_form (members_left members.old)) }
{
    let at = members.whole("at")?;
    let span = members.whole("span")?;
    let word = members.text("do")?;
    let call = call_by(alloc, at, word.as_str(), members)?;
    Ok(ThreadOp { at, span, call })
}
