//! Reading the requests that follow spans, and that ask something of the span extension.
ghost use Rattle.trace_lines.specs.forms.ExtensionForm.{follows_form, set_parent_form, add_link_form, set_attribute_form, set_status_form, time_form, add_event_form};
ghost use Rattle.trace_lines.specs.reading.Gives.{Gives};
ghost use Rattle.trace_lines.specs.reading.Left.{members_left};

use crate::read::LineError;
use crate::read::attributes::{given_attributes, otel_value_of, status_of};
use crate::read::syntax::object::{Object, if_at_most};
use otel_base::record::Moment;
use span_script::request::{Call, LAST_MOMENT};
use std::alloc::Global;

#[tactic(auto, unfolding(crate::specs::forms::ExtensionForm::follows_form))]
pub(crate) fn follows_call(object: &mut Object) -> Result<Call, LineError>
    ensures { Gives (λ c. (c, members_left object.new)) result (follows_form (members_left object.old)) }
{
    let handle = object.whole("handle")?;
    let from = object.whole("from")?;
    Ok(Call::Follows { handle, from })
}

#[tactic(auto, unfolding(crate::specs::forms::ExtensionForm::set_parent_form))]
pub(crate) fn set_parent_call(object: &mut Object) -> Result<Call, LineError>
    ensures { Gives (λ c. (c, members_left object.new)) result (set_parent_form (members_left object.old)) }
{
    let handle = object.whole("handle")?;
    let context = object.whole("context")?;
    Ok(Call::SetParent { handle, context })
}

#[tactic(auto, unfolding(crate::specs::forms::ExtensionForm::add_link_form))]
pub(crate) fn add_link_call(alloc: Global, object: &mut Object) -> Result<Call, LineError>
    ensures { Gives (λ c. (c, members_left object.new)) result (add_link_form (members_left object.old)) }
{
    let handle = object.whole("handle")?;
    let context = object.whole("context")?;
    let attributes = given_attributes(alloc, object)?;
    Ok(Call::AddLink {
        handle,
        context,
        attributes,
    })
}

#[tactic(auto, unfolding(crate::specs::forms::ExtensionForm::set_attribute_form))]
pub(crate) fn set_attribute_call(alloc: Global, object: &mut Object) -> Result<Call, LineError>
    ensures { Gives (λ c. (c, members_left object.new)) result (set_attribute_form (members_left object.old)) }
{
    let handle = object.whole("handle")?;
    let key = object.text(alloc, "key")?;
    let value = otel_value_of(alloc, object.member("value")?)?;
    Ok(Call::SetAttribute { handle, key, value })
}

#[tactic(auto, unfolding(crate::specs::forms::ExtensionForm::set_status_form))]
pub(crate) fn set_status_call(alloc: Global, object: &mut Object) -> Result<Call, LineError>
    ensures { Gives (λ c. (c, members_left object.new)) result (set_status_form (members_left object.old)) }
{
    let handle = object.whole("handle")?;
    let status = status_of(alloc, object.member("status")?)?;
    Ok(Call::SetStatus { handle, status })
}

// Takes the time of an event, if it is said.
fn time(object: &mut Object) -> Result<Option<Moment>, LineError>
    ensures { Gives (λ t. (t, members_left object.new)) result (time_form (members_left object.old)) }
{
    match object.optional("time") {
        Some(value) => Ok(Some(if_at_most(LAST_MOMENT, value.whole()?)?)),
        None => Ok(None),
    }
}

#[tactic(auto, unfolding(crate::specs::forms::ExtensionForm::add_event_form))]
pub(crate) fn add_event_call(alloc: Global, object: &mut Object) -> Result<Call, LineError>
    ensures { Gives (λ c. (c, members_left object.new)) result (add_event_form (members_left object.old)) }
{
    let handle = object.whole("handle")?;
    let name = object.text(alloc, "name")?;
    let attributes = given_attributes(alloc, object)?;
    let time = time(object)?;
    Ok(Call::AddEvent {
        handle,
        name,
        attributes,
        time,
    })
}
