//! Reading requests: a function for each word of `do`.
ghost use Rattle.std.specs.Prelude.{◌≡◌};
ghost use Rattle.trace_lines.specs.reading.Gives.{Gives};
ghost use Rattle.trace_lines.specs.reading.Left.{value_data, members_left};
ghost use Rattle.trace_lines.specs.forms.RequestForm.{root_of_word, parent_spelled, parent_form, fields_form, new_form, clone_form, or_current_form, drop_form, enter_form, entered_form, exit_form, record_form, has_field_form, event_form, remote_form, context_form, attach_form, detach_form, call_by, call_form, request_form, enabled_form, reload_form};

use crate::read::LineError;
use crate::read::extension::{
    add_event_call, add_link_call, follows_call, set_attribute_call, set_parent_call,
    set_status_call,
};
use crate::read::fields::fields_of;
use crate::read::hex::{id_of, long_id_of};
use crate::read::syntax::object::Object;
use crate::read::syntax::value::Value;
use otel_base::context::SpanContext;
use otel_base::list::Items;
use otel_base::text::Text;
use span_script::request::{Call, Request, RequestParent};
use std::alloc::Global;
use trace_base::field::Value as FieldValue;

fn root_of(word: &str) -> Option<RequestParent>
    ensures { result ≡ root_of_word word.now }
{
    match word {
        "root" => Some(RequestParent::Root),
        _ => None,
    }
}

// The place that a value names: a handle's number, or no span.
fn parent_of(value: &Value<'_>) -> Result<RequestParent, LineError>
    ensures { Gives (λ place. place) result (parent_spelled (value_data value.now)) }
{
    match value.whole() {
        Ok(handle) => Ok(RequestParent::Under { handle }),
        Err(LineError::BadLine) => root_of(value.word()?).ok_or(LineError::BadLine),
        Err(error) => Err(error),
    }
}

// Takes where a new span or an event is put: under the current span where nothing is said.
fn parent(object: &mut Object) -> Result<RequestParent, LineError>
    ensures { Gives (λ place. (place, members_left object.new)) result (parent_form (members_left object.old)) }
{
    match object.optional("parent") {
        Some(value) => parent_of(&value),
        None => Ok(RequestParent::Contextual),
    }
}

/// Takes the fields that are given, which are none where nothing is said.
pub fn fields(alloc: Global, object: &mut Object) -> Result<Items<(Text, FieldValue)>, LineError>
    ensures { Gives (λ fields. (fields, members_left object.new)) result (fields_form (members_left object.old)) }
{
    match object.optional("fields") {
        Some(value) => fields_of(alloc, value),
        None => Ok(Items::new(alloc)),
    }
}

#[tactic(auto, unfolding(crate::specs::forms::RequestForm::new_form))]
fn new_call(alloc: Global, object: &mut Object) -> Result<Call, LineError>
    ensures { Gives (λ c. (c, members_left object.new)) result (new_form (members_left object.old)) }
{
    let site = object.whole("site")?;
    let parent = parent(object)?;
    let fields = fields(alloc, object)?;
    Ok(Call::New {
        site,
        parent,
        fields,
    })
}

#[tactic(auto, unfolding(crate::specs::forms::RequestForm::clone_form))]
fn clone_call(object: &mut Object) -> Result<Call, LineError>
    ensures { Gives (λ c. (c, members_left object.new)) result (clone_form (members_left object.old)) }
{
    let handle = object.whole("handle")?;
    Ok(Call::Clone { handle })
}

#[tactic(auto, unfolding(crate::specs::forms::RequestForm::or_current_form))]
fn or_current_call(object: &mut Object) -> Result<Call, LineError>
    ensures { Gives (λ c. (c, members_left object.new)) result (or_current_form (members_left object.old)) }
{
    let handle = object.whole("handle")?;
    Ok(Call::OrCurrent { handle })
}

#[tactic(auto, unfolding(crate::specs::forms::RequestForm::drop_form))]
fn drop_call(object: &mut Object) -> Result<Call, LineError>
    ensures { Gives (λ c. (c, members_left object.new)) result (drop_form (members_left object.old)) }
{
    let handle = object.whole("handle")?;
    Ok(Call::Drop { handle })
}

#[tactic(auto, unfolding(crate::specs::forms::RequestForm::enter_form))]
fn enter_call(object: &mut Object) -> Result<Call, LineError>
    ensures { Gives (λ c. (c, members_left object.new)) result (enter_form (members_left object.old)) }
{
    let handle = object.whole("handle")?;
    Ok(Call::Enter { handle })
}

#[tactic(auto, unfolding(crate::specs::forms::RequestForm::entered_form))]
fn entered_call(object: &mut Object) -> Result<Call, LineError>
    ensures { Gives (λ c. (c, members_left object.new)) result (entered_form (members_left object.old)) }
{
    let handle = object.whole("handle")?;
    Ok(Call::Entered { handle })
}

#[tactic(auto, unfolding(crate::specs::forms::RequestForm::exit_form))]
fn exit_call(object: &mut Object) -> Result<Call, LineError>
    ensures { Gives (λ c. (c, members_left object.new)) result (exit_form (members_left object.old)) }
{
    let guard = object.whole("guard")?;
    Ok(Call::Exit { guard })
}

#[tactic(auto, unfolding(crate::specs::forms::RequestForm::context_form))]
fn context_call(object: &mut Object) -> Result<Call, LineError>
    ensures { Gives (λ c. (c, members_left object.new)) result (context_form (members_left object.old)) }
{
    let handle = object.whole("handle")?;
    Ok(Call::Context { handle })
}

#[tactic(auto, unfolding(crate::specs::forms::RequestForm::attach_form))]
fn attach_call(object: &mut Object) -> Result<Call, LineError>
    ensures { Gives (λ c. (c, members_left object.new)) result (attach_form (members_left object.old)) }
{
    let context = object.whole("context")?;
    Ok(Call::Attach { context })
}

#[tactic(auto, unfolding(crate::specs::forms::RequestForm::detach_form))]
fn detach_call(object: &mut Object) -> Result<Call, LineError>
    ensures { Gives (λ c. (c, members_left object.new)) result (detach_form (members_left object.old)) }
{
    let guard = object.whole("guard")?;
    Ok(Call::Detach { guard })
}

#[tactic(auto, unfolding(crate::specs::forms::RequestForm::record_form))]
fn record_call(alloc: Global, object: &mut Object) -> Result<Call, LineError>
    ensures { Gives (λ c. (c, members_left object.new)) result (record_form (members_left object.old)) }
{
    let handle = object.whole("handle")?;
    let fields = fields_of(alloc, object.member("fields")?)?;
    Ok(Call::Record { handle, fields })
}

#[tactic(auto, unfolding(crate::specs::forms::RequestForm::has_field_form))]
fn has_field_call(alloc: Global, object: &mut Object) -> Result<Call, LineError>
    ensures { Gives (λ c. (c, members_left object.new)) result (has_field_form (members_left object.old)) }
{
    let handle = object.whole("handle")?;
    let name = object.text(alloc, "name")?;
    Ok(Call::HasField { handle, name })
}

#[tactic(auto, unfolding(crate::specs::forms::RequestForm::event_form))]
fn event_call(alloc: Global, object: &mut Object) -> Result<Call, LineError>
    ensures { Gives (λ c. (c, members_left object.new)) result (event_form (members_left object.old)) }
{
    let site = object.whole("site")?;
    let parent = parent(object)?;
    let fields = fields(alloc, object)?;
    Ok(Call::Event {
        site,
        parent,
        fields,
    })
}

#[tactic(auto, unfolding(crate::specs::forms::RequestForm::remote_form))]
fn remote_call(object: &mut Object) -> Result<Call, LineError>
    ensures { Gives (λ c. (c, members_left object.new)) result (remote_form (members_left object.old)) }
{
    let trace = long_id_of(object.member("trace")?.word()?).ok_or(LineError::BadLine)?;
    let span = id_of(object.member("span")?.word()?).ok_or(LineError::BadLine)?;
    let ids = SpanContext { trace, span };
    Ok(Call::Remote { ids })
}

#[tactic(auto, unfolding(crate::specs::forms::RequestForm::enabled_form))]
fn enabled_call(object: &mut Object) -> Result<Call, LineError>
    ensures { Gives (λ c. (c, members_left object.new)) result (enabled_form (members_left object.old)) }
{
    let site = object.whole("site")?;
    Ok(Call::Enabled { site })
}

#[tactic(auto, unfolding(crate::specs::forms::RequestForm::reload_form))]
fn reload_call(alloc: Global, object: &mut Object) -> Result<Call, LineError>
    ensures { Gives (λ c. (c, members_left object.new)) result (reload_form (members_left object.old)) }
{
    let text = object.text(alloc, "text")?;
    Ok(Call::Reload { text })
}

// Takes what a word of `do` goes on with.
fn call_by(alloc: Global, word: &str, object: &mut Object) -> Result<Call, LineError>
    ensures { Gives (λ c. (c, members_left object.new)) result (call_by word.now (members_left object.old)) }
{
    match word {
        "new" => new_call(alloc, object),
        "current" => Ok(Call::Current),
        "clone" => clone_call(object),
        "or_current" => or_current_call(object),
        "drop" => drop_call(object),
        "enter" => enter_call(object),
        "entered" => entered_call(object),
        "exit" => exit_call(object),
        "record" => record_call(alloc, object),
        "has_field" => has_field_call(alloc, object),
        "event" => event_call(alloc, object),
        "remote" => remote_call(object),
        "context" => context_call(object),
        "attach" => attach_call(object),
        "detach" => detach_call(object),
        "follows" => follows_call(object),
        "set_parent" => set_parent_call(object),
        "add_link" => add_link_call(alloc, object),
        "set_attribute" => set_attribute_call(alloc, object),
        "set_status" => set_status_call(alloc, object),
        "add_event" => add_event_call(alloc, object),
        "enabled" => enabled_call(object),
        "reload" => reload_call(alloc, object),
        _ => Err(LineError::BadLine),
    }
}

// Takes what is to be done.
fn call(alloc: Global, object: &mut Object) -> Result<Call, LineError>
    ensures { Gives (λ c. (c, members_left object.new)) result (call_form (members_left object.old)) }
{
    let word = object.member("do")?;
    call_by(alloc, word.word()?, object)
}

/// Takes the members of a request.
#[tactic(auto, unfolding(crate::specs::forms::RequestForm::request_form))]
pub(crate) fn request_members(alloc: Global, object: &mut Object) -> Result<Request, LineError>
    ensures { Gives (λ r. (r, members_left object.new)) result (request_form (members_left object.old)) }
{
    let at = object.whole("at")?;
    let lane = object.whole("lane")?;
    let call = call(alloc, object)?;
    Ok(Request {
        at,
        lane_place: lane,
        call,
    })
}
