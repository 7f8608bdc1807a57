//! What is asked of the span extension: parents, attributes, statuses and events.
ghost use Rattle.std.specs.Prelude.{◌≡◌};
ghost use Rattle.span_script.specs.declared.request.Call.{Call};
ghost use Rattle.span_script.specs.calls.Links.{event_time};

use crate::laws;
use crate::names::context_at;
use crate::pipeline::Pipeline;
use otel_base::list::Items;
use otel_base::record::Moment;
use otel_base::status::Status;
use otel_base::text::Text;
use otel_base::value::{KeyValue, OtelValue};
use otel_layer::span_ext::OpenTelemetrySpanExt;
use span_script::reply::{Refusal, Reply, What};

// When an event happens: at its time, else at the request's moment.
fn event_time(at: Moment, time: Option<Moment>) -> Moment
    ensures { result ≡ event_time at time }
{
    match time {
        Some(time) => time,
        None => at,
    }
}

impl Pipeline {
    ghost use Rattle.span_script.specs.Fits.{Serves};

    pub(crate) fn set_parent(
        &mut self,
        at: Moment,
        place: u64,
        handle: u64,
        context: u64,
    ) -> Result<Reply, Refusal>
        ensures { Serves self.old at place (Call.SetParent handle context) result self.new }
    {
        laws::asks();
        let Some(span) = self.handles.get(handle) else {
            return Err(Refusal::UnknownName { what: What::Handle });
        };
        let Some(given) = context_at(&self.contexts.contexts, context) else {
            return Err(Refusal::UnknownName {
                what: What::Context,
            });
        };
        let set = span.set_parent(&mut self.world, at, given);
        self.moment = at;
        Ok(Reply::Set { set })
    }

    pub(crate) fn set_attribute(
        &mut self,
        at: Moment,
        place: u64,
        handle: u64,
        key: Text,
        value: OtelValue,
    ) -> Result<Reply, Refusal>
        ensures { Serves self.old at place (Call.SetAttribute handle key value) result self.new }
    {
        laws::asks();
        let Some(span) = self.handles.get(handle) else {
            return Err(Refusal::UnknownName { what: What::Handle });
        };
        span.set_attribute(&mut self.world, at, key, value)?;
        self.moment = at;
        Ok(Reply::Done)
    }

    pub(crate) fn set_status(
        &mut self,
        at: Moment,
        place: u64,
        handle: u64,
        status: Status,
    ) -> Result<Reply, Refusal>
        ensures { Serves self.old at place (Call.SetStatus handle status) result self.new }
    {
        laws::asks();
        let Some(span) = self.handles.get(handle) else {
            return Err(Refusal::UnknownName { what: What::Handle });
        };
        span.set_status(&mut self.world, at, status);
        self.moment = at;
        Ok(Reply::Done)
    }

    pub(crate) fn add_event(
        &mut self,
        at: Moment,
        place: u64,
        handle: u64,
        name: Text,
        attributes: Items<KeyValue>,
        time: Option<Moment>,
    ) -> Result<Reply, Refusal>
        ensures { Serves self.old at place (Call.AddEvent handle name attributes time) result self.new }
    {
        laws::asks();
        let Some(span) = self.handles.get(handle) else {
            return Err(Refusal::UnknownName { what: What::Handle });
        };
        let time = event_time(at, time);
        span.add_event_with_timestamp(&mut self.world, at, name, time, attributes)?;
        self.moment = at;
        Ok(Reply::Done)
    }
}
