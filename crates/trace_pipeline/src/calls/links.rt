//! Links: to a span that is followed, and to what a context shows.
ghost use Rattle.span_script.specs.declared.request.Call.{Call};

use crate::laws;
use crate::names::context_at;
use crate::pipeline::Pipeline;
use otel_base::list::Items;
use otel_base::record::Moment;
use otel_base::value::KeyValue;
use otel_layer::span_ext::OpenTelemetrySpanExt;
use span_script::reply::{Refusal, Reply, What};

impl Pipeline {
    ghost use Rattle.span_script.specs.Fits.{Serves};

    pub(crate) fn follows(
        &mut self,
        at: Moment,
        place: u64,
        handle: u64,
        from: u64,
    ) -> Result<Reply, Refusal>
        ensures { Serves self.old at place (Call.Follows handle from) result self.new }
    {
        laws::calls();
        laws::same();
        let Some(span) = self.handles.get(handle) else {
            return Err(Refusal::UnknownName { what: What::Handle });
        };
        let Some(followed) = self.handles.get(from) else {
            return Err(Refusal::UnknownName { what: What::Handle });
        };
        span.follows_from(&mut self.world, at, followed)?;
        self.moment = at;
        Ok(Reply::Done)
    }

    pub(crate) fn add_link(
        &mut self,
        at: Moment,
        place: u64,
        handle: u64,
        context: u64,
        attributes: Items<KeyValue>,
    ) -> Result<Reply, Refusal>
        ensures { Serves self.old at place (Call.AddLink handle context attributes) result self.new }
    {
        laws::asks();
        let Some(span) = self.handles.get(handle) else {
            return Err(Refusal::UnknownName { what: What::Handle });
        };
        let Some(given) = context_at(&self.contexts.contexts, context) else {
            return Err(Refusal::UnknownName {
                what: What::Context,
            });
        };
        let ids = given.span_context();
        span.add_link_with_attributes(&mut self.world, at, ids, attributes)?;
        self.moment = at;
        Ok(Reply::Done)
    }
}
