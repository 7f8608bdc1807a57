//! Recording fields on spans, and asking for fields.
ghost use Rattle.std.specs.Prelude.{OnOk, OnErr};
ghost use Rattle.span_handles.specs.Handles.{HasOn, IsKnown, IsSite, RecordsOn, ReplacedOn, callsite_in};
ghost use Rattle.span_script.specs.declared.request.Call.{Call};
ghost use Rattle.span_script.specs.Fields.{values_by};

use crate::fields::values_of;
use crate::laws;
use crate::pipeline::Pipeline;
use otel_base::list::Items;
use otel_base::memory::Memory;
use otel_base::record::Moment;
use otel_base::text::Text;
use span_handles::span::Span;
use span_script::reply::{Refusal, Reply, What};
use trace_base::field::Value;
use trace_base::subscriber::Subscriber;
use trace_base::world::World;

// Records the values of those fields that the callsite of a handle declares, if the handle is enabled and has one.
fn record_at<S: Subscriber>(
    world: &mut World<S>,
    span: &Span,
    at: Moment,
    fields: Items<(Text, Value)>,
) -> Result<(), Memory>
    requires known { IsKnown S.spans world.old span.now.held }
    requires site { IsSite world.old span.now.site }
    requires whole { HasOn (λ s id. S.is_whole s) world.old span.now.held }
    ensures did { OnOk result (RecordsOn S.does world.old world.new at
        (values_by (callsite_in world.old span.now.site) fields) span.now) }
    ensures memory_leaves { OnErr result
        (ReplacedOn (λ id s t. S.same_but_room s t) world.old world.new span.now.held) }
{
    let Some((dispatch, id, site)) = span.held_and_site() else {
        return Ok(());
    };
    let alloc = world.allocator();
    let (subscriber, callsite) = world.subscriber_and_site(dispatch, site);
    let values = values_of(alloc, callsite, fields)?;
    subscriber.record(id, at, callsite, &values)
}

impl Pipeline {
    ghost use Rattle.span_script.specs.Fits.{Serves};

    pub(crate) fn record(
        &mut self,
        at: Moment,
        place: u64,
        handle: u64,
        fields: Items<(Text, Value)>,
    ) -> Result<Reply, Refusal>
        ensures { Serves self.old at place (Call.Record handle fields) result self.new }
    {
        laws::calls();
        laws::same();
        let Some(span) = self.handles.get(handle) else {
            return Err(Refusal::UnknownName { what: What::Handle });
        };
        record_at(&mut self.world, span, at, fields)?;
        self.moment = at;
        Ok(Reply::Done)
    }

    pub(crate) fn has_field(
        &mut self,
        at: Moment,
        place: u64,
        handle: u64,
        name: Text,
    ) -> Result<Reply, Refusal>
        ensures { Serves self.old at place (Call.HasField handle name) result self.new }
    {
        let Some(span) = self.handles.get(handle) else {
            return Err(Refusal::UnknownName { what: What::Handle });
        };
        let has = span.has_field(&self.world, &name.as_str());
        self.moment = at;
        Ok(Reply::Has { has })
    }
}
