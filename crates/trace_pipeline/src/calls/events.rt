//! Recording events.
ghost use Rattle.std.specs.Prelude.{◌≡◌, ◌<◌, false, length, Some, Err, IfOk, IfErr, IfSome, OnErr};
ghost use Rattle.trace_base.specs.Conditions.{IsLiveParent};
ghost use Rattle.trace_base.specs.Gate.{Admits};
ghost use Rattle.span_handles.specs.Worlds.{Has, Replaced};
ghost use Rattle.span_script.specs.declared.request.Call.{Call};
ghost use Rattle.span_script.specs.Fits.{is_for_memory};
ghost use Rattle.span_script.specs.Setups.{event_site};
ghost use Rattle.span_script.specs.Slots.{TellsEventOfRequest, values_or_refusal};

use crate::fields::parent_and_values;
use crate::laws;
use crate::names::parent_for;
use crate::pipeline::Pipeline;
use otel_base::list::Items;
use otel_base::record::Moment;
use otel_base::text::Text;
use span_script::reply::{Refusal, Reply, What};
use span_script::request::RequestParent;
use trace_base::callsite::Kind;
use trace_base::dispatcher::Dispatch;
use trace_base::field::Value;
use trace_base::lane::Lane;
use trace_base::passes;
use trace_base::span::Parent;
use trace_base::subscriber::Subscriber;
use trace_base::world::World;

// Tells an event under a parent if it is let through, and answers whether it was.
fn tell_at<S: Subscriber>(
    world: &mut World<S>,
    dispatch: Dispatch,
    lane: &Lane,
    at: Moment,
    site: u64,
    parent: Option<Parent>,
    fields: Items<(Text, Value)>,
) -> Result<bool, Refusal>
    requires there { dispatch < length world.old.subscribers }
    requires whole { Has S.is_whole world.old dispatch }
    requires live { IfSome parent (λ parent.
        Has (λ s. IsLiveParent (S.spans s).made parent) world.old dispatch) }

    ensures ok { IfOk result (TellsEventOfRequest S.does world.old world.new lane.now at parent site fields dispatch) }
    ensures gate { IfOk result (Admits S.hint S.enables world.old lane.now.id site (Some dispatch)) }
    ensures refused { IfErr result (λ refusal. is_for_memory refusal ≡ false
        → values_or_refusal (event_site world.old.sites site) parent fields ≡ Err refusal) }
    ensures leaves { OnErr result (Replaced S.same_but_room world.old world.new dispatch) }
{
    let Some(id) = world.site_at(site) else {
        return Err(Refusal::UnknownName { what: What::Site });
    };
    let alloc = world.allocator();
    let (subscriber, callsite, interest) = world.subscriber_site_and_interest(dispatch, id);
    let Kind::Event = callsite.kind else {
        return Err(Refusal::UnknownName { what: What::Site });
    };
    let (parent, values) = parent_and_values(alloc, callsite, parent, fields)?;
    if !passes(interest, subscriber, lane.id, callsite) {
        return Ok(false);
    }
    let current = subscriber.current_id(lane.id);
    subscriber.event(lane, at, parent, current, id, callsite, &values)?;
    Ok(true)
}

impl Pipeline {
    ghost use Rattle.span_script.specs.Fits.{Serves};

    pub(crate) fn event(
        &mut self,
        at: Moment,
        place: u64,
        site: u64,
        parent: RequestParent,
        fields: Items<(Text, Value)>,
    ) -> Result<Reply, Refusal>
        requires { place < length self.old.lanes }
        ensures { Serves self.old at place (Call.Event site parent fields) result self.new }
    {
        laws::calls();
        laws::same();
        span_stack::laws::gate_answers_by_filter();
        span_stack::laws::new_filter_admits_by_statics();
        let parent = parent_for(&self.handles, parent);
        let on = &self.lanes[place as usize];
        let enabled = tell_at(&mut self.world, self.dispatch, on, at, site, parent, fields)?;
        self.moment = at;
        Ok(Reply::Enabled { enabled })
    }
}
