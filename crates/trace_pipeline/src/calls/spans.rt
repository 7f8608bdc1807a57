//! Handles of spans, and dropping these.
ghost use Rattle.span_script.specs.declared.request.Call.{Call};

use crate::laws;
use crate::names::check_few_names;
use crate::pipeline::Pipeline;
use otel_base::record::Moment;
use span_script::reply::{Refusal, Reply, What};

impl Pipeline {
    ghost use Rattle.span_script.specs.Fits.{Serves};

    pub(crate) fn clone_handle(
        &mut self,
        at: Moment,
        place: u64,
        handle: u64,
    ) -> Result<Reply, Refusal>
        ensures { Serves self.old at place (Call.Clone handle) result self.new }
    {
        laws::calls();
        check_few_names(&self.handles, &self.guards)?;
        let number = self.handles.len() as u64;
        self.handles.reserve()?;
        let Some(span) = self.handles.get(handle) else {
            return Err(Refusal::UnknownName { what: What::Handle });
        };
        let enabled = span.id().is_some();
        let copy = span.clone_handle(&mut self.world);
        self.handles.push_reserved(copy);
        self.moment = at;
        Ok(Reply::Made {
            enabled,
            handle: number,
        })
    }

    pub(crate) fn drop_handle(
        &mut self,
        at: Moment,
        place: u64,
        handle: u64,
    ) -> Result<Reply, Refusal>
        ensures { Serves self.old at place (Call.Drop handle) result self.new }
    {
        laws::chains();
        if self.guards.is_borrowed(handle) {
            return Err(Refusal::InUse);
        }
        let Some(span) = self.handles.take(handle) else {
            return Err(Refusal::UnknownName { what: What::Handle });
        };
        span.close(&mut self.world, at);
        self.moment = at;
        Ok(Reply::Done)
    }
}
