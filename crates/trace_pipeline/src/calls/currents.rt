//! Handles of the span that is current on a lane.
ghost use Rattle.std.specs.Prelude.{◌<◌, length};
ghost use Rattle.span_script.specs.declared.request.Call.TheVariants as request;

use crate::laws;
use crate::names::check_few_names;
use crate::pipeline::Pipeline;
use otel_base::record::Moment;
use span_handles::span::Span;
use span_script::reply::{Refusal, Reply, What};

impl Pipeline {
    ghost use Rattle.span_script.specs.Fits.{Serves};

    pub(crate) fn current(&mut self, at: Moment, place: u64) -> Result<Reply, Refusal>
        requires { place < length self.old.lanes }
        ensures { Serves self.old at place request.Current result self.new }
    {
        laws::calls();
        check_few_names(&self.handles, &self.guards)?;
        let number = self.handles.len() as u64;
        self.handles.reserve()?;
        let on = &self.lanes[place as usize];
        let span = Span::current(&mut self.world, on);
        let enabled = span.id().is_some();
        self.handles.push_reserved(span);
        self.moment = at;
        Ok(Reply::Made {
            enabled,
            handle: number,
        })
    }

    pub(crate) fn or_current(
        &mut self,
        at: Moment,
        place: u64,
        handle: u64,
    ) -> Result<Reply, Refusal>
        requires { place < length self.old.lanes }
        ensures { Serves self.old at place (request.OrCurrent handle) result self.new }
    {
        laws::calls();
        check_few_names(&self.handles, &self.guards)?;
        if self.guards.is_borrowed(handle) {
            return Err(Refusal::InUse);
        }
        let number = self.handles.len() as u64;
        self.handles.reserve()?;
        let Some(span) = self.handles.take(handle) else {
            return Err(Refusal::UnknownName { what: What::Handle });
        };
        let on = &self.lanes[place as usize];
        let span = span.or_current(&mut self.world, on);
        let enabled = span.id().is_some();
        self.handles.push_reserved(span);
        self.moment = at;
        Ok(Reply::Made {
            enabled,
            handle: number,
        })
    }
}
