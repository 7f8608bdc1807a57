//! Entering the span of a handle, and exiting it again.
ghost use Rattle.std.specs.Prelude.{◌<◌, length, false};
ghost use Rattle.span_script.specs.declared.request.Call.{Call};

use crate::laws;
use crate::names::check_few_names;
use crate::pipeline::Pipeline;
use otel_base::record::Moment;
use span_script::reply::{Refusal, Reply, What};
use span_script::slots::Guard;

impl Pipeline {
    ghost use Rattle.span_script.specs.calls.Here.{here_at};
    ghost use Rattle.span_script.specs.calls.Entries.{entry_call};
    ghost use Rattle.span_script.specs.Fits.{Serves, ServesResolved};

    /// Enters the span of a handle, which the guard owns or not.
    pub(crate) fn enter(
        &mut self,
        at: Moment,
        place: u64,
        handle: u64,
        owns: bool,
    ) -> Result<Reply, Refusal>
        requires { place < length self.old.lanes }
        ensures { ServesResolved (λ t. entry_call (here_at self.old.setup t at place) handle owns) false self.old result self.new }
    {
        laws::calls();
        laws::same();
        check_few_names(&self.handles, &self.guards)?;
        let guard = self.guards.len() as u64;
        let Some(span) = self.handles.get(handle) else {
            return Err(Refusal::UnknownName { what: What::Handle });
        };
        self.guards.reserve_for(handle)?;
        self.contexts.attaches.reserve()?;
        let entry = match span.open_entry(&mut self.world, &mut self.lanes[place as usize], at) {
            Ok(entry) => entry,
            Err(error) => return Err(Refusal::of_entry(place, error)),
        };
        self.guards.push_reserved(Guard {
            handle,
            place,
            owns,
            entry,
        });
        self.contexts.attaches.skip();
        self.moment = at;
        Ok(Reply::Guard { guard })
    }

    pub(crate) fn entered(&mut self, at: Moment, place: u64, handle: u64) -> Result<Reply, Refusal>
        requires { place < length self.old.lanes }
        ensures { Serves self.old at place (Call.Entered handle) result self.new }
    {
        if self.guards.is_borrowed(handle) {
            return Err(Refusal::InUse);
        }
        self.enter(at, place, handle, true)
    }

    pub(crate) fn exit(&mut self, at: Moment, place: u64, guard: u64) -> Result<Reply, Refusal>
        requires { place < length self.old.lanes }
        ensures { Serves self.old at place (Call.Exit guard) result self.new }
    {
        laws::calls();
        let open = self.guards.take_on_lane(guard, place)?;
        let Guard {
            handle,
            place: _,
            owns: _,
            entry,
        } = open;
        let span = self.handles.at(handle);
        span.close_entry(entry, &mut self.world, &mut self.lanes[place as usize], at);
        self.moment = at;
        Ok(Reply::Done)
    }
}
