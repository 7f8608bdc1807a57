//! Asking the gate, and putting another filter in force.
ghost use Rattle.std.specs.Prelude.{◌<◌, length};
ghost use Rattle.span_script.specs.declared.request.Call.{Call};

use crate::filters::read_filter;
use crate::pipeline::Pipeline;
use otel_base::record::Moment;
use otel_base::text::Text;
use span_script::open_error::OpenError;
use span_script::reply::{Refusal, Reply, What};
use span_stack::{admits, put_in_force};

impl Pipeline {
    ghost use Rattle.span_script.specs.Fits.{Serves};

    pub(crate) fn enabled(&mut self, at: Moment, place: u64, site: u64) -> Result<Reply, Refusal>
        requires { place < length self.old.lanes }
        ensures { Serves self.old at place (Call.Enabled site) result self.new }
    {
        let Some(id) = self.world.site_at(site) else {
            return Err(Refusal::UnknownName { what: What::Site });
        };
        let enabled = admits(&self.world, &self.lanes[place as usize], id);
        self.moment = at;
        Ok(Reply::Enabled { enabled })
    }

    pub(crate) fn reload(&mut self, at: Moment, place: u64, text: Text) -> Result<Reply, Refusal>
        ensures { Serves self.old at place (Call.Reload text) result self.new }
    {
        let filter = match read_filter(*self.lanes.allocator(), false, text.as_str()) {
            Ok(filter) => filter,
            Err(error) => return Err(Refusal::of_reload(error)),
        };
        put_in_force(&mut self.world, self.dispatch, filter)?;
        self.moment = at;
        Ok(Reply::Done)
    }
}
