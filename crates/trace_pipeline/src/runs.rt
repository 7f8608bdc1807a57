//! Whole scripts, run at once.
ghost use Rattle.std.specs.Prelude.{◌≡◌, ◌≢◌, [], map, IfSome, IfOk, OnOk, IfErr, Ok};
ghost use Rattle.span_script.specs.Admission.{opening_read, IsOpenError};
ghost use Rattle.span_script.specs.Setups.{HaveDistinctIds, setup_by};
ghost use Rattle.span_script.specs.Outcomes.{HasReplies, outcome_of};

use crate::pipeline::Pipeline;
use otel_base::list::Items;
use otel_base::memory::Memory;
use otel_base::record::Record;
use span_script::open_error::OpenError;
use span_script::outcome::Outcome;
use span_script::reply::{Refusal, Reply};
use span_script::request::Request;
use span_script::settings::Settings;
use std::alloc::Global;
use trace_base::discard::Discard;

impl Pipeline {
    ghost use Rattle.span_script.specs.Tables.{tables};
    ghost use Rattle.span_script.specs.Fits.{StandsFor};
    ghost use Rattle.span_script.specs.Outcomes.{HasRun};

    /// Stands for a whole script at once: its requests up to the first refused one, of which each reply is read off the
    /// requests before it. `trace_tool` steps line by line. `Directive` where `open` answers it; it may answer `Memory`,
    /// at any request too. The measures are given up.
    pub fn run(
        alloc: Global,
        settings: Settings,
        requests: Items<Request>,
    ) -> Result<Outcome, OpenError>
        requires { HaveDistinctIds (map (λ l. l.0) settings.lanes) }
        ensures ok { IfOk result (λ outcome. outcome ≡ outcome_of (setup_by settings) requests) }
        ensures replies { IfOk result (HasReplies requests) }
        ensures not_memory { IfOk result (λ outcome. IfSome outcome.refused (λ refused. refused.1 ≢ Refusal.Memory)) }

        // Texts that are read are refused for want of memory alone.
        ensures read { OnOk result (opening_read settings.filter settings.counting ≡ Ok tt) }
        ensures refused { IfErr result (IsOpenError (opening_read settings.filter settings.counting)) }
        ensures complete { opening_read settings.filter settings.counting ≡ Ok tt
            → IfErr result (λ error. error ≡ OpenError.Memory) }
    {
        let mut pipeline = Pipeline::open(alloc, settings)?;
        let outcome = pipeline.run_all(alloc, requests);
        pipeline.discard();
        outcome.map_err(|_| OpenError::Memory)
    }

    // The outcome of requests, none having come before.
    fn run_all(&mut self, alloc: Global, requests: Items<Request>) -> Result<Outcome, Memory>
        ensures ok { StandsFor self.old (tables self.old.setup []) → self.old.recording.finished ≡ []
            → IfOk result (λ outcome. outcome ≡ outcome_of self.old.setup requests) }
        ensures not_memory { IfOk result (λ outcome. IfSome outcome.refused (λ refused. refused.1 ≢ Refusal.Memory)) }
    {
        let mut replies = Vec::new(alloc);
        let refused = self.serve(requests.into_vec(), &mut replies)?;
        let left_open = self.open_spans();
        Ok(Outcome {
            replies: Items::from(replies),
            records: self.take_records(alloc)?,
            refused,
            left_open,
        })
    }

    // Adds the replies to requests, none having come before, and gives the first refused one.
    fn serve(
        &mut self,
        requests: Vec<Request>,
        replies: &mut Vec<Reply>,
    ) -> Result<Option<(u64, Refusal)>, Memory>
        ensures ok { StandsFor self.old (tables self.old.setup []) → self.old.recording.finished ≡ []
            → replies.old.items ≡ []
            → IfOk result (HasRun self.old.setup requests.items self.new replies.new.items) }
        ensures not_memory { IfOk result (λ refused. IfSome refused (λ refused. refused.1 ≢ Refusal.Memory)) }
    {
        for request in requests {
            match self.step(request) {
                Ok(reply) => replies.push(reply)?,
                Err(Refusal::Memory) => return Err(Memory),
                // Each request before has a reply.
                Err(refusal) => return Ok(Some((replies.len() as u64, refusal))),
            }
        }
        Ok(None)
    }

    // Takes all records.
    fn take_records(&mut self, alloc: Global) -> Result<Items<Record>, Memory>
        ensures { IfOk result (λ records. records ≡ self.old.recording.finished) }
    {
        let mut records = Items::new(alloc);
        while let Some(finished) = self.take_record() {
            records.push(finished)?;
        }
        Ok(records)
    }
}
