//! The tests that lines of both kinds have to pass.
ghost use Rattle.std.specs.Prelude.{◌≡◌};
ghost use Rattle.span_script.specs.Setups.{span_site, event_site};
ghost use Rattle.span_script.specs.declared.reply.What.TheVariants.{Site};
ghost use Rattle.thread_lines.specs.Answers.{AnswersTest};
ghost use Rattle.thread_lines.specs.Steps.{refuse_unless, need, time_tested, unknown_name, lane_tested};

use crate::stop::ScriptStop;
use otel_base::record::Moment;
use thread_script::ThreadScript;
use trace_base::callsite::{Callsite, Kind};
use trace_lines::{LAST_MOMENT, Refusal, Told, What};

/// Refuses unless this holds.
pub(crate) fn require(told: Told, holds: bool) -> Result<(), ScriptStop>
    ensures { AnswersTest (λ u. u) result (refuse_unless told holds) }
{
    if holds {
        Ok(())
    } else {
        Err(ScriptStop::Refused { told })
    }
}

/// The refusal of a name that names nothing.
pub(crate) fn unknown_name(what: What) -> Told
    ensures { result ≡ unknown_name what }
{
    Told::Step {
        refusal: Refusal::UnknownName { what },
    }
}

/// Tests that a moment is neither too late nor below the one before.
pub(crate) fn test_moment(before: Moment, at: Moment) -> Result<(), ScriptStop>
    ensures { AnswersTest (λ u. u) result (time_tested before at) }
{
    let refusal = Refusal::BadMoment { before, given: at };
    let is_bad = at < before || at > LAST_MOMENT;
    require(Told::Step { refusal }, !is_bad)
}

/// Tests that there is a lane at a place.
pub(crate) fn test_lane(script: &ThreadScript, place: usize) -> Result<(), ScriptStop>
    ensures { AnswersTest (λ u. u) result (lane_tested script.now place) }
{
    require(
        unknown_name(What::Lane),
        place < script.lanes.as_slice().len(),
    )
}

/// The callsite at a place, which has to make spans.
pub(crate) fn span_site(script: &ThreadScript, place: u64) -> Result<&Callsite, ScriptStop>
    ensures { AnswersTest (λ c. c.now) result (need Site (span_site script.now.callsites place)) }
{
    match script.callsites.as_slice().get(place as usize) {
        Some(callsite) if callsite.kind == Kind::Span => Ok(callsite),
        _ => Err(ScriptStop::Refused {
            told: unknown_name(What::Site),
        }),
    }
}

/// The callsite at a place, which has to make events.
pub(crate) fn event_site(script: &ThreadScript, place: u64) -> Result<&Callsite, ScriptStop>
    ensures { AnswersTest (λ c. c.now) result (need Site (event_site script.now.callsites place)) }
{
    match script.callsites.as_slice().get(place as usize) {
        Some(callsite) if callsite.kind == Kind::Event => Ok(callsite),
        _ => Err(ScriptStop::Refused {
            told: unknown_name(What::Site),
        }),
    }
}
