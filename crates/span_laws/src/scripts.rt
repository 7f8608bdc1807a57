//! Of which histories the laws speak.
ghost use Rattle.std.specs.Prelude.{List};
ghost use Rattle.span_script.specs.declared.request.Request.{Request};
ghost use Rattle.span_script.specs.Outcomes.{history_of};
ghost use Rattle.span_script.specs.Setups.{Setup};
ghost use Rattle.span_laws.specs.LegalHistories.{IsHistory};

/// The history that a script's requests make is legal, whichever they are: so each law here speaks of all that
/// `trace_pipeline::Pipeline::run` gives.
pub fn scripts()
    ensures { (setup : Setup) (requests : List Request) → IsHistory setup (history_of setup requests) }
{}
