//! What an early start changes.
ghost use Rattle.std.specs.Prelude.{◌≡◌, List, map, true};
ghost use Rattle.span_script.specs.declared.request.Request.{Request};
ghost use Rattle.span_script.specs.Outcomes.{outcome_of};
ghost use Rattle.span_script.specs.Setups.{Setup};
ghost use Rattle.span_eager.specs.Early.{lazy_setup, eager_id, answers, MayStartEarly};
ghost use Rattle.span_eager.specs.Renaming.{renamed_answer, renamed_outcome};

/// Where spans start at their making, a script that may start them early has the outcome that it has without that, with
/// other ids; and so each request has the reply and the records that it has without that. The other id of a span is the number of its making, as
/// `span_laws` says of the ids of such a script.
pub fn early_starts()
    ensures each { (setup : Setup) (requests : List Request) → setup.layer.eager ≡ true → MayStartEarly (lazy_setup setup) requests
        → answers setup requests ≡ map (renamed_answer (eager_id (lazy_setup setup) requests)) (answers (lazy_setup setup) requests) }
    ensures outcome { (setup : Setup) (requests : List Request) → setup.layer.eager ≡ true → MayStartEarly (lazy_setup setup) requests
        → outcome_of setup requests ≡ renamed_outcome (eager_id (lazy_setup setup) requests) (outcome_of (lazy_setup setup) requests) }
{}
