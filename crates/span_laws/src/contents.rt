//! What the records of each history are: one for each closed span, the content of its making and its ops.
ghost use Rattle.std.specs.Prelude.{◌≡◌, length, Ok};
ghost use Rattle.span_script.specs.declared.request.Request.{Request};
ghost use Rattle.span_script.specs.Effects.{effect_of};
ghost use Rattle.span_script.specs.Setups.{Setup};
ghost use Rattle.span_script.specs.Tables.{Effect, History, records_of, tables};
ghost use Rattle.span_laws.specs.LegalHistories.{IsHistory};
ghost use Rattle.span_laws.specs.Makings.{IsRecordOf};
ghost use Rattle.span_laws.specs.Records.{EachRecord, records_of_history};

/// The records of a history are as many as its closed spans, and in their order. Each is the content of what the request
/// says that made its span and of the ops that requests did to it, with no entry open, at the moment of its close; the ids
/// of its start are those of a recorder for its place among the starts.
pub fn contents()
    ensures as_many_as_closed { (setup : Setup) (h : History) → IsHistory setup h
        → length (records_of_history setup h) ≡ length (tables setup h).closed }
    ensures as_many_as_close { (setup : Setup) (h : History) (request : Request) (e : Effect) → IsHistory setup h
        → effect_of setup (tables setup h) request ≡ Ok e
        → length (records_of (tables setup h) e) ≡ length e.closes }
    ensures contents { (setup : Setup) (h : History) → IsHistory setup h
        → EachRecord (IsRecordOf setup h) (tables setup h).closed (records_of_history setup h) }
{}
