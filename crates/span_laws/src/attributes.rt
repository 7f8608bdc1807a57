//! The attributes of records.
ghost use Rattle.otel_state.specs.Content.{attributes_of, counted_of};
ghost use Rattle.span_script.specs.Setups.{Setup};
ghost use Rattle.span_script.specs.Tables.{History, made_span_at, tables};
ghost use Rattle.span_laws.specs.LegalHistories.{IsHistory};
ghost use Rattle.span_laws.specs.Records.{EachRecord, ops_of, records_of_history};
ghost use Rattle.span_laws.specs.Telling.{TellsAttributes};

/// A record's attributes are those that its span was made with, then those that each request added, in order, and then
/// those of the close, of which one is how many events were counted, where events are.
pub fn attributes()
    ensures { (setup : Setup) (h : History) → IsHistory setup h
        → EachRecord (λ s r. TellsAttributes setup (made_span_at (tables setup h).spans s).made_with.attributes
        (attributes_of (ops_of r.context h s)) (counted_of (ops_of r.context h s)) r)
        (tables setup h).closed (records_of_history setup h) }
{}
