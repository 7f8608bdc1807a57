//! What spans are made with.
ghost use Rattle.std.specs.Prelude.{◌≡◌, is_some, Ok, Some};
ghost use Rattle.span_script.specs.declared.request.Request.{Request};
ghost use Rattle.span_script.specs.Effects.{effect_of};
ghost use Rattle.span_script.specs.Setups.{Setup};
ghost use Rattle.span_script.specs.Tables.{Effect, History, MadeSpan, tables};
ghost use Rattle.span_laws.specs.LegalHistories.{IsHistory};
ghost use Rattle.span_laws.specs.Makings.{IsMadeBy, HasContextOf, SeesContextOf, is_making};
ghost use Rattle.span_laws.specs.Records.{EachRecord, records_of_history};

/// A request makes a span exactly where it asks for one of a callsite that the directives in force admit. What the span is
/// made with is what the request says: the callsite's name and first attributes, the context of an explicit parent, of the
/// lane or of its current span, the request's moment, and the values of the fields.
pub fn makings()
    ensures admitted { (setup : Setup) (h : History) (request : Request) (e : Effect) → IsHistory setup h
        → effect_of setup (tables setup h) request ≡ Ok e → is_some e.new_span ≡ is_making setup (tables setup h) request }
    ensures told { (setup : Setup) (h : History) (request : Request) (e : Effect) (m : MadeSpan) → IsHistory setup h
        → effect_of setup (tables setup h) request ≡ Ok e → e.new_span ≡ Some m
        → IsMadeBy setup (tables setup h) request.at request.lane_place request.call m }
{}

/// Which contexts spans are put under: that of its record, where it is the own context of a span. So is what any request sees
/// of a span's own context that starts the span, or finds it started.
pub fn contexts()
    ensures under { (setup : Setup) (h : History) → IsHistory setup h
        → EachRecord (HasContextOf setup h) (tables setup h).closed (records_of_history setup h) }
    ensures seen { (setup : Setup) (h : History) → IsHistory setup h
        → EachRecord (SeesContextOf setup h) (tables setup h).closed (records_of_history setup h) }
{}
