//! The ids of spans, by the order in which they started.
ghost use Rattle.std.specs.Prelude.{◌≡◌, ◌≤◌, ◌<◌, ◌+◌, ℕ, true, length, map};
ghost use Rattle.std.specs.List.{range_with_len};
ghost use Rattle.otel_layer.specs.Table.{data_at};
ghost use Rattle.span_script.specs.calls.Spans.{is_open};
ghost use Rattle.span_script.specs.Setups.{Setup};
ghost use Rattle.span_script.specs.Tables.{History, tables};
ghost use Rattle.span_laws.specs.LegalHistories.{IsHistory, occurrences};
ghost use Rattle.span_laws.specs.Records.{records_of_history};
ghost use Rattle.span_laws.specs.Starts.{place_in, starting_order};
ghost use Rattle.span_laws.specs.Telling.{id_of, id_in_data};

/// The spans that started have the ids 1, 2 and so on, in the order of their starts, each a different one. An open span
/// has the id 0 until it starts, and no record has it. Where spans start early, each has as its id the number of its making,
/// from 1 on.
pub fn ids()
    ensures started_once { (h : History) (s : ℕ) → occurrences s (starting_order h) ≤ 1 }
    ensures from_one { (h : History) → map (place_in (starting_order h)) (starting_order h) ≡ range_with_len 1 (length (starting_order h)) }
    ensures of_open { (setup : Setup) (h : History) (s : ℕ) → IsHistory setup h
        → is_open (tables setup h).handles s ≡ true
        → id_in_data (data_at s (tables setup h).recording.spans) ≡ place_in (starting_order h) s }
    ensures of_records { (setup : Setup) (h : History) → IsHistory setup h
        → map id_of (records_of_history setup h) ≡ map (place_in (starting_order h)) (tables setup h).closed }
    ensures no_two_alike { (setup : Setup) (h : History) (id : ℕ) → IsHistory setup h
        → occurrences id (map id_of (records_of_history setup h)) ≤ 1 }
    ensures none_zero { (setup : Setup) (h : History) → IsHistory setup h
        → occurrences 0 (map id_of (records_of_history setup h)) ≡ 0 }
    ensures in_order_of_making { (setup : Setup) (h : History) → IsHistory setup h → setup.layer.eager ≡ true
        → starting_order h ≡ range_with_len 0 (length (tables setup h).spans) }
    ensures early { (setup : Setup) (h : History) (s : ℕ) → IsHistory setup h → setup.layer.eager ≡ true
        → s < length (tables setup h).spans → place_in (starting_order h) s ≡ s + 1 }
{}
