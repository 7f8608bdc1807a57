//! What closes spans, and in which order.
ghost use Rattle.std.specs.Prelude.{◌≡◌, ℕ, List, [], ◌∷◌, ◌++◌, false, true, Ok, Some};
ghost use Rattle.trace_base.specs.Spans.{is_in};
ghost use Rattle.span_script.specs.declared.request.Request.{Request};
ghost use Rattle.span_script.specs.Effects.{effect_of};
ghost use Rattle.span_script.specs.Setups.{Setup};
ghost use Rattle.span_script.specs.Tables.{Effect, History, Scope, made_span_at, slot_at, tables};
ghost use Rattle.span_laws.specs.Closes.{BeginsWith, is_drop};
ghost use Rattle.span_laws.specs.LegalHistories.{IsHistory};

/// Only a drop closes spans, so no exit does. What it closes is one chain: the span of its handle, the parent of that, and
/// so on up, none left out. A child closes before its parent.
pub fn chains()
    ensures only_drops { (setup : Setup) (h : History) (request : Request) (e : Effect) → IsHistory setup h
        → effect_of setup (tables setup h) request ≡ Ok e → is_drop request.call ≡ false → e.closes ≡ [] }
    ensures one_chain { (setup : Setup) (h : History) (request : Request) (e : Effect) (handle : ℕ) (scope : Scope)
        → IsHistory setup h → effect_of setup (tables setup h) request ≡ Ok e
        → slot_at (tables setup h).handles handle ≡ Some scope → e.spent_handle ≡ Some handle
        → BeginsWith e.closes scope }
    ensures children_first { (setup : Setup) (h : History) (s p : ℕ) (up fore rest : List ℕ) → IsHistory setup h
        → (made_span_at (tables setup h).spans s).scope ≡ s ∷ p ∷ up
        → (tables setup h).closed ≡ fore ++ p ∷ rest → is_in s fore ≡ true }
{}
