//! What holds of every pipeline and its history. Each law is a function that does nothing.
ghost use Rattle.std.specs.Prelude.{◌≡◌, ℕ, ◌∷◌, ◌&&◌, not, nat_lt, None, Some, slice_set};
ghost use Rattle.trace_base.specs.Spans.{span_at, is_in};
ghost use Rattle.span_handles.specs.Worlds.{ReleasesChain, closed_in};
ghost use Rattle.span_script.specs.Tables.{Tables, Scope, slot_at, after_effect};
ghost use Rattle.span_script.specs.calls.Here.{Here};
ghost use Rattle.span_script.specs.calls.Spans.{is_open, closed_of, drop_effect};
ghost use Rattle.span_script.specs.Fits.{PipelineState, Fits};

/// A span has a hold exactly while some unspent handle names it or one of its descendants, and a drop closes those that
/// its effect names, in their order: each before its parent.
pub fn holds()
    ensures open { (k : PipelineState) (t : Tables) → Fits k t → (s : ℕ)
        → nat_lt 0 (span_at k.spans.made s).holds ≡ is_open t.handles s }
    ensures closes { (k next : PipelineState) (here : Here) (handle : ℕ) (scope : Scope) → Fits k here.tables
        → slot_at here.tables.handles handle ≡ Some scope
        → Fits next (after_effect here.tables (drop_effect here handle scope)) → (s : ℕ)
        → is_in s (closed_of (slice_set here.tables.handles handle None) scope)
        ≡ (nat_lt 0 (span_at k.spans.made s).holds && not (nat_lt 0 (span_at next.spans.made s).holds)) }
    ensures order { (k next : PipelineState) (here : Here) (handle s : ℕ) (up : Scope) → Fits k here.tables
        → slot_at here.tables.handles handle ≡ Some (s ∷ up)
        → Fits next (after_effect here.tables (drop_effect here handle (s ∷ up)))
        → (r : ReleasesChain (Some s) k.spans next.spans)
        → closed_in (Some s) k.spans next.spans r ≡ closed_of (slice_set here.tables.handles handle None) (s ∷ up) }
{}
