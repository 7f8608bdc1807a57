//! Answers that the contracts refuse, whatever the code.
ghost use Rattle.std.specs.Prelude.{◌≡◌, ◌≢◌, ◌<◌, ◌+◌, ◌++◌, ◌∷◌, [], ℕ, List, length, get_or};
ghost use Rattle.trace_tree.specs.declared.span.TreeSpan.{TreeSpan};
ghost use Rattle.trace_tree.specs.declared.node.Node.{Node};
ghost use Rattle.trace_tree.specs.declared.totals.TraceTotal.{TraceTotal};
ghost use Rattle.trace_tree.specs.Paths.{IsForest, path_at};
ghost use Rattle.trace_tree.specs.Totals.{IsTotals, of_trace};

/// No forest lacks a span, whether or not its parent is among the spans, and in none a sibling stands before one of a
/// smaller id.
pub fn forests()
    ensures whole { (rs : List TreeSpan) (nodes : List Node) (k : ℕ) (d : Node) → k < length rs
        → ((i : ℕ) → i < length nodes → (get_or nodes i d).place ≢ k) → ¬ (IsForest rs nodes) }
    ensures ordered { (rs : List TreeSpan) (nodes : List Node) (i j : ℕ) (d : Node) (p : List ℕ) (a b : ℕ)
        → i < j → j < length nodes → a < b
        → path_at rs (get_or nodes i d).place ≡ p ++ b ∷ [] → path_at rs (get_or nodes j d).place ≡ p ++ a ∷ []
        → ¬ (IsForest rs nodes) }
{}

/// No totals list a trace twice, or one in front of a smaller one, or count a span twice.
pub fn totals()
    ensures once { (rs : List TreeSpan) (ts : List TraceTotal) (i j : ℕ) (d : TraceTotal) → i < j → j < length ts
        → (get_or ts i d).trace ≡ (get_or ts j d).trace → ¬ (IsTotals rs ts) }
    ensures ascending { (rs : List TreeSpan) (ts : List TraceTotal) (i j : ℕ) (d : TraceTotal) → i < j → j < length ts
        → (get_or ts j d).trace < (get_or ts i d).trace → ¬ (IsTotals rs ts) }
    ensures counts { (rs : List TreeSpan) (ts : List TraceTotal) (i : ℕ) (d : TraceTotal) → i < length ts
        → (get_or ts i d).spans ≡ length (of_trace (get_or ts i d).trace rs) + 1 → ¬ (IsTotals rs ts) }
{}
