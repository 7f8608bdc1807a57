//! Values by the ids of spans, the latest first.
ghost use Rattle.std.specs.Prelude.{◌≡◌, ◌↔◌, ◌<◌, ◌≤◌, ◌+◌, ℕ, List, [], ◌∷◌, ◌++◌, length, drop, false, true, IsNone, IfSome, IsErr, IfErr, OnOk, OnErr, option_map};
ghost use Rattle.std.specs.List.{list_any};
ghost use Rattle.trace_base.specs.Spans.{without_last};
ghost use Rattle.otel_state.specs.Stack.{is_pair_of, last_passing, IsLastPlace};

use otel_base::memory::Memory;
use std::alloc::Global;
use std::marker::Model;
use trace_base::span::Id;

/// Values with the ids of their spans, in the order in which they came; `tracing_opentelemetry::stack::IdValueStack`.
#[derive(Drop)]
pub struct IdValueStack<T> {
    items: Vec<(Id, T)>,
}

impl<T> Model for IdValueStack<T> {
    ghost use Rattle.std.specs.Prelude.{List, ℕ};

    ghost Value = { List (ℕ × T) };

    ghost view = { λ s. s.items.items };
}

impl<T> IdValueStack<T> {
    /// A stack without values, which takes no memory yet.
    pub fn new(alloc: Global) -> IdValueStack<T>
        ensures { result ≡ [] }
    {
        IdValueStack {
            items: Vec::new(alloc),
        }
    }

    /// Puts a value of a span on top. It is given back where there is no memory for it.
    pub fn push(&mut self, id: Id, value: T) -> Result<(), (T, Memory)>
        ensures ok { OnOk result (self.new ≡ self.old ++ (id, value) ∷ []) }
        ensures back { IfErr result (λ refused. refused.0 ≡ value) }
        ensures memory_leaves { OnErr result (self.new ≡ self.old) }
    {
        match self.items.push((id, value)) {
            Ok(()) => Ok(()),
            Err(refused) => {
                let (_, value) = refused.value;
                Err((value, Memory))
            }
        }
    }

    /// Takes out the latest value of a span; none exactly where it has none. The others keep their order.
    pub fn pop(&mut self, id: &Id) -> Option<T>
        ensures latest { result ≡ option_map (λ pair. pair.1) (last_passing (is_pair_of id.now) self.old) }
        ensures others { self.new ≡ without_last (is_pair_of id.now) self.old }
        ensures none { IsNone result ↔ (list_any (is_pair_of id.now) self.old ≡ false) }
    {
        let at = last_place(self.items.as_slice(), *id)?;
        let (_, value) = self.items.remove(at);
        Some(value)
    }

    /// How many values there are.
    pub fn len(&self) -> usize
        ensures { result ≡ length self.now }
    {
        self.items.len()
    }
}

// The place of the last value of a span, if it has one.
fn last_place<T>(items: &[(Id, T)], id: Id) -> Option<usize>
    ensures some { IfSome result (IsLastPlace (is_pair_of id) items.now) }
    ensures none { IsNone result → list_any (is_pair_of id) items.now ≡ false }
{
    let mut at = items.len();
    while at > 0 {
        at -= 1;
        if items[at].0 == id {
            return Some(at);
        }
    }
    None
}
