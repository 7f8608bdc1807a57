//! The open entries of one lane.
ghost use Rattle.std.specs.Prelude.{◌≡◌, ◌==◌, ◌<◌, ◌∷◌, [], ◌++◌, ◌≢◌, ℕ, length, OnOk, OnErr, IfOk, Err, vec_len, vec_capacity, if◌then◌else◌, slice_index_or, true, None};
ghost use Rattle.std.specs.List.{last_or};
ghost use Rattle.otel_base.specs.declared.enter_error.EnterError.TheVariants.{Full};
ghost use Rattle.trace_base.specs.Spans.{is_in, times_in, current_of, without_last};

use otel_base::enter_error::EnterError;
use std::alloc::Global;
use std::marker::Model;
use trace_base::span::Id;

// The open entries of a lane.
#[derive(Drop)]
pub(crate) struct LaneEntries {
    lane: u64,
    ids: Vec<Id>,
    // The spans of the entries, each once, in the order of their first entries: the last is the current span.
    spans: Vec<Id>,
}

impl Model for LaneEntries {
    ghost use Rattle.std.specs.Prelude.{◌≡◌};
    ghost use Rattle.trace_base.specs.Spans.{Entries};
    ghost use Rattle.span_registry.specs.Firsts.{firsts_of};

    ghost Value = { Entries };

    ghost view = { λ l. record { lane = l.lane; ids = l.ids.items } };

    ghost invariant = { λ l. l.spans.items ≡ firsts_of l.ids.items };
}

impl LaneEntries {
    // A lane without entries.
    pub(crate) fn new(alloc: Global, lane: u64) -> LaneEntries
        ensures { result ≡ record { lane = lane; ids = [] } }
    {
        LaneEntries {
            lane,
            ids: Vec::new(alloc),
            spans: Vec::new(alloc),
        }
    }

    // The lane's id.
    pub(crate) fn lane(&self) -> u64
        ensures { result ≡ self.now.lane }
    {
        self.lane
    }

    // The entries, in order.
    pub(crate) fn ids(&self) -> &[Id]
        ensures { result.now ≡ self.now.ids }
    {
        self.ids.as_slice()
    }

    // The current span.
    pub(crate) fn current(&self) -> Option<Id>
        ensures { result ≡ current_of self.now.ids }
    {
        last(self.spans.as_slice())
    }

    // Adds an entry, and answers whether the span had one already.
    pub(crate) fn push(&mut self, id: Id) -> Result<bool, EnterError>
        ensures not_full { ¬ (result ≡ Err Full) }
        ensures again { IfOk result (λ again. again ≡ is_in id self.old.ids) }
        ensures ok { OnOk result (self.new ≡ record self.old { ids = self.old.ids ++ id ∷ [] }) }
        ensures memory_leaves { OnErr result (self.new ≡ self.old) }
    {
        let again = contains(self.ids.as_slice(), id);
        self.spans.reserve(1)?;
        self.ids.push(id)?;
        push_unless(again, &mut self.spans, id);
        Ok(again)
    }

    // Removes the last entry of the span, and answers whether it was the only one.
    pub(crate) fn remove(&mut self, id: Id) -> bool
        requires { 0 < times_in id self.old.ids }
        ensures only { result ≡ (times_in id self.old.ids == 1) }
        ensures ids { self.new ≡ record self.old { ids = without_last (λ x. x == id) self.old.ids } }
    {
        let only = is_only(self.ids.as_slice(), id);
        remove_last(&mut self.ids, id);
        remove_if(only, &mut self.spans, id);
        only
    }
}

// The last of these.
fn last(ids: &[Id]) -> Option<Id>
    ensures { result ≡ last_or None ids.now }
{
    let count = ids.len();
    if count == 0 {
        return None;
    }
    Some(ids[count - 1])
}

// Whether one of these is the span.
fn contains(ids: &[Id], id: Id) -> bool
    ensures { result ≡ is_in id ids.now }
{
    ids.iter().any(|x| *x == id)
}

// Whether exactly one of these is the span.
fn is_only(ids: &[Id], id: Id) -> bool
    ensures { result ≡ (times_in id ids.now == 1) }
{
    ids.iter().filter(|x| **x == id).count() == 1
}

// Adds the span, unless it stands there already.
fn push_unless(again: bool, spans: &mut Vec<Id>, id: Id)
    requires { vec_len spans.old < vec_capacity spans.old }
    ensures { spans.new.items ≡ (if again then spans.old.items else spans.old.items ++ id ∷ []) }
{
    if !again {
        spans.push_reserved(id);
    }
}

// Removes the span, if it has no entry left.
fn remove_if(only: bool, spans: &mut Vec<Id>, id: Id)
    requires { only ≡ true → 0 < times_in id spans.old.items }
    ensures { spans.new.items ≡
        (if only then without_last (λ x. x == id) spans.old.items else spans.old.items) }
{
    if only {
        remove_last(spans, id);
    }
}

// Removes the last of these.
fn remove_last(ids: &mut Vec<Id>, id: Id)
    requires { 0 < times_in id ids.old.items }
    ensures { ids.new.items ≡ without_last (λ x. x == id) ids.old.items }
{
    let at = last_place(ids.as_slice(), id);
    ids.remove(at);
}

// The last place of the span.
fn last_place(ids: &[Id], id: Id) -> usize
    requires { 0 < times_in id ids.now }
    ensures within { result < length ids.now }
    ensures passes { slice_index_or ids.now result 0 ≡ id }
    ensures last { (k : ℕ) → result < k → k < length ids.now → slice_index_or ids.now k 0 ≢ id }
{
    let mut above = ids.len();
    while above > 0 {
        above -= 1;
        if ids[above] == id {
            return above;
        }
    }
    0
}
