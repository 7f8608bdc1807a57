//! The contexts that are attached to a lane.
ghost use Rattle.std.specs.Prelude.{◌≡◌, ◌↔◌, ◌+◌, ◌<◌, ◌≤◌, ◌++◌, [], ◌∷◌, ℕ, length, Err, IfOk, IsOk, OnOk, OnErr, IfSome, IsNone, false, true, ◌^◌, slice_index_or};
ghost use Rattle.otel_base.specs.Stack.{has_number, without_number, next_number, last_context, empty_context, StackValue, IsReadyToAttach};
ghost use Rattle.otel_base.specs.declared.enter_error.EnterError.TheVariants.{Full, Memory};
ghost use Rattle.otel_base.specs.declared.stack.TheConstants.{MAX_CONTEXTS};

use crate::context::Context;
use crate::enter_error::EnterError;
use std::alloc::Global;
use std::marker::Model;

/// How many contexts may be live at once.
pub const MAX_CONTEXTS: usize = 65_534;

/// What an attach gives, and what its detach takes: `opentelemetry::ContextGuard`, which isn't spent by itself.
/// It has to be spent, by `ContextStack::detach` or by `discard`.
pub struct Attached {
    number: u64,
}

impl Model for Attached {
    ghost use Rattle.std.specs.Prelude.{ℕ};

    ghost Value = { ℕ };

    ghost view = { λ a. a.number };
}

impl Attached {
    /// Spends it and leaves its context attached for good.
    pub fn discard(self) {
        let Attached { number: _ } = self;
    }
}

/// The contexts that are attached to a lane, in the order of their attaches; the stack of `opentelemetry::Context`.
/// Any of them may be detached, wherever it stands.
#[derive(Drop)]
pub struct ContextStack {
    items: Vec<(u64, Context)>,
}

impl Model for ContextStack {
    ghost use Rattle.std.specs.Prelude.{◌≤◌, length, vec_capacity};
    ghost use Rattle.otel_base.specs.Stack.{StackValue, NumbersRise, room_left};

    ghost Value = { StackValue };

    ghost view = { λ s. record { live = s.items.items; room = room_left s.items.items (vec_capacity s.items) } };

    ghost invariant = { λ s. NumbersRise 0 s.items.items × (length s.items.items ≤ 65534) };
}

impl ContextStack {
    /// A stack without contexts, which takes no memory yet.
    pub fn new(alloc: Global) -> ContextStack
        ensures { result.live ≡ [] }
    {
        ContextStack {
            items: Vec::new(alloc),
        }
    }

    /// Attaches a context above all others. It is `Full` exactly where 65,534 are live.
    pub fn attach(&mut self, context: Context) -> Result<Attached, EnterError>
        ensures ok { IfOk result (λ number. self.new.live ≡ self.old.live ++ (number, context) ∷ []) }
        ensures number { IfOk result (λ number. has_number number self.old.live ≡ false) }
        ensures holds { IfOk result (λ number. has_number number self.new.live ≡ true) }
        ensures full { (result ≡ Err Full) ↔ (length self.old.live ≡ MAX_CONTEXTS) }
        ensures err_leaves { OnErr result (self.new.live ≡ self.old.live) }

        // An attach uses up room for one.
        ensures ready { IsReadyToAttach self.old → IsOk result }
        ensures with_room { 0 < self.old.room → ¬ (result ≡ Err Memory) }
        ensures room { self.old.room ≤ self.new.room + 1 }
    {
        if self.items.len() >= MAX_CONTEXTS {
            return Err(EnterError::Full);
        }
        let Some(number) = next_number(self.items.as_slice()) else {
            return Err(EnterError::Memory);
        };
        self.items.push((number, context))?;
        Ok(Attached { number })
    }

    /// Sees to it that the next attach has the memory it needs, whatever is detached until then. It is `Full` exactly
    /// where 65,534 are live.
    pub fn reserve(&mut self) -> Result<(), EnterError>
        ensures ok { OnOk result (IsReadyToAttach self.new) }
        ensures leaves { self.new.live ≡ self.old.live }
        ensures full { (result ≡ Err Full) ↔ (length self.old.live ≡ MAX_CONTEXTS) }
        ensures room { self.old.room ≤ self.new.room }
    {
        if self.items.len() >= MAX_CONTEXTS {
            return Err(EnterError::Full);
        }
        if next_number(self.items.as_slice()).is_none() {
            return Err(EnterError::Memory);
        }
        self.items.reserve(1)?;
        Ok(())
    }

    /// Detaches the context of one attach, whichever stand above it. The cost is that of passing those.
    pub fn detach(&mut self, attached: Attached)
        requires { has_number attached self.old.live ≡ true }
        ensures live { self.new.live ≡ without_number attached self.old.live }
        ensures ready { IsReadyToAttach self.old → IsReadyToAttach self.new }
        ensures room { self.old.room ≤ self.new.room }
    {
        let Attached { number } = attached;
        let at = index_of(self.items.as_slice(), number);
        self.items.remove(at);
    }

    /// The context that was attached last of those that are live, the empty one where none is.
    pub fn current(&self) -> Context
        ensures { result ≡ last_context empty_context self.now.live }
    {
        match self.items.as_slice().last() {
            Some(item) => item.1,
            None => Context::empty(),
        }
    }

    /// How many contexts are live.
    pub fn live(&self) -> u64
        ensures value { result ≡ length self.now.live }
        ensures most { result ≤ 65534 }
    {
        self.items.len() as u64
    }
}

// One more than the number of the last item, 0 where there is none. There is none past 2^64 - 1, which no lane lives to
// see: all numbers begin again from 0 when nothing is attached.
fn next_number(items: &[(u64, Context)]) -> Option<u64>
    ensures some { IfSome result (λ number. number ≡ next_number 0 items.now) }
    ensures none { IsNone result → 2 ^ 64 ≤ next_number 0 items.now }
{
    match items.last() {
        Some(item) => item.0.checked_add(1),
        None => Some(0),
    }
}

// Where the item with a number stands, searched from the end, since the newest mostly goes first.
fn index_of(items: &[(u64, Context)], number: u64) -> usize
    requires { has_number number items.now ≡ true }
    ensures within { result < length items.now }
    ensures found { (d : ℕ × Context) → (slice_index_or items.now result d).0 ≡ number }
{
    let mut above = items.len();
    while above > 0 {
        above -= 1;
        if items[above].0 == number {
            return above;
        }
    }
    0
}
