//! Three handles, by name.
ghost use Rattle.std.specs.Prelude.{◌≡◌, false, Some, None, IfSome, option_map};
ghost use Rattle.span_handles.specs.Handles.{no_handle};
ghost use Rattle.explain_stack.specs.Places.{IsNoneOf, handle_named, with_named};

use span_handles::entry::Entry;
use span_handles::span::Span;
use std::marker::Model;
use std::mem;
use trace_base::discard::Discard;

/// A handle, and the entries of its span while they are open: on the lane on which calls are made, and on the other one.
pub struct Slot {
    pub(crate) span: Span,
    pub(crate) entry: Option<Entry>,
    pub(crate) other: Option<Entry>,
}

impl Model for Slot {
    ghost use Rattle.std.specs.Prelude.{◌≡◌, IfSome};
    ghost use Rattle.span_handles.specs.Handles.{Handle};

    ghost Value = { Handle };

    ghost view = { λ s. s.span };

    ghost invariant = { λ s. IfSome s.entry (λ e. e ≡ s.span.held) × IfSome s.other (λ e. e ≡ s.span.held) };
}

impl Slot {
    /// A handle whose span isn't entered.
    pub fn of(span: Span) -> Slot
        ensures { result ≡ span }
    {
        Slot {
            span,
            entry: None,
            other: None,
        }
    }

    /// The handle.
    pub fn span(&self) -> &Span
        ensures { result.now ≡ self.now }
    {
        &self.span
    }

    /// Whether an entry is open.
    pub fn is_entered(&self) -> bool {
        self.entry.is_some() || self.other.is_some()
    }

    /// The lanes change places.
    pub fn swap_lanes(&mut self)
        ensures { self.new ≡ self.old }
    {
        mem::swap(&mut self.entry, &mut self.other);
    }

    /// The handle; entries stay open for good.
    pub fn into_span(self) -> Span
        ensures { result ≡ self }
    {
        let Slot { span, entry, other } = self;
        entry.discard();
        other.discard();
        span
    }

    /// Keeps its hold and its entries for good.
    pub fn discard(self) {
        self.into_span().discard();
    }
}

/// Three handles.
pub struct Handles {
    pub(crate) a: Slot,
    pub(crate) b: Slot,
    pub(crate) c: Slot,
}

impl Handles {
    /// Disabled ones.
    pub fn new() -> Handles
        ensures { result ≡ record { a = no_handle; b = no_handle; c = no_handle } }
    {
        Handles {
            a: Slot::of(Span::none()),
            b: Slot::of(Span::none()),
            c: Slot::of(Span::none()),
        }
    }

    /// The handle of a name; none where there is no such name.
    pub fn get(&self, name: &str) -> Option<&Slot>
        ensures { option_map (λ slot. slot.now) result ≡ handle_named name.now self.now }
    {
        match name {
            "a" => Some(&self.a),
            "b" => Some(&self.b),
            "c" => Some(&self.c),
            _ => None,
        }
    }

    /// Takes the handle of a name, and leaves a disabled one there; none where there is no such name.
    pub fn take(&mut self, name: &str) -> Option<Slot>
        ensures value { result ≡ handle_named name.now self.old }
        ensures rest { self.new ≡ with_named name.now no_handle self.old }
        ensures none { result ≡ None → self.new ≡ self.old }
    {
        match name {
            "a" => Some(mem::replace(&mut self.a, Slot::of(Span::none()))),
            "b" => Some(mem::replace(&mut self.b, Slot::of(Span::none()))),
            "c" => Some(mem::replace(&mut self.c, Slot::of(Span::none()))),
            _ => None,
        }
    }

    /// The same, unless the handle is entered or another one is of its span.
    #[tactic(auto, using(crate::proofs::Held::put_back))]
    pub fn take_sole(&mut self, name: &str) -> Option<Slot>
        ensures value { IfSome result (λ slot. Some slot ≡ handle_named name.now self.old) }
        ensures rest { IfSome result (λ slot. self.new ≡ with_named name.now no_handle self.old) }
        ensures last { IfSome result (IsNoneOf self.new) }
        ensures none { result ≡ None → self.new ≡ self.old }
    {
        let slot = self.take(name)?;
        if slot.is_entered() || self.has(&slot.span) {
            self.put(name, slot);
            return None;
        }
        Some(slot)
    }

    /// Puts a handle where one was taken.
    pub fn put(&mut self, name: &str, slot: Slot)
        ensures { self.new ≡ with_named name.now slot self.old }
    {
        match name {
            "a" => mem::replace(&mut self.a, slot).discard(),
            "b" => mem::replace(&mut self.b, slot).discard(),
            "c" => mem::replace(&mut self.c, slot).discard(),
            _ => slot.discard(),
        }
    }

    /// The lanes change places.
    pub fn swap_lanes(&mut self)
        ensures { self.new ≡ self.old }
    {
        self.a.swap_lanes();
        self.b.swap_lanes();
        self.c.swap_lanes();
    }

    /// Whether one of them is of a span.
    pub fn has(&self, span: &Span) -> bool
        ensures { result ≡ false → IsNoneOf self.now span.now }
    {
        self.a.span.same_span(span) || self.b.span.same_span(span) || self.c.span.same_span(span)
    }

    /// Keeps their holds for good.
    pub fn discard(self) {
        let Handles { a, b, c } = self;
        a.discard();
        b.discard();
        c.discard();
    }
}
