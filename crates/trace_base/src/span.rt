//! Ids of spans, the places that new ones are given, and what a close answers.
ghost use Rattle.std.specs.Prelude.{◌≡◌, ◌+◌, ◌^◌, ◌<◌, ℕ, Option};
ghost use Rattle.trace_base.specs.Spans.{span_of_parent};

use std::marker::Model;

/// The name of a span: a number that isn't 0, which contracts see as the place of its span among all that were made;
/// `tracing_core::span::Id`.
#[derive(Clone, Copy, PartialEq, Eq)]
pub struct Id {
    number: u64,
}

impl Model for Id {
    ghost use Rattle.std.specs.Prelude.{ℕ, ◌-◌, ◌+◌, ◌<◌};
    ghost use Rattle.trace_base.specs.Ids.{number_back};

    ghost Value = { ℕ };

    ghost view = { λ i. i.number - 1 };

    ghost invariant = { λ i. 0 < i.number };

    ghost inverse = { λ n. record { number = n + 1 } };

    ghost inverse_ok = { λ i h. number_back i.number h };
}

impl Id {
    /// The name of the span at a place among all that were made, from 0.
    pub fn at(place: u64) -> Id
        requires { place < 2 ^ 63 }
        ensures { result ≡ place }
    {
        Id { number: place + 1 }
    }

    /// The place of its span among all that were made, from 0.
    pub fn place(&self) -> u64
        ensures { result ≡ self.now }
    {
        self.number - 1
    }

    /// The name with a number, which isn't 0; `tracing_core::span::Id::from_u64`.
    pub fn from_u64(number: u64) -> Id
        requires { 0 < number }
        ensures { result + 1 ≡ number }
    {
        Id { number }
    }

    /// Its number, from 1; `tracing_core::span::Id::into_u64`.
    pub fn into_u64(&self) -> u64
        ensures { result ≡ self.now + 1 }
    {
        self.number
    }
}

/// What may stand for a span, as `Option<Id>` does in `tracing_core`; `tracing::span::AsId`, which others may
/// implement here too.
pub trait AsId {
    /// The span that it stands for, if it stands for one.
    ghost id_of: { Self → Option ℕ };

    /// The id of that span.
    fn as_id(&self) -> Option<Id>
        ensures { result ≡ id_of self.now };
}

/// Where a new span or an event goes: the parent that it is given.
#[derive(Clone, Copy, PartialEq, Eq)]
pub enum Parent {
    /// It is a root, whatever the lane's current span is.
    Root,
    /// Under the lane's current span, if there is one.
    Current,
    /// Under this span.
    Of(Id),
}

impl Parent {
    /// The span that it names on a lane with this current span.
    pub fn span(self, current: Option<Id>) -> Option<Id>
        ensures { result ≡ span_of_parent current self }
    {
        match self {
            Parent::Root => None,
            Parent::Current => current,
            Parent::Of(id) => Some(id),
        }
    }
}

/// What the release of a hold answers.
#[derive(Clone, Copy)]
pub struct Closing {
    /// Whether the span closed, since no hold was left.
    pub closed: bool,
    /// The parent that is to be released next, which there is only where the span closed.
    pub next: Option<Id>,
}
