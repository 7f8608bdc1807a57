//! What requests are answered, and why they are refused.
ghost use Rattle.std.specs.Prelude.{◌≡◌};
ghost use Rattle.span_script.specs.calls.Refusals.{entry_refusal, reload_refusal};
ghost use Rattle.span_script.specs.declared.reply.Refusal.TheVariants.{Memory as NoMemory};

use crate::open_error::OpenError;
use otel_base::context::SpanContext;
use otel_base::enter_error::EnterError;
use otel_base::memory::Memory;
use otel_state::op::SetParentError;
use std::alloc::{AllocError, AllocFailed};

/// The answer to a request: what the calls of tracing give back.
#[derive(Clone, Copy)]
pub enum Reply {
    /// A handle was made, which is enabled where it has a span; `tracing::Span`, `is_disabled`.
    Made { enabled: bool, handle: u64 },
    /// A guard was made; `tracing::span::Entered`, `opentelemetry::ContextGuard`.
    Guard { guard: u64 },
    /// A context was made, with these ids; `opentelemetry::Context`.
    Context { context: u64, ids: SpanContext },
    /// An event, which the filter let through or not, or whether it lets something through.
    Enabled { enabled: bool },
    /// Whether a handle's callsite declares a field of the name that was asked for; `tracing::Span::has_field`.
    Has { has: bool },
    /// Whether the parent of a span was set; `OpenTelemetrySpanExt::set_parent`.
    Set { set: Result<(), SetParentError> },
    /// Nothing was made.
    Done,
}

/// What a request names that isn't there.
#[derive(Clone, Copy)]
pub enum What {
    /// A lane, by its place.
    Lane,
    /// A callsite, by its place, of the kind that is called for.
    Site,
    /// A handle that isn't spent, by its number.
    Handle,
    /// A guard that isn't spent, by its number, of the kind that is called for.
    Guard,
    /// A context, by its number.
    Context,
    /// A field of a new span or an event, by its name, which their callsite declares.
    Field,
}

/// Why a request is refused.
#[derive(Clone, Copy)]
pub enum Refusal {
    /// The moment is below that of the request before (0 before the first), or above 2^63 - 1; both in nanoseconds.
    BadMoment { before: u64, given: u64 },
    /// A lane, site, handle, guard or context isn't there, is spent, or is of another kind; or a field isn't declared.
    UnknownName { what: What },
    /// The handle has an open guard, and the request would spend or own it.
    InUse,
    /// The guard is of another lane, which is told by its place.
    WrongLane { lane_place: u64 },
    /// The lane, which is told by its place, has as many contexts as may be.
    Full { lane_place: u64 },
    /// A piece of a filter's text is no directive, which is told by its number, from 1; empty pieces count.
    Directive { piece: u64 },
    /// Out of memory.
    Memory,
}

impl Refusal {
    /// What an entry on the lane at a place is refused by.
    pub fn of_entry(place: u64, error: EnterError) -> Refusal
        ensures { result ≡ entry_refusal place error }
    {
        match error {
            EnterError::Full => Refusal::Full { lane_place: place },
            EnterError::Memory => Refusal::Memory,
        }
    }

    /// What a reload is refused by.
    pub fn of_reload(error: OpenError) -> Refusal
        ensures { result ≡ reload_refusal error }
    {
        match error {
            OpenError::Directive { counting: _, piece } => Refusal::Directive { piece },
            OpenError::Memory => Refusal::Memory,
        }
    }
}

impl From<Memory> for Refusal {
    ghost from_gives = { λ _ refusal. refusal ≡ NoMemory };

    fn from(_error: Memory) -> Refusal {
        Refusal::Memory
    }
}

impl From<AllocError> for Refusal {
    ghost from_gives = { λ _ refusal. refusal ≡ NoMemory };

    fn from(_error: AllocError) -> Refusal {
        Refusal::Memory
    }
}

impl<T: Drop> From<AllocFailed<T>> for Refusal {
    ghost from_gives = { λ _ refusal. refusal ≡ NoMemory };

    fn from(_error: AllocFailed<T>) -> Refusal {
        Refusal::Memory
    }
}
