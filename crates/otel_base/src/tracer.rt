//! Tracers: what gives started spans their ids and takes finished ones.
ghost use Rattle.std.specs.Prelude.{◌≡◌, ℕ, ◌<◌, ◌^◌, OnOk, OnErr};
ghost use Rattle.otel_base.specs.Ids.{ids_of};
ghost use Rattle.otel_base.specs.Tracer.{TracerCall, Start, Reserve, Finish, CountsSpares, CountsStarts};

use crate::context::{Context, SpanContext};
use crate::memory::Memory;
use crate::record::Record;

/// Gives ids to spans as they start, and takes their records as they finish; `opentelemetry::trace::Tracer`. A finish
/// can't fail: its room is reserved before, and each room left is a spare.
pub trait Tracer {
    /// For how many more finishes there is room.
    ghost spare: { Self → ℕ };

    /// How many spans it has started, if it counts them.
    ghost started: { Self → ℕ };

    /// What a call makes of it.
    ghost does: { Self → TracerCall → Self → Type 0 };

    /// Starts a span under the span of a context, if its ids are valid, and gives its ids.
    fn start(&mut self, parent: &Context) -> SpanContext
        requires { started self.old < 2 ^ 63 }
        ensures { does self.old (Start (ids_of parent.now) result) self.new };

    /// Takes room for one more finish. `Memory` where there is none for it; nothing changes then.
    fn reserve(&mut self) -> Result<(), Memory>
        ensures ok { OnOk result (does self.old Reserve self.new) }
        ensures memory_leaves { OnErr result (self.new ≡ self.old) };

    /// Takes a finished span, in room that was reserved.
    fn finish(&mut self, span: Record)
        requires { 0 < spare self.old }
        ensures { does self.old (Finish span) self.new };

    /// How its counts go with each call.
    ghost counts: { (s : Self) (call : TracerCall) (t : Self) → does s call t → CountsSpares (spare s) call (spare t) × CountsStarts (started s) call (started t) };
}
