//! What a released handle has seen.
ghost use Rattle.std.specs.Prelude.{◌≡◌};
ghost use Rattle.std.specs.Arc.{arc_value};
ghost use mathlib.Core.List.{IsPrefix};
ghost use Rattle.trace_threads.specs.History.{IsLegal};
ghost use Rattle.trace_threads.specs.Turns.{IsSeatOf, entries};
ghost use Rattle.trace_threads.specs.Calls.{IsBare, IsIdle};
ghost use Rattle.trace_threads.specs.Handles.{IsSameSight};

use crate::cell::{cut_off, see_all, take_in};
use crate::turns::{TurnSeat, Turns};
use std::alloc::Global;
use std::marker::Model;
use std::sync::Arc;

/// What a released handle has seen of its span. It may be dropped.
#[derive(Drop)]
pub struct Pass {
    turns: Arc<Turns, Global>,
    seat: TurnSeat,
}

impl Model for Pass {
    ghost use Rattle.std.specs.Arc.{arc_value};
    ghost use Rattle.trace_threads.specs.Handles.{ReleasedHandle, IsPass};

    ghost Value = { ReleasedHandle };

    ghost view = { λ p. record { span = p.seat.table_id; view = p.seat.me.0 } };

    ghost invariant = { λ p. IsPass (arc_value p.turns).shared.table_id p.seat.table_id p.seat.me };
}

impl Pass {
    // The pass of a seat that is idle.
    pub(crate) fn of(turns: Arc<Turns, Global>, seat: TurnSeat) -> Pass
        requires table { IsSeatOf (arc_value turns).shared.table_id seat.table_id }
        requires idle { IsIdle seat.me × IsBare seat.me }
        ensures { (result.span ≡ seat.table_id) × (result.view ≡ seat.me.0) }
    {
        Pass { turns, seat }
    }

    // A seat that has seen as much, to be taken in by a handle.
    pub(crate) fn note(&mut self) -> TurnSeat
        ensures same { (self.new.span ≡ self.old.span) × IsSameSight self.old.view self.new.view }
        ensures table { result.table_id ≡ self.old.span }
        ensures note { IsIdle result.me × IsBare result.me }
        ensures seen { (result.me.0.seen ≡ self.old.view.seen) × (result.me.0.origin ≡ self.old.view.origin) }
    {
        let Pass { turns, seat } = self;
        cut_off(&turns.shared, seat)
    }

    /// Takes in another pass of the same span: what it has seen afterwards begins with what either had seen, and is a
    /// legal history of the span. It takes no turn and no memory, and never waits.
    pub fn join(&mut self, other: Pass)
        requires span { other.span ≡ self.old.span }
        ensures span { self.new.span ≡ self.old.span }
        ensures seen { IsPrefix self.old.view.seen self.new.view.seen }
        ensures theirs { IsPrefix other.view.seen self.new.view.seen }
        // Passes of one span know the same making.
        ensures origin { other.view.origin ≡ self.old.view.origin }
        ensures same { self.new.view.origin ≡ self.old.view.origin }
        ensures legal { IsLegal self.old.view.origin.made_at (entries self.new.view.seen) }
    {
        let Pass {
            turns: _,
            seat: theirs,
        } = other;
        let Pass { turns, seat } = self;
        take_in(&turns.shared, seat, theirs);
        see_all(&turns.shared, seat);
    }
}
