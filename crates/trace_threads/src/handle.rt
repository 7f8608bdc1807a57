//! Handles of a shared span. Each is held by one thread at a time, and does what it does in turns with the others.
ghost use Rattle.std.specs.Prelude.{◌≡◌, ◌≢◌, ◌<◌, ◌≤◌, [], IfOk, OnOk, OnErr};
ghost use mathlib.Core.List.{IsPrefix};
ghost use Rattle.otel_state.specs.declared.op.Op.TheVariants.{Exit};
ghost use Rattle.otel_state.specs.declared.times.TheConstants.{GREATEST};
ghost use Rattle.trace_threads.specs.declared.history.HandleAct.TheVariants.{Clone, Join, Release};
ghost use Rattle.trace_threads.specs.Moves.{move_of, open_count_after};
ghost use Rattle.trace_threads.specs.History.{entries_by, open_count};
ghost use Rattle.trace_threads.specs.Turns.{entries, first_view};
ghost use Rattle.trace_threads.specs.Calls.{MakesEntry, IsBare, IsCloneOf, IsIdle};
ghost use Rattle.trace_threads.specs.Handles.{open_count_of, AddsEntry, Calls, AddsNoEntry, IsSameHandle, IsSameSight, ClosedAs};

use crate::cell::{call_once, clone_once, cut_off, join_once, release_once, see_all, take_in};
use crate::history::History;
use crate::making::Making;
use crate::moves::{enters_or_exits, open_after};
use crate::pass::Pass;
use crate::shared::SharedState;
use crate::turns::{TurnSeat, Turns};
use atomic_table::{Refused, Table};
use otel_base::memory::Memory;
use otel_base::record::{Moment, Record};
use otel_state::{Op, OpReply};
use std::alloc::Global;
use std::marker::Model;
use std::snapshot::Snapshot;
use std::sync::{Arc, Wait};

/// A handle of a shared span. It can't be dropped: release it, or join it into another.
pub struct Handle {
    turns: Arc<Turns, Global>,
    seat: TurnSeat,
    number: u64,
    inside: u64,
}

impl Model for Handle {
    ghost use Rattle.std.specs.Arc.{arc_value};
    ghost use Rattle.trace_threads.specs.Handles.{SharedHandle, IsHandle};

    ghost Value = { SharedHandle };

    ghost view = { λ h. record { span = h.seat.table_id; number = h.number; view = h.seat.me.0 } };

    ghost invariant = { λ h. IsHandle (arc_value h.turns).shared.table_id h.seat.table_id h.seat.me h.number h.inside };
}

/// Where a call stands in the history, and what its op answered.
#[derive(Clone, Copy)]
pub struct CallReply {
    /// The place of its entry, from 0.
    pub place: u64,
    /// What the op answered there.
    pub reply: OpReply,
}

/// What a release leaves.
#[derive(Drop)]
pub struct Released {
    /// What the handle has seen.
    pub pass: Pass,
    /// The whole history and the record of the span, if no handle is held any more.
    pub closed: Option<(History, Record)>,
}

impl Handle {
    /// The first handle of a span, which has number 0.
    pub(crate) fn first(alloc: Global, making: Making) -> Result<Handle, Memory>
        requires { making.made_at ≤ GREATEST }
        ensures { IfOk result (λ h. (h.view ≡ first_view making) × (h.number ≡ 0)) }
    {
        let origin = Snapshot::of(&making);
        let state = SharedState::new(alloc, making)?;
        let mut slots = Vec::with_capacity(alloc, 1)?;
        slots.push_reserved(Some(state));
        let (table, seat) = match Table::new(alloc, &[0, 0], slots, &origin) {
            Ok(made) => made,
            Err(Refused { slots: _ }) => return Err(Memory),
        };
        let turns = Arc::new(alloc, table)?;
        Ok(Handle {
            turns,
            seat,
            number: 0,
            inside: 0,
        })
    }

    /// Its number: 0 for the first, and for each clone one more than the clones before it.
    pub fn number(&self) -> u64
        ensures { result ≡ self.now.number }
    {
        self.number
    }

    /// How many of its entries are open.
    pub fn open_entries(&self) -> u64
        ensures open { result ≡ open_count_of self.now }
        ensures seen { result ≡ open_count (entries_by self.now.number (entries self.now.view.seen)) }
    {
        self.inside
    }

    /// Applies an op in one turn, for which it may wait. An exit needs an open entry of this handle, and
    /// never answers `Memory`. After `Memory` the handle's entries in the history are as they were.
    pub fn call<R: Wait>(&mut self, rt: &R, at: Moment, op: Op) -> Result<CallReply, Memory>
        requires moment { at ≤ GREATEST }
        requires entered { op ≡ Exit → 0 < open_count_of self.old }
        ensures same { IsSameHandle self.old self.new }
        ensures called { IfOk result (λ r. Calls self.old self.new at op r.place r.reply) }
        ensures entered { OnOk result (open_count_of self.new ≡ open_count_after (open_count_of self.old) (move_of op)) }
        ensures memory_leaves { OnErr result (AddsNoEntry self.old self.new) }
        ensures memory { OnErr result (op ≢ Exit) }
    {
        let Handle {
            turns,
            seat,
            number,
            inside,
        } = self;
        let (enters, exits) = enters_or_exits(&op);
        let (place, reply) = call_once(rt, &turns.shared, seat, *number, at, op)?;
        *inside = open_after(*inside, enters, exits);
        Ok(CallReply { place, reply })
    }

    /// Makes a handle in one turn, for which it may wait. It has seen as much. After `Memory` nothing more is
    /// held.
    pub fn clone_handle<R: Wait>(&mut self, rt: &R, at: Moment) -> Result<Handle, Memory>
        requires moment { at ≤ GREATEST }
        ensures same { IsSameHandle self.old self.new }
        ensures given { IfOk result (λ h. (h.span ≡ self.old.span) × IsCloneOf self.new.view h.view) }
        ensures made { IfOk result (λ h. AddsEntry self.old self.new at (Clone h.number)) }
        ensures entered { open_count_of self.new ≡ open_count_of self.old }
        ensures memory_leaves { OnErr result (AddsNoEntry self.old self.new) }
    {
        let Handle {
            turns,
            seat,
            number,
            inside: _,
        } = self;
        let theirs = Arc::try_clone(turns)?;
        let (seat, number) = clone_once(rt, &theirs.shared, seat, *number, at)?;
        Ok(Handle {
            turns: theirs,
            seat,
            number,
            inside: 0,
        })
    }

    /// Ends another handle of the same span in one turn, for which it may wait. What either had seen is seen
    /// afterwards.
    pub fn join<R: Wait>(&mut self, rt: &R, other: Handle, at: Moment)
        requires span { other.span ≡ self.old.span }
        requires moment { at ≤ GREATEST }
        requires entered { open_count_of other ≡ 0 }

        ensures same { IsSameHandle self.old self.new }
        ensures made { AddsEntry self.old self.new at (Join other.number) }
        ensures entered { open_count_of self.new ≡ open_count_of self.old }
        ensures seen { IsPrefix other.view.seen self.new.view.seen }
        ensures theirs { entries_by other.number (entries self.new.view.seen) ≡ other.view.mine }
        // Handles of one span know the same making.
        ensures origin { other.view.origin ≡ self.old.view.origin }
    {
        let Handle {
            turns: _,
            seat: theirs,
            number: ended,
            inside: _,
        } = other;
        let Handle {
            turns,
            seat,
            number,
            inside: _,
        } = self;
        join_once(rt, &turns.shared, seat, theirs, *number, ended, at);
    }

    /// Takes in what a pass of the same span has seen, and sees the turns so far. It takes no turn and no memory, and
    /// never waits. Both had seen a beginning of what is seen then, which has the entries that the handle made and no
    /// others of it.
    pub fn learn(&mut self, pass: &mut Pass)
        requires span { pass.old.span ≡ self.old.span }
        ensures same { IsSameHandle self.old self.new }
        ensures sees { AddsNoEntry self.old self.new }
        ensures theirs { IsPrefix pass.old.view.seen self.new.view.seen }
        ensures origin { pass.old.view.origin ≡ self.old.view.origin }
        ensures pass { (pass.new.span ≡ pass.old.span) × IsSameSight pass.old.view pass.new.view }
    {
        let note = pass.note();
        self.take_note(note);
    }

    /// Takes in what another handle of the same span has seen, as `learn` does of a pass. So what two handles have seen
    /// begins one list of turns, before they are joined too.
    pub fn learn_from(&mut self, other: &mut Handle)
        requires span { other.old.span ≡ self.old.span }
        ensures same { IsSameHandle self.old self.new }
        ensures sees { AddsNoEntry self.old self.new }
        ensures theirs { IsPrefix other.old.view.seen self.new.view.seen }
        ensures origin { other.old.view.origin ≡ self.old.view.origin }
        ensures other { IsSameHandle other.old other.new × IsSameSight other.old.view other.new.view }
        ensures entered { open_count_of other.new ≡ open_count_of other.old }
    {
        let note = other.note();
        self.take_note(note);
    }

    // A seat without a number, which has seen as much.
    fn note(&mut self) -> TurnSeat
        ensures same { IsSameHandle self.old self.new × IsSameSight self.old.view self.new.view }
        ensures table { result.table_id ≡ self.old.span }
        ensures note { IsIdle result.me × IsBare result.me }
        ensures seen { (result.me.0.seen ≡ self.old.view.seen) × (result.me.0.origin ≡ self.old.view.origin) }
    {
        let Handle {
            turns,
            seat,
            number: _,
            inside: _,
        } = self;
        cut_off(&turns.shared, seat)
    }

    // Takes in what a seat without a number has seen.
    fn take_note(&mut self, note: TurnSeat)
        requires span { note.table_id ≡ self.old.span }
        requires note { IsIdle note.me × IsBare note.me }
        ensures same { IsSameHandle self.old self.new }
        ensures sees { AddsNoEntry self.old self.new }
        ensures theirs { IsPrefix note.me.0.seen self.new.view.seen }
        ensures origin { note.me.0.origin ≡ self.old.view.origin }
    {
        let Handle {
            turns,
            seat,
            number: _,
            inside: _,
        } = self;
        take_in(&turns.shared, seat, note);
        see_all(&turns.shared, seat);
    }

    /// Ends the handle in one turn, for which it may wait. The history and the record come back exactly if no
    /// handle is held then.
    pub fn release<R: Wait>(self, rt: &R, at: Moment) -> Released
        requires moment { at ≤ GREATEST }
        requires entered { open_count_of self ≡ 0 }
        ensures span { result.pass.span ≡ self.span }
        ensures made { MakesEntry self.view result.pass.view self.number at Release }
        ensures closed { ClosedAs self.view.origin (entries result.pass.view.seen) result.closed }
    {
        let Handle {
            turns,
            seat,
            number,
            inside: _,
        } = self;
        let (seat, last) = release_once(rt, &turns.shared, seat, number, at);
        let pass = Pass::of(turns, seat);
        match last {
            Some(state) => Released {
                pass,
                closed: Some(state.close()),
            },
            None => Released { pass, closed: None },
        }
    }
}
