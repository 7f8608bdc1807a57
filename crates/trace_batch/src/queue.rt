//! The rule over the queue: what each pass knows, and what its steps tell.
use crate::item::Sent;
use crossbeam_queue::protocol::{Join, Lesson, Outcome, Protocol, Split};
use crossbeam_queue::{Pass, RuledArrayQueue};
use std::collections::LinkedList;

/// What a pass knows. No value of it is made.
pub enum View {
    /// Nothing more.
    Nobody,
    /// It is the one sender of a lane, and has put these into the queue.
    Sender {
        lane: u64,
        put: LinkedList<Sent>,
    },
    /// It is the writer: the lanes below `lanes` may have a sender still; those from there on have none, and put what
    /// is known of them. It took these out.
    Writer {
        lanes: u64,
        known: LinkedList<LinkedList<Sent>>,
        got: LinkedList<Sent>,
    },
}

/// The rule: what the sender of a lane put is what was taken out of that lane and then what the queue holds of it.
pub struct LanesInOrder;

impl Protocol<Sent, View> for LanesInOrder {
    ghost use Rattle.trace_batch.specs.Rule.{KeepsRule, writer_view};
    ghost use Rattle.std.specs.Prelude.{[]};

    ghost holds = { KeepsRule };

    ghost first = { writer_view 0 [] [] };
}

/// The writer makes a pass for the sender of the next lane.
pub(crate) struct OpensLane;

impl Split<View> for OpensLane {
    ghost use Rattle.trace_batch.specs.Rule.{one_more, next_sender};

    ghost left = { one_more };

    ghost right = { next_sender };
}

/// The writer takes in the pass of the last lane's sender.
pub(crate) struct EndsLane;

impl Join<View> for EndsLane {
    ghost use Rattle.trace_batch.specs.Rule.{one_fewer};
    ghost use Rattle.trace_batch.specs.declared.queue.View.TheVariants.{Nobody};

    ghost both = { one_fewer };

    ghost spent = { Nobody };
}

/// A sender puts an item in.
pub(crate) struct Put;

impl Outcome<Sent, View> for Put {
    ghost use Rattle.std.specs.Prelude.{◌≡◌};
    ghost use Rattle.trace_batch.specs.Rule.{put_into};

    ghost then = { λ v x w. w ≡ put_into v x };
}

impl Lesson<Sent, View> for Put {
    ghost use Rattle.std.specs.Prelude.{⊤};

    ghost fact = { λ v items. ⊤ };
}

/// The writer takes an item out, or finds the queue empty.
pub(crate) struct Take;

impl Outcome<Sent, View> for Take {
    ghost use Rattle.std.specs.Prelude.{◌≡◌};
    ghost use Rattle.trace_batch.specs.Rule.{took_out};

    ghost then = { λ v x w. w ≡ took_out v x };
}

impl Lesson<Sent, View> for Take {
    ghost use Rattle.trace_batch.specs.Rule.{KnowsEndedLanes};

    ghost fact = { KnowsEndedLanes };
}

/// The queue between the senders and the writer.
pub type Queue = RuledArrayQueue<Sent, View, LanesInOrder>;

/// The pass of a sender or of the writer.
pub type QueuePass = Pass<Sent, View>;
