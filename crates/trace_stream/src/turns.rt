//! What the calls of sources and sinks in memory do.
ghost use Rattle.std.specs.Prelude.{◌≡◌};
ghost use Rattle.trace_stream.specs.Streams.{first_turn, later_turns};

/// What a read or a write does.
#[derive(Clone, Copy, Debug, PartialEq, Eq)]
pub enum Turn {
    /// It fails.
    Fails,
    /// It moves so many bytes at the most.
    Moves { most: usize },
}

/// The turn of the next call, and those of the calls behind it. A call with no turn may move all that it can.
pub fn next_turn(turns: &[Turn]) -> (Turn, &[Turn])
    ensures first { result.0 ≡ first_turn turns.now }
    ensures later { result.1.now ≡ later_turns turns.now }
{
    match turns {
        [first, later @ ..] => (*first, later),
        [] => (Turn::Moves { most: usize::MAX }, &[]),
    }
}
