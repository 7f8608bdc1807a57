//! Why lines are refused.
use span_script::reply::Refusal;

/// Why a line is refused, as its refusal line tells it.
#[derive(Clone, Copy)]
pub enum Told {
    /// The line is no JSON, or no object, or one of no form; or no settings line came.
    BadLine,
    /// A piece of the settings' filter, or of their text for counting, is no directive, which is told by its number, from 1;
    /// empty pieces count.
    Directive { counting: bool, piece: u64 },
    /// The settings have more lanes than the command takes.
    Lanes,
    /// The line's request is refused.
    Step { refusal: Refusal },
}
