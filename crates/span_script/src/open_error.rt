//! Why settings are refused.
/// Why a pipeline can't be opened.
#[derive(Clone, Copy, Debug, PartialEq, Eq)]
pub enum OpenError {
    /// A piece of the filter's text, or of the text for counting, is no directive, which is told by its number, from 1;
    /// empty pieces count.
    Directive { counting: bool, piece: u64 },
    /// Out of memory.
    Memory,
}
