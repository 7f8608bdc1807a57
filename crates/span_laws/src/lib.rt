//! What holds of every history of span calls, whatever requests give it.
#![tactic(auto)]

pub mod attributes;
pub mod chains;
pub mod contents;
pub mod filters;
pub mod ids;
pub mod laws;
pub mod live;
pub mod makings;
pub mod scripts;
pub mod texts;
pub mod times;
