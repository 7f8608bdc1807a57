//! What the requests of a script of span calls mean: what each changes, what that makes of a history, and when what is kept
//! fits that.
//!
//! All turns on `specs/Effects`, which resolves a request once to its effect, or to the first refusal that applies, and on
//! `specs/Fits`, which says when what a pipeline keeps stands for a history. The lemmas in `proofs/` carry that over one
//! effect more, for each kind of request; `trace_pipeline` serves requests by them.
#![tactic(auto)]

pub mod contexts;
pub mod laws;
pub mod open_error;
pub mod outcome;
pub mod reply;
pub mod request;
pub mod settings;
pub mod slots;

pub use open_error::OpenError;
pub use outcome::Outcome;
pub use reply::{Refusal, Reply, What};
pub use request::{Call, LAST_MOMENT, Request, RequestParent};
pub use settings::Settings;
