//! What a test may hold threads up by, at the calls that a worker of many makes.
#![tactic(auto)]

/// Called round each call of a worker; a worker's calls are numbered from 0. No promise rests on what it does.
pub trait Turnstile {
    /// Called before a call.
    fn before(&self, worker: u64, call: u64);

    /// Called after it.
    fn after(&self, worker: u64, call: u64);
}

/// The turnstile that holds nobody up.
#[derive(Clone, Copy, Debug)]
pub struct OpenTurnstile;

impl Turnstile for OpenTurnstile {
    fn before(&self, _worker: u64, _call: u64) {}

    fn after(&self, _worker: u64, _call: u64) {}
}
