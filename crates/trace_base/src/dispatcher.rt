//! Which subscriber serves a lane: the lane's default, else the world's global one.
ghost use Rattle.std.specs.Prelude.{◌≡◌, ◌≢◌, ◌↔◌, ◌<◌, Some, None, Err, OnOk, OnErr, length, codes};
ghost use Rattle.std.specs.Fn.{FnOnceReturnsAtMut};
ghost use Rattle.trace_base.specs.declared.dispatcher.TryInitError.TheVariants.{AlreadySet};
ghost use Rattle.trace_base.specs.lanes.Default.{with_lane_default};
ghost use Rattle.trace_base.specs.Gate.{IsInWorld, dispatch_on};

use crate::lane::Lane;
use crate::subscriber::Subscriber;
use crate::world::World;
use std::error::Error;
use std::fmt;
use std::marker::Model;

/// The name of a subscriber in a world, which contracts see as its place there; `tracing_core::Dispatch`.
#[derive(Clone, Copy, Debug, PartialEq, Eq)]
pub struct Dispatch {
    number: u64,
}

impl Model for Dispatch {
    ghost use Rattle.std.specs.Prelude.{ℕ};

    ghost Value = { ℕ };

    ghost view = { λ d. d.number };

    ghost inverse = { λ n. record { number = n } };
}

impl Dispatch {
    /// The name of the subscriber at a place of a world.
    pub(crate) fn at(number: u64) -> Dispatch
        ensures { result ≡ number }
    {
        Dispatch { number }
    }

    /// The place of its subscriber in the world, from 0 in the order in which subscribers came to it.
    pub fn number(&self) -> u64
        ensures { result ≡ self.now }
    {
        self.number
    }
}

/// Why a world's global subscriber isn't set; `tracing_subscriber::util::TryInitError`.
#[derive(Clone, Copy, Debug, PartialEq, Eq)]
pub enum TryInitError {
    /// It has one already.
    AlreadySet,
}

impl fmt::Display for TryInitError {
    ghost output = { λ _. Some (codes "a global default is already set") };

    fn fmt<W: fmt::Write>(&self, f: &mut fmt::Formatter<W>) -> fmt::Result {
        f.write_str("a global default is already set")
    }
}

impl Error for TryInitError {}

/// The subscriber that serves a lane: the lane's default, else the global one, and none exactly where neither is set;
/// `tracing_core::dispatcher::get_default`.
pub fn get_default<S: Subscriber>(world: &World<S>, lane: &Lane) -> Option<Dispatch>
    ensures value { result ≡ dispatch_on lane.now.default world.now.global }
    ensures there { IsInWorld world.now lane.now.default → IsInWorld world.now result }
{
    default_or_global(&lane.default, &world.global())
}

/// What puts a lane's default back as it stood before; `tracing_core::dispatcher::DefaultGuard`, which isn't spent by
/// itself. It has to be spent, by `end`.
pub struct DefaultGuard {
    before: Option<Dispatch>,
}

impl Model for DefaultGuard {
    ghost use Rattle.std.specs.Prelude.{ℕ, Option};

    ghost Value = { Option ℕ };

    ghost view = { λ g. g.before };
}

impl DefaultGuard {
    /// Puts the default back that stood before `set_default`.
    pub fn end(self, lane: &mut Lane)
        ensures { lane.new ≡ with_lane_default lane.old self }
    {
        let DefaultGuard { before } = self;
        lane.default = before;
    }
}

/// Sets a lane's default until the guard ends; `tracing_core::dispatcher::set_default`.
pub fn set_default(lane: &mut Lane, dispatch: Dispatch) -> DefaultGuard
    ensures guard { result ≡ lane.old.default }
    ensures lane { lane.new ≡ with_lane_default lane.old (Some dispatch) }
{
    let before = lane.default.replace(dispatch);
    DefaultGuard { before }
}

/// Runs a closure while a lane has another default, and then puts back the one that stood before;
/// `tracing_core::dispatcher::with_default`.
pub fn with_default<T, F: FnOnce(&mut Lane) -> T>(lane: &mut Lane, dispatch: Dispatch, f: F) -> T
    requires { (l : _) → l.now ≡ with_lane_default lane.old (Some dispatch) → F.pre f l }
    ensures { (left : _) × FnOnceReturnsAtMut F.FnOnce f (with_lane_default lane.old (Some dispatch)) result left × (lane.new ≡ with_lane_default left lane.old.default) }
{
    let guard = set_default(lane, dispatch);
    let answer = f(lane);
    guard.end(lane);
    answer
}

/// Sets a world's global subscriber, which it can do once; `tracing_subscriber::util::SubscriberInitExt::try_init`.
/// `AlreadySet` exactly where one is set.
pub fn try_init<S: Subscriber>(world: &mut World<S>, dispatch: Dispatch) -> Result<(), TryInitError>
    requires { dispatch < length world.old.subscribers }
    ensures ok { OnOk result (world.new ≡ record world.old { global = Some dispatch }) }
    ensures already_set { (result ≡ Err AlreadySet) ↔ (world.old.global ≢ None) }
    ensures leaves { OnErr result (world.new ≡ world.old) }
{
    if world.global().is_some() {
        return Err(TryInitError::AlreadySet);
    }
    world.set_global(dispatch);
    Ok(())
}

/// The same as `try_init`; `tracing_core::dispatcher::set_global_default`.
pub fn set_global_default<S: Subscriber>(
    world: &mut World<S>,
    dispatch: Dispatch,
) -> Result<(), TryInitError>
    requires { dispatch < length world.old.subscribers }
    ensures ok { OnOk result (world.new ≡ record world.old { global = Some dispatch }) }
    ensures already_set { (result ≡ Err AlreadySet) ↔ (world.old.global ≢ None) }
    ensures leaves { OnErr result (world.new ≡ world.old) }
{
    try_init(world, dispatch)
}

// A lane's own subscriber, else the global one.
pub(crate) fn default_or_global(
    own: &Option<Dispatch>,
    global: &Option<Dispatch>,
) -> Option<Dispatch>
    ensures { result ≡ dispatch_on own.now global.now }
{
    match own {
        Some(own) => Some(*own),
        None => match global {
            Some(global) => Some(*global),
            None => None,
        },
    }
}
