//! The core of tracing: levels, callsites, fields, lanes, worlds, and the traits of what is told of spans and events.
//! Everything turns on `Subscriber` and `Layer`: each call is one step of plain data that every implementation has.
#![tactic(auto)]

pub mod callsite;
pub mod discard;
pub mod dispatcher;
pub mod field;
pub mod filter;
pub mod lane;
pub mod laws;
pub mod layer;
pub mod level;
pub mod no_subscriber;
pub mod quote;
pub mod span;
pub mod subscriber;
pub mod world;

pub use callsite::{Callsite, Kind, SiteId};
pub use discard::Discard;
pub use dispatcher::{
    DefaultGuard, Dispatch, TryInitError, get_default, set_default, set_global_default, try_init,
    with_default,
};
pub use field::{AsField, Field, Value, ValueSet};
pub use filter::Filter;
pub use lane::Lane;
pub use layer::Layer;
pub use level::{Level, LevelFilter, ParseLevelError, ParseLevelFilterError, STATIC_MAX_LEVEL};
pub use no_subscriber::NoSubscriber;
pub use span::{AsId, Closing, Id, Parent};
pub use subscriber::{Interest, Subscriber};
pub use world::{World, passes};
