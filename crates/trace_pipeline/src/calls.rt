//! The calls of a script, each with a body for its kind.
mod contexts;
mod currents;
mod entries;
mod events;
mod extension;
mod fields;
mod filters;
mod links;
mod makings;
mod spans;
