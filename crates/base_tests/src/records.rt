//! What records are made of: texts and lists, contexts, and the tracers that give ids and keep records.
mod containers;
mod contexts;
mod tracers;
