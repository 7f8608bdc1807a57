//! Directives: what part of a program is traced, and how verbosely.
#![tactic(auto)]

pub mod directive;
pub mod env;
pub mod laws;
pub mod targets;

pub use directive::set::{DirectiveIter, DirectiveSet, DirectivesFor};
pub use directive::{Match, ParseError, StaticDirective};
pub use env::directive::Directive;
pub use env::field::{BadFieldName, BadName, Match as FieldMatch, MatchDebug, ValueMatch};
pub use env::pattern::MatchPattern;
pub use targets::Targets;
