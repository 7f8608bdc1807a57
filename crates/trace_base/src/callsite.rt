//! Callsites: the places in a program that make spans and events.
ghost use Rattle.std.specs.Prelude.{◌≡◌};
ghost use Rattle.trace_base.specs.Field.{place_of};

use crate::level::Level;
use otel_base::list::Items;
use otel_base::text::Text;
use std::marker::Model;

/// What a callsite makes; `tracing_core::metadata::Kind`.
#[derive(Clone, Copy, PartialEq, Eq)]
pub enum Kind {
    /// Spans; `tracing_core::metadata::Kind::SPAN`.
    Span,
    /// Events; `tracing_core::metadata::Kind::EVENT`.
    Event,
}

/// A place in a program that makes spans or events, with what is known of it; `tracing_core::Metadata`.
#[derive(Clone, Drop)]
pub struct Callsite {
    /// What it is called.
    pub name: Text,
    /// The part of the program that it belongs to, mostly a module path.
    pub target: Text,
    /// How urgent or verbose it is.
    pub level: Level,
    /// What it makes.
    pub kind: Kind,
    /// The source file that it stands in, if that is known.
    pub file: Option<Text>,
    /// The module that it stands in, if that is known.
    pub module_path: Option<Text>,
    /// The line of the file, if that is known.
    pub line: Option<u32>,
    /// The names of its fields, in order; `tracing_core::field::FieldSet`.
    pub fields: Items<Text>,
}

impl Callsite {
    /// The first place of the name among the fields, and none exactly where no field has it;
    /// `tracing_core::field::FieldSet::field`.
    pub fn field(&self, name: &str) -> Option<usize>
        ensures { result ≡ place_of name.now self.now }
    {
        self.fields
            .as_slice()
            .iter()
            .position(|field| field.as_str() == name)
    }
}

/// The name of a callsite in a world, which contracts see as its number; `tracing_core::callsite::Identifier`.
#[derive(Clone, Copy, Debug, PartialEq, Eq)]
pub struct SiteId {
    number: u64,
}

impl Model for SiteId {
    ghost use Rattle.std.specs.Prelude.{ℕ};

    ghost Value = { ℕ };

    ghost view = { λ s. s.number };

    ghost inverse = { λ n. record { number = n } };
}

impl SiteId {
    /// The name of the callsite at this place of a world.
    pub(crate) fn at(number: u64) -> SiteId
        ensures { result ≡ number }
    {
        SiteId { number }
    }

    /// The place of the callsite in its world, from 0 in the order in which callsites came to it.
    pub fn number(&self) -> u64
        ensures { result ≡ self.now }
    {
        self.number
    }
}
