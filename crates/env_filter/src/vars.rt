//! Where the text of a filter stands: variables, by name.
ghost use Rattle.std.specs.Prelude.{◌≡◌, List, ℕ, Option, None, Some, IfOk, option_map, string_bytes};
ghost use Rattle.env_filter.specs.texts.Reading.{KnownVariables, IsReadUnder, first_named};

use otel_base::list::Items;
use otel_base::memory::Memory;
use otel_base::text::Text;
use std::alloc::Global;
use std::env::{self, Env, VarError};
use std::marker::Model;

/// Variables by name. In Rust they are the process's own.
pub trait Vars {
    /// What stands under each name, where that is told.
    ghost known_variables: { Self → KnownVariables };

    /// What stands under a name, if anything does; `std::env::var`.
    fn read(&self, name: &str) -> Result<Option<String>, Memory>
        ensures { IfOk result (λ read. IsReadUnder (known_variables self.now) name.now (option_map string_bytes read)) };
}

/// Variables in memory: pairs of names and texts, of which the first with a name counts.
#[derive(Drop)]
pub struct MemVars {
    alloc: Global,
    pairs: Items<(Text, Text)>,
}

impl Model for MemVars {
    ghost use Rattle.std.specs.Prelude.{List, ℕ};

    ghost Value = { List (List ℕ × List ℕ) };

    ghost view = { λ v. v.pairs };
}

impl MemVars {
    /// Variables with these names and texts.
    pub fn new(alloc: Global, pairs: Items<(Text, Text)>) -> MemVars
        ensures { result ≡ pairs }
    {
        MemVars { alloc, pairs }
    }
}

impl Vars for MemVars {
    ghost known_variables = { λ v. Some (first_named v) };

    fn read(&self, name: &str) -> Result<Option<String>, Memory> {
        match named_text(self.pairs.as_slice(), name) {
            Some(text) => Ok(Some(String::from_str(self.alloc, text)?)),
            None => Ok(None),
        }
    }
}

// The text of the first pair with a name.
fn named_text<'p>(pairs: &'p [(Text, Text)], name: &str) -> Option<&'p str>
    ensures { option_map (λ text. text.now) result ≡ first_named pairs.now name.now }
{
    pairs
        .iter()
        .find(|pair| pair.0.as_str() == name)
        .map(|pair| pair.1.as_str())
}

/// The variables of the process. What stands under them isn't told; one whose text isn't UTF-8 counts as absent.
#[derive(Drop)]
pub struct SysVars<'a, R> {
    alloc: Global,
    rt: &'a R,
}

impl<'a, R: Env> SysVars<'a, R> {
    /// The variables that a runtime handle reads.
    pub fn new(alloc: Global, rt: &'a R) -> SysVars<'a, R> {
        SysVars { alloc, rt }
    }
}

impl<'a, R: Env> Vars for SysVars<'a, R> {
    ghost known_variables = { λ v. None };

    fn read(&self, name: &str) -> Result<Option<String>, Memory> {
        match env::var(&(self.rt, self.alloc), name) {
            Ok(text) => Ok(Some(text)),
            Err(VarError::OutOfMemory) => Err(Memory),
            Err(VarError::NotPresent | VarError::NotUnicode) => Ok(None),
        }
    }
}
