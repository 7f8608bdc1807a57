//! The same set once more.
ghost use Rattle.std.specs.Prelude.{◌≡◌, IfOk};

use crate::directive::set::DirectiveSet;
use crate::env::directive::Directive;
use otel_base::memory::Memory;

impl DirectiveSet<Directive> {
    /// A set of the same directives, with the same greatest level; `Clone` for `DirectiveSet`. Its patterns share what
    /// they were compiled to.
    pub fn clone_set(&self) -> Result<DirectiveSet<Directive>, Memory>
        ensures { IfOk result (λ s. s ≡ self.now) }
    {
        Ok(DirectiveSet {
            directives: self.directives.clone()?,
            max_level: self.max_level,
        })
    }
}
