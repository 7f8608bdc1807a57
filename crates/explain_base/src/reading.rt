//! As what a line's text is read.
ghost use Rattle.std.specs.Prelude.{◌≡◌};
ghost use Rattle.explain_base.specs.Switches.{reading_named};

/// As what a line's text is read. A line `# WORD` changes it for the lines behind it; other lines with `#` in front are
/// comments.
#[derive(Clone, Copy, PartialEq, Eq)]
pub enum Reading {
    /// `# filter`: a list of directives with commas between them, of which empty ones are skipped; the texts of values
    /// are patterns. So a variable such as `RUST_LOG` is read.
    Filter,
    /// `# directive`: one directive, commas and all; the texts of values are patterns.
    Directive,
    /// `# fixed`: one directive; the texts of values have to be met as they stand.
    Fixed,
    /// `# targets`: a list of directives without spans, as `Targets` has them.
    Targets,
    /// `# levels`: the word or number of a level.
    Levels,
}

impl Reading {
    /// The reading that a word names, or this one where it names none.
    pub fn named_or_same(self, word: &str) -> Reading
        ensures { result ≡ reading_named self word.now }
    {
        match word {
            "filter" => Reading::Filter,
            "directive" => Reading::Directive,
            "fixed" => Reading::Fixed,
            "targets" => Reading::Targets,
            "levels" => Reading::Levels,
            _ => self,
        }
    }
}
