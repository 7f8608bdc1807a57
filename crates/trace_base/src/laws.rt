//! What holds of every level, every quoted text and every world.
ghost use Rattle.std.specs.Prelude.{◌≡◌, Bool, List, ℕ, Option, Some};
ghost use Rattle.trace_base.specs.Gate.{WorldValue, Admits, AdmitsFresh, IsFresh};
ghost use Rattle.trace_base.specs.declared.level.Level.{Level};
ghost use Rattle.trace_base.specs.declared.level.LevelFilter.{LevelFilter};
ghost use Rattle.trace_base.specs.declared.level.LevelFilter.TheVariants as filter;
ghost use Rattle.trace_base.specs.words.Level.{level_text, level_filter_text};
ghost use Rattle.trace_base.specs.words.LevelWords.{level_of, level_filter_of};
ghost use Rattle.trace_base.specs.words.Quote.{in_quotes};

use crate::level::STATIC_MAX_LEVEL;
use crate::subscriber::Subscriber;

/// What a level or a filter prints reads as itself, and the greatest filter is the static one.
pub fn levels()
    ensures level { (level : Level) → level_of (level_text level) ≡ Some level }
    ensures filter { (f : LevelFilter) → level_filter_of (level_filter_text f) ≡ Some f }
    ensures static_max { STATIC_MAX_LEVEL ≡ filter.TRACE }
{}

/// Texts that differ have quoted forms that differ.
pub fn quotes()
    ensures differ { (x y : List ℕ) → in_quotes x ≡ in_quotes y → x ≡ y }
{}

/// Where the cached interests are those of the filters in place, a callsite is admitted by the subscriber's own
/// answers.
pub fn fresh<S: Subscriber>()
    ensures { (world : WorldValue S) (lane site : ℕ) (dispatch : Option ℕ) (answer : Bool) → Admits S.hint S.enables world lane site dispatch answer → IsFresh S.interest world → AdmitsFresh S.interest S.hint S.enables world lane site dispatch answer }
{}
