//! What holds of every text of a directive, and of whole lists of directives, whatever the sets do step by step. Each
//! law is a function that does nothing.
ghost use Rattle.std.specs.Prelude.{◌≡◌, ◌≢◌, Bool, List, ℕ, Ok, Err, false, ◌↔◌};
ghost use Rattle.std.specs.Str.{IsUtf8, trim};
ghost use Rattle.std.specs.declared.cmp.Ordering.TheVariants.{Equal};
ghost use Rattle.env_directives.specs.orders.Choice.{admits_target, lets_through, longest_covering};
ghost use Rattle.env_directives.specs.orders.DirectiveOrder.{directive_cmp, SameButLevel};
ghost use Rattle.env_directives.specs.reading.Faults.{HasBadLevel, HasEmptyField, HasFault};
ghost use Rattle.env_directives.specs.reading.Forms.{IsDirective};
ghost use Rattle.env_directives.specs.printed.Printed.{directive_text, HasNoMinusZero};
ghost use Rattle.env_directives.specs.reading.Reading.{read_directive};
ghost use Rattle.env_directives.specs.orders.Table.{DirectiveTable, IsTableOf, empty_table, with_all_added};
ghost use Rattle.env_directives.specs.Targets.{with_statics};
ghost use Rattle.env_directives.specs.declared.directive.StaticDirective.{StaticDirective};
ghost use Rattle.env_directives.specs.declared.directive.ParseError.{ParseError};
ghost use Rattle.env_directives.specs.declared.directive.ParseError.TheVariants.{Memory as OutOfMemory};
ghost use Rattle.env_directives.specs.declared.env.directive.Directive.{Directive};
ghost use Rattle.trace_base.specs.declared.level.Level.{Level};

use crate::directive::Match;

/// A text is that of one directive at most; and one that has no level behind its equals sign, or an empty field, is no
/// directive's, and hasn't both.
pub fn readings()
    ensures directive { (patterns : Bool) (text : List ℕ) (d e : Directive) → IsDirective patterns text d → IsDirective patterns text e → d ≡ e }
    ensures level { (patterns : Bool) (text : List ℕ) (d : Directive) → IsDirective patterns text d → HasBadLevel text → ⊥ }
    ensures field { (patterns : Bool) (text : List ℕ) (d : Directive) → IsDirective patterns text d → HasEmptyField text → ⊥ }
    ensures fault { (text : List ℕ) → HasBadLevel text → HasEmptyField text → ⊥ }
{}

/// Without patterns a text is read as a directive exactly where it is that directive's by the grammar of forms, and as a
/// fault exactly where that is its fault, the first from the left.
pub fn grammar()
    ensures directive { (text : List ℕ) (d : Directive) → read_directive false text ≡ Ok d ↔ IsDirective false text d }
    ensures fault { (text : List ℕ) (fault : ParseError) → (fault ≢ OutOfMemory)
        → read_directive false text ≡ Err fault ↔ HasFault false text fault }
{}

/// What a directive prints that was read without patterns is read as that directive again, its level included, unless
/// a value was read as minus zero. Each text of a program is UTF-8, what is printed included.
pub fn printing()
    ensures again { (text : List ℕ) (d : Directive) → IsUtf8 text → IsUtf8 (directive_text d) → IsDirective false (trim text) d
        → HasNoMinusZero d.fields → IsDirective false (trim (directive_text d)) d }
{}

/// Directives that are added in turn make one table: in order, of each class of equal ones the last that was added, and
/// the greatest level of all. No other table is that of the same directives.
pub fn tables<T: Ord + Match>()
    ensures kept { (ds : List T) → IsTableOf T.cmp T.level_of ds (with_all_added T.cmp T.level_of ds empty_table) }
    ensures one { (ds : List T) (s t : DirectiveTable T) → IsTableOf T.cmp T.level_of ds s → IsTableOf T.cmp T.level_of ds t → s.directives ≡ t.directives }
{}

/// The longest of the added targets that begin a target decides on it, the default where there is none.
pub fn prefixes()
    ensures { (ds : List StaticDirective) (target : List ℕ) (level : Level)
        → admits_target (with_statics ds empty_table).directives target level ≡ lets_through level (longest_covering ds target) }
{}

/// Two directives are equal by the order exactly where they differ in their level at most.
pub fn ties()
    ensures { (a b : Directive) → directive_cmp a b ≡ Equal ↔ SameButLevel a b }
{}
