//! What the texts of filters say.
ghost use Rattle.std.specs.Prelude.{◌≡◌, ◌↔◌, ℕ, List, [], Ok, Err, false};
ghost use Rattle.env_directives.specs.declared.directive.ParseError.{ParseError};
ghost use Rattle.env_directives.specs.declared.env.directive.Directive.{Directive};
ghost use Rattle.env_filter.specs.texts.Pieces.{IsFirstFault, ReadsText};
ghost use Rattle.span_script.specs.Admission.{text_read};

/// A text is put in force exactly where each of its nonempty pieces is a directive by the grammar of forms, as these in
/// their order; and it is refused at a piece exactly where that is the first which is none, for its fault by the grammar.
pub fn texts()
    ensures read { (text : List ℕ) (ds : List Directive) → text_read text ≡ Ok ds ↔ ReadsText false text ds [] }
    ensures refused { (text : List ℕ) (piece : ℕ) → text_read text ≡ Err piece
        ↔ ((fault : ParseError) × IsFirstFault false text piece fault) }
{}
