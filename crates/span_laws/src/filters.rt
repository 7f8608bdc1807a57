//! What the gate of a run lets through.
ghost use Rattle.std.specs.Prelude.{◌≡◌, ℕ, List, [], ◌++◌, Some, true, false, is_some};
ghost use Rattle.trace_base.specs.declared.callsite.Callsite.{Callsite};
ghost use Rattle.trace_base.specs.declared.field.ValueSet.{ValueSet};
ghost use Rattle.trace_base.specs.layers.Hooks.{Hook};
ghost use Rattle.trace_base.specs.Spans.{is_in};
ghost use Rattle.env_filter.specs.Filtering.{FilterState, after_hook, is_admitted};
ghost use Rattle.env_filter.specs.spans.Histories.{NeverFalls, level_by_calls, levels_by_calls};
ghost use Rattle.span_script.specs.Admission.{text_filter};
ghost use Rattle.span_script.specs.calls.Here.{Here, answer_effect};
ghost use Rattle.span_script.specs.calls.Events.{event_effect};
ghost use Rattle.span_script.specs.calls.Filter.{admits_on, filter_in_force, hook_of, reload_effect};
ghost use Rattle.span_script.specs.Setups.{Setup};
ghost use Rattle.span_script.specs.Tables.{FilterHook, History, Scope, Tables, after_effect, tables};
ghost use Rattle.span_script.specs.declared.reply.Reply.TheVariants as reply;
ghost use Rattle.span_laws.specs.Hearing.{filter_hook_of, after_filter_hook_if};
ghost use Rattle.span_laws.specs.LegalHistories.{IsHistory};
ghost use Rattle.span_laws.specs.Levels.{HasNoReload, directives_in, hooks_in, level_in};

/// After a reload the gate speaks of the new text alone, whatever came before. All else is as it was: spans that were made
/// stay, whatever the new text says of them.
pub fn reloads()
    ensures gate { (setup : Setup) (t : Tables) (here : Here) (lane : ℕ) (text : List ℕ) (c : Callsite)
        → admits_on setup (after_effect t (reload_effect here text)) lane c ≡ is_admitted (text_filter text) lane c }
    ensures others { (setup : Setup) (h : History) (here : Here) (text : List ℕ) → IsHistory setup h
        → after_effect (tables setup h) (reload_effect here text)
        ≡ record (tables setup h) { filter = Some text; hooks = []; moment = here.at } }
{}

/// An event that isn't let through leaves nothing but its answer.
pub fn refused_events()
    ensures { (here : Here) (c : Callsite) (values : ValueSet) (reached : Scope)
        → admits_on here.setup here.tables here.lane c ≡ false
        → event_effect here c values reached ≡ answer_effect here (reply.Enabled false) }
{}

/// A filter hears of a making the span, its callsite and its values, of a record the values that it gives, of an entry and an
/// exit the lane's id, and closes: a hook makes of it what this makes of it, whatever else the hook is told.
pub fn hears()
    ensures hook { (f : FilterState) (hook : Hook) → after_hook f hook ≡ after_filter_hook_if f (filter_hook_of hook) }
    ensures heard { (heard : FilterHook) → filter_hook_of (hook_of heard) ≡ Some heard }
{}

/// The levels of spans and of lanes are those that the values say that were given since the filter was put in force.
pub fn levels()
    ensures span { (setup : Setup) (h : History) (s : ℕ) → IsHistory setup h
        → level_in setup h s ≡ level_by_calls (directives_in setup h) s (hooks_in setup h) }
    ensures lane { (setup : Setup) (h : History) (lane : ℕ) → IsHistory setup h
        → (filter_in_force setup (tables setup h)).lanes lane
        ≡ levels_by_calls (directives_in setup h) lane (hooks_in setup h) }
{}

/// While a filter is in force the level of a span never falls, and a span that has one keeps it until it closes.
pub fn levels_never_fall()
    ensures level { (setup : Setup) (h later : History) (s : ℕ) → IsHistory setup (h ++ later) → HasNoReload later
        → NeverFalls (level_in setup h s) (level_in setup (h ++ later) s) }
    ensures kept { (setup : Setup) (h later : History) (s : ℕ) → IsHistory setup (h ++ later) → HasNoReload later
        → is_in s (tables setup (h ++ later)).closed ≡ false
        → is_some (level_in setup h s) ≡ true → is_some (level_in setup (h ++ later) s) ≡ true }
{}
