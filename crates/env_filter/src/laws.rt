//! What holds of every filter.
ghost use Rattle.std.specs.Prelude.{◌≡◌, ◌<◌, length, ◌++◌, [], ℕ, List, None, Some, is_some, true, false, option_map};
ghost use Rattle.std.specs.Str.{IsUtf8};
ghost use Rattle.trace_base.specs.Calls.{SubscriberCall};
ghost use Rattle.trace_base.specs.Gate.{IsFresh, IsInWorld, dispatch_on};
ghost use Rattle.trace_base.specs.layers.Hooks.{Hook};
ghost use Rattle.span_registry.specs.History.{CallsLead};
ghost use Rattle.env_directives.specs.declared.directive.StaticDirective.{StaticDirective};
ghost use Rattle.env_directives.specs.declared.env.directive.Directive.{Directive};
ghost use Rattle.env_filter.specs.declared.pieces.Ignored.{Ignored};
ghost use Rattle.env_filter.specs.texts.Building.{IsFilterOf};
ghost use Rattle.env_filter.specs.Filtering.{Each, FilterState, plain_filter, IsWholeFilter, IsNewFilter, is_admitted};
ghost use Rattle.env_filter.specs.spans.Histories.{level_by_calls, is_ended, NeverFalls};
ghost use Rattle.env_filter.specs.texts.Pieces.{ReadsText};
ghost use Rattle.env_filter.specs.texts.Printing.{HaveNoMinusZero, HaveOwnGreatest, IsReadBack, filter_text, fixed_builder, printed_directives, printed_of, text_of};
ghost use Rattle.env_filter.specs.Stacked.{ObservesCalls, ObservesInPlace};
ghost use Rattle.env_filter.specs.Tables.{dynamics_of, filter_of, statics_of};
ghost use Rattle.env_filter.specs.Worlds.{GateFollows, TakesAll, filter_rule, in_place_rule, IsWholeInPlace, EachSubscriber, AdmitsBy};

use crate::filter::EnvFilter;
use crate::reload;
use span_registry::layered::Layered;
use trace_base::callsite::SiteId;
use trace_base::lane::Lane;
use trace_base::layer::Layer;
use trace_base::subscriber::Subscriber;
use trace_base::world::World;

/// Interest, hint and `enabled` together are the rule of the gate.
pub fn gates()
    ensures { GateFollows ⟦<EnvFilter as Layer>⟧.interest ⟦<EnvFilter as Layer>⟧.hint ⟦<EnvFilter as Layer>⟧.enables
        (λ f. IsWholeFilter (plain_filter f)) filter_rule }
{}

/// While a filter is in force no calls lower the level of a span, and a span that has a level keeps one until it closes.
pub fn rises()
    ensures level { (ds : List Directive) (id : ℕ) (past calls : List Hook)
        → NeverFalls (level_by_calls ds id past) (level_by_calls ds id (past ++ calls)) }
    ensures stays { (ds : List Directive) (id : ℕ) (past calls : List Hook)
        → is_some (level_by_calls ds id past) ≡ true → is_ended id calls ≡ false
        → is_some (level_by_calls ds id (past ++ calls)) ≡ true }
{}

/// What a filter prints is read, without patterns, as the directives that it prints in their order, the static ones first,
/// where none of them prints a comma and each is read back alone. Those of the filter of some directives make its tables
/// again, and the text that very filter, where no level was greater than those that are still there.
pub fn printing()
    ensures read { (statics : List StaticDirective) (dynamics : List Directive) → Each IsReadBack (printed_directives statics dynamics)
        → ReadsText false (filter_text statics dynamics) (printed_directives statics dynamics) [] }
    ensures statics { (ds : List Directive) → (statics_of (printed_of ds)).directives ≡ (statics_of ds).directives }
    ensures dynamics { (ds : List Directive) → (dynamics_of (printed_of ds)).directives ≡ (dynamics_of ds).directives }
    ensures again { (ds : List Directive) → Each IsReadBack ds → HaveOwnGreatest ds
        → IsFilterOf fixed_builder (text_of (filter_of false None ds)) [] (filter_of false None ds) }
{}

/// Each directive that a text gives without patterns is read back alone, unless a value was read as minus zero. So what
/// the filter of a text prints is read as that very filter, where no level was greater than those that are still there.
pub fn reads_back()
    ensures alone { (text : List ℕ) (ds : List Directive) (ignored : List Ignored) → IsUtf8 text
        → ReadsText false text ds ignored → HaveNoMinusZero ds → Each IsReadBack ds }
    ensures same { (text : List ℕ) (ignored : List Ignored) (f : FilterState) → IsUtf8 text
        → (was : IsFilterOf fixed_builder text ignored f) → HaveNoMinusZero was.directives
        → HaveOwnGreatest was.directives → IsFilterOf fixed_builder (text_of f) [] f }
{}

/// A filter that had no span hears the hooks of all calls of the subscriber below it, each span's making once and
/// first; so the levels of spans and lanes are what the rules say of these calls.
pub fn hears<S: Subscriber>()
    ensures { (s : _) (calls : List SubscriberCall) (t : _) → IsNewFilter (plain_filter s.layer)
        → CallsLead ⟦<Layered<EnvFilter, S> as Subscriber>⟧.does ⟦<Layered<EnvFilter, S> as Subscriber>⟧.same_but_room s calls t
        → ObservesCalls (S.spans s.inner) calls (plain_filter s.layer) (plain_filter t.layer) }
{}

/// The same of a filter that can be exchanged, from the moment at which it was put in place.
pub fn hears_in_place<S: Subscriber>()
    ensures { (s : _) (calls : List SubscriberCall) (t : _) (f : FilterState)
        → option_map plain_filter s.layer.inner ≡ Some f → IsNewFilter f
        → CallsLead ⟦<Layered<reload::Layer<EnvFilter>, S> as Subscriber>⟧.does
        ⟦<Layered<reload::Layer<EnvFilter>, S> as Subscriber>⟧.same_but_room s calls t
        → ObservesInPlace (S.spans s.inner) calls f t.layer.inner }
{}

/// A callsite is admitted on a lane by the rule of the gate, where the cache is fresh and the subscriber below takes
/// everything.
pub fn admits<S: Subscriber>(
    world: &World<Layered<EnvFilter, S>>,
    lane: &Lane,
    site: SiteId,
) -> bool
    requires site { site < length world.now.sites }
    requires own { IsInWorld world.now lane.now.default }
    requires fresh { IsFresh ⟦<Layered<EnvFilter, S> as Subscriber>⟧.interest world.now }
    requires whole { EachSubscriber (λ s. IsWholeFilter (plain_filter s.layer)) world.now }
    requires below { TakesAll S.interest S.hint S.enables }
    ensures { AdmitsBy (λ s. filter_rule s.layer) world.now lane.now.id site
        (dispatch_on lane.now.default world.now.global) result }
{
    world.admits(lane, site)
}

/// The same where the filter can be exchanged: by the one that is in place, and no where it was retired.
pub fn admits_in_place<S: Subscriber>(
    world: &World<Layered<reload::Layer<EnvFilter>, S>>,
    lane: &Lane,
    site: SiteId,
) -> bool
    requires site { site < length world.now.sites }
    requires own { IsInWorld world.now lane.now.default }
    requires fresh { IsFresh ⟦<Layered<reload::Layer<EnvFilter>, S> as Subscriber>⟧.interest world.now }
    requires whole { EachSubscriber (λ s. IsWholeInPlace s.layer.inner) world.now }
    requires below { TakesAll S.interest S.hint S.enables }
    ensures { AdmitsBy (λ s. in_place_rule s.layer.inner) world.now lane.now.id site
        (dispatch_on lane.now.default world.now.global) result }
{
    world.admits(lane, site)
}
