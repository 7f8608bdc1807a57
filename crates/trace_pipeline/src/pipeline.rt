//! A pipeline runs the requests of a script over a stack of a registry, the OpenTelemetry layer, the layer of metrics and a
//! filter.
ghost use Rattle.std.specs.Prelude.{◌≡◌, ◌<◌, [], true, map, option_map, length, IfOk, OnOk, IfErr, OnErr, Ok, Err};
ghost use Rattle.env_filter.specs.Filtering.{plain_filter, IsNewFilter};
ghost use Rattle.span_script.specs.Admission.{opening_read, IsOpenError, IsTextFilter, IsCountingFilter};
ghost use Rattle.span_script.specs.Setups.{HaveDistinctIds, setup_by};
ghost use Rattle.span_script.specs.Effects.{is_bad_moment};

use crate::contexts::Contexts;
use crate::filters::read_filters;
use crate::guards::Guards;
use crate::{laws, opening};
use env_filter::filter::EnvFilter;
use otel_base::memory::Memory;
use otel_base::record::Moment;
use span_handles::span::Span;
use span_script::open_error::OpenError;
use span_script::reply::{Refusal, Reply, What};
use span_script::request::{Call, LAST_MOMENT, Request};
use span_script::settings::{FilterTexts, Settings};
use span_stack::{Stack, new_stack};
use sparse_slots::Slots;
use std::alloc::Global;
use std::marker::Model;
use trace_base::discard::Discard;
use trace_base::dispatcher::Dispatch;
use trace_base::lane::Lane;
use trace_base::subscriber::Subscriber;
use trace_base::world::World;

/// Runs the requests of a script, one after another: a `tracing_subscriber::Registry` with a filter, a
/// `tracing_opentelemetry::MetricsLayer` whose measures are kept, and a `tracing_opentelemetry::OpenTelemetryLayer` over an
/// exporter that keeps what it gets. It has to be spent, by `discard`.
pub struct Pipeline {
    pub(crate) world: World<Stack>,
    pub(crate) dispatch: Dispatch,
    pub(crate) filter_texts: FilterTexts,
    pub(crate) lanes: Vec<Lane>,
    pub(crate) handles: Slots<Span>,
    pub(crate) guards: Guards,
    pub(crate) contexts: Contexts,
    pub(crate) moment: Moment,
}

impl Model for Pipeline {
    ghost use Rattle.span_script.specs.Fits.{PipelineState, state_of, stack_views, PipelineInvariant};
    ghost use Rattle.trace_pipeline.specs.Parts.{parts_of};

    ghost Value = { PipelineState };

    ghost view = { λ p. state_of ⟦<Stack as Subscriber>⟧.spans stack_views (parts_of p) };

    ghost invariant = { λ p. PipelineInvariant ⟦<Stack as Subscriber>⟧.spans stack_views ⟦<Stack as Subscriber>⟧.kept
        ⟦<Stack as Subscriber>⟧.is_whole (parts_of p) };
}

/// What isn't spent is given up.
impl Discard for Pipeline {
    fn discard(self) {
        let Pipeline {
            world,
            dispatch: _,
            filter_texts: _,
            lanes: _,
            handles,
            guards,
            contexts,
            moment: _,
        } = self;
        world.discard();
        handles.discard();
        guards.discard();
        contexts.discard();
    }
}

fn is_bad_moment(before: Moment, given: Moment) -> bool
    ensures { result ≡ is_bad_moment before given }
{
    given < before || given > LAST_MOMENT
}

impl Pipeline {
    ghost use Rattle.span_script.specs.Tables.{History, tables};
    ghost use Rattle.span_script.specs.Effects.{effect_of};
    ghost use Rattle.span_script.specs.Fits.{StandsFor, Serves, IsServedByHistory, IsRefusal};
    ghost use Rattle.span_script.specs.calls.Refusals.{takes_no_memory};
    ghost use Rattle.span_script.specs.declared.reply.Refusal.TheVariants.{Memory as NoMemory};

    /// A pipeline for the settings, before any request. `Directive` where a piece of the filter's text is none, or else one
    /// of the text for counting; it may answer `Memory`.
    pub fn open(alloc: Global, settings: Settings) -> Result<Pipeline, OpenError>
        requires { HaveDistinctIds (map (λ l. l.0) settings.lanes) }

        // A new pipeline stands for the empty history of its settings.
        ensures setup { IfOk result (λ pipeline. pipeline.setup ≡ setup_by settings) }
        ensures stands { IfOk result (λ pipeline. StandsFor pipeline (tables (setup_by settings) [])) }
        ensures records { IfOk result (λ pipeline. pipeline.recording.finished ≡ []) }
        ensures measures { IfOk result (λ pipeline. pipeline.measures ≡ []) }

        // Both texts are read before anything is made.
        ensures read { OnOk result (opening_read settings.filter settings.counting ≡ Ok tt) }
        ensures refused { IfErr result (IsOpenError (opening_read settings.filter settings.counting)) }
    {
        let (gate, counting_filter) = read_filters(alloc, &settings.filter, &settings.counting)?;
        match Pipeline::with_filters(alloc, settings, gate, counting_filter) {
            Ok(pipeline) => Ok(pipeline),
            Err(_) => Err(OpenError::Memory),
        }
    }

    // A pipeline for settings, with the filters of their texts.
    fn with_filters(
        alloc: Global,
        settings: Settings,
        gate: EnvFilter,
        counting_filter: Option<EnvFilter>,
    ) -> Result<Pipeline, Memory>
        requires ids { HaveDistinctIds (map (λ l. l.0) settings.lanes) }
        requires gate { IsTextFilter settings.filter (plain_filter gate) }
        requires new { IsNewFilter (plain_filter gate) }
        requires counting_filter { IsCountingFilter settings.counting (option_map plain_filter counting_filter) }

        ensures setup { IfOk result (λ pipeline. pipeline.setup ≡ setup_by settings) }
        ensures stands { IfOk result (λ pipeline. StandsFor pipeline (tables (setup_by settings) [])) }
        ensures records { IfOk result (λ pipeline. pipeline.recording.finished ≡ []) }
        ensures measures { IfOk result (λ pipeline. pipeline.measures ≡ []) }
    {
        laws::same();
        let Settings {
            filter,
            counting,
            lanes,
            callsites,
            layer,
        } = settings;
        let stack = new_stack(alloc, layer, gate, counting_filter);
        let (world, dispatch) = opening::new_world(alloc, callsites.into_vec(), stack)?;
        let Ok(lanes) = opening::new_lanes(alloc, lanes, dispatch) else {
            world.discard();
            return Err(Memory);
        };
        Ok(Pipeline {
            world,
            dispatch,
            filter_texts: FilterTexts { filter, counting },
            lanes,
            handles: Slots::new(alloc),
            guards: Guards::new(alloc),
            contexts: Contexts::new(alloc),
            moment: 0,
        })
    }

    /// Runs a request. A refused step leaves the pipeline as it was: `BadMoment` where the moment falls or is above
    /// 2^63 - 1, `UnknownName` where it names what isn't there, or a guard of the other kind, or gives a field that the
    /// callsite doesn't declare, `InUse` where it spends or owns a handle with an open guard, or exits the guard that owns
    /// a handle with another one, `WrongLane` where it spends a guard on another lane than the guard's, `Full` where it
    /// attaches a context to a lane with 65,534 of them, `Directive` where it reloads a text of which a piece is none. It may
    /// answer `Memory`, but not to a drop, an exit, a detach, a `has_field`, an `enabled`, a `set_parent` or a `set_status`.
    pub fn step(&mut self, request: Request) -> Result<Reply, Refusal>
        ensures ok { (h : History) → StandsFor self.old (tables self.old.setup h)
            → IfOk result (IsServedByHistory (effect_of self.old.setup (tables self.old.setup h) request) h self.old self.new) }
        ensures refused { (h : History) → StandsFor self.old (tables self.old.setup h)
            → IfErr result (IsRefusal (effect_of self.old.setup (tables self.old.setup h) request)) }

        // After any refusal, one for want of memory too, the pipeline is as it was.
        ensures err { OnErr result (self.new ≡ self.old) }
        ensures room { takes_no_memory request.call ≡ true → ¬ (result ≡ Err NoMemory) }
    {
        let Request {
            at,
            lane_place: place,
            call,
        } = request;
        if is_bad_moment(self.moment, at) {
            return Err(Refusal::BadMoment {
                before: self.moment,
                given: at,
            });
        }
        if place >= self.lanes.len() as u64 {
            return Err(Refusal::UnknownName { what: What::Lane });
        }
        self.call(at, place, call)
    }

    // Taken into `step`, so that a request's parts aren't handed on once more.
    #[inline(always)]
    fn call(&mut self, at: Moment, place: u64, call: Call) -> Result<Reply, Refusal>
        requires { place < length self.old.lanes }
        ensures { Serves self.old at place call result self.new }
    {
        match call {
            Call::Clone { handle } => self.clone_handle(at, place, handle),
            Call::Drop { handle } => self.drop_handle(at, place, handle),
            Call::Enter { handle } => self.enter(at, place, handle, false),
            Call::Exit { guard } => self.exit(at, place, guard),
            Call::New {
                site,
                parent,
                fields,
            } => self.make(at, place, site, parent, fields),
            Call::Current => self.current(at, place),
            Call::OrCurrent { handle } => self.or_current(at, place, handle),
            Call::Entered { handle } => self.entered(at, place, handle),
            Call::Record { handle, fields } => self.record(at, place, handle, fields),
            Call::HasField { handle, name } => self.has_field(at, place, handle, name),
            Call::Event {
                site,
                parent,
                fields,
            } => self.event(at, place, site, parent, fields),
            Call::Remote { ids } => self.remote(at, place, ids),
            Call::Context { handle } => self.context(at, place, handle),
            Call::Attach { context } => self.attach(at, place, context),
            Call::Detach { guard } => self.detach(at, place, guard),
            Call::Follows { handle, from } => self.follows(at, place, handle, from),
            Call::SetParent { handle, context } => self.set_parent(at, place, handle, context),
            Call::AddLink {
                handle,
                context,
                attributes,
            } => self.add_link(at, place, handle, context, attributes),
            Call::SetAttribute { handle, key, value } => self.set_attribute(
                at, place, handle, key, value,
            ),
            Call::SetStatus { handle, status } => self.set_status(at, place, handle, status),
            Call::AddEvent {
                handle,
                name,
                attributes,
                time,
            } => self.add_event(at, place, handle, name, attributes, time),
            Call::Enabled { site } => self.enabled(at, place, site),
            Call::Reload { text } => self.reload(at, place, text),
        }
    }
}
