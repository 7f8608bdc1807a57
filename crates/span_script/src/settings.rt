//! What a script's settings line says.
use otel_base::list::Items;
use otel_base::text::Text;
use otel_state::settings::LayerSettings;
use trace_base::callsite::Callsite;

/// The settings of a script. Lanes and callsites are named by their places, from 0.
#[derive(Drop)]
pub struct Settings {
    /// The text of the filter at first, without patterns; `tracing_subscriber::EnvFilter`.
    pub filter: Text,
    /// The text of the filter that decides which events are told beside being counted, none where events aren't counted;
    /// the filter of `OpenTelemetryLayer::with_counting_event_filter`.
    pub counting: Option<Text>,
    /// The lanes, each with its id and its name, if it has one; threads, in the Rust crates.
    pub lanes: Items<(u64, Option<Text>)>,
    /// The callsites of spans and events.
    pub callsites: Items<Callsite>,
    /// What the OpenTelemetry layer tells.
    pub layer: LayerSettings,
}

/// The texts of filters that settings give.
#[derive(Drop)]
pub struct FilterTexts {
    /// That of the filter at first.
    pub filter: Text,
    /// That of the filter for counted events, if events are counted.
    pub counting: Option<Text>,
}
