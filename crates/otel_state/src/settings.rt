//! What an OpenTelemetry layer is set to tell.
ghost use Rattle.std.specs.Prelude.{◌≡◌};
ghost use Rattle.otel_state.specs.Settings.{default_settings};

/// What an OpenTelemetry layer tells of spans and events: the flags of `tracing_opentelemetry::OpenTelemetryLayer`.
#[derive(Clone, Copy, Debug, PartialEq, Eq)]
pub struct LayerSettings {
    /// An entry attaches its span's context to the lane; `with_context_activation`.
    pub activation: bool,
    /// A span starts at its making; `with_eager_start`.
    pub eager: bool,
    /// The special error of an event makes it an exception; `with_error_events_to_exceptions`.
    pub error_events_to_exceptions: bool,
    /// The special error of an event is an error of its span; `with_error_events_to_status`.
    pub error_events_to_status: bool,
    /// A value that is an error is told as an exception too, where it stands; `with_error_fields_to_exceptions`.
    pub error_fields_to_exceptions: bool,
    /// A value of an event that is an error is told as an exception of the span; `with_error_records_to_exceptions`.
    pub error_records_to_exceptions: bool,
    /// The close of a span tells its busy and idle times; `with_tracked_inactivity`.
    pub inactivity: bool,
    /// The level of a span; `with_level`.
    pub level: bool,
    /// The file, module and line of spans and events; `with_location`.
    pub location: bool,
    /// The target of a span; `with_target`.
    pub target: bool,
    /// The lane on which a span is made; `with_threads`.
    pub threads: bool,
}

/// All is told but the level, and a span starts when its ids are asked for.
impl Default for LayerSettings {
    ghost is_default = { λ s. s ≡ default_settings };

    fn default() -> LayerSettings {
        LayerSettings {
            activation: true,
            eager: false,
            error_events_to_exceptions: true,
            error_events_to_status: true,
            error_fields_to_exceptions: true,
            error_records_to_exceptions: true,
            inactivity: true,
            level: false,
            location: true,
            target: true,
            threads: true,
        }
    }
}
