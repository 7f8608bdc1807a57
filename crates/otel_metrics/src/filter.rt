//! What events tell metrics.
ghost use Rattle.std.specs.Prelude.{None};
ghost use Rattle.otel_metrics.specs.Families.{is_metrics_event};
ghost use Rattle.otel_metrics.specs.Waiting.{interest_in};

use crate::family::is_metrics_event;
use trace_base::callsite::Callsite;
use trace_base::filter::Filter;
use trace_base::level::LevelFilter;
use trace_base::subscriber::Interest;

/// Lets through the callsites of events that declare a field of a metric, whatever values are given;
/// `tracing_opentelemetry::metrics::MetricsFilter`.
#[derive(Clone, Copy, Debug, Drop)]
pub struct MetricsFilter {}

impl Filter for MetricsFilter {
    ghost interest = { λ f. interest_in };

    ghost enables = { λ f lane. is_metrics_event };

    ghost hint = { λ f. None };

    fn enabled(&self, _lane: u64, callsite: &Callsite) -> bool {
        is_metrics_event(callsite)
    }

    fn callsite_enabled(&self, callsite: &Callsite) -> Interest {
        if is_metrics_event(callsite) {
            Interest::Always
        } else {
            Interest::Never
        }
    }

    fn max_level_hint(&self) -> Option<LevelFilter> {
        None
    }
}
