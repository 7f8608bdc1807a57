//! What all workers read.
use crate::script::SharedLine;
use otel_base::list::Items;
use otel_base::text::Text;
use otel_state::LayerSettings;
use trace_base::callsite::Callsite;

/// What all workers read of a script.
#[derive(Drop)]
pub struct Plan {
    /// The text of the filter for events.
    pub filter: Text,
    /// The callsites.
    pub callsites: Items<Callsite>,
    /// The settings of the layer.
    pub layer: LayerSettings,
    /// The shared spans.
    pub shared: Items<SharedLine>,
}
