//! Instruments: one for each kind and name that a measure came for.
ghost use Rattle.std.specs.Prelude.{◌≡◌, [], Some, IfOk, OnOk, OnErr};
ghost use Rattle.otel_metrics.specs.Instruments.{is_instrument_of, place_of, with_instrument, same_kind};

use crate::measure::{Measure, MetricKind};
use otel_base::list::Items;
use otel_base::memory::Memory;
use otel_base::text::Text;
use std::alloc::Global;
use std::marker::Model;

/// What measures of a kind and a name go to.
#[derive(Drop)]
pub struct Instrument {
    /// Its kind.
    pub kind: MetricKind,
    /// Its name.
    pub name: Text,
}

/// The instruments that measures came for, in the order of their first use;
/// `tracing_opentelemetry::metrics::Instruments`, which keeps them by name for each kind.
#[derive(Drop)]
pub struct Instruments {
    known: Items<Instrument>,
}

impl Model for Instruments {
    ghost use Rattle.std.specs.Prelude.{List};
    ghost use Rattle.otel_metrics.specs.declared.instruments.Instrument.{Instrument};

    ghost Value = { List Instrument };

    ghost view = { λ i. i.known };
}

impl Instruments {
    /// No instruments, which take no memory yet.
    pub fn new(alloc: Global) -> Instruments
        ensures { result ≡ [] }
    {
        Instruments {
            known: Items::new(alloc),
        }
    }

    /// The place of a measure's instrument, from 0, which is made at its first use. `Memory` where there is none to make
    /// it; the instruments then stay as they are. It stands for `Instruments::update_metric`.
    #[tactic(auto, using(crate::proofs::InstrumentsLemmas::found_new))]
    pub fn update_metric(&mut self, measure: &Measure) -> Result<u64, Memory>
        ensures place { IfOk result (λ place. place_of measure.now self.new ≡ Some place) }
        ensures known { OnOk result (self.new ≡ with_instrument measure.now self.old) }
        ensures memory_leaves { OnErr result (self.new ≡ self.old) }
    {
        if let Some(place) = place_of(self.known.as_slice(), measure) {
            return Ok(place as u64);
        }
        let place = self.known.as_slice().len();
        self.known.push(Instrument {
            kind: measure.kind,
            name: measure.name.clone()?,
        })?;
        Ok(place as u64)
    }
}

fn place_of(known: &[Instrument], measure: &Measure) -> Option<usize>
    ensures { result ≡ place_of measure.now known.now }
{
    known
        .iter()
        .position(|instrument| is_of(measure, instrument))
}

fn is_of(measure: &Measure, instrument: &Instrument) -> bool
    ensures { result ≡ is_instrument_of measure.now instrument.now }
{
    instrument.kind == measure.kind && instrument.name.as_str() == measure.name.as_str()
}
