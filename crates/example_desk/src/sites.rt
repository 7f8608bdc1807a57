//! The callsites of the shop.
ghost use Rattle.std.specs.Prelude.{◌≡◌, [], ◌∷◌, IfOk, OnOk, map, length, codes};

use otel_base::list::Items;
use otel_base::memory::Memory;
use otel_base::text::Text;
use std::alloc::Global;
use trace_base::callsite::{Callsite, Kind, SiteId};
use trace_base::level::Level;
use trace_base::subscriber::Subscriber;
use trace_base::world::World;

/// The callsites, which have these numbers in their world.
#[derive(Clone, Copy)]
pub struct Sites {
    /// `info_span!("order", user, items)`.
    pub order: SiteId,
    /// `debug_span!("pay", user)`.
    pub pay: SiteId,
    /// `info_span!("pack")`.
    pub pack: SiteId,
    /// `error!(error, "failed")`.
    pub failed: SiteId,
    /// `debug!("paid")`.
    pub paid: SiteId,
    ghost numbered: { (order ≡ 0) × (pay ≡ 1) × (pack ≡ 2) × (failed ≡ 3) × (paid ≡ 4) },
}

impl Sites {
    /// The callsites, added to a world that has none.
    pub fn new<S: Subscriber>(alloc: Global, world: &mut World<S>) -> Result<Sites, Memory>
        requires none { world.old.sites ≡ [] }
        requires alone { length world.old.subscribers ≡ 0 }
        ensures five { OnOk result (length world.new.sites ≡ 5) }
        ensures names { OnOk result (map (λ site. site.name) world.new.sites
            ≡ codes "order" ∷ codes "pay" ∷ codes "pack" ∷ codes "failed" ∷ codes "paid" ∷ []) }
        ensures alone { length world.new.subscribers ≡ 0 }
    {
        let order = site(alloc, Kind::Span, Level::INFO, "order", &["user", "items"])?;
        let pay = site(alloc, Kind::Span, Level::DEBUG, "pay", &["user"])?;
        let pack = site(alloc, Kind::Span, Level::INFO, "pack", &[])?;
        let failed = site(
            alloc,
            Kind::Event,
            Level::ERROR,
            "failed",
            &["message", "error"],
        )?;
        let paid = site(alloc, Kind::Event, Level::DEBUG, "paid", &["message"])?;
        Ok(Sites {
            order: world.add_site(order)?,
            pay: world.add_site(pay)?,
            pack: world.add_site(pack)?,
            failed: world.add_site(failed)?,
            paid: world.add_site(paid)?,
        })
    }
}

// A callsite with fields of these names.
fn site(
    alloc: Global,
    kind: Kind,
    level: Level,
    name: &str,
    names: &[&str],
) -> Result<Callsite, Memory>
    ensures { IfOk result (λ site. site.name ≡ name.now) }
{
    let mut fields = Items::new(alloc);
    for field in names {
        fields.push(text(alloc, field)?)?;
    }
    Ok(Callsite {
        name: text(alloc, name)?,
        target: text(alloc, "shop")?,
        level,
        kind,
        file: None,
        module_path: None,
        line: None,
        fields,
    })
}

/// A text, as callsites and values have them.
pub(crate) fn text(alloc: Global, word: &str) -> Result<Text, Memory>
    ensures { IfOk result (λ text. text ≡ word.now) }
{
    Text::from_str(alloc, word)
}
