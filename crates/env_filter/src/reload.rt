//! Layers that can be exchanged while they are in use.
ghost use Rattle.std.specs.Prelude.{◌≡◌, true, false, Some, None, is_some, OnOk, OnErr, IfOk, codes};
ghost use Rattle.std.specs.Fn.{FnOnceReturnsAt, FnOnceReturnsAtMut};
ghost use Rattle.env_directives.specs.declared.targets.Targets.{Targets};
ghost use Rattle.env_filter.specs.Filtering.{plain_filter, fresh_filter};
ghost use Rattle.env_filter.specs.Reloading.{Swaps, BothOrNeither, HoldsInPlace, IsChanged};

use crate::filter::EnvFilter;
use env_directives::targets::Targets;
use otel_base::memory::Memory;
use std::{error, fmt, mem};
use trace_base::discard::Discard;

mod hooks;

/// A layer that can be exchanged, and that there is none of after it was retired; `tracing_subscriber::reload::Layer`.
/// After an exchange the caller asks for interests again (`World::rebuild_interest`).
#[derive(Drop)]
pub struct Layer<L> {
    inner: Option<L>,
}

impl<L> Layer<L> {
    /// This layer; `reload::Layer::new`.
    pub fn new(layer: L) -> Layer<L>
        ensures { result.inner ≡ Some layer }
    {
        Layer { inner: Some(layer) }
    }

    /// Takes the layer out for good.
    pub fn retire(&mut self) -> Option<L>
        ensures value { result ≡ self.old.inner }
        ensures retired { self.new.inner ≡ None }
    {
        self.inner.take()
    }

    /// Changes the layer in place; `reload::Handle::modify`. An error where it was retired.
    pub fn modify<F: FnOnce(&mut L)>(&mut self, f: F) -> Result<(), Error>
        requires { F.IsAlwaysCallable f }
        ensures ok { OnOk result
            (IsChanged (λ l m. FnOnceReturnsAtMut F.FnOnce f l tt m) self.old.inner self.new.inner) }
        ensures retired { OnErr result ((self.old.inner ≡ None) × (self.new.inner ≡ None)) }
    {
        match &mut self.inner {
            Some(layer) => {
                change(layer, f);
                Ok(())
            }
            None => Err(Error {}),
        }
    }

    /// Lends the layer to a closure; `reload::Handle::with_current`. An error where it was retired.
    pub fn with_current<T, F: FnOnce(&L) -> T>(&self, f: F) -> Result<T, Error>
        requires { F.IsAlwaysCallable f }
        ensures ok { IfOk result (λ r. HoldsInPlace (λ l. FnOnceReturnsAt F.FnOnce f l r) self.now.inner) }
        ensures retired { OnErr result (self.now.inner ≡ None) }
    {
        match &self.inner {
            Some(layer) => Ok(f(layer)),
            None => Err(Error {}),
        }
    }

    /// Exchanges the layer in place for another, which then has the one that was there. An error where it was retired,
    /// and nothing changes then.
    pub fn exchange(&mut self, other: &mut L) -> Result<(), Error>
        ensures swaps { Swaps self.old.inner other.old self.new.inner other.new }
        ensures ok { OnOk result (is_some self.old.inner ≡ true) }
        ensures retired { OnErr result (self.old.inner ≡ None) }
    {
        match &mut self.inner {
            Some(inner) => {
                mem::swap(inner, other);
                Ok(())
            }
            None => Err(Error {}),
        }
    }
}

impl<L: Drop> Layer<L> {
    /// Puts another layer in place; `reload::Handle::reload`. An error where it was retired.
    pub fn reload(&mut self, layer: L) -> Result<(), Error>
        ensures ok { OnOk result ((is_some self.old.inner ≡ true) × (self.new.inner ≡ Some layer)) }
        ensures retired { OnErr result ((self.old.inner ≡ None) × (self.new.inner ≡ None)) }
    {
        if self.inner.is_none() {
            return Err(Error {});
        }
        self.inner = Some(layer);
        Ok(())
    }
}

/// It gives the layer in place up.
impl<L: Discard> Discard for Layer<L> {
    fn discard(self) {
        self.inner.discard();
    }
}

impl<L: CloneLayer> Layer<L> {
    /// The layer in place once more, none exactly where it was retired; `reload::Handle::clone_current`.
    pub fn clone_current(&self) -> Result<Option<L>, Memory>
        ensures { IfOk result (λ copy. BothOrNeither L.is_copy (Unit {0}) self.now.inner copy) }
    {
        match &self.inner {
            Some(layer) => Ok(Some(layer.clone_layer()?)),
            None => Ok(None),
        }
    }
}

fn change<V, F: FnOnce(&mut V)>(value: &mut V, f: F)
    requires { F.IsAlwaysCallable f }
    ensures { FnOnceReturnsAtMut F.FnOnce f value.old tt value.new }
{
    f(value);
}

/// Layers that can be made once more, for `clone_current`; it stands for `Clone`.
pub trait CloneLayer: Drop {
    /// What such a layer has of the one that it was made from.
    ghost is_copy: { Self → Self → Type 0 };

    /// The layer once more; `Memory` where there is none for it.
    fn clone_layer(&self) -> Result<Self, Memory>
        ensures { IfOk result (λ copy. is_copy self.now copy) };
}

/// The same tables, with no span and no level.
impl CloneLayer for EnvFilter {
    ghost is_copy = { λ s t. plain_filter t ≡ fresh_filter (plain_filter s) };

    fn clone_layer(&self) -> Result<EnvFilter, Memory> {
        self.clone_filter()
    }
}

/// The same targets.
impl CloneLayer for Targets {
    ghost is_copy = { λ s t. t ≡ s };

    fn clone_layer(&self) -> Result<Targets, Memory> {
        self.clone_targets()
    }
}

/// The layer was retired; `tracing_subscriber::reload::Error`.
#[derive(Clone, Copy, Debug, PartialEq, Eq, Drop)]
pub struct Error {}

impl Error {
    /// Whether the layer was retired, which it always was; `reload::Error::is_dropped`.
    pub fn is_dropped(&self) -> bool
        ensures { result ≡ true }
    {
        true
    }

    /// Whether a closure panicked while it had the layer, which none can; `reload::Error::is_poisoned`.
    pub fn is_poisoned(&self) -> bool
        ensures { result ≡ false }
    {
        false
    }
}

impl fmt::Display for Error {
    ghost output = { λ _. Some (codes "subscriber no longer exists") };

    fn fmt<W: fmt::Write>(&self, f: &mut fmt::Formatter<W>) -> fmt::Result {
        f.write_str("subscriber no longer exists")
    }
}

impl error::Error for Error {}
