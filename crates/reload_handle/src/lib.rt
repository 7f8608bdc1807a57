//! A lock over a layer that can be exchanged, for threads that exchange it. Everything turns on what the lock's type keeps:
//! its layer isn't retired, so no call ever finds it gone.
#![tactic(auto)]

ghost use Rattle.std.specs.Prelude.{◌≡◌, true, is_some, Some, IsOk, IfOk};
ghost use Rattle.std.specs.Fn.{FnOnceReturnsAt, FnOnceReturnsAtMut};

use env_filter::reload::{CloneLayer, Error, Layer};
use otel_base::memory::Memory;
use std::alloc::{AllocError, Global};
use std::sync::{Arc, Mutex, Wait};

// What lies under the lock: a layer that isn't retired.
#[derive(Drop)]
struct InUse<L> {
    layer: Layer<L>,
    ghost there: { is_some layer.inner ≡ true },
}

impl<L: Drop> InUse<L> {
    fn reload(&mut self, layer: L) -> Result<(), Error>
        ensures ok { IsOk result }
        ensures put { self.new.layer.inner ≡ Some layer }
    {
        self.layer.reload(layer)
    }

    fn modify<F: FnOnce(&mut L)>(&mut self, f: F) -> Result<(), Error>
        requires { F.IsAlwaysCallable f }
        ensures ok { IsOk result }
        ensures changed { (l : L) × (m : L) × FnOnceReturnsAtMut F.FnOnce f l tt m }
    {
        self.layer.modify(f)
    }

    fn with_current<T, F: FnOnce(&L) -> T>(&self, f: F) -> Result<T, Error>
        requires { F.IsAlwaysCallable f }
        ensures ok { IsOk result }
        ensures lent { IfOk result (λ r. (l : L) × FnOnceReturnsAt F.FnOnce f l r) }
    {
        self.layer.with_current(f)
    }
}

impl<L: CloneLayer> InUse<L> {
    fn clone_current(&self) -> Result<Option<L>, Memory>
        ensures { IfOk result (λ copy. (l : L) × (m : L) × (copy ≡ Some m) × L.is_copy l m) }
    {
        self.layer.clone_current()
    }
}

/// Exchanges a layer from any thread, under a lock; `tracing_subscriber::reload::Handle`. Nothing retires that layer, so no
/// call answers `Error` or None. What the layer is at a moment no clause can say: other threads exchange it too.
#[derive(Drop)]
pub struct Handle<L: Drop> {
    lock: Arc<Mutex<InUse<L>>, Global>,
}

impl<L: Drop> Handle<L> {
    /// A lock over a layer that isn't retired.
    pub fn new(alloc: Global, layer: Layer<L>) -> Result<Handle<L>, Memory>
        requires { is_some layer.inner ≡ true }
    {
        let lock = Arc::new(alloc, Mutex::new(InUse { layer }))?;
        Ok(Handle { lock })
    }

    /// Puts another layer in place; `reload::Handle::reload`. It waits for the lock.
    pub fn reload<R: Wait>(&self, rt: &R, layer: L) -> Result<(), Error>
        ensures { IsOk result }
    {
        self.lock.lock(rt).reload(layer)
    }

    /// Changes the layer in place; `reload::Handle::modify`. It waits for the lock, and the closure was lent some layer.
    pub fn modify<R: Wait, F: FnOnce(&mut L)>(&self, rt: &R, f: F) -> Result<(), Error>
        requires { F.IsAlwaysCallable f }
        ensures ok { IsOk result }
        ensures changed { (l : L) × (m : L) × FnOnceReturnsAtMut F.FnOnce f l tt m }
    {
        self.lock.lock(rt).modify(f)
    }

    /// Lends the layer to a closure; `reload::Handle::with_current`. It waits for the lock, and what is answered is what
    /// the closure answered to some layer.
    pub fn with_current<R: Wait, T, F: FnOnce(&L) -> T>(&self, rt: &R, f: F) -> Result<T, Error>
        requires { F.IsAlwaysCallable f }
        ensures ok { IsOk result }
        ensures lent { IfOk result (λ r. (l : L) × FnOnceReturnsAt F.FnOnce f l r) }
    {
        self.lock.lock(rt).with_current(f)
    }
}

impl<L: CloneLayer> Handle<L> {
    /// The layer in place once more; `reload::Handle::clone_current`. It waits for the lock, and the copy is of some layer.
    pub fn clone_current<R: Wait>(&self, rt: &R) -> Result<Option<L>, Memory>
        ensures { IfOk result (λ copy. (l : L) × (m : L) × (copy ≡ Some m) × L.is_copy l m) }
    {
        self.lock.lock(rt).clone_current()
    }
}

/// It shares the lock.
impl<L: Drop> Clone for Handle<L> {
    fn clone(&self) -> Result<Handle<L>, AllocError> {
        Ok(Handle {
            lock: Arc::try_clone(&self.lock)?,
        })
    }
}
