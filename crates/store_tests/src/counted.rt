//! Stores whose calls are counted, over all ways that one maker made.
ghost use Rattle.std.specs.Prelude.{◌≡◌, ◌≢◌, ℕ, IfErr, IfOk};

use cells::Want;
use remote_store::{Failed, RawStore, Stores};
use std::alloc::{AllocError, Global};
use std::sync::Arc;
use std::sync::atomic::{AtomicU64, Ordering};

/// How many reads and writes came to a store. Each clone leads to the same counts.
#[derive(Drop)]
pub(crate) struct Calls {
    reads: Arc<AtomicU64>,
    writes: Arc<AtomicU64>,
}

impl Calls {
    /// No call yet.
    pub(crate) fn none(alloc: Global) -> Result<Calls, AllocError> {
        let reads = Arc::new(alloc, AtomicU64::new(0))?;
        let writes = Arc::new(alloc, AtomicU64::new(0))?;
        Ok(Calls { reads, writes })
    }

    /// Another handle of the same counts.
    pub(crate) fn again(&self) -> Result<Calls, AllocError> {
        let reads = self.reads.clone()?;
        let writes = self.writes.clone()?;
        Ok(Calls { reads, writes })
    }

    /// How many reads came.
    pub(crate) fn reads(&self) -> u64 {
        self.reads.load(Ordering::SeqCst)
    }

    /// How many reads and writes came.
    pub(crate) fn all(&self) -> u64 {
        self.reads()
            .wrapping_add(self.writes.load(Ordering::SeqCst))
    }

    fn count_read(&self) {
        self.reads.fetch_add(1, Ordering::SeqCst);
    }

    fn count_write(&self) {
        self.writes.fetch_add(1, Ordering::SeqCst);
    }
}

/// A way to a store, whose calls are counted.
#[derive(Drop)]
pub(crate) struct CountedStore<S: RawStore> {
    store: S,
    calls: Calls,
}

impl<S: RawStore> RawStore for CountedStore<S> {
    type Cell = S::Cell;

    ghost honest = { S.honest };

    ghost reliable = { S.reliable };

    ghost failures = { λ s. S.failures s.store };

    ghost content = { λ c. S.content c };

    ghost read_gives = { λ before c row after. S.read_gives before.store c row after.store };

    ghost fits = { λ c n. S.fits c n };

    ghost makes = { λ s n. S.makes s.store n };

    fn cell(&self, alloc: Global) -> Result<S::Cell, Want> {
        self.store.cell(alloc)
    }

    fn write(&mut self, c: &mut S::Cell, w: &[u64]) -> Result<(), Failed> {
        self.calls.count_write();
        self.store.write(c, w)
    }

    fn read(&mut self, c: &S::Cell, w: &mut [u64]) -> Result<(), Failed> {
        self.calls.count_read();
        self.store.read(c, w)
    }
}

/// Makes ways to one store, whose calls are counted together.
#[derive(Drop)]
pub(crate) struct CountedStores<M: Stores + Drop> {
    pub(crate) stores: M,
    pub(crate) calls: Calls,
}

impl<M: Stores + Drop> Stores for CountedStores<M> {
    type S = CountedStore<M::S>;

    ghost makes = { λ m n. M.makes m.stores n };

    fn one(&self, alloc: Global) -> Result<CountedStore<M::S>, Want>
        ensures wants { IfErr result (λ want. want ≢ Want.NoObjects) }
        ensures makes { IfOk result (λ way. (n : ℕ) → M.makes self.now.stores n → M.S.makes way.store n) }
    {
        let store = self.stores.one(alloc)?;
        match self.calls.again() {
            Ok(calls) => Ok(CountedStore { store, calls }),
            Err(_refused) => Err(Want::OutOfMemory),
        }
    }
}
