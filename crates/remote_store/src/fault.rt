//! A store that fails by plan, for tests of what happens where the store fails.
ghost use Rattle.std.specs.Prelude.{◌≡◌, ◌≢◌, ℕ, ◌+◌, ◌%◌, ◌⊎◌, true, List, length, Some, MatchBool, IfOk, IsOk, IfErr, MatchResult};
ghost use Rattle.remote_store.specs.Faults.{FailsAt, MayFail};

use crate::config::Stores;
use crate::port::{Cause, Failed};
use crate::raw::RawStore;
use cells::Want;
use std::alloc::{AllocError, Global};
use std::sync::Arc;
use std::sync::atomic::{AtomicU64, Ordering};

/// Which calls fail. Calls of `write` and of `read` are counted together, over all ways that one `FaultStores` made: the
/// first is call 1, and the count goes on modulo 2^64. Calls of `cell` are not counted.
#[derive(Clone, Copy, PartialEq, Eq, Debug)]
pub enum FaultPlan {
    /// No call fails by plan.
    Never,
    /// The call of this number alone; none at 0.
    Only(u64),
    /// The call of this number and each of a greater one; none at 0.
    From(u64),
}

impl FaultPlan {
    /// Whether the call of this number fails.
    pub fn fails(self, call: u64) -> bool
        ensures { MatchBool result (FailsAt self call) (FailsAt self call → ⊥) }
    {
        match self {
            FaultPlan::Never => false,
            FaultPlan::Only(number) => number != 0 && call == number,
            FaultPlan::From(first) => first != 0 && first <= call,
        }
    }
}

// A plan, and the count of calls that ways share. It has no type parameter, since the checker does not cover a method of
// `RawStore` that calls a method over `S` in which an atomic is stepped.
#[derive(Drop)]
pub(crate) struct PlannedCalls {
    pub(crate) plan: FaultPlan,
    pub(crate) count: Arc<AtomicU64>,
}

impl PlannedCalls {
    // Counts a call, and says whether it fails by plan.
    pub(crate) fn next_fails(&self) -> bool
        ensures { result ≡ true → MayFail self.now.plan }
    {
        let before = self.count.fetch_add(1, Ordering::SeqCst);
        self.plan.fails(before.wrapping_add(1))
    }
}

/// One mover's way to a store, whose calls fail by plan or where the store's own fail. A call that fails by plan never comes
/// to the store and changes nothing there. `failures` counts both kinds, modulo 2^64.
#[derive(Drop)]
pub struct FaultStore<S: RawStore> {
    store: S,
    calls: PlannedCalls,
    failures: u64,
}

impl<S: RawStore> FaultStore<S> {
    /// How many calls failed through this way, modulo 2^64.
    pub fn failures(&self) -> u64
        ensures { result ≡ self.now.failures }
    {
        self.failures
    }
}

impl<S: RawStore> RawStore for FaultStore<S> {
    type Cell = S::Cell;

    ghost use Rattle.remote_store.specs.Kept.{Reads};

    ghost honest = { S.honest };

    ghost reliable = { ⊥ };

    ghost failures = { λ s. s.failures };

    // A write that fails by plan leaves the cell as it was, so there is no new content to tell.
    ghost content = { λ c. S.content c };

    ghost read_gives = { λ before c row after. S.read_gives before.store c row after.store };

    ghost fits = { λ c n. S.fits c n };

    ghost makes = { λ s n. S.makes s.store n };

    fn cell(&self, alloc: Global) -> Result<S::Cell, Want> {
        self.store.cell(alloc)
    }

    fn write(&mut self, c: &mut S::Cell, w: &[u64]) -> Result<(), Failed>
        requires { S.fits c.old (length w.now) }
        ensures fits { (n : ℕ) → S.fits c.old n → S.fits c.new n }
        ensures put { IfOk result (λ _. S.content c.new ≡ Some w.now) }
        ensures sure { ⊥ → IsOk result }
        ensures counted { MatchResult result (λ _. self.new.failures ≡ self.old.failures) (λ _. self.new.failures ≡ (self.old.failures + 1) % 18446744073709551616) }
        ensures plan { self.new.calls ≡ self.old.calls }
        ensures cause { MatchResult result (λ _. S.failures self.new.store ≡ S.failures self.old.store)
            (λ _. (MayFail self.old.calls.plan × (self.new.store ≡ self.old.store) × (c.new ≡ c.old)) ⊎ (S.failures self.new.store ≡ (S.failures self.old.store + 1) % 18446744073709551616)) }
    {
        let written = if self.calls.next_fails() {
            Err(Failed {
                cause: Cause::Untold,
            })
        } else {
            self.store.write(c, w)
        };
        if written.is_err() {
            self.failures = self.failures.wrapping_add(1);
        }
        written
    }

    fn read(&mut self, c: &S::Cell, w: &mut [u64]) -> Result<(), Failed>
        requires { S.fits c.now (length w.old) }
        ensures length { length w.new ≡ length w.old }
        ensures got { IfOk result (λ _. S.honest → (ws : List ℕ) → S.content c.now ≡ Some ws → length ws ≡ length w.old → Reads ws w.new) }
        ensures gave { IfOk result (λ _. S.read_gives self.old.store c.now w.new self.new.store) }
        ensures sure { ⊥ → IsOk result × ((ws : List ℕ) → S.content c.now ≡ Some ws → length ws ≡ length w.old → w.new ≡ ws) }
        ensures counted { MatchResult result (λ _. self.new.failures ≡ self.old.failures) (λ _. self.new.failures ≡ (self.old.failures + 1) % 18446744073709551616) }
        ensures plan { self.new.calls ≡ self.old.calls }
        ensures cause { MatchResult result (λ _. S.failures self.new.store ≡ S.failures self.old.store)
            (λ _. (MayFail self.old.calls.plan × (self.new.store ≡ self.old.store) × (w.new ≡ w.old)) ⊎ (S.failures self.new.store ≡ (S.failures self.old.store + 1) % 18446744073709551616)) }
    {
        let found = if self.calls.next_fails() {
            Err(Failed {
                cause: Cause::Untold,
            })
        } else {
            self.store.read(c, w)
        };
        if found.is_err() {
            self.failures = self.failures.wrapping_add(1);
        }
        found
    }
}

/// Makes each mover's way to one store that fails by plan. All of them share one count of calls.
#[derive(Drop)]
pub struct FaultStores<M: Stores + Drop> {
    stores: M,
    calls: PlannedCalls,
}

impl<M: Stores + Drop> FaultStores<M> {
    /// Ways that `stores` makes will fail by this plan. No call is counted yet.
    pub fn new(alloc: Global, stores: M, plan: FaultPlan) -> Result<FaultStores<M>, AllocError>
        ensures stores { IfOk result (λ made. made.stores ≡ stores) }
        ensures plan { IfOk result (λ made. made.calls.plan ≡ plan) }
    {
        let count = Arc::new(alloc, AtomicU64::new(0))?;
        Ok(FaultStores {
            stores,
            calls: PlannedCalls { plan, count },
        })
    }
}

impl<M: Stores + Drop> Stores for FaultStores<M> {
    type S = FaultStore<M::S>;

    ghost makes = { λ m n. M.makes m.stores n };

    fn one(&self, alloc: Global) -> Result<FaultStore<M::S>, Want>
        ensures wants { IfErr result (λ want. want ≢ Want.NoObjects) }
        ensures plan { IfOk result (λ way. way.calls.plan ≡ self.now.calls.plan) }
        ensures failures { IfOk result (λ way. way.failures ≡ 0) }
        ensures makes { IfOk result (λ way. (n : ℕ) → M.makes self.now.stores n → M.S.makes way.store n) }
    {
        let store = self.stores.one(alloc)?;
        let Ok(count) = Arc::try_clone(&self.calls.count) else {
            return Err(Want::OutOfMemory);
        };
        let plan = self.calls.plan;
        Ok(FaultStore {
            store,
            calls: PlannedCalls { plan, count },
            failures: 0,
        })
    }
}
