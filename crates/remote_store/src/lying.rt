//! A store that lies by plan, for tests of what happens where a store gives other words than were put.
ghost use Rattle.std.specs.Prelude.{if◌then◌else◌, slice_set, ◌≡◌, ◌≢◌, ℕ, ◌+◌, ◌%◌, ◌⊎◌, true, not, ◌==◌, ◌&&◌, List, [], length, Some, IfOk, IsOk, IfErr, MatchResult};
ghost use Rattle.remote_store.specs.Faults.{MayFail};
ghost use Rattle.remote_store.specs.Lies.{Answered, is_told, kept_behind, lie_words, may_shorten, may_stand, same_header, told, word_at};

use crate::config::Stores;
use crate::fault::{FaultPlan, PlannedCalls};
use crate::port::{Cause, Failed};
use crate::raw::RawStore;
use cells::Want;
use std::alloc::{AllocError, Global};
use std::mem;
use std::sync::Arc;
use std::sync::atomic::AtomicU64;

/// What a store that lies gives in place of what a cell holds.
#[derive(Clone, Copy, PartialEq, Eq, Debug)]
pub enum Lie {
    /// The row that the cell held before the one that was written last.
    OlderVersion,
    /// The row of another object's cell: the one that went through this way last.
    OtherObject,
    /// The row that the store below gives, with 10 as its third word.
    ShortCell,
}

// The third word of a short cell.
const SHORT: u64 = 10;

// The word of a row at this place, 0 behind its end.
fn word_of(row: &[u64], at: usize) -> u64
    ensures { result ≡ word_at row.now at }
{
    match row.get(at) {
        Some(word) => *word,
        None => 0,
    }
}

// Whether the rows have the same three first words.
fn has_header_of(row: &[u64], other: &[u64]) -> bool
    ensures { result ≡ same_header row.now other.now }
{
    word_of(row, 0) == word_of(other, 0)
        && word_of(row, 1) == word_of(other, 1)
        && word_of(row, 2) == word_of(other, 2)
}

// Puts the other row in the place of what was given, where it may stand there, and says whether it does.
fn replace(row: &mut [u64], other: &[u64], last: &[u64]) -> bool
    ensures told { result ≡ may_stand last.now other.now row.old }
    ensures row { row.new ≡ (if result then other.now else row.old) }
{
    if other.len() != row.len() || has_header_of(other, last) {
        return false;
    }
    row.copy_from_slice(other);
    true
}

// Makes a row tell of 10 cells, where it then has another header than the last one, and says whether it does.
fn shorten(row: &mut [u64], last: &[u64]) -> bool
    ensures told { result ≡ may_shorten last.now row.old }
    ensures row { row.new ≡ (if result then slice_set row.old 2 10 else row.old) }
{
    let header = [word_of(row, 0), word_of(row, 1), SHORT];
    if row.len() < header.len() || has_header_of(&header, last) {
        return false;
    }
    row[2] = SHORT;
    true
}

// Tells the lie where it may stand for what was given, and says whether it does.
fn tell(lie: Lie, row: &mut [u64], last: &[u64], older: &[u64], met: &[u64]) -> bool
    ensures told { result ≡ is_told lie last.now older.now met.now row.old }
    ensures row { row.new ≡ told lie last.now older.now met.now row.old }
{
    match lie {
        Lie::OlderVersion => replace(row, older, last),
        Lie::OtherObject => word_of(met, 0) != word_of(last, 0) && replace(row, met, last),
        Lie::ShortCell => shorten(row, last),
    }
}

// Makes a copy of the row in place of what was kept, or leaves nothing there where memory for it is refused.
fn keep(kept: &mut Vec<u64>, row: &[u64]) -> bool
    ensures { (if result then row.now else []) ≡ kept.new.items }
{
    kept.clear();
    if kept.extend_from_slice(row).is_err() {
        kept.clear();
        return false;
    }
    true
}

/// A cell of a store that lies: the cell of the store below, with copies of the row that was written last, as far as writes
/// succeeded, and of the one before it.
#[derive(Drop)]
pub struct LyingCell<C: Drop> {
    cell: C,
    last: Vec<u64>,
    older: Vec<u64>,
}

/// One mover's way to a store, whose reads lie by plan. A read that the plan names gives the lie in place of what the store
/// below gives, but only where the lie is as long and its three first words differ from those of the last write of the cell that
/// succeeded: so it is honest where the store below is. `failures` counts the calls that failed, and `lies` the reads that lied,
/// both modulo 2^64.
#[derive(Drop)]
pub struct LyingStore<S: RawStore> {
    store: S,
    lie: Lie,
    reads: PlannedCalls,
    failures: u64,
    lies: u64,
    met: Vec<u64>,
}

impl<S: RawStore> LyingStore<S> {
    /// How many reads through this way lied, modulo 2^64.
    pub fn lies(&self) -> u64
        ensures { result ≡ self.now.lies }
    {
        self.lies
    }
}

impl<S: RawStore> RawStore for LyingStore<S> {
    type Cell = LyingCell<S::Cell>;

    ghost use Rattle.remote_store.specs.Kept.{Reads};
    ghost use Rattle.remote_store.specs.Lies.{kept_behind, is_told, lie_words};

    ghost honest = { S.honest };

    ghost reliable = { ⊥ };

    ghost failures = { λ s. s.failures };

    // What the store below keeps, where that has the header of the last write: a store that is not honest may keep another row.
    ghost content = { λ c. kept_behind c.last.items (S.content c.cell) };

    ghost read_gives = { λ before c row after. (given : List ℕ) × S.read_gives before.store c.cell given after.store × Answered before.lie c.last.items c.older.items before.met.items given row before.lies after.lies };

    ghost fits = { λ c n. S.fits c.cell n };

    ghost makes = { λ s n. S.makes s.store n };

    fn cell(&self, alloc: Global) -> Result<LyingCell<S::Cell>, Want> {
        let cell = self.store.cell(alloc)?;
        Ok(LyingCell {
            cell,
            last: Vec::new(alloc),
            older: Vec::new(alloc),
        })
    }

    fn write(&mut self, c: &mut LyingCell<S::Cell>, w: &[u64]) -> Result<(), Failed>
        requires { S.fits c.old.cell (length w.now) }
        ensures fits { (n : ℕ) → S.fits c.old.cell n → S.fits c.new.cell n }
        ensures put { IfOk result (λ _. kept_behind c.new.last.items (S.content c.new.cell) ≡ Some w.now) }
        ensures sure { ⊥ → IsOk result }
        ensures counted { MatchResult result (λ _. self.new.failures ≡ self.old.failures) (λ _. self.new.failures ≡ (self.old.failures + 1) % 18446744073709551616) }
        ensures same { (self.new.reads ≡ self.old.reads) × (self.new.lie ≡ self.old.lie) × (self.new.lies ≡ self.old.lies) }
        ensures last { MatchResult result (λ _. c.new.last.items ≡ w.now) (λ _. c.new.last ≡ c.old.last) }
        ensures met { IfOk result (λ _. (self.new.met.items ≡ w.now) ⊎ (self.new.met.items ≡ [])) }
        ensures older { MatchResult result (λ _. c.new.older.items ≡ c.old.last.items) (λ _. c.new.older.items ≡ []) }
        ensures cause { MatchResult result (λ _. S.failures self.new.store ≡ S.failures self.old.store)
            (λ _. ((self.new.store ≡ self.old.store) × (c.new.cell ≡ c.old.cell)) ⊎ (S.failures self.new.store ≡ (S.failures self.old.store + 1) % 18446744073709551616)) }
    {
        // The copy is made first, so that a write for which there is no memory does not come to the store below.
        let written = if keep(&mut c.older, w) {
            self.store.write(&mut c.cell, w)
        } else {
            Err(Failed {
                cause: Cause::Untold,
            })
        };
        if let Err(failed) = written {
            c.older.clear();
            self.failures = self.failures.wrapping_add(1);
            return Err(failed);
        }
        mem::swap(&mut c.last, &mut c.older);
        keep(&mut self.met, w);
        Ok(())
    }

    fn read(&mut self, c: &LyingCell<S::Cell>, w: &mut [u64]) -> Result<(), Failed>
        requires { S.fits c.now.cell (length w.old) }
        ensures length { length w.new ≡ length w.old }
        ensures got { IfOk result (λ _. S.honest → (ws : List ℕ) → kept_behind c.now.last.items (S.content c.now.cell) ≡ Some ws → length ws ≡ length w.old → Reads ws w.new) }
        ensures gave { IfOk result (λ _. (given : List ℕ) × S.read_gives self.old.store c.now.cell given self.new.store × Answered self.old.lie c.now.last.items c.now.older.items self.old.met.items given w.new self.old.lies self.new.lies) }
        ensures sure { ⊥ → IsOk result × ((ws : List ℕ) → kept_behind c.now.last.items (S.content c.now.cell) ≡ Some ws → length ws ≡ length w.old → w.new ≡ ws) }
        ensures counted { MatchResult result (λ _. self.new.failures ≡ self.old.failures) (λ _. self.new.failures ≡ (self.old.failures + 1) % 18446744073709551616) }
        ensures same { (self.new.reads ≡ self.old.reads) × (self.new.lie ≡ self.old.lie) }
        ensures met { IfOk result (λ _. (self.new.met ≡ self.old.met) ⊎ (self.new.met.items ≡ w.new) ⊎ (self.new.met.items ≡ [])) }
        ensures named { self.new.lies ≢ self.old.lies → MayFail self.old.reads.plan }
        ensures cause { MatchResult result (λ _. S.failures self.new.store ≡ S.failures self.old.store) (λ _. S.failures self.new.store ≡ (S.failures self.old.store + 1) % 18446744073709551616) }
    {
        let named = self.reads.next_fails();
        match self.store.read(&c.cell, w) {
            Ok(()) => (),
            Err(failed) => {
                self.failures = self.failures.wrapping_add(1);
                return Err(failed);
            }
        }
        if named && tell(self.lie, w, &c.last, &c.older, &self.met) {
            self.lies = self.lies.wrapping_add(1);
        } else {
            keep(&mut self.met, w);
        }
        Ok(())
    }
}

/// Makes each mover's way to one store that lies by plan. All of them share one count of reads.
#[derive(Drop)]
pub struct LyingStores<M: Stores + Drop> {
    stores: M,
    lie: Lie,
    reads: PlannedCalls,
}

impl<M: Stores + Drop> LyingStores<M> {
    /// Ways that `stores` makes will tell this lie at the reads that the plan names: calls of `read` alone are counted, over all
    /// ways, from 1 on and modulo 2^64. No read is counted yet.
    pub fn new(
        alloc: Global,
        stores: M,
        lie: Lie,
        plan: FaultPlan,
    ) -> Result<LyingStores<M>, AllocError>
        ensures stores { IfOk result (λ made. made.stores ≡ stores) }
        ensures lie { IfOk result (λ made. made.lie ≡ lie) }
        ensures plan { IfOk result (λ made. made.reads.plan ≡ plan) }
    {
        let count = Arc::new(alloc, AtomicU64::new(0))?;
        Ok(LyingStores {
            stores,
            lie,
            reads: PlannedCalls { plan, count },
        })
    }
}

impl<M: Stores + Drop> Stores for LyingStores<M> {
    type S = LyingStore<M::S>;

    ghost makes = { λ m n. M.makes m.stores n };

    fn one(&self, alloc: Global) -> Result<LyingStore<M::S>, Want>
        ensures wants { IfErr result (λ want. want ≢ Want.NoObjects) }
        ensures plan { IfOk result (λ way. way.reads.plan ≡ self.now.reads.plan) }
        ensures lie { IfOk result (λ way. way.lie ≡ self.now.lie) }
        ensures counts { IfOk result (λ way. (way.failures ≡ 0) × (way.lies ≡ 0) × (way.met.items ≡ [])) }
        ensures makes { IfOk result (λ way. (n : ℕ) → M.makes self.now.stores n → M.S.makes way.store n) }
    {
        let store = self.stores.one(alloc)?;
        let Ok(count) = Arc::try_clone(&self.reads.count) else {
            return Err(Want::OutOfMemory);
        };
        let plan = self.reads.plan;
        Ok(LyingStore {
            store,
            lie: self.lie,
            reads: PlannedCalls { plan, count },
            failures: 0,
            lies: 0,
            met: Vec::new(alloc),
        })
    }
}
