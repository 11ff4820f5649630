//! An object's place in the store.
ghost use Rattle.std.specs.Prelude.{◌≡◌, ℕ, ◌+◌, ◌%◌, ◌<◌, ◌≤◌, List, length, IfOk, IsOk, MatchResult};
ghost use Rattle.remote_store.specs.Kept.{Keeps, Took, RefusedFor, next_version};
ghost use Rattle.remote_store.specs.Refusing.{RefusesGet, refused_once};

use crate::port::{Failed, Port, Refusal, RefusedCall};
use crate::raw::{HEADER_WORDS, MOST_CELLS, MOST_WORDS, RawStore, USUAL_CELLS, USUAL_WORDS};

/// The store cell of an object, and the version that was put there last. At version 0 nothing was put yet.
#[derive(Drop)]
pub struct Berth<C: Drop> {
    pub cell: C,
    pub version: u64,
}

impl<C: Drop> Berth<C> {
    /// A berth into which nothing was put yet.
    pub fn new(cell: C) -> Berth<C>
        ensures cell { result.cell ≡ cell }
        ensures version { result.version ≡ 0 }
    {
        Berth { cell, version: 0 }
    }

    // Puts them by way of a buffer that has room for them behind their header.
    fn put_by_way_of<S: RawStore<Cell = C>>(
        &mut self,
        port: &mut Port<S>,
        obj: usize,
        words: &[u64],
        buffer: &mut [u64],
    ) -> Result<(), Failed>
        requires room { length words.now + 3 ≤ length buffer.old }
        requires fits { S.fits self.old.cell (length words.now + 3) }
        ensures fits { (n : ℕ) → S.fits self.old.cell n → S.fits self.new.cell n }
        ensures version { self.new.version ≡ next_version self.old.version }
        ensures put { IfOk result (λ _. Keeps (length words.now) self.new.version (S.content self.new.cell) obj words.now) }
        ensures sure { S.reliable → IsOk result }
        ensures counted { MatchResult result (λ _. (port.new.refusals ≡ port.old.refusals) × (S.failures port.new.store ≡ S.failures port.old.store))
            (λ failed. (port.new.refusals ≡ refused_once port.old.refusals (RefusedCall.Put obj failed.cause)) × (S.failures port.new.store ≡ (S.failures port.old.store + 1) % 18446744073709551616)) }
    {
        self.version = if self.version == u64::MAX {
            1
        } else {
            self.version + 1
        };
        let row = &mut buffer[..words.len() + HEADER_WORDS];
        row[0] = obj as u64;
        row[1] = self.version;
        row[2] = words.len() as u64;
        row[HEADER_WORDS..].copy_from_slice(words);
        match port.store.write(&mut self.cell, &*row) {
            Ok(()) => Ok(()),
            Err(failed) => {
                port.refusals.add(RefusedCall::Put(obj, failed.cause));
                Err(failed)
            }
        }
    }

    /// Puts the object's cells into the berth, under the next version. After a failure nothing is known of what it keeps.
    pub fn put<S: RawStore<Cell = C>>(
        &mut self,
        port: &mut Port<S>,
        obj: usize,
        words: &[u64],
    ) -> Result<(), Failed>
        requires most { length words.now ≤ MOST_CELLS }
        requires fits { S.fits self.old.cell (length words.now + 3) }
        ensures fits { (n : ℕ) → S.fits self.old.cell n → S.fits self.new.cell n }
        ensures version { self.new.version ≡ next_version self.old.version }
        ensures put { IfOk result (λ _. Keeps (length words.now) self.new.version (S.content self.new.cell) obj words.now) }
        ensures sure { S.reliable → IsOk result }
        ensures counted { MatchResult result (λ _. (port.new.refusals ≡ port.old.refusals) × (S.failures port.new.store ≡ S.failures port.old.store))
            (λ failed. (port.new.refusals ≡ refused_once port.old.refusals (RefusedCall.Put obj failed.cause)) × (S.failures port.new.store ≡ (S.failures port.old.store + 1) % 18446744073709551616)) }
    {
        if words.len() <= USUAL_CELLS {
            let mut buffer = [0; USUAL_WORDS];
            self.put_by_way_of(port, obj, words, &mut buffer)
        } else {
            let mut buffer = [0; MOST_WORDS];
            self.put_by_way_of(port, obj, words, &mut buffer)
        }
    }

    // Gets them by way of a buffer that has room for them behind their header.
    fn get_by_way_of<S: RawStore<Cell = C>>(
        &self,
        port: &mut Port<S>,
        obj: usize,
        words: &mut [u64],
        buffer: &mut [u64],
    ) -> Result<(), Refusal>
        requires room { length words.old + 3 ≤ length buffer.old }
        requires fits { S.fits self.now.cell (length words.old + 3) }
        requires stored { 0 < self.now.version }
        ensures length { length words.new ≡ length words.old }
        ensures sure { S.reliable → (ws : List ℕ) → Keeps (length words.old) self.now.version (S.content self.now.cell) obj ws → IsOk result }
        ensures got { IfOk result (λ _. S.honest → (ws : List ℕ) → Keeps (length words.old) self.now.version (S.content self.now.cell) obj ws → words.new ≡ ws) }
        ensures counted { MatchResult result (λ _. (port.new.refusals ≡ port.old.refusals) × (S.failures port.new.store ≡ S.failures port.old.store))
            (λ why. (words.new ≡ words.old) × RefusesGet why obj port.old.refusals port.new.refusals × (why ≡ Refusal.Failed → S.failures port.new.store ≡ (S.failures port.old.store + 1) % 18446744073709551616)) }
        ensures read { MatchResult result (λ _. Took (length words.old) (λ row. S.read_gives port.old.store self.now.cell row port.new.store) self.now.version obj words.new)
            (λ why. RefusedFor (length words.old) (S.failures port.new.store ≡ (S.failures port.old.store + 1) % 18446744073709551616)
            (λ row. S.read_gives port.old.store self.now.cell row port.new.store × (S.failures port.new.store ≡ S.failures port.old.store)) self.now.version obj why) }
    {
        let row = &mut buffer[..words.len() + HEADER_WORDS];
        match port.store.read(&self.cell, &mut *row) {
            Ok(()) => (),
            Err(failed) => {
                port.refusals.add(RefusedCall::Get(obj, failed.cause));
                return Err(Refusal::Failed);
            }
        }
        if row[0] != obj as u64 || row[1] != self.version || row[2] != words.len() as u64 {
            port.refusals.add(RefusedCall::Wrong(obj));
            return Err(Refusal::Wrong);
        }
        words.copy_from_slice(&row[HEADER_WORDS..]);
        Ok(())
    }

    /// Gets the object's cells from the berth: those of its last put, where the store is honest. `Failed` exactly where the
    /// store failed, `Wrong` exactly where what it read has another header. `words` then stay.
    pub fn get<S: RawStore<Cell = C>>(
        &self,
        port: &mut Port<S>,
        obj: usize,
        words: &mut [u64],
    ) -> Result<(), Refusal>
        requires most { length words.old ≤ MOST_CELLS }
        requires fits { S.fits self.now.cell (length words.old + 3) }
        requires stored { 0 < self.now.version }
        ensures length { length words.new ≡ length words.old }
        ensures sure { S.reliable → (ws : List ℕ) → Keeps (length words.old) self.now.version (S.content self.now.cell) obj ws → IsOk result }
        ensures got { IfOk result (λ _. S.honest → (ws : List ℕ) → Keeps (length words.old) self.now.version (S.content self.now.cell) obj ws → words.new ≡ ws) }
        ensures counted { MatchResult result (λ _. (port.new.refusals ≡ port.old.refusals) × (S.failures port.new.store ≡ S.failures port.old.store))
            (λ why. (words.new ≡ words.old) × RefusesGet why obj port.old.refusals port.new.refusals × (why ≡ Refusal.Failed → S.failures port.new.store ≡ (S.failures port.old.store + 1) % 18446744073709551616)) }
        ensures read { MatchResult result (λ _. Took (length words.old) (λ row. S.read_gives port.old.store self.now.cell row port.new.store) self.now.version obj words.new)
            (λ why. RefusedFor (length words.old) (S.failures port.new.store ≡ (S.failures port.old.store + 1) % 18446744073709551616)
            (λ row. S.read_gives port.old.store self.now.cell row port.new.store × (S.failures port.new.store ≡ S.failures port.old.store)) self.now.version obj why) }
    {
        if words.len() <= USUAL_CELLS {
            let mut buffer = [0; USUAL_WORDS];
            self.get_by_way_of(port, obj, words, &mut buffer)
        } else {
            let mut buffer = [0; MOST_WORDS];
            self.get_by_way_of(port, obj, words, &mut buffer)
        }
    }
}
