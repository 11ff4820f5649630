//! The memory with its berths, and a mover's calls of the store.
ghost use Rattle.cells.specs.Pieces.{cells_in};
ghost use Rattle.std.specs.Prelude.{◌≡◌, ◌≢◌, ◌+◌, ◌<◌, ℕ, IfErr, IfOk, Some, length, true};
ghost use Rattle.pointer_word.specs.Hands.{upd};
ghost use Rattle.pointer_word.specs.Machine.{Far, Never};
ghost use Rattle.world_memory.specs.Answered.{AnswersSo, Gets, Puts, reading, storing};
ghost use Rattle.world_memory.specs.Berths.{DoFit};
ghost use Rattle.world_memory.specs.Shown.{AreFar, IsNew};
ghost use Rattle.world_semantics.specs.InHand.{WasPut};
ghost use Rattle.world_semantics.specs.Turns.{put_of};
ghost use Rattle.world_semantics.specs.Worlds.{IsHonestRead};

use crate::memory::WorldMemory;
use cells::{Piece, Want};
use remote_store::{Berth, Port, RawStore};
use std::alloc::Global;
use std::marker::Model;

/// The words, frames and cells, and the berth of each object.
#[derive(Drop)]
pub struct Lock<S: RawStore> {
    pub memory: WorldMemory,
    pub berths: Berths<S>,
}

/// The berth of each object, and the cells of a piece. The store cell of each holds the rows of such pieces.
#[derive(Drop)]
pub struct Berths<S: RawStore> {
    items: Vec<Berth<S::Cell>>,
    cells: usize,
}

impl<S: RawStore> Model for Berths<S> {
    ghost use Rattle.std.specs.Prelude.{◌+◌, ◌≤◌};
    ghost use Rattle.world_memory.specs.Berths.{Berths as BerthsOf, DoFit};

    ghost Value = { BerthsOf S.Cell };

    ghost view = { λ b. record { items = b.items.items; cells = b.cells } };

    ghost invariant = { λ b. (b.cells ≤ 256) × DoFit S.fits b.items.items (b.cells + 3) };
}

/// A berth for each object, into which nothing was put yet.
fn new_berths<S: RawStore>(
    alloc: Global,
    store: &S,
    objects: usize,
) -> Result<Vec<Berth<S::Cell>>, Want>
    ensures made { IfOk result (λ v. (length v.items ≡ objects) × ((n : ℕ) → AreFar S.content n v.items (λ _. Never)) × ((n : ℕ) → S.makes store.now n → DoFit S.fits v.items n)) }
    ensures wants { IfErr result (λ want. want ≢ Want.NoObjects) }
{
    let mut berths = Vec::new(alloc);
    while berths.len() < objects {
        let cell = store.cell(alloc)?;
        if let Err(_refused) = berths.push(Berth::new(cell)) {
            return Err(Want::OutOfMemory);
        }
    }
    Ok(berths)
}

impl<S: RawStore> Berths<S> {
    /// A berth for each object, into which nothing was put yet, in a store that makes cells for such pieces.
    pub fn new(alloc: Global, store: &S, objects: usize, piece: Piece) -> Result<Berths<S>, Want>
        requires { S.makes store.now (cells_in piece + 3) }
        ensures made { IfOk result (λ b. (length b.items ≡ objects) × (b.cells ≡ cells_in piece) × ((n : ℕ) → AreFar S.content n b.items (λ _. Never))) }
        ensures wants { IfErr result (λ want. want ≢ Want.NoObjects) }
    {
        Ok(Berths {
            items: new_berths(alloc, store, objects)?,
            cells: piece.cells(),
        })
    }

    /// Puts the object's words into its berth. False where the store failed.
    pub fn put(&mut self, port: &mut Port<S>, object: usize, words: &[u64]) -> bool
        ensures cells { self.new.cells ≡ self.old.cells }
        ensures many { length self.new.items ≡ length self.old.items }
        ensures far { (n : ℕ) (far : ℕ → Far) → self.old.cells ≡ n → length words.now ≡ n → AreFar S.content n self.old.items far → object < length self.old.items
            → AreFar S.content n self.new.items (upd far object (put_of result words.now)) }
        ensures answered { (n : ℕ) (far : ℕ → Far) → self.old.cells ≡ n → length words.now ≡ n → object < length self.old.items
            → AnswersSo S.reliable S.failures S.read_gives n self.old.items port.old port.new far (Puts object) (storing result) }
    {
        if object < self.items.len() && words.len() == self.cells {
            let berth = &mut self.items[object];
            berth.put(port, object, words).is_ok()
        } else {
            false
        }
    }

    /// Whether nothing was ever put into the object's berth.
    pub fn is_new(&self, object: usize) -> bool
        ensures { (n : ℕ) (far : ℕ → Far) → AreFar S.content n self.now.items far → IsNew result (far object) }
    {
        if object < self.items.len() {
            self.items[object].version == 0
        } else {
            true
        }
    }

    /// Gets the object's words from its berth. False where the store failed or what it read has another header; then the words stay.
    pub fn get(&self, port: &mut Port<S>, object: usize, words: &mut [u64]) -> bool
        ensures got { result ≡ true → (n : ℕ) (far : ℕ → Far) → length words.old ≡ n → AreFar S.content n self.now.items far → S.honest → IsHonestRead n (far object) (Some words.new) }
        ensures answered { (n : ℕ) (far : ℕ → Far) → self.now.cells ≡ n → length words.old ≡ n → AreFar S.content n self.now.items far → WasPut (far object)
            → AnswersSo S.reliable S.failures S.read_gives n self.now.items port.old port.new far (Gets object) (reading result words.new) }
    {
        if words.len() == self.cells
            && object < self.items.len()
            && self.items[object].version > 0
        {
            self.items[object].get(port, object, words).is_ok()
        } else {
            false
        }
    }
}
