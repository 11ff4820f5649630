//! One mover's way to the store.
ghost use Rattle.std.specs.Prelude.{◌≡◌, ◌≢◌, ℕ, ◌+◌, ◌%◌, List, Option, Some, length, IfOk, IsOk, IfErr, MatchResult};

use crate::port::Failed;
use cells::Want;
use std::alloc::Global;

/// The words of a store cell before the cells of a piece: an object, a version and the number of cells.
pub const HEADER_WORDS: usize = 3;

/// The most cells of a piece.
pub const MOST_CELLS: usize = 256;

/// The most words of a store cell.
pub const MOST_WORDS: usize = MOST_CELLS + HEADER_WORDS;

/// The most cells of pieces that go by way of a smaller buffer, which is cleared sooner.
pub const USUAL_CELLS: usize = 64;

/// The words of a store cell for the largest of these.
pub const USUAL_WORDS: usize = USUAL_CELLS + HEADER_WORDS;

/// One mover's way to the store. `content` is what a cell holds: the words of the last write of it, where that
/// succeeded. An `honest` store reads back those words, or words of another header. `failures` counts the calls
/// that failed through this value, modulo 2^64. `read_gives` tells which words a read of a cell gave, by the store before
/// it and after it. A `reliable` store fails no call, and reads just the words that a cell holds. `fits` tells of how
/// many words the rows may be that a cell holds, which no call changes, and `makes` the same of the cells that this way makes.
pub trait RawStore: Drop {
    type Cell: Send + Drop;

    ghost use Rattle.remote_store.specs.Kept.{Reads};

    ghost honest: { Type 0 };

    ghost reliable: { Type 0 };

    ghost failures: { Self → ℕ };

    ghost content: { Self.Cell → Option (List ℕ) };

    ghost read_gives: { Self → Self.Cell → List ℕ → Self → Type 0 };

    ghost fits: { Self.Cell → ℕ → Type 0 };

    ghost makes: { Self → ℕ → Type 0 };

    /// A new cell. `OutOfMemory` where its growth is refused, `StoreFailed` where the store has no more.
    fn cell(&self, alloc: Global) -> Result<Self::Cell, Want>
        ensures fits { IfOk result (λ c. (n : ℕ) → makes self.now n → fits c n) }
        ensures wants { IfErr result (λ want. want ≢ Want.NoObjects) };

    /// Writes a row into the cell. After a failure nothing is known of what the cell holds.
    fn write(&mut self, c: &mut Self::Cell, w: &[u64]) -> Result<(), Failed>
        requires { fits c.old (length w.now) }
        ensures fits { (n : ℕ) → fits c.old n → fits c.new n }
        ensures put { IfOk result (λ _. content c.new ≡ Some w.now) }
        ensures sure { reliable → IsOk result }
        ensures counted { MatchResult result (λ _. failures self.new ≡ failures self.old) (λ _. failures self.new ≡ (failures self.old + 1) % 18446744073709551616) };

    /// Reads the row of the cell. After a failure `w` may hold any words.
    fn read(&mut self, c: &Self::Cell, w: &mut [u64]) -> Result<(), Failed>
        requires { fits c.now (length w.old) }
        ensures length { length w.new ≡ length w.old }
        ensures got { IfOk result (λ _. honest → (ws : List ℕ) → content c.now ≡ Some ws → length ws ≡ length w.old → Reads ws w.new) }
        ensures gave { IfOk result (λ _. read_gives self.old c.now w.new self.new) }
        ensures sure { reliable → IsOk result × ((ws : List ℕ) → content c.now ≡ Some ws → length ws ≡ length w.old → w.new ≡ ws) }
        ensures counted { MatchResult result (λ _. failures self.new ≡ failures self.old) (λ _. failures self.new ≡ (failures self.old + 1) % 18446744073709551616) };
}
