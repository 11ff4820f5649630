//! A store of one's own: in memory, with a count of the rows that were moved, over all movers. Its cells hold rows of as many words as it is told.
ghost use Rattle.cells.specs.Pieces.{cells_in};
ghost use Rattle.std.specs.Arc.{arc_value};
ghost use Rattle.std.specs.Prelude.{◌≡◌, ◌≢◌, ◌+◌, ℕ, Some, IfErr, IfOk, length};

use cells::{Piece, Want};
use remote_store::{Failed, HEADER_WORDS, RawStore, Stores};
use std::alloc::{AllocError, Global};
use std::sync::Arc;
use std::sync::atomic::{AtomicU64, Ordering};

/// One mover's way to the store. Its ghost members tell what is meant: it is honest and reliable, no call fails, and a cell holds what was written last, of so many words.
#[derive(Drop)]
pub struct TalliedHeap {
    words: usize,
    rows: Arc<AtomicU64>,
}

/// A cell of the store.
#[derive(Drop)]
pub struct TalliedCell {
    row: Vec<u64>,
}

impl RawStore for TalliedHeap {
    type Cell = TalliedCell;

    ghost honest = { Unit {0} };

    ghost reliable = { Unit {0} };

    ghost failures = { λ _. 0 };

    ghost content = { λ c. Some c.row.items };

    ghost read_gives = { λ _ c row _. row ≡ c.row.items };

    ghost fits = { λ c n. length c.row.items ≡ n };

    ghost makes = { λ s n. s.words ≡ n };

    fn cell(&self, alloc: Global) -> Result<TalliedCell, Want> {
        match Vec::from_elem(alloc, 0u64, self.words) {
            Ok(row) => Ok(TalliedCell { row }),
            Err(_refused) => Err(Want::OutOfMemory),
        }
    }

    fn write(&mut self, c: &mut TalliedCell, w: &[u64]) -> Result<(), Failed> {
        self.rows.fetch_add(1, Ordering::SeqCst);
        c.row.copy_from_slice(w);
        Ok(())
    }

    fn read(&mut self, c: &TalliedCell, w: &mut [u64]) -> Result<(), Failed> {
        self.rows.fetch_add(1, Ordering::SeqCst);
        w.copy_from_slice(&c.row);
        Ok(())
    }
}

/// Makes each mover's way to one store. All of them share one count.
#[derive(Drop)]
pub struct TalliedHeaps {
    words: usize,
    rows: Arc<AtomicU64>,
}

impl TalliedHeaps {
    /// Stores for pieces of this size, of which nothing was moved yet. A second handle of the count is for who wants to read it.
    pub fn new(alloc: Global, piece: Piece) -> Result<(TalliedHeaps, Arc<AtomicU64>), AllocError>
        ensures words { IfOk result (λ r. r.0.words ≡ cells_in piece + 3) }
        ensures shared { IfOk result (λ r. arc_value r.1 ≡ arc_value r.0.rows) }
    {
        let rows = Arc::new(alloc, AtomicU64::new(0))?;
        let count = rows.clone()?;
        let words = piece.cells() + HEADER_WORDS;
        Ok((TalliedHeaps { words, rows }, count))
    }
}

impl Stores for TalliedHeaps {
    type S = TalliedHeap;

    ghost makes = { λ s n. s.words ≡ n };

    fn one(&self, _alloc: Global) -> Result<TalliedHeap, Want>
        ensures wants { IfErr result (λ want. want ≢ Want.NoObjects) }
        ensures makes { IfOk result (λ way. (n : ℕ) → self.now.words ≡ n → way.words ≡ n) }
    {
        match self.rows.clone() {
            Ok(rows) => Ok(TalliedHeap {
                words: self.words,
                rows,
            }),
            Err(_refused) => Err(Want::OutOfMemory),
        }
    }
}
