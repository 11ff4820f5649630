//! A store in memory.
ghost use Rattle.cells.specs.Pieces.{cells_in};
ghost use Rattle.std.specs.Prelude.{◌≡◌, ◌≢◌, ◌+◌, Some, IfErr, IfOk, IsOk, length};

use crate::config::Stores;
use crate::port::Failed;
use crate::raw::{HEADER_WORDS, RawStore};
use cells::{Piece, Want};
use std::alloc::Global;

/// A store in memory, whose cells hold rows of one number of words. It is honest and reliable.
#[derive(Clone, Copy)]
pub struct FarHeap {
    words: usize,
}

impl FarHeap {
    /// A store for pieces of this size.
    pub fn new(piece: Piece) -> FarHeap
        ensures { result.words ≡ cells_in piece + 3 }
    {
        FarHeap {
            words: piece.cells() + HEADER_WORDS,
        }
    }
}

/// A cell of the store in memory.
#[derive(Drop)]
pub struct FarCell {
    row: Vec<u64>,
}

impl RawStore for FarHeap {
    type Cell = FarCell;

    ghost honest = { Unit {0} };

    ghost reliable = { Unit {0} };

    ghost failures = { λ _. 0 };

    ghost content = { λ c. Some c.row.items };

    ghost read_gives = { λ _ c row _. row ≡ c.row.items };

    ghost fits = { λ c n. length c.row.items ≡ n };

    ghost makes = { λ s n. s.words ≡ n };

    fn cell(&self, alloc: Global) -> Result<FarCell, Want> {
        match Vec::from_elem(alloc, 0u64, self.words) {
            Ok(row) => Ok(FarCell { row }),
            Err(_refused) => Err(Want::OutOfMemory),
        }
    }

    fn write(&mut self, c: &mut FarCell, w: &[u64]) -> Result<(), Failed> {
        c.row.copy_from_slice(w);
        Ok(())
    }

    fn read(&mut self, c: &FarCell, w: &mut [u64]) -> Result<(), Failed> {
        w.copy_from_slice(&c.row);
        Ok(())
    }
}

impl Stores for FarHeap {
    type S = FarHeap;

    ghost makes = { λ s n. s.words ≡ n };

    fn one(&self, _alloc: Global) -> Result<FarHeap, Want>
        ensures wants { IfErr result (λ want. want ≢ Want.NoObjects) }
        ensures made { IsOk result }
        ensures way { IfOk result (λ s. s ≡ self.now) }
    {
        Ok(FarHeap { words: self.words })
    }
}
