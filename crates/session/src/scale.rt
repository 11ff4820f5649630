//! The size of a piece, as numbers are divided by it.
ghost use Rattle.code_form.specs.Placed.{pieces as pieces_of};
ghost use Rattle.std.specs.Prelude.{◌≡◌, ◌⊎◌, ◌+◌, ◌-◌, ◌/◌, ◌%◌, ◌^◌, ◌≤◌};

use cells::Piece;
use code_execution::Stretch;
use code_form::Cell;
use object_lock::ObjectTable;
use remote_store::RawStore;

/// How many cells a piece has, 2 to the power of `shift`: a shift divides by it, and a mask gives the remainder.
#[derive(Clone, Copy)]
pub(crate) struct Scale {
    shift: u32,
    mask: u64,
    ghost small: { shift ≤ 8 },
    ghost masks: { mask + 1 ≡ 2 ^ shift },
    ghost some: { 1 ≤ mask },
    ghost few: { mask ≤ 255 },
}

impl Scale {
    /// That of a table's pieces.
    pub(crate) fn of<S: RawStore>(table: &ObjectTable<S>) -> Scale
        ensures { 2 ^ result.shift ≡ table.now.sizes.cells }
    {
        match Piece::new(table.cells() as u32) {
            Some(piece) => Scale {
                shift: piece.shift(),
                mask: piece.cells() as u64 - 1,
            },
            None => unreachable!(),
        }
    }

    /// How many whole pieces are before the cell of this index.
    #[inline(always)]
    pub(crate) fn before(self, index: u64) -> u64
        ensures { result ≡ index / 2 ^ self.shift }
    {
        index >> self.shift
    }

    /// The place of the cell of this index in its piece.
    #[inline(always)]
    pub(crate) fn place(self, index: u64) -> u64
        ensures { result ≡ index % 2 ^ self.shift }
    {
        index & self.mask
    }

    /// How many pieces this many cells are.
    #[inline(always)]
    pub(crate) fn pieces(self, cells: u64) -> u64
        ensures { result ≡ pieces_of (2 ^ self.shift) cells }
    {
        let whole = self.before(cells);
        if self.place(cells) == 0 {
            whole
        } else {
            whole + 1
        }
    }

    /// The cells of the piece that a cell is in.
    pub(crate) fn piece_of(self, cell: Cell) -> Stretch
        ensures reference { result.reference ≡ cell.reference }
        ensures first { result.first ≡ cell.index - cell.index % 2 ^ self.shift }
        ensures end { result.end ≡ result.first + 2 ^ self.shift ⊎ result.end ≡ 2 ^ 64 - 1 }
    {
        let first = cell.index - self.place(cell.index);
        Stretch {
            reference: cell.reference,
            first,
            end: first.saturating_add(self.mask + 1),
        }
    }
}
