//! The size of a piece.
ghost use Rattle.cells.specs.Pieces.{cells_in, is_piece};
ghost use Rattle.std.specs.Prelude.{◌≡◌, ◌≤◌, ◌^◌, MatchOption, false};

/// How many cells a piece has.
#[derive(Clone, Copy, Debug, PartialEq, Eq)]
pub enum Piece {
    Cells16,
    Cells32,
    Cells64,
    Cells128,
    Cells256,
}

impl Piece {
    /// The piece of so many cells; none of other numbers than 16, 32, 64, 128 and 256.
    pub fn new(cells: u32) -> Option<Piece>
        ensures { MatchOption result (is_piece cells ≡ false) (λ p. cells_in p ≡ cells) }
    {
        match cells {
            16 => Some(Piece::Cells16),
            32 => Some(Piece::Cells32),
            64 => Some(Piece::Cells64),
            128 => Some(Piece::Cells128),
            256 => Some(Piece::Cells256),
            _ => None,
        }
    }

    /// How many cells it has.
    pub fn cells(self) -> usize
        ensures cells { result ≡ cells_in self }
        ensures some { 16 ≤ result }
        ensures most { result ≤ 256 }
    {
        match self {
            Piece::Cells16 => 16,
            Piece::Cells32 => 32,
            Piece::Cells64 => 64,
            Piece::Cells128 => 128,
            Piece::Cells256 => 256,
        }
    }

    /// By how many bits a number is shifted to be divided by it.
    pub fn shift(self) -> u32
        ensures power { 2 ^ result ≡ cells_in self }
        ensures small { result ≤ 8 }
    {
        match self {
            Piece::Cells16 => 4,
            Piece::Cells32 => 5,
            Piece::Cells64 => 6,
            Piece::Cells128 => 7,
            Piece::Cells256 => 8,
        }
    }
}
