//! The longest piece at the front of a text.

use c0_source::kind::Piece;

/// The longest piece at the front of a text: what it is, and how many bytes it has.
#[derive(Clone, Copy, Debug, PartialEq, Eq)]
pub(crate) struct LongestPiece {
    pub(crate) length: usize,
    pub(crate) piece: Piece,
}
