//! Room for the rows of a store in memory, from the system.
use cells::Piece;
use std::alloc::Global;

/// The most bytes of a block that the allocator of the C library does not map by itself, if it has unmapped one as large before.
const MOST: usize = 31 * 1024 * 1024;

/// The bytes that a row takes beside its cells: those of its header, and what an allocator keeps of each block.
const BESIDE: usize = 40;

/// How many bytes more the block has that is mapped by itself.
const MORE: usize = 4096;

/// Has the allocator take room for so many rows from the system in two steps: that of the C library takes it a page at a time on a thread which is not the first.
/// It maps a large block by itself, until it has unmapped a larger one: so the first block is given back at once, and those behind it are kept for
/// others when they are given back. Where memory is refused, all is as without this.
pub(crate) fn take_room(alloc: Global, objects: usize, piece: Piece) {
    let half = (objects.saturating_mul(piece.cells() * 8 + BESIDE) / 2).min(MOST);
    drop(Vec::<u8>::with_capacity(alloc, half + MORE));
    let first = Vec::<u8>::with_capacity(alloc, half);
    let second = Vec::<u8>::with_capacity(alloc, half);
    drop(second);
    drop(first);
}
