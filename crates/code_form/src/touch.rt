//! What the next instruction of a run touches.

/// A cell of an allocation: the allocation's number, from 1, and the cell's index in it.
#[derive(Clone, Copy, PartialEq, Eq, Debug)]
pub struct Cell {
    pub reference: u64,
    pub index: u64,
}

/// What the next instruction touches. Scopes are those of the call that runs, by their numbers.
#[derive(Clone, Copy, PartialEq, Eq, Debug)]
pub enum Touch {
    /// No scope and no cell.
    Plain,
    /// No scope and no cell; the piece of this cell will be wanted. None where there is no such cell.
    Hints(Option<Cell>),
    /// The scope is to hold the piece of this cell, or nothing.
    Aims(usize, Option<Cell>),
    /// The cell is read by the scope.
    Loads(usize, Cell),
    /// The value is put into the cell by the scope.
    Stores(usize, Cell, u64),
    /// The scope is shut.
    Leaves(usize),
    /// A new allocation of this many cells.
    Allocs(u64),
    /// The program stops.
    Ends,
    /// The program is stuck from here on.
    Wrong,
    /// The program has stopped or is stuck.
    Nothing,
}
