//! What became of an object that was to be moved out.

/// What became of an object that its mover was moving out of a frame.
#[derive(Clone, Copy, PartialEq, Eq, Debug)]
pub enum Moved {
    /// It left the frame, which is free.
    Left,
    /// It stayed, as it was used meanwhile.
    Stayed,
    /// It stayed, as the store refused the put.
    Failed,
}

/// The store refused a call; the seat tells which.
#[derive(Clone, Copy, PartialEq, Eq, Debug)]
pub(crate) struct StoreRefused;
