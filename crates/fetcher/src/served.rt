//! What became of a hint.

/// What a fetcher did when it looked for a hint.
#[derive(Clone, Copy, PartialEq, Eq, Debug)]
pub enum Served {
    /// It found no hint.
    Nothing,
    /// It let the hint go: the object is not in its store cell, or has a hold, or no frame is free.
    Dropped,
    /// It brought the object into a frame.
    Brought,
    /// The store failed, and the object stays in its store cell.
    Failed,
}
