//! What a search for a frame finds.

/// What a search for a free frame found.
#[derive(Clone, Copy, PartialEq, Eq, Debug)]
pub enum Found {
    /// It claimed this frame.
    Claimed(usize),
    /// It claimed none.
    None,
}
