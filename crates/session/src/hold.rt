//! What a scope holds.

/// An object that a scope holds, the frame that it is in, and whether it may be written there.
#[derive(Clone, Copy, PartialEq, Eq, Debug)]
pub struct Hold {
    pub object: usize,
    pub frame: usize,
    pub writes: bool,
}
