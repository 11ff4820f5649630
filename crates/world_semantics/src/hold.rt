//! What a scope of a program holds.

/// What a scope of a program holds, and whether it has begun to write there.
#[derive(Clone, Copy, PartialEq, Eq, Debug)]
pub struct Hold {
    pub object: usize,
    pub writes: bool,
}
