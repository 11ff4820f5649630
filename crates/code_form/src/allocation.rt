//! What is known of an allocation.

/// What is known of an allocation but for its cells' values.
#[derive(Clone, Copy, PartialEq, Eq, Debug)]
pub struct Allocation {
    pub layout: u32,
    /// The number of its elements; 1 for a struct.
    pub length: u64,
    pub cells: u64,
}
