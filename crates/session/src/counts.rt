//! What a session did beside its instructions.
use memory_limit::MemoryUse;

/// How often a session, or the thread that ran it, did something beside completing instructions. Each count but that of objects goes round behind 2^64 - 1, and
/// no contract of a step speaks of it.
#[derive(Clone, Copy, Debug, PartialEq, Eq)]
pub struct Counts {
    /// Objects that its instructions allocated.
    pub objects: u64,
    /// Frames that were seen to hold objects of its own, at most at once. Other threads move some of them while they are looked at one by one.
    pub frames: u64,
    /// Pieces of which a scope took hold anew.
    pub opened: u64,
    /// Objects that it brought into frames by itself.
    pub brought: u64,
    /// Objects that it put into the store by itself, and that left their frames then.
    pub written: u64,
    /// Clean objects that it had leave their frames by itself.
    pub left: u64,
    /// Puts and gets that it made through its own port.
    pub calls: u64,
    /// Hints that it gave.
    pub hints: u64,
    /// Those of its hints that were dropped, as the queue was full.
    pub dropped: u64,
    /// What was refused memory as it came to more than the limit, if anything was.
    pub passed: Option<MemoryUse>,
}
