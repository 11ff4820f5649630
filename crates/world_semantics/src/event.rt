//! Who acts in an event, and what it chooses.

/// An actor, by its number.
#[derive(Clone, Copy, PartialEq, Eq, Debug)]
pub enum Actor {
    Program(u32),
    Evacuator(u32),
    Fetcher(u32),
}

/// What an actor chooses to do in an event.
#[derive(Clone, Copy, PartialEq, Eq, Debug)]
pub enum Choice {
    /// What is next.
    Next,
    /// Looks at a frame.
    Look(u32),
    /// Tries to claim a frame.
    Claim(u32),
    /// Tries to mark an object in a frame, to move it out.
    Mark(u32, u32),
    /// Tries to have a clean object leave a frame.
    Leave(u32, u32),
    /// Begins to bring an object in.
    Begin(u32),
}

/// Whether an actor took a step.
#[derive(Clone, Copy, PartialEq, Eq, Debug)]
pub enum Step {
    Took,
    /// There is no such step in the world as it is; nothing has changed.
    NotEnabled,
}
