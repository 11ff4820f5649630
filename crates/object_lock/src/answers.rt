//! What the calls answer.

/// Where an object is, as its owner is told when it opens a hold.
#[derive(Clone, Copy, PartialEq, Eq, Debug)]
pub enum Held {
    /// In this frame.
    Here(usize),
    /// In its store cell.
    Away,
    /// A mover is bringing it into a frame.
    Coming,
}

/// What a mover is told that tries to begin to bring in an object.
#[derive(Clone, Copy, PartialEq, Eq, Debug)]
pub enum Begin {
    /// It has begun, and has the object's berth in hand.
    Taken,
    /// The object is in this frame already.
    Here(usize),
    /// Another mover is bringing it, or its count of holds is another.
    Busy,
}
