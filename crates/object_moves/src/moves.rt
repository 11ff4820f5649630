//! What an owner's thread did as it took holds.
ghost use Rattle.std.specs.Prelude.{◌≡◌};

/// How often an owner's thread did something as it took holds. Each count goes round behind 2^64 - 1, and no contract of a move speaks of it.
#[derive(Clone, Copy, Debug, PartialEq, Eq)]
pub struct Moves {
    /// Objects that it brought into frames.
    pub brought: u64,
    /// Objects that it put into the store, and that left their frames then.
    pub written: u64,
    /// Clean objects that it had leave their frames.
    pub left: u64,
    /// Puts and gets that it made.
    pub calls: u64,
}

impl Moves {
    /// Nothing was done yet.
    pub fn none() -> Moves
        ensures { result ≡ record { brought = 0; written = 0; left = 0; calls = 0 } }
    {
        Moves {
            brought: 0,
            written: 0,
            left: 0,
            calls: 0,
        }
    }
}
