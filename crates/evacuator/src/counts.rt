//! What a round of an evacuator came to.
ghost use Rattle.std.specs.Prelude.{◌≡◌, ◌+◌, ◌≤◌};
ghost use Rattle.evacuator.specs.Rounds.{both, moves_of, one_of};

use object_moves::Moved;

/// What a round of an evacuator came to: each object that it marked, or had leave as it was clean, is counted once.
#[derive(Clone, Copy, PartialEq, Eq, Debug)]
pub struct Round {
    /// How many objects left their frames: moved out, or clean.
    pub left: u32,
    /// How many stayed, as they were used meanwhile.
    pub aborted: u32,
    /// How many stayed, as the store refused the put.
    pub failed: u32,
}

impl Round {
    /// Nothing was marked, and nothing left.
    pub(crate) fn none() -> Round
        ensures { moves_of result ≡ 0 }
    {
        Round {
            left: 0,
            aborted: 0,
            failed: 0,
        }
    }

    /// One object was marked, or was clean, and this became of it.
    pub(crate) fn of(moved: Moved) -> Round
        ensures { result ≡ one_of moved }
    {
        let none = Round::none();
        match moved {
            Moved::Left => Round { left: 1, ..none },
            Moved::Stayed => Round { aborted: 1, ..none },
            Moved::Failed => Round { failed: 1, ..none },
        }
    }

    /// The one and then the other.
    pub(crate) fn and(self, other: Round) -> Round
        requires room { moves_of self + moves_of other ≤ 4294967295 }
        ensures { result ≡ both self other }
    {
        Round {
            left: self.left + other.left,
            aborted: self.aborted + other.aborted,
            failed: self.failed + other.failed,
        }
    }
}
