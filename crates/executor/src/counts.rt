//! What is counted of movers, and what a run answers with it.

use evacuator::Round;
use fetcher::Served;
use program_run::Finished;

/// What an evacuator did in its rounds. Each count goes round behind 2^64 - 1, and no contract speaks of it.
#[derive(Clone, Copy, Debug, PartialEq, Eq)]
pub struct Evacuated {
    /// Rounds that it made.
    pub rounds: u64,
    /// Objects that left their frames: put into the store, or clean.
    pub left: u64,
    /// Objects that stayed, as they were used meanwhile.
    pub aborted: u64,
    /// Objects that stayed, as the store refused the put.
    pub failed: u64,
}

impl Evacuated {
    /// No round was made yet.
    pub(crate) fn none() -> Evacuated {
        Evacuated {
            rounds: 0,
            left: 0,
            aborted: 0,
            failed: 0,
        }
    }

    /// One more round was made, which came to this.
    pub(crate) fn add(&mut self, round: Round) {
        self.rounds = self.rounds.wrapping_add(1);
        self.left = self.left.wrapping_add(u64::from(round.left));
        self.aborted = self.aborted.wrapping_add(u64::from(round.aborted));
        self.failed = self.failed.wrapping_add(u64::from(round.failed));
    }
}

/// What became of the hints that a fetcher took. Each count goes round behind 2^64 - 1, and no contract speaks of it.
#[derive(Clone, Copy, Debug, PartialEq, Eq)]
pub struct Fetched {
    /// Objects that it brought into frames.
    pub brought: u64,
    /// Hints that it let go: the object was not in its store cell, or had a hold, or no frame was free.
    pub dropped: u64,
    /// Hints of objects that stayed in their store cells, as the store refused the get.
    pub failed: u64,
}

impl Fetched {
    /// No hint was taken yet.
    pub(crate) fn none() -> Fetched {
        Fetched {
            brought: 0,
            dropped: 0,
            failed: 0,
        }
    }

    /// One more hint was looked for, of which this became.
    pub(crate) fn add(&mut self, served: Served) {
        match served {
            Served::Nothing => (),
            Served::Brought => self.brought = self.brought.wrapping_add(1),
            Served::Dropped => self.dropped = self.dropped.wrapping_add(1),
            Served::Failed => self.failed = self.failed.wrapping_add(1),
        }
    }
}

/// What a mover did.
#[derive(Clone, Copy, Debug, PartialEq, Eq)]
pub enum MoverCounts {
    Evacuates(Evacuated),
    Fetches(Fetched),
}

/// What a run came to: the ends of its programs in their order, with what was counted of each, and what was counted of the movers, first the evacuators and then
/// the fetchers.
#[derive(Drop)]
pub struct Counted {
    pub programs: Vec<Finished>,
    pub movers: Vec<MoverCounts>,
}
