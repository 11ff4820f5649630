//! What holds of all replays.
ghost use Rattle.schedule_replay.specs.Reliable.{NeverFails};

use world_semantics::{every_schedule, wants};

/// Over a store that is honest and never fails, as one in memory, a replay tells of no program that the store failed.
pub fn never_fails()
    ensures { NeverFails }
{
    every_schedule();
    wants();
}
