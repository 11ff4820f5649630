//! Which scenarios there are, and the table that each is played at.
ghost use Rattle.std.specs.Prelude.{◌<◌};
ghost use Rattle.object_lock.specs.Plays.{IsUnheld};
ghost use Rattle.object_lock_tests.specs.Standing.{IsIdle, IsShut};

use crate::fetchers::{
    begins_twice, brings_in, claims_a_free_frame, is_busy, is_claimed_again, is_here,
};
use crate::fixtures::owner_and_mover;
use crate::moving_out::{
    copies_anew, is_marked_once, is_moved_out_and_in, is_written_meanwhile, is_written_when_clean,
    marks_again, marks_only_the_unheld, survives_a_failed_put,
};
use crate::owners::{begins_after_a_close, begins_with_two_holds, holds_again, stores};
use crate::tape::Tape;
use object_lock::{MoverSeat, ObjectTable, OwnerSeat};
use remote_store::{RawStore, Stores};
use std::alloc::Global;

/// What an owner and a mover do.
#[derive(Clone, Copy)]
pub(crate) enum Scenario {
    Stores,
    TwoHolds,
    AfterClose,
    HoldsAgain,
    FreeFrame,
    Fetched,
    Retreats,
    Busy,
    Here,
    ClaimedAgain,
    MarkedUnheld,
    MarkedOnce,
    MarkedAgain,
    CopiedAnew,
    WrittenMeanwhile,
    MovedOutAndIn,
    WrittenWhenClean,
    FailedPut,
}

/// The scenarios over a store that doesn't fail, each with its name.
pub(crate) const SCENARIOS: [(&str, Scenario); 17] = [
    ("stores of an owner", Scenario::Stores),
    ("a begin with two holds", Scenario::TwoHolds),
    ("a begin after a close", Scenario::AfterClose),
    ("a second hold", Scenario::HoldsAgain),
    ("a frame that is free", Scenario::FreeFrame),
    ("a fetcher brings in", Scenario::Fetched),
    ("a fetcher retreats", Scenario::Retreats),
    ("an object that is held", Scenario::Busy),
    ("an object in a frame", Scenario::Here),
    ("a frame that was released", Scenario::ClaimedAgain),
    ("marks of a held object", Scenario::MarkedUnheld),
    ("a mark of what another has", Scenario::MarkedOnce),
    ("a mark after giving up", Scenario::MarkedAgain),
    ("a copy after giving up", Scenario::CopiedAnew),
    ("written meanwhile", Scenario::WrittenMeanwhile),
    ("moved out and in", Scenario::MovedOutAndIn),
    ("written when it was clean", Scenario::WrittenWhenClean),
];

/// Plays the scenario on objects 0 and 1 of the owner.
fn act<S: RawStore>(
    table: &ObjectTable<S>,
    scenario: Scenario,
    owner: &mut OwnerSeat<S>,
    mover: &mut MoverSeat<S>,
    tape: &mut Tape,
)
    requires low { (3 < table.now.sizes.frames) × (1 < table.now.sizes.objects) }
    requires seats { IsShut table.now owner.old 0 × IsIdle table.now mover.old }
    requires other { IsUnheld mover.old.view 0 }
{
    match scenario {
        Scenario::Stores => stores(table, owner, tape),
        Scenario::TwoHolds => begins_with_two_holds(table, owner, tape),
        Scenario::AfterClose => begins_after_a_close(table, owner, tape),
        Scenario::HoldsAgain => holds_again(table, owner, tape),
        Scenario::FreeFrame => claims_a_free_frame(table, owner, mover, tape),
        Scenario::Fetched => brings_in(table, owner, mover, tape),
        Scenario::Retreats => begins_twice(table, mover, 0, tape),
        Scenario::Busy => is_busy(table, owner, mover, tape),
        Scenario::Here => is_here(table, owner, mover, tape),
        Scenario::ClaimedAgain => is_claimed_again(table, owner, mover, tape),
        Scenario::MarkedUnheld => marks_only_the_unheld(table, owner, mover, tape),
        Scenario::MarkedOnce => is_marked_once(table, owner, mover, tape),
        Scenario::MarkedAgain => marks_again(table, owner, mover, tape),
        Scenario::CopiedAnew => copies_anew(table, owner, mover, tape),
        Scenario::WrittenMeanwhile => is_written_meanwhile(table, owner, mover, tape),
        Scenario::MovedOutAndIn => is_moved_out_and_in(table, owner, mover, tape),
        Scenario::WrittenWhenClean => is_written_when_clean(table, owner, mover, tape),
        Scenario::FailedPut => survives_a_failed_put(table, owner, mover, tape),
    }
}

/// Plays the scenario at a new table of two objects and four frames, whose program is mover 1, and whose other mover is mover 2: the objects of
/// the program, and what each call told. Nothing where memory ran out.
pub(crate) fn play<M: Stores + Drop>(alloc: Global, scenario: Scenario, stores: M, tape: &mut Tape)
    requires { M.makes stores 67 }
{
    let Some((table, mut owner, mut mover)) = owner_and_mover(alloc, 2, stores) else {
        return;
    };
    if owner.low() == 0 && owner.high() == 2 {
        act(&table, scenario, &mut owner, &mut mover, tape);
    }
}
