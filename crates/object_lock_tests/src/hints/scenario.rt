//! The scenarios of hints over a region.
ghost use Rattle.object_lock.specs.Fresh.{IsFresh};
ghost use Rattle.std.specs.List.{All};
ghost use Rattle.std.specs.Prelude.{◌≡◌, IfSome};

use crate::hints::frames::{Filled, fill_frames};
use crate::hints::moves::{Twice, bring_twice};
use crate::hints::regions::{last_seat, region};
use fetcher::{HintPass, Hints};
use object_lock::{MoverSeat, OwnerSeat};
use region::Region;
use remote_store::{RawStore, Stores};
use std::alloc::Global;
use std::sync::Wait;

/// What hints are put.
#[derive(Clone, Copy)]
pub(crate) enum Scenario {
    /// Some of an object that is brought in, moved out, and brought in again.
    MovedOut,
    /// Some of more objects than there are frames.
    NoFrame,
}

/// What a scenario came to.
#[derive(Clone, Copy, Debug)]
pub(crate) enum Story {
    MovedOut(Option<Twice>),
    NoFrame(Option<Filled>),
}

/// Plays the scenario with these seats of the region.
fn act<R: Wait, S: RawStore>(
    rt: &R,
    scenario: Scenario,
    region: &Region<S>,
    hints: &Hints,
    pass: &mut HintPass,
    owner: &mut OwnerSeat<S>,
    evacuator: &mut MoverSeat<S>,
    fetcher: &mut MoverSeat<S>,
) -> Story
    requires owner { IsFresh region.now.table owner.old }
    requires movers { IsFresh region.now.table evacuator.old × IsFresh region.now.table fetcher.old }
    requires hints { (hints.now.objects ≡ region.now.objects) × (pass.old ≡ hints.now) }
{
    match scenario {
        Scenario::MovedOut => Story::MovedOut(bring_twice(
            rt, region, hints, pass, owner, evacuator, fetcher,
        )),
        Scenario::NoFrame => Story::NoFrame(fill_frames(
            rt, region, hints, pass, owner, evacuator, fetcher,
        )),
    }
}

/// The last of these passes, where there is one.
fn last_pass(hints: &Hints, passes: &mut Vec<HintPass>) -> Option<HintPass>
    requires { All (λ p. p ≡ hints.now) passes.old.items }
    ensures { IfSome result (λ p. p ≡ hints.now) }
{
    // For the proof alone: the clauses speak of the hints.
    let _ = hints;
    passes.pop()
}

/// Plays the scenario with these seats of the region. `None` where memory runs out.
fn play_with<R: Wait, S: RawStore>(
    rt: &R,
    alloc: Global,
    scenario: Scenario,
    region: &Region<S>,
    owner: &mut OwnerSeat<S>,
    evacuator: &mut MoverSeat<S>,
    fetcher: &mut MoverSeat<S>,
) -> Option<Story>
    requires owner { IsFresh region.now.table owner.old }
    requires movers { IsFresh region.now.table evacuator.old × IsFresh region.now.table fetcher.old }
{
    let Ok((hints, mut passes)) = Hints::new(alloc, region) else {
        return None;
    };
    let mut pass = last_pass(&hints, &mut passes)?;
    Some(act(
        rt, scenario, region, &hints, &mut pass, owner, evacuator, fetcher,
    ))
}

/// Plays the scenario with the last of these seats of the region. `None` where there are too few, or memory runs out.
fn play_in<R: Wait, S: RawStore>(
    rt: &R,
    alloc: Global,
    scenario: Scenario,
    region: &Region<S>,
    owners: &mut Vec<OwnerSeat<S>>,
    movers: &mut Vec<MoverSeat<S>>,
) -> Option<Story>
    requires owners { All (IsFresh region.now.table) owners.old.items }
    requires movers { All (IsFresh region.now.table) movers.old.items }
{
    let mut owner = last_seat(region, owners)?;
    let mut fetcher = last_seat(region, movers)?;
    let mut evacuator = last_seat(region, movers)?;
    play_with(
        rt,
        alloc,
        scenario,
        region,
        &mut owner,
        &mut evacuator,
        &mut fetcher,
    )
}

/// Plays the scenario over these stores. `None` where memory runs out, or the store can't be made.
pub(crate) fn play<R: Wait, M: Stores + Drop>(
    rt: &R,
    alloc: Global,
    scenario: Scenario,
    stores: M,
) -> Option<Story>
    requires { M.makes stores 67 }
{
    let (region, mut owners, mut movers) = region(alloc, 3, stores)?;
    play_in(rt, alloc, scenario, &region, &mut owners, &mut movers)
}
