//! Rounds of an evacuator.
ghost use Rattle.object_lock.specs.Fresh.{IsFresh};
ghost use Rattle.object_lock.specs.SeatViews.{IsSeat};
ghost use Rattle.pointer_word.specs.Asked.{HasNothing};
ghost use Rattle.std.specs.List.{All};
ghost use Rattle.std.specs.Prelude.{◌≡◌, IfSome};

use crate::admissions::verified;
use crate::setting::Setting;
use crate::shelf::Shelf;
use evacuator::round;
use object_lock::{MoverSeat, ObjectTable, OwnerSeat};
use object_moves::{Moves, take};
use region::{Region, admit, piece_of};
use remote_store::RawStore;
use scope_verifier::Verified;
use std::alloc::{AllocError, Global};
use std::fmt::Write;
use std::sync::Wait;

/// Takes a hold of the owner's first object, which brings it into a frame, begins to write it if that is asked for, and closes the hold unless it is to stay open. Whether it was
/// brought in.
fn bring_in<R: Wait, S: RawStore>(
    rt: &R,
    table: &ObjectTable<S>,
    owner: &mut OwnerSeat<S>,
    written: bool,
    held: bool,
) -> bool
    requires fresh { IsFresh table.now owner.old }
{
    let obj = owner.low();
    if owner.high() <= obj {
        return false;
    }
    let mut from = 0;
    let mut moves = Moves::none();
    let Some(_frame) = take(rt, table, owner, obj, &|| 0, &mut from, &mut moves) else {
        return false;
    };
    if written {
        table.begin_write(owner, obj);
    }
    if !held {
        table.close(owner, obj);
    }
    true
}

/// How many frames are free.
fn free_frames<S: RawStore>(table: &ObjectTable<S>, seat: &mut MoverSeat<S>) -> usize
    requires table { IsSeat table.now seat.old }
    ensures same { seat.new ≡ seat.old }
{
    let mut free = 0;
    for frame in 0..table.frames() {
        if table.look(seat, frame).is_none() {
            free += 1;
        }
    }
    free
}

/// Makes a round of each of these budgets: what it came to, and how many frames are free then.
fn tell_rounds<S: RawStore>(
    alloc: Global,
    region: &Region<S>,
    seat: &mut MoverSeat<S>,
    budgets: &[u64],
) -> Result<String, AllocError>
    requires table { IsSeat region.now.table seat.old }
    requires empty { HasNothing seat.old.view.hand }
{
    let mut told = String::new(alloc);
    for budget in budgets {
        let budget = u32::try_from(*budget).unwrap_or(u32::MAX);
        let round = round(region, seat, budget);
        let free = free_frames(region.table(), seat);
        let (left, aborted, failed) = (round.left, round.aborted, round.failed);
        writeln!(
            told,
            "{left} left, {aborted} aborted, {failed} failed, {free} frames free"
        )?;
    }
    Ok(told)
}

/// The last of these seats of the region, where there is one.
fn last_seat<S: RawStore>(region: &Region<S>, seats: &mut Vec<MoverSeat<S>>) -> Option<MoverSeat<S>>
    requires { All (IsFresh region.now.table) seats.old.items }
    ensures seat { IfSome result (IsFresh region.now.table) }
    ensures rest { All (IsFresh region.now.table) seats.new.items }
{
    // For the proof alone: the clauses speak of the region.
    let _ = region;
    seats.pop()
}

/// What is told of rounds of this region, behind what its first two programs brought in.
fn tell_region<R: Wait, S: RawStore>(
    rt: &R,
    alloc: Global,
    region: &Region<S>,
    owners: &mut Vec<OwnerSeat<S>>,
    movers: &mut Vec<MoverSeat<S>>,
    setting: &Setting<'_>,
) -> Result<String, AllocError>
    requires owners { All (IsFresh region.now.table) owners.old.items }
    requires movers { All (IsFresh region.now.table) movers.old.items }
{
    let Some(mut seat) = last_seat(region, movers) else {
        return String::from_str(alloc, "no evacuator");
    };
    let Some(mut second) = last_seat(region, owners) else {
        return String::from_str(alloc, "no program");
    };
    let Some(mut first) = last_seat(region, owners) else {
        return String::from_str(alloc, "one program alone");
    };
    let (written, held) = (setting.written, setting.held);
    if !bring_in(rt, region.table(), &mut first, written, held)
        || !bring_in(rt, region.table(), &mut second, written, held)
    {
        return String::from_str(alloc, "not brought in");
    }
    tell_rounds(alloc, region, &mut seat, &setting.numbers)
}

/// What is told of rounds of a region into which these programs are admitted.
fn tell_programs<R: Wait>(
    rt: &R,
    alloc: Global,
    programs: Vec<Verified>,
    setting: &Setting<'_>,
) -> Result<String, AllocError> {
    let Some(config) = setting.any_config(alloc, piece_of(&programs)) else {
        return Err(AllocError);
    };
    match admit(alloc, programs, config) {
        Ok((region, mut owners, mut movers)) => {
            tell_region(rt, alloc, &region, &mut owners, &mut movers, setting)
        }
        Err(_fault) => String::from_str(alloc, "not admitted"),
    }
}

/// What is told of a row.
pub(crate) fn tell<R: Wait>(
    rt: &R,
    alloc: Global,
    shelf: &Shelf,
    setting: &Setting<'_>,
) -> Result<String, AllocError> {
    let Some(images) = setting.images(alloc, shelf)? else {
        return String::from_str(alloc, "no such image");
    };
    let Some(programs) = verified(alloc, images)? else {
        return String::from_str(alloc, "an image that is not verified");
    };
    tell_programs(rt, alloc, programs, setting)
}
