//! How an owner takes a hold of an object, which it brings into a frame where it is away.
ghost use Rattle.std.specs.Prelude.{◌≡◌, ◌<◌, ℕ, None, IfOk, IfSome, MatchResult};
ghost use Rattle.object_lock.specs.SeatViews.{IsSeat};
ghost use Rattle.object_lock.specs.Logs.{Adds};
ghost use Rattle.object_lock.specs.Seats.{Owns, frame_word, note};
ghost use Rattle.pointer_word.specs.Calls as call;
ghost use Rattle.object_moves.specs.Taken.{BringsOr, Claims, ClaimsOne, ClaimsOr, FetchesOr, HandOnly, HasOnly, IsQuiet, Refused, StillBrings, TakesOr};
ghost use Rattle.object_moves.specs.Ways.{Comes, GoesOn, LacksRoom, MakesRoomAt, MakesRoomFor, TakeLogged, WayLogged, WayOrClosed, did_of};

use crate::arrival::bring_into;
use crate::moved::StoreRefused;
use crate::moves::Moves;
use crate::room::make_room;
use crate::search::{FEW, find_frame};
use object_lock::{Begin, Held, ObjectTable, OwnerSeat};
use remote_store::RawStore;
use std::sync::Wait;

/// Claims the frame, which was freed just now, for the object that is being brought in, unless somebody else claims it first.
fn claim_freed<S: RawStore>(
    table: &ObjectTable<S>,
    owner: &mut OwnerSeat<S>,
    obj: usize,
    freed: Option<usize>,
) -> Option<usize>
    requires table { IsSeat table.now owner.old }
    requires low { obj < table.now.sizes.objects }
    requires freed { IfSome freed (λ frame. frame < table.now.sizes.frames) }
    requires hands { HasOnly obj owner.old.view }
    ensures table { IsSeat table.now owner.new }
    ensures told { ClaimsOne owner.old owner.new result }
    ensures logged { IfSome result (λ frame. Adds owner.old.log owner.new.log (frame_word table.now.sizes frame) (call.Claims owner.old.view.number obj frame) (λ n. n ≡ 0)) }
{
    let Some(frame) = freed else {
        return None;
    };
    if table.try_claim(owner, frame, obj) {
        Some(frame)
    } else {
        None
    }
}

/// Claims a frame for the object that is being brought in: one of a few that is free, or one that another object is moved out of, or one of all. `None`
/// where each frame was looked at, none was free, and none was freed that nobody else claimed. `Err` where the store failed.
fn claim_once<S: RawStore>(
    table: &ObjectTable<S>,
    owner: &mut OwnerSeat<S>,
    obj: usize,
    from: usize,
    moves: &mut Moves,
) -> Result<Option<usize>, StoreRefused>
    requires table { IsSeat table.now owner.old }
    requires own { Owns owner.old.view obj }
    requires hands { HasOnly obj owner.old.view }
    ensures table { IsSeat table.now owner.new }
    ensures told { MatchResult result (λ claimed. ClaimsOr owner.old owner.new claimed)
        (λ _. HandOnly owner.old owner.new × StillBrings owner.old.view.hand owner.new.view.hand × Refused S.reliable owner.old.refusals owner.new.refusals) }
    ensures visits { MatchResult result (λ claimed. MakesRoomFor table.now.sizes owner.old.view.number obj claimed (did_of owner.old) (did_of owner.new)) (λ _. LacksRoom table.now.sizes owner.old.view.number (did_of owner.old) (did_of owner.new)) }
{
    if let Some(frame) = find_frame(table, owner, obj, from, FEW) {
        return Ok(Some(frame));
    }
    match make_room(table, owner, obj, moves) {
        Ok(None) => Ok(find_frame(table, owner, obj, from, table.frames())),
        Ok(freed) => Ok(claim_freed(table, owner, obj, freed)),
        Err(refused) => Err(refused),
    }
}

/// Where the next search begins, where there are so many frames: behind the one that was claimed, where it was among the few that were looked at first, and
/// else behind these.
fn next_search(frames: usize, from: usize, claimed: usize) -> usize {
    let start = if from < frames { from } else { 0 };
    let distance = if claimed < start {
        frames - (start - claimed)
    } else {
        claimed - start
    };
    if distance < FEW {
        claimed.saturating_add(1)
    } else {
        start.saturating_add(FEW)
    }
}

/// Claims a frame for the object that is being brought in: one that is free, or that another object is moved out of. Waits
/// until there is one. Looks for it from frame `from` on, and says where the next search begins. `Err` where the store failed.
fn claim<R: Wait, S: RawStore>(
    rt: &R,
    table: &ObjectTable<S>,
    owner: &mut OwnerSeat<S>,
    obj: usize,
    from: &mut usize,
    moves: &mut Moves,
) -> Result<usize, StoreRefused>
    requires table { IsSeat table.now owner.old }
    requires own { Owns owner.old.view obj }
    requires hands { HasOnly obj owner.old.view }
    ensures table { IsSeat table.now owner.new }
    ensures told { MatchResult result (λ frame. Claims owner.old owner.new frame)
        (λ _. HandOnly owner.old owner.new × StillBrings owner.old.view.hand owner.new.view.hand × Refused S.reliable owner.old.refusals owner.new.refusals) }
    ensures visits { MatchResult result (λ frame. MakesRoomAt table.now.sizes owner.old.view.number obj frame (did_of owner.old) (did_of owner.new)) (λ _. LacksRoom table.now.sizes owner.old.view.number (did_of owner.old) (did_of owner.new)) }
{
    for _ in rt.forever() {
        match claim_once(table, owner, obj, *from, &mut *moves) {
            Ok(Some(frame)) => {
                *from = next_search(table.frames(), *from, frame);
                return Ok(frame);
            }
            Ok(None) => (),
            Err(refused) => return Err(refused),
        }
    }
    unreachable!()
}

/// Brings the object in that was begun; the frame that it is in then. `None` where the store failed: then it is given up.
fn bring<R: Wait, S: RawStore>(
    rt: &R,
    table: &ObjectTable<S>,
    owner: &mut OwnerSeat<S>,
    obj: usize,
    from: &mut usize,
    moves: &mut Moves,
) -> Option<usize>
    requires table { IsSeat table.now owner.old }
    requires hold { Owns owner.old.view obj × (0 < (note owner.old.view obj).count) }
    requires hands { HasOnly obj owner.old.view }
    ensures table { IsSeat table.now owner.new }
    ensures told { BringsOr S.reliable obj owner.old owner.new result }
    ensures course { GoesOn table.now.sizes owner.old.view.number obj result (did_of owner.old) (did_of owner.new) }
{
    let Ok(frame) = claim(rt, table, owner, obj, from, moves) else {
        table.retreat(owner, obj);
        return None;
    };
    let stored = owner.stored(obj);
    moves.calls = moves.calls.wrapping_add(u64::from(stored));
    if bring_into(table, owner, obj, frame) {
        moves.brought = moves.brought.wrapping_add(1);
        Some(frame)
    } else {
        None
    }
}

/// Waits until the object is in a frame, and brings it in where nobody else does. `None` where the store failed.
fn fetch<R: Wait, S: RawStore>(
    rt: &R,
    table: &ObjectTable<S>,
    owner: &mut OwnerSeat<S>,
    obj: usize,
    count: u64,
    from: &mut usize,
    moves: &mut Moves,
) -> Option<usize>
    requires table { IsSeat table.now owner.old }
    requires hold { Owns owner.old.view obj × (0 < count) × (count ≡ (note owner.old.view obj).count) × (count < 5) }
    requires quiet { IsQuiet owner.old.view }
    ensures table { IsSeat table.now owner.new }
    ensures told { BringsOr S.reliable obj owner.old owner.new result }
    ensures way { Comes (WayLogged table.now.sizes owner.old.view.number obj count result) obj result (did_of owner.old) (did_of owner.new) }
{
    for _ in rt.forever() {
        match table.try_begin(owner, obj, count) {
            Begin::Taken => return bring(rt, table, owner, obj, from, moves),
            Begin::Here(frame) => return Some(frame),
            Begin::Busy => (),
        }
    }
    unreachable!()
}

/// Waits until the object, of which a hold was just opened, is in a frame. `None` where the store failed: then the hold is closed
/// again.
#[inline(never)]
#[cold]
fn fetch_or_close<R: Wait, S: RawStore>(
    rt: &R,
    table: &ObjectTable<S>,
    owner: &mut OwnerSeat<S>,
    obj: usize,
    count: u64,
    from: &mut usize,
    moves: &mut Moves,
) -> Option<usize>
    requires table { IsSeat table.now owner.old }
    requires hold { Owns owner.old.view obj × (0 < count) × (count ≡ (note owner.old.view obj).count) × (count < 5) }
    requires quiet { IsQuiet owner.old.view }
    ensures table { IsSeat table.now owner.new }
    ensures told { FetchesOr S.reliable obj owner.old owner.new result }
    ensures way { Comes (WayOrClosed table.now.sizes owner.old.view.number obj count result) obj result (did_of owner.old) (did_of owner.new) }
{
    let fetched = fetch(rt, table, owner, obj, count, from, moves);
    match fetched {
        Some(frame) => Some(frame),
        None => {
            table.close(owner, obj);
            None
        }
    }
}

/// Opens a hold of the object, and tells the frame where it is. `count` tells how many holds of it there are before, and is asked only where the object is in no frame. `None`
/// where the store failed: then no hold more is open. Looks for a free frame from frame `from` on, which is the one behind it then, and counts what it does.
#[inline(always)]
pub fn take<R: Wait, S: RawStore, C: Fn() -> u64>(
    rt: &R,
    table: &ObjectTable<S>,
    owner: &mut OwnerSeat<S>,
    obj: usize,
    count: &C,
    from: &mut usize,
    moves: &mut Moves,
) -> Option<usize>
    requires table { IsSeat table.now owner.old }
    requires hold { Owns owner.old.view obj × ((note owner.old.view obj).count < 4) }
    requires count { C.IsAlwaysCallable count.now × ((n : ℕ) → C.post count.now n → n ≡ (note owner.old.view obj).count) }
    requires quiet { IsQuiet owner.old.view }
    ensures table { IsSeat table.now owner.new }
    ensures told { TakesOr S.reliable obj owner.old owner.new result }
    ensures way { Comes (TakeLogged table.now.sizes owner.old.view.number obj (note owner.old.view obj).count result) obj result (did_of owner.old) (did_of owner.new) }
{
    match table.open(owner, obj) {
        Held::Here(frame) => Some(frame),
        Held::Away => fetch_or_close(rt, table, owner, obj, count() + 1, from, moves),
        Held::Coming => fetch_or_close(rt, table, owner, obj, count() + 1, from, moves),
    }
}
