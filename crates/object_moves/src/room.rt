//! How an object is moved out of a frame, and room made for another.
ghost use Rattle.std.specs.Prelude.{◌≡◌, ◌≢◌, ◌<◌, ◌≤◌, ◌++◌, ℕ, List, None, Some, IfOk, IfSome, MatchResult, false, length, true};
ghost use Rattle.object_lock.specs.Plays.{IsLook};
ghost use Rattle.object_lock.specs.SeatViews.{IsSeat};
ghost use Rattle.object_lock.specs.Seats.{Owns};
ghost use Rattle.object_lock.specs.Telling.{HasPut};
ghost use Rattle.object_moves.specs.Deeds.{GoesLogged, LeavesLogged, MovesLogged, copies};
ghost use Rattle.pointer_word.specs.Hands.{listed, seen};
ghost use Rattle.object_moves.specs.Moving.{LeavesClean, LeavesOne, LetsGo, MovesAway};
ghost use Rattle.object_moves.specs.Taken.{CopiesOnly, HandOnly, HasOnly, MovesOut, Refused, StillBrings};
ghost use Rattle.object_moves.specs.Ways.{LacksRoom, MakesRoom, did_of};
ghost use Rattle.pointer_word.specs.Asked.{HasNoFrame};
ghost use Rattle.pointer_word.specs.Ordered.{IsCopied};
ghost use Rattle.pointer_word.specs.Words.{Here, counted};

use crate::moved::{Moved, StoreRefused};
use crate::moves::Moves;
use crate::search::FEW;
use object_lock::{MoverSeat, ObjectTable, OwnerSeat};
use remote_store::{MOST_CELLS, RawStore, USUAL_CELLS};

/// Copies the cells of the frame, in which the mover has marked the object.
fn copy<S: RawStore>(
    table: &ObjectTable<S>,
    mover: &mut MoverSeat<S>,
    obj: usize,
    frame: usize,
    words: &mut [u64],
)
    requires table { IsSeat table.now mover.old }
    requires low { frame < table.now.sizes.frames }
    requires hands { MovesOut obj frame mover.old.view.hand }
    requires words { length words.old ≡ table.now.sizes.cells }
    ensures table { IsSeat table.now mover.new }
    ensures same { CopiesOnly mover.old mover.new }
    ensures length { length words.new ≡ table.now.sizes.cells }
    ensures copied { IsCopied mover.new.view.hand words.new table.now.sizes.cells }
    ensures logged { mover.new.log ≡ mover.old.log ++ copies table.now.sizes mover.old.view.number frame words.new table.now.sizes.cells }
{
    // For the proof alone: the clauses speak of the object that is moved out.
    let _ = obj;
    let first = table.first_cell(frame);
    for i in 0..words.len() {
        words[i] = table.copy_behind(mover, first, frame, i);
    }
}

/// Lets the object go whose cells were put into its berth: it leaves the frame, which is free then, or stays where it has changed
/// since it was marked. Whether it has left.
fn let_go<S: RawStore>(
    table: &ObjectTable<S>,
    mover: &mut MoverSeat<S>,
    obj: usize,
    frame: usize,
) -> Moved
    requires table { IsSeat table.now mover.old }
    requires low { (obj < table.now.sizes.objects) × (frame < table.now.sizes.frames) }
    requires hands { MovesOut obj frame mover.old.view.hand }
    requires put { HasPut S.fits S.content table.now.sizes.cells obj mover.old }
    ensures table { IsSeat table.now mover.new }
    ensures told { LetsGo mover.old mover.new result }
    ensures logged { (ws : List ℕ) × (length ws ≡ table.now.sizes.cells) × ((i : ℕ) → i < table.now.sizes.cells → seen mover.old.view.hand.copied i ≡ Some (listed ws i)) × GoesLogged table.now.sizes mover.old.view.number obj frame ws result mover.old.log mover.new.log }
{
    if table.try_commit(mover, obj) {
        table.release(mover, frame);
        Moved::Left
    } else {
        table.abort(mover, obj);
        Moved::Stayed
    }
}

/// Moves the object, which the mover has marked in the frame, out of it, by way of `words`.
fn move_by_way_of<S: RawStore>(
    table: &ObjectTable<S>,
    mover: &mut MoverSeat<S>,
    obj: usize,
    frame: usize,
    words: &mut [u64],
) -> Moved
    requires table { IsSeat table.now mover.old }
    requires low { (obj < table.now.sizes.objects) × (frame < table.now.sizes.frames) }
    requires hands { MovesOut obj frame mover.old.view.hand }
    requires words { length words.old ≡ table.now.sizes.cells }
    ensures table { IsSeat table.now mover.new }
    ensures told { MovesAway S.reliable mover.old mover.new result }
    ensures logged { (ws : List ℕ) × (length ws ≡ table.now.sizes.cells) × MovesLogged table.now.sizes mover.old.view.number obj frame ws result mover.old.log mover.new.log }
{
    copy(table, mover, obj, frame, &mut *words);
    match mover.put(obj, &*words) {
        Ok(()) => let_go(table, mover, obj, frame),
        Err(_failed) => {
            table.abort(mover, obj);
            Moved::Failed
        }
    }
}

/// Moves the object, which the mover has marked in the frame, out of it: copies its cells, puts them into its berth, and lets it go.
/// `Left`: the object is in its berth, and the frame is free. `Stayed`: it was used since it was marked, and stays in the frame. `Failed`: the store
/// refused the put, and it stays. Then the mover has in hand only what it is bringing in, if anything.
pub fn move_out<S: RawStore>(
    table: &ObjectTable<S>,
    mover: &mut MoverSeat<S>,
    obj: usize,
    frame: usize,
) -> Moved
    requires table { IsSeat table.now mover.old }
    requires low { (obj < table.now.sizes.objects) × (frame < table.now.sizes.frames) }
    requires hands { MovesOut obj frame mover.old.view.hand }
    ensures table { IsSeat table.now mover.new }
    ensures told { MovesAway S.reliable mover.old mover.new result }
    ensures logged { (ws : List ℕ) × (length ws ≡ table.now.sizes.cells) × MovesLogged table.now.sizes mover.old.view.number obj frame ws result mover.old.log mover.new.log }
{
    let cells = table.cells();
    if cells <= USUAL_CELLS {
        let mut buffer = [0; USUAL_CELLS];
        move_by_way_of(table, mover, obj, frame, &mut buffer[..cells])
    } else {
        let mut buffer = [0; MOST_CELLS];
        move_by_way_of(table, mover, obj, frame, &mut buffer[..cells])
    }
}

/// Has the object leave the frame, where it is clean there and has no hold: nothing is copied or put, and the frame is free then. Whether it left;
/// else nothing changed.
pub fn leave_clean<S: RawStore>(
    table: &ObjectTable<S>,
    mover: &mut MoverSeat<S>,
    obj: usize,
    frame: usize,
) -> bool
    requires table { IsSeat table.now mover.old }
    requires low { (obj < table.now.sizes.objects) × (frame < table.now.sizes.frames) }
    requires hands { (mover.old.view.hand.leaving ≡ None) × HasNoFrame mover.old.view.hand }
    requires own { (p : ℕ) → mover.old.view.hand.bringing ≡ Some p → Owns mover.old.view p }
    ensures table { IsSeat table.now mover.new }
    ensures told { LeavesClean frame mover.old mover.new result }
    ensures logged { LeavesLogged table.now.sizes mover.old.view.number obj frame result mover.old.log mover.new.log }
    ensures stayed { result ≡ false → IsLook S.honest mover.old.view (λ x. x.word obj ≢ counted 0 (Here frame true)) }
{
    if table.try_leave(mover, obj, frame) {
        table.release(mover, frame);
        true
    } else {
        false
    }
}

/// Looks once at each of the first so many frames, and has the first object leave there that is clean and has no hold: the frame that it has left.
fn leave_one<S: RawStore>(
    table: &ObjectTable<S>,
    owner: &mut OwnerSeat<S>,
    obj: usize,
    many: usize,
) -> Option<usize>
    requires many { many ≤ table.now.sizes.frames }
    requires table { IsSeat table.now owner.old }
    requires own { Owns owner.old.view obj }
    requires hands { HasOnly obj owner.old.view }
    ensures table { IsSeat table.now owner.new }
    ensures told { LeavesOne owner.old owner.new result }
    ensures logged { IfSome result (λ frame. (o : ℕ) × (o < table.now.sizes.objects) × LeavesLogged table.now.sizes owner.old.view.number o frame true owner.old.log owner.new.log) }
{
    // For the proof alone: the clauses speak of the object that is being brought in.
    let _ = obj;
    for frame in 0..many {
        if let Some(victim) = table.look(owner, frame) {
            if leave_clean(table, owner, victim, frame) {
                return Some(frame);
            }
        }
    }
    None
}

/// Looks once at each of the first so many frames, and moves out the first object there that it can mark: the frame that it has left. `Err` where the store
/// failed.
fn move_one_out<S: RawStore>(
    table: &ObjectTable<S>,
    owner: &mut OwnerSeat<S>,
    obj: usize,
    many: usize,
    moves: &mut Moves,
) -> Result<Option<usize>, StoreRefused>
    requires many { many ≤ table.now.sizes.frames }
    requires table { IsSeat table.now owner.old }
    requires own { Owns owner.old.view obj }
    requires hands { HasOnly obj owner.old.view }
    ensures table { IsSeat table.now owner.new }
    ensures same { HandOnly owner.old owner.new }
    ensures brings { StillBrings owner.old.view.hand owner.new.view.hand }
    ensures low { IfOk result (λ freed. IfSome freed (λ frame. frame < table.now.sizes.frames)) }
    ensures told { MatchResult result (λ _. owner.new.refusals ≡ owner.old.refusals) (λ _. Refused S.reliable owner.old.refusals owner.new.refusals) }
    ensures visits { MatchResult result (λ _. MakesRoom table.now.sizes owner.old.view.number (did_of owner.old) (did_of owner.new)) (λ _. LacksRoom table.now.sizes owner.old.view.number (did_of owner.old) (did_of owner.new)) }
{
    // For the proof alone: the clauses speak of the object that is being brought in.
    let _ = obj;
    for frame in 0..many {
        let Some(victim) = table.look(owner, frame) else {
            return Ok(None);
        };
        if table.try_mark(owner, victim, frame) {
            moves.calls = moves.calls.wrapping_add(1);
            return match move_out(table, owner, victim, frame) {
                Moved::Left => {
                    moves.written = moves.written.wrapping_add(1);
                    Ok(Some(frame))
                }
                Moved::Stayed => Ok(None),
                Moved::Failed => Err(StoreRefused),
            };
        }
    }
    Ok(None)
}

/// Has a clean object leave one of the first so many frames; where none can, moves one out that was written: the frame that it has left. `Err` where the
/// store failed.
fn make_room_among<S: RawStore>(
    table: &ObjectTable<S>,
    owner: &mut OwnerSeat<S>,
    obj: usize,
    many: usize,
    moves: &mut Moves,
) -> Result<Option<usize>, StoreRefused>
    requires many { many ≤ table.now.sizes.frames }
    requires table { IsSeat table.now owner.old }
    requires own { Owns owner.old.view obj }
    requires hands { HasOnly obj owner.old.view }
    ensures table { IsSeat table.now owner.new }
    ensures same { HandOnly owner.old owner.new }
    ensures brings { StillBrings owner.old.view.hand owner.new.view.hand }
    ensures low { IfOk result (λ freed. IfSome freed (λ frame. frame < table.now.sizes.frames)) }
    ensures told { MatchResult result (λ _. owner.new.refusals ≡ owner.old.refusals) (λ _. Refused S.reliable owner.old.refusals owner.new.refusals) }
    ensures visits { MatchResult result (λ _. MakesRoom table.now.sizes owner.old.view.number (did_of owner.old) (did_of owner.new)) (λ _. LacksRoom table.now.sizes owner.old.view.number (did_of owner.old) (did_of owner.new)) }
{
    match leave_one(table, owner, obj, many) {
        Some(frame) => {
            moves.left = moves.left.wrapping_add(1);
            Ok(Some(frame))
        }
        None => move_one_out(table, owner, obj, many, moves),
    }
}

/// Makes room in one of a few frames, or in one of all, where nothing can leave these: the frame that an object has left. `Err` where the store failed.
pub(crate) fn make_room<S: RawStore>(
    table: &ObjectTable<S>,
    owner: &mut OwnerSeat<S>,
    obj: usize,
    moves: &mut Moves,
) -> Result<Option<usize>, StoreRefused>
    requires table { IsSeat table.now owner.old }
    requires own { Owns owner.old.view obj }
    requires hands { HasOnly obj owner.old.view }
    ensures table { IsSeat table.now owner.new }
    ensures same { HandOnly owner.old owner.new }
    ensures brings { StillBrings owner.old.view.hand owner.new.view.hand }
    ensures low { IfOk result (λ freed. IfSome freed (λ frame. frame < table.now.sizes.frames)) }
    ensures told { MatchResult result (λ _. owner.new.refusals ≡ owner.old.refusals) (λ _. Refused S.reliable owner.old.refusals owner.new.refusals) }
    ensures visits { MatchResult result (λ _. MakesRoom table.now.sizes owner.old.view.number (did_of owner.old) (did_of owner.new)) (λ _. LacksRoom table.now.sizes owner.old.view.number (did_of owner.old) (did_of owner.new)) }
{
    let count = table.frames();
    match make_room_among(table, owner, obj, count.min(FEW), &mut *moves) {
        Ok(None) => make_room_among(table, owner, obj, count, moves),
        made => made,
    }
}
