//! How an object is brought into a frame that was claimed for it.
ghost use Rattle.std.specs.Prelude.{◌≡◌, ◌<◌, ◌≤◌, ℕ, Some, MatchBool, false, length, true};
ghost use Rattle.object_lock.specs.SeatViews.{IsSeat};
ghost use Rattle.object_lock.specs.Plays.{Holds, IsUnheld};
ghost use Rattle.object_moves.specs.Deeds.{AddsFills, BringsLogged};
ghost use Rattle.object_moves.specs.Moving.{ArrivedOr, BringsInto};
ghost use Rattle.object_moves.specs.Taken.{FilledBelow, FillsOnly, Refused};
ghost use Rattle.pointer_word.specs.Hands.{listed};

use object_lock::{MoverSeat, ObjectTable};
use remote_store::{MOST_CELLS, RawStore, USUAL_CELLS};

/// Reads the words that the berth of the object keeps that is being brought in over zeros, which stay where nothing was put there. False
/// where the store refuses.
pub fn read<S: RawStore>(mover: &mut MoverSeat<S>, obj: usize, words: &mut [u64]) -> bool
    requires brings { mover.old.view.hand.bringing ≡ Some obj }
    requires words { (length words.old ≡ mover.old.view.sizes.cells) × (length words.old ≤ MOST_CELLS) }
    requires zeros { (i : ℕ) → listed words.old i ≡ 0 }
    ensures same { mover.new ≡ record mover.old { store = mover.new.store; refusals = mover.new.refusals } }
    ensures length { length words.new ≡ length words.old }
    ensures told { MatchBool result ((mover.new.refusals ≡ mover.old.refusals) × (S.honest → (i : ℕ) → i < length words.old → listed words.new i ≡ listed mover.old.view.hand.promised i))
        (Refused S.reliable mover.old.refusals mover.new.refusals) }
{
    if !mover.stored(obj) {
        return true;
    }
    match mover.get(obj, words) {
        Ok(()) => true,
        Err(_refusal) => false,
    }
}

/// Fills the claimed frame with the words.
pub fn fill<S: RawStore>(
    table: &ObjectTable<S>,
    mover: &mut MoverSeat<S>,
    frame: usize,
    words: &[u64],
)
    requires table { IsSeat table.now mover.old }
    requires low { frame < table.now.sizes.frames }
    requires claimed { mover.old.view.hand.claimed ≡ Some frame }
    requires words { length words.now ≡ table.now.sizes.cells }
    ensures table { IsSeat table.now mover.new }
    ensures same { FillsOnly mover.old mover.new }
    ensures filled { FilledBelow mover.new.view.hand.filled words.now table.now.sizes.cells }
    ensures logged { AddsFills table.now.sizes mover.old.view.number frame words.now table.now.sizes.cells mover.old.log mover.new.log }
{
    let first = table.first_cell(frame);
    for i in 0..words.len() {
        table.fill_behind(mover, first, frame, i, words[i]);
    }
}

/// Brings the object that was begun into the frame that was claimed for it, by way of `words`, which are zeros.
fn bring_by_way_of<S: RawStore>(
    table: &ObjectTable<S>,
    mover: &mut MoverSeat<S>,
    obj: usize,
    frame: usize,
    words: &mut [u64],
) -> bool
    requires table { IsSeat table.now mover.old }
    requires low { (obj < table.now.sizes.objects) × (frame < table.now.sizes.frames) }
    requires hands { BringsInto obj frame mover.old.view.hand }
    requires words { length words.old ≡ table.now.sizes.cells }
    requires zeros { (i : ℕ) → listed words.old i ≡ 0 }
    ensures table { IsSeat table.now mover.new }
    ensures told { ArrivedOr S.reliable obj frame mover.old mover.new result }
    ensures held_log { Holds mover.old.view obj → BringsLogged S.honest table.now.sizes mover.old.view.number obj frame true mover.old.view.hand.promised result mover.old.log mover.new.log }
    ensures unheld_log { IsUnheld mover.old.view obj → BringsLogged S.honest table.now.sizes mover.old.view.number obj frame false mover.old.view.hand.promised result mover.old.log mover.new.log }
{
    if read(mover, obj, &mut *words) {
        fill(table, mover, frame, &*words);
        table.arrive(mover, obj, frame);
        true
    } else {
        table.release(mover, frame);
        table.retreat(mover, obj);
        false
    }
}

/// Brings the object that was begun into the frame that was claimed for it: reads its words, fills the frame with them, and arrives. False where the
/// store refused: then the frame is released, and the object stays in its store cell. In both cases it is out of the mover's hands, and the frame too.
/// It may be the mover's own, or another's, which has no notes here.
pub fn bring_into<S: RawStore>(
    table: &ObjectTable<S>,
    mover: &mut MoverSeat<S>,
    obj: usize,
    frame: usize,
) -> bool
    requires table { IsSeat table.now mover.old }
    requires low { (obj < table.now.sizes.objects) × (frame < table.now.sizes.frames) }
    requires hands { BringsInto obj frame mover.old.view.hand }
    ensures table { IsSeat table.now mover.new }
    ensures told { ArrivedOr S.reliable obj frame mover.old mover.new result }
    ensures held_log { Holds mover.old.view obj → BringsLogged S.honest table.now.sizes mover.old.view.number obj frame true mover.old.view.hand.promised result mover.old.log mover.new.log }
    ensures unheld_log { IsUnheld mover.old.view obj → BringsLogged S.honest table.now.sizes mover.old.view.number obj frame false mover.old.view.hand.promised result mover.old.log mover.new.log }
{
    let cells = table.cells();
    if cells <= USUAL_CELLS {
        let mut buffer = [0; USUAL_CELLS];
        bring_by_way_of(table, mover, obj, frame, &mut buffer[..cells])
    } else {
        let mut buffer = [0; MOST_CELLS];
        bring_by_way_of(table, mover, obj, frame, &mut buffer[..cells])
    }
}
