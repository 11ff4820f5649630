//! Rounds of an evacuator.
ghost use Rattle.std.specs.Prelude.{◌≡◌, ◌<◌, ◌≤◌};
ghost use Rattle.evacuator.specs.Rounds.{Evacuates, Visits, moves_of};
ghost use Rattle.object_lock.specs.SeatViews.{IsSeat};
ghost use Rattle.object_moves.specs.Ways.{did_of};
ghost use Rattle.pointer_word.specs.Asked.{HasNothing};

use crate::counts::Round;
use object_lock::{MoverSeat, ObjectTable};
use object_moves::{Moved, leave_clean, move_out};
use region::Region;
use remote_store::RawStore;

/// Looks at the frame, and has the object leave that it names, where that is clean there; else moves it out, where it can be marked there.
fn visit<S: RawStore>(table: &ObjectTable<S>, seat: &mut MoverSeat<S>, frame: usize) -> Round
    requires table { IsSeat table.now seat.old }
    requires low { frame < table.now.sizes.frames }
    requires empty { HasNothing seat.old.view.hand }
    ensures table { IsSeat table.now seat.new }
    ensures told { Evacuates seat.old seat.new result }
    ensures visits { Visits table.now.sizes seat.old.view.number (did_of seat.old) (did_of seat.new) result }
    ensures once { moves_of result ≤ 1 }
    ensures still { moves_of result ≡ 0 → seat.new ≡ seat.old }
    ensures sure { S.reliable → result.failed ≡ 0 }
{
    // For the proof alone: the count of refusals is one of 64 bits.
    let _ = seat.refusals().count;
    let Some(obj) = table.look(seat, frame) else {
        return Round::none();
    };
    if leave_clean(table, seat, obj, frame) {
        return Round::of(Moved::Left);
    }
    if !table.try_mark(seat, obj, frame) {
        return Round::none();
    }
    Round::of(move_out(table, seat, obj, frame))
}

/// Looks once at each of at most `budget` frames, from frame `from` on, or from frame 0 on where there is no such frame; behind the last comes frame 0. Each
/// object that is clean in such a frame and has no hold leaves it; each other one that it can mark there it moves out, or gives up: then the object was used
/// meanwhile, or the store refused the put.
/// The mover's hands are empty before and after. It never waits.
pub fn round_from<S: RawStore>(
    region: &Region<S>,
    seat: &mut MoverSeat<S>,
    from: usize,
    budget: u32,
) -> Round
    requires table { IsSeat region.now.table seat.old }
    requires empty { HasNothing seat.old.view.hand }
    ensures table { IsSeat region.now.table seat.new }
    ensures empty { HasNothing seat.new.view.hand }
    ensures told { Evacuates seat.old seat.new result }
    ensures visits { Visits region.now.table.sizes seat.old.view.number (did_of seat.old) (did_of seat.new) result }
    ensures within { moves_of result ≤ budget }
    ensures still { moves_of result ≡ 0 → seat.new ≡ seat.old }
    ensures sure { S.reliable → result.failed ≡ 0 }
{
    // For the proof alone: the count of refusals is one of 64 bits.
    let _ = seat.refusals().count;
    let table = region.table();
    let frames = table.frames();
    let start = if from < frames { from } else { 0 };
    let visits = frames.min(budget as usize);
    let mut round = Round::none();
    for i in 0..visits {
        let frame = (start + i) % frames;
        round = round.and(visit(table, seat, frame));
    }
    round
}

/// The round from frame 0 on: looks once at each of the first `budget` frames, or at each where there are fewer. A mover that is to come to all frames with a
/// small budget takes `round_from`, and begins where its last round ended.
pub fn round<S: RawStore>(region: &Region<S>, seat: &mut MoverSeat<S>, budget: u32) -> Round
    requires table { IsSeat region.now.table seat.old }
    requires empty { HasNothing seat.old.view.hand }
    ensures table { IsSeat region.now.table seat.new }
    ensures empty { HasNothing seat.new.view.hand }
    ensures told { Evacuates seat.old seat.new result }
    ensures visits { Visits region.now.table.sizes seat.old.view.number (did_of seat.old) (did_of seat.new) result }
    ensures within { moves_of result ≤ budget }
    ensures still { moves_of result ≡ 0 → seat.new ≡ seat.old }
    ensures sure { S.reliable → result.failed ≡ 0 }
{
    round_from(region, seat, 0, budget)
}
