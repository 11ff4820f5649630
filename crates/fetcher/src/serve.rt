//! How a fetcher serves a hint.
ghost use Rattle.fetcher.specs.Serving.{Serves, ServesOne};
ghost use Rattle.object_lock.specs.SeatViews.{IsSeat};
ghost use Rattle.pointer_word.specs.Asked.{HasNothing};
ghost use Rattle.std.specs.Prelude.{◌≡◌, ◌<◌};

use crate::served::Served;
use hint_queue::{HintPass, Hints};
use object_lock::{Begin, MoverSeat};
use object_moves::bring_into;
use region::{Found, Region};
use remote_store::RawStore;
use std::sync::Wait;

/// Brings the object into a frame that is free, where it is in its store cell with no hold.
fn serve<S: RawStore>(region: &Region<S>, seat: &mut MoverSeat<S>, obj: usize) -> Served
    requires table { IsSeat region.now.table seat.old }
    requires low { obj < region.now.table.sizes.objects }
    requires hands { HasNothing seat.old.view.hand }
    ensures table { IsSeat region.now.table seat.new }
    ensures hands { HasNothing seat.new.view.hand }
    ensures told { Serves S.reliable obj seat.old seat.new result }
{
    let table = region.table();
    let Begin::Taken = table.try_begin(seat, obj, 0) else {
        return Served::Dropped;
    };
    let Found::Claimed(frame) = region.find_frame(seat, obj) else {
        table.retreat(seat, obj);
        return Served::Dropped;
    };
    if bring_into(table, seat, obj, frame) {
        Served::Brought
    } else {
        Served::Failed
    }
}

/// Takes the oldest hint, and brings its object into a frame that is free, where it is in its store cell with no hold. Moves no object out. In each
/// case the seat's hands are empty then.
pub fn serve_one<R: Wait, S: RawStore>(
    rt: &R,
    region: &Region<S>,
    hints: &Hints,
    pass: &mut HintPass,
    seat: &mut MoverSeat<S>,
) -> Served
    requires seat { IsSeat region.now.table seat.old }
    requires hands { HasNothing seat.old.view.hand }
    requires hints { hints.now.objects ≡ region.now.objects }
    requires pass { pass.old ≡ hints.now }
    ensures seat { IsSeat region.now.table seat.new }
    ensures hands { HasNothing seat.new.view.hand }
    ensures pass { pass.new ≡ pass.old }
    ensures told { ServesOne S.reliable region.now.objects seat.old seat.new result }
{
    // For the proof alone: the programs' objects are objects of the table.
    let _ = region.objects();
    match hints.pop(rt, pass) {
        Some(object) => serve(region, seat, object),
        None => Served::Nothing,
    }
}
