//! A fetcher that brings an object in twice.
ghost use Rattle.object_lock.specs.Fresh.{IsFresh};
ghost use Rattle.object_lock.specs.SeatViews.{IsSeat};
ghost use Rattle.pointer_word.specs.Asked.{HasNothing};
ghost use Rattle.std.specs.Prelude.{◌≡◌, ◌<◌};

use crate::hints::owners::{read, write};
use evacuator::round;
use fetcher::{HintPass, Hints, Served, serve_one};
use object_lock::{MoverSeat, OwnerSeat};
use region::Region;
use remote_store::RawStore;
use std::sync::Wait;

/// What a fetcher did without a hint; with the first one, after which the owner stores 5 in cell 0; how many objects a round moved out
/// then; what the fetcher did with two more hints; in which frame the object is then and what its cell 0 is; and how many calls of the
/// store were refused to the fetcher.
#[derive(Clone, Copy, Debug)]
pub(crate) struct Twice {
    unasked: Served,
    first: Served,
    left: u32,
    second: Served,
    third: Served,
    at: Option<(usize, u64)>,
    refused: u64,
}

/// Puts a hint of the object, and serves one.
pub(crate) fn serve<R: Wait, S: RawStore>(
    rt: &R,
    region: &Region<S>,
    hints: &Hints,
    pass: &mut HintPass,
    fetcher: &mut MoverSeat<S>,
    obj: usize,
) -> Served
    requires seat { IsSeat region.now.table fetcher.old × HasNothing fetcher.old.view.hand }
    requires hints { (hints.now.objects ≡ region.now.objects) × (pass.old ≡ hints.now) }
    requires low { obj < region.now.objects }
    ensures seat { IsSeat region.now.table fetcher.new × HasNothing fetcher.new.view.hand }
    ensures pass { pass.new ≡ pass.old }
{
    hints.push(rt, pass, obj);
    serve_one(rt, region, hints, pass, fetcher)
}

/// What comes of hints of object 0. `None` where the owner has no such object, or it is not in a frame when it is to be.
pub(crate) fn bring_twice<R: Wait, S: RawStore>(
    rt: &R,
    region: &Region<S>,
    hints: &Hints,
    pass: &mut HintPass,
    owner: &mut OwnerSeat<S>,
    evacuator: &mut MoverSeat<S>,
    fetcher: &mut MoverSeat<S>,
) -> Option<Twice>
    requires owner { IsFresh region.now.table owner.old }
    requires movers { IsFresh region.now.table evacuator.old × IsFresh region.now.table fetcher.old }
    requires hints { (hints.now.objects ≡ region.now.objects) × (pass.old ≡ hints.now) }
{
    if owner.low() != 0 || owner.high() < 3 || region.objects() < 3 {
        return None;
    }
    let unasked = serve_one(rt, region, hints, pass, fetcher);
    let first = serve(rt, region, hints, pass, fetcher, 0);
    if !write(region.table(), owner, 0, 5) {
        return None;
    }
    let left = round(region, evacuator, 2).left;
    let second = serve(rt, region, hints, pass, fetcher, 0);
    let third = serve(rt, region, hints, pass, fetcher, 0);
    Some(Twice {
        unasked,
        first,
        left,
        second,
        third,
        at: read(region.table(), owner, 0),
        refused: fetcher.refusals().count,
    })
}
