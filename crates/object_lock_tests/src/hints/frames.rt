//! A fetcher that finds no frame, or an object that is held.
ghost use Rattle.object_lock.specs.Fresh.{IsFresh};
ghost use Rattle.std.specs.Prelude.{◌≡◌};

use crate::hints::moves::serve;
use evacuator::round;
use fetcher::{HintPass, Hints, Served, serve_one};
use object_lock::{Held, MoverSeat, OwnerSeat};
use region::Region;
use remote_store::RawStore;
use std::sync::Wait;

/// What a fetcher did with hints of objects 0, 1 and 2, while there are two frames; where the owner found object 2 then; how many objects a round moved
/// out; what the fetcher did with one more hint of object 2, of which the owner has a hold; and then without a hint.
#[derive(Clone, Copy, Debug)]
pub(crate) struct Filled {
    served: (Served, Served, Served),
    opened: Held,
    left: u32,
    held: Served,
    unasked: Served,
}

/// What comes of hints of three objects. `None` where the owner has not so many.
pub(crate) fn fill_frames<R: Wait, S: RawStore>(
    rt: &R,
    region: &Region<S>,
    hints: &Hints,
    pass: &mut HintPass,
    owner: &mut OwnerSeat<S>,
    evacuator: &mut MoverSeat<S>,
    fetcher: &mut MoverSeat<S>,
) -> Option<Filled>
    requires owner { IsFresh region.now.table owner.old }
    requires movers { IsFresh region.now.table evacuator.old × IsFresh region.now.table fetcher.old }
    requires hints { (hints.now.objects ≡ region.now.objects) × (pass.old ≡ hints.now) }
{
    if owner.low() != 0 || owner.high() < 3 || region.objects() < 3 {
        return None;
    }
    let first = serve(rt, region, hints, pass, fetcher, 0);
    let second = serve(rt, region, hints, pass, fetcher, 1);
    let third = serve(rt, region, hints, pass, fetcher, 2);
    let opened = region.table().open(owner, 2);
    let left = round(region, evacuator, 2).left;
    Some(Filled {
        served: (first, second, third),
        opened,
        left,
        held: serve(rt, region, hints, pass, fetcher, 2),
        unasked: serve_one(rt, region, hints, pass, fetcher),
    })
}
