//! Queues of hints of a region in which nothing is moved.
ghost use Rattle.std.specs.Prelude.{◌≡◌, ◌≤◌, IfSome};

use crate::hints::regions::region;
use cells::Piece;
use hint_queue::{HintPass, Hints};
use region::Region;
use remote_store::FarHeap;
use std::alloc::Global;
use std::sync::Wait;
use std::thread;
use std::thread::Threads;

/// How many objects hints may name.
const OBJECTS: u32 = 300;

/// How many hints were taken out of a queue, the first of them and the last, and what was taken then.
#[derive(Clone, Copy, Debug)]
pub(crate) struct Taken {
    count: u32,
    first: Option<usize>,
    last: Option<usize>,
    then: Option<usize>,
}

/// The region's queue of hints, where that is for so many objects at least, and two passes of it.
fn queue_of(alloc: Global, region: &Region<FarHeap>) -> Option<(Hints, HintPass, HintPass)>
    ensures { IfSome result (λ t. (300 ≤ t.0.objects) × (t.1 ≡ t.0) × (t.2 ≡ t.0)) }
{
    let Ok((hints, mut passes)) = Hints::new(alloc, region) else {
        return None;
    };
    if hints.objects() < OBJECTS as usize {
        return None;
    }
    let theirs = passes.pop()?;
    let mine = passes.pop()?;
    Some((hints, mine, theirs))
}

/// A queue of hints for so many objects at least, and two passes of it.
fn queue(alloc: Global) -> Option<(Hints, HintPass, HintPass)>
    ensures { IfSome result (λ t. (300 ≤ t.0.objects) × (t.1 ≡ t.0) × (t.2 ≡ t.0)) }
{
    let (region, _owners, _movers) = region(alloc, OBJECTS, FarHeap::new(Piece::Cells64))?;
    queue_of(alloc, &region)
}

/// Takes 256 hints, where there are so many, and tries to take one more.
fn take_all<R: Wait>(rt: &R, hints: &Hints, pass: &mut HintPass) -> Taken
    requires { pass.old ≡ hints.now }
{
    let first = hints.pop(rt, pass);
    let mut count = 1u32;
    let mut last = first;
    for _more in 1..256u32 {
        last = hints.pop(rt, pass);
        if last.is_some() {
            count += 1;
        }
    }
    Taken {
        count,
        first,
        last,
        then: hints.pop(rt, pass),
    }
}

/// Puts 257 hints, those of the objects from 0 on, and takes what there is. `None` where memory runs out.
pub(crate) fn fill_queue<R: Wait>(rt: &R, alloc: Global) -> Option<Taken> {
    let (hints, mut mine, mut theirs) = queue(alloc)?;
    for object in 0..257 {
        hints.push(rt, &mut mine, object);
    }
    Some(take_all(rt, &hints, &mut theirs))
}

/// Puts a hint of object 7 in another thread, and tries to take two. `None` where memory runs out.
pub(crate) fn cross_threads<R: Threads + Wait + Sync>(
    rt: &R,
    alloc: Global,
) -> Option<(Option<usize>, Option<usize>)> {
    let (hints, mut mine, mut theirs) = queue(alloc)?;
    let shared = &hints;
    thread::join(rt, move || shared.push(rt, &mut theirs, 7), || ());
    let first = hints.pop(rt, &mut mine);
    let then = hints.pop(rt, &mut mine);
    Some((first, then))
}
