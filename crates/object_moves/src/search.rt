//! The search for a frame that is free.
ghost use Rattle.std.specs.Prelude.{◌≡◌, ◌<◌, ◌≤◌, IfSome, true};
ghost use Rattle.pointer_word.specs.Calls.{Claims};
ghost use Rattle.object_lock.specs.Logs.{Adds};
ghost use Rattle.object_lock.specs.Seats.{frame_word};
ghost use Rattle.object_lock.specs.SeatViews.{IsSeat};
ghost use Rattle.object_lock.specs.Telling.{Claimed};
ghost use Rattle.object_moves.specs.Taken.{ClaimsOne, HasOnly};

use object_lock::{MoverSeat, ObjectTable};
use remote_store::RawStore;

/// At how many frames an owner looks for a free one, or for one whose object can leave, before it looks at all.
pub(crate) const FEW: usize = 64;

/// Claims the frame for the object that is being brought in, where a look at it finds it free, and nobody else claims it first.
fn try_frame<S: RawStore>(
    table: &ObjectTable<S>,
    mover: &mut MoverSeat<S>,
    obj: usize,
    frame: usize,
) -> bool
    requires table { IsSeat table.now mover.old }
    requires low { (obj < table.now.sizes.objects) × (frame < table.now.sizes.frames) }
    requires hands { HasOnly obj mover.old.view }
    ensures table { IsSeat table.now mover.new }
    ensures told { Claimed frame mover.old mover.new result }
    ensures logged { result ≡ true → Adds mover.old.log mover.new.log (frame_word table.now.sizes frame) (Claims mover.old.view.number obj frame) (λ n. n ≡ 0) }
{
    match table.look(mover, frame) {
        Some(_object) => false,
        None => table.try_claim(mover, frame, obj),
    }
}

/// Looks once at each frame from `low` to below `high`, and claims the first that is free for the object that is being brought in.
fn find_between<S: RawStore>(
    table: &ObjectTable<S>,
    mover: &mut MoverSeat<S>,
    obj: usize,
    low: usize,
    high: usize,
) -> Option<usize>
    requires table { IsSeat table.now mover.old }
    requires range { high ≤ table.now.sizes.frames }
    requires low { obj < table.now.sizes.objects }
    requires hands { HasOnly obj mover.old.view }
    ensures table { IsSeat table.now mover.new }
    ensures told { ClaimsOne mover.old mover.new result }
    ensures logged { IfSome result (λ frame. Adds mover.old.log mover.new.log (frame_word table.now.sizes frame) (Claims mover.old.view.number obj frame) (λ n. n ≡ 0)) }
{
    for frame in low..high {
        if try_frame(table, mover, obj, frame) {
            return Some(frame);
        }
    }
    None
}

/// Looks once at each of so many frames, or of all where there are no more, from the one of this number on, behind the last of which comes frame 0, and claims
/// the first that is free for the object that is being brought in.
pub fn find_frame<S: RawStore>(
    table: &ObjectTable<S>,
    mover: &mut MoverSeat<S>,
    obj: usize,
    from: usize,
    most: usize,
) -> Option<usize>
    requires table { IsSeat table.now mover.old }
    requires low { obj < table.now.sizes.objects }
    requires hands { HasOnly obj mover.old.view }
    ensures table { IsSeat table.now mover.new }
    ensures told { ClaimsOne mover.old mover.new result }
    ensures logged { IfSome result (λ frame. Adds mover.old.log mover.new.log (frame_word table.now.sizes frame) (Claims mover.old.view.number obj frame) (λ n. n ≡ 0)) }
{
    let count = table.frames();
    let start = if from < count { from } else { 0 };
    let end = count.min(start.saturating_add(most));
    match find_between(table, mover, obj, start, end) {
        Some(frame) => Some(frame),
        None => {
            let rest = most.saturating_sub(end - start);
            find_between(table, mover, obj, 0, start.min(rest))
        }
    }
}
