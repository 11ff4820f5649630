//! Ends of programs with their seats, filed under their numbers.
ghost use Rattle.std.specs.Prelude.{◌≡◌, [], ◌+◌, ◌≤◌, IfOk, length, map, vec_capacity, vec_len};
ghost use Rattle.std.specs.List.{All};
ghost use Rattle.executor.specs.Ends.{AreAllDone, AreDone, AreFiled, end_of};

use crate::workers::{Done, Worker};
use cells::Ended;
use object_lock::OwnerSeat;
use program_run::Finished;
use remote_store::RawStore;
use std::alloc::{AllocError, Global};
use task_queue::TaskQueue;

/// As many places as there are programs, each with no end yet.
pub(crate) fn no_ends<S: RawStore>(
    alloc: Global,
    queue: &TaskQueue<'_, S>,
    count: usize,
) -> Result<Vec<Option<Done<S>>>, AllocError>
    requires { count ≡ length queue.now.roster.programs }
    ensures { IfOk result (λ v. AreFiled S.honest S.reliable queue.now.roster v.items) }
{
    // The queue is told for the contract alone.
    let _ = queue;
    let mut places = Vec::new(alloc);
    for _place in 0..count {
        places.push(None)?;
    }
    Ok(places)
}

/// Files each end under its program's number.
fn file_done<S: RawStore>(
    queue: &TaskQueue<'_, S>,
    done: Vec<Done<S>>,
    places: &mut Vec<Option<Done<S>>>,
)
    requires done { AreDone S.honest S.reliable queue.now.roster done.items }
    requires filed { AreFiled S.honest S.reliable queue.now.roster places.old.items }
    ensures { AreFiled S.honest S.reliable queue.now.roster places.new.items }
{
    // The queue is told for the contract alone.
    let _ = queue;
    for one in done {
        if let Some(place) = places.get_mut(one.number) {
            *place = Some(one);
        }
    }
}

/// Files the ends of all workers.
pub(crate) fn file_all<S: RawStore>(
    queue: &TaskQueue<'_, S>,
    workers: Vec<Worker<'_, '_, S>>,
    mut places: Vec<Option<Done<S>>>,
) -> Vec<Option<Done<S>>>
    requires workers { All (λ w. w ≡ queue.now) workers.items }
    requires filed { AreFiled S.honest S.reliable queue.now.roster places.items }
    ensures { AreFiled S.honest S.reliable queue.now.roster result.items }
{
    for worker in workers {
        file_done(queue, worker.into_done(), &mut places);
    }
    places
}

/// The ends in their order, and their seats behind these, where each place has one. `ends` and `seats` have room for them.
pub(crate) fn all_ends<S: RawStore>(
    queue: &TaskQueue<'_, S>,
    places: Vec<Option<Done<S>>>,
    mut ends: Vec<Finished>,
    mut seats: Vec<OwnerSeat<S>>,
) -> Result<(Vec<Finished>, Vec<OwnerSeat<S>>), AllocError>
    requires filed { AreFiled S.honest S.reliable queue.now.roster places.items }
    requires empty { (vec_len ends ≡ 0) × (ends.items ≡ []) }
    requires room { length places.items ≤ vec_capacity ends }
    requires seats { vec_len seats + length places.items ≤ vec_capacity seats }
    ensures { IfOk result (λ r. AreAllDone S.honest S.reliable queue.now.roster seats.items r.0.items r.1.items) }
{
    // The queue is told for the contract alone.
    let _ = queue;
    for place in places {
        match place {
            Some(one) => {
                ends.push_reserved(one.end);
                seats.push_reserved(one.seat);
            }
            None => return Err(AllocError),
        }
    }
    Ok((ends, seats))
}

/// The ends without their numbers of refused calls. `ends` has room for them.
pub(crate) fn without_numbers(finished: Vec<Finished>, mut ends: Vec<Ended>) -> Vec<Ended>
    requires empty { (vec_len ends ≡ 0) × (ends.items ≡ []) }
    requires room { length finished.items ≤ vec_capacity ends }
    ensures { result.items ≡ map end_of finished.items }
{
    for one in finished {
        ends.push_reserved(one.end);
    }
    ends
}
