//! What a region's run begins with: programs at their beginning in the queue of tasks, workers with passes of it, and movers at their seats.
ghost use Rattle.std.specs.List.{All};
ghost use Rattle.std.specs.Prelude.{◌≡◌, ◌+◌, ◌<◌, ◌≤◌, ℕ, IfOk, OnOk, length};
ghost use Rattle.executor.specs.Given.{AreMovers};
ghost use Rattle.object_lock.specs.Fresh.{AreNumbered, IsFreshMover, IsFreshOwner};
ghost use Rattle.region.specs.Admission.{image_at};
ghost use Rattle.task_queue.specs.Tasked.{IsTask, roster};

use crate::movers::{Mover, SeatedEvacuator, SeatedFetcher};
use crate::workers::Worker;
use fetcher::{HintPass, Hints};
use memory_limit::MemoryLimit;
use object_lock::{MoverSeat, OwnerSeat};
use program_run::ProgramRun;
use region::Region;
use remote_store::RawStore;
use std::alloc::{AllocError, Global};
use std::sync::Wait;
use task_queue::{TaskPass, TaskQueue};

/// The last of these passes.
fn take_pass(hints: &Hints, passes: &mut Vec<HintPass>) -> HintPass
    requires passes { All (λ p. p ≡ hints.now) passes.old.items }
    requires some { 0 < length passes.old.items }
    ensures pass { result ≡ hints.now }
    ensures passes { All (λ p. p ≡ hints.now) passes.new.items }
    ensures count { length passes.new.items + 1 ≡ length passes.old.items }
{
    match passes.pop() {
        Some(pass) => pass,
        None => unreachable!(),
    }
}

/// The region's programs, each at its beginning and at its seat, in their order, each with a pass of its own and within the limit of memory.
pub(crate) fn begin_all<'a, S: RawStore>(
    alloc: Global,
    region: &'a Region<S>,
    hints: &'a Hints,
    passes: &mut Vec<HintPass>,
    seats: Vec<OwnerSeat<S>>,
    share: usize,
    limit: MemoryLimit,
) -> Result<Vec<ProgramRun<'a, S>>, AllocError>
    requires numbers { AreNumbered 1 (length region.now.programs) seats.items }
    requires seats { All (IsFreshOwner region.now.table share) seats.items }
    requires passes { All (λ p. p ≡ hints.now) passes.old.items }
    requires enough { length region.now.programs ≤ length passes.old.items }
    requires cells { (k : ℕ) → k < length region.now.programs → (image_at region.now.programs k).piece ≡ region.now.table.sizes.cells }
    ensures tasks { IfOk result (λ v. All (IsTask (roster region.now.table region.now.programs share)) v.items) }
    ensures count { IfOk result (λ v. length v.items ≡ length region.now.programs) }
    ensures passes { All (λ p. p ≡ hints.now) passes.new.items }
    ensures left { IfOk result (λ v. length passes.new.items + length region.now.programs ≡ length passes.old.items) }
{
    // The share is told for the contract alone.
    let _ = share;
    let mut runs = Vec::with_capacity(alloc, region.programs())?;
    for seat in seats {
        let pass = take_pass(hints, passes);
        let Ok(mut run) = ProgramRun::new(alloc, region, hints, pass, seat) else {
            return Err(AllocError);
        };
        run.bound(limit);
        runs.push_reserved(run);
    }
    Ok(runs)
}

/// Puts these tasks into the queue, which are those in hand with the pass. A refusal where the queue is full.
fn fill<'a, S: RawStore, W: Wait>(
    rt: &W,
    queue: &TaskQueue<'a, S>,
    pass: &mut TaskPass<ProgramRun<'a, S>>,
    tasks: Vec<ProgramRun<'a, S>>,
) -> Result<(), AllocError>
    requires pass { pass.old.queue ≡ queue.now }
    requires tasks { All (IsTask queue.now.roster) tasks.items }
    requires in_hand { pass.old.in_hand ≡ length tasks.items }
    ensures { OnOk result ((pass.new.queue ≡ queue.now) × (pass.new.in_hand ≡ 0)) }
{
    for task in tasks {
        if queue.put(rt, pass, task).is_some() {
            return Err(AllocError);
        }
    }
    Ok(())
}

/// A queue of these tasks, which are all programs of the region, and a pass of it with nothing in hand.
pub(crate) fn enqueue<'a, S: RawStore, W: Wait>(
    alloc: Global,
    rt: &W,
    region: &'a Region<S>,
    share: usize,
    mut tasks: Vec<ProgramRun<'a, S>>,
) -> Result<(TaskQueue<'a, S>, TaskPass<ProgramRun<'a, S>>), AllocError>
    requires tasks { All (IsTask (roster region.now.table region.now.programs share)) tasks.items }
    requires count { length tasks.items ≡ length region.now.programs }
    ensures queue { IfOk result (λ r. r.0.roster ≡ roster region.now.table region.now.programs share) }
    ensures pass { IfOk result (λ r. (r.1.queue ≡ r.0) × (r.1.in_hand ≡ 0)) }
{
    if tasks.is_empty() {
        return Err(AllocError);
    }
    let first = tasks.remove(0);
    let (queue, mut pass) = TaskQueue::new(alloc, region, share, first)?;
    fill(rt, &queue, &mut pass, tasks)?;
    Ok((queue, pass))
}

/// So many workers of this queue, each with room for the ends of so many programs.
pub(crate) fn start_workers<'q, 'a, S: RawStore>(
    alloc: Global,
    queue: &'q TaskQueue<'a, S>,
    pass: &mut TaskPass<ProgramRun<'a, S>>,
    count: usize,
    room: usize,
) -> Result<Vec<Worker<'q, 'a, S>>, AllocError>
    requires pass { pass.old.queue ≡ queue.now }
    requires room { length queue.now.roster.programs ≤ room }
    ensures { IfOk result (λ v. All (λ w. w ≡ queue.now) v.items) }
{
    let mut workers = Vec::with_capacity(alloc, count)?;
    for _started in 0..count {
        let Ok(worker) = Worker::new(alloc, queue, queue.another(pass), room) else {
            return Err(AllocError);
        };
        workers.push_reserved(worker);
    }
    Ok(workers)
}

/// An evacuator at each of the first seats, so many, and a fetcher with a pass of its own at each other one. They are numbered on from the programs.
pub(crate) fn start_movers<'a, S: RawStore>(
    alloc: Global,
    region: &'a Region<S>,
    hints: &'a Hints,
    evacuators: usize,
    first: usize,
    seats: Vec<MoverSeat<S>>,
    mut passes: Vec<HintPass>,
) -> Result<Vec<Mover<'a, S>>, AllocError>
    requires seats { All (IsFreshMover region.now.table) seats.items }
    requires passes { All (λ p. p ≡ hints.now) passes.items }
    requires enough { length seats.items ≤ evacuators + length passes.items }
    requires hints { hints.now.objects ≡ region.now.objects }
    requires numbers { AreNumbered first (length seats.items) seats.items }
    ensures { IfOk result (λ v. AreMovers region.now.table first evacuators (length seats.items) v.items) }
{
    // The first number is told for the contract alone.
    let _ = first;
    let mut movers = Vec::with_capacity(alloc, seats.len())?;
    for seat in seats {
        let at = movers.len();
        let number = u32::try_from(region.programs().wrapping_add(at)).unwrap_or(u32::MAX);
        movers.push_reserved(if at < evacuators {
            Mover::Evacuates(SeatedEvacuator::new(region, number, seat))
        } else {
            let pass = take_pass(hints, &mut passes);
            Mover::Fetches(SeatedFetcher::new(region, hints, number, seat, pass))
        });
    }
    Ok(movers)
}
