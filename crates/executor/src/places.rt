//! All workers, each on a thread of its own, beside the movers.
ghost use Rattle.std.specs.Prelude.{◌≡◌};
ghost use Rattle.executor.specs.Ends.{AreSame};

use crate::movers::{Mover, move_each};
use crate::workers::Worker;
use program_run::Gate;
use remote_store::RawStore;
use std::sync::Wait;
use std::sync::atomic::AtomicUsize;
use std::thread;
use std::thread::Threads;
use std::time::Clock;

/// Has each worker go on until no program is left, on a thread of its own where one can be made. One whose thread can't be made finds that none is left; but
/// where none can be made the calling thread is the one worker.
fn work_all<S: RawStore + Send, G: Gate, R: Threads + Wait + Clock + Sync>(
    rt: &R,
    gate: &G,
    left: &AtomicUsize,
    quantum: u64,
    workers: &mut [Worker<'_, '_, S>],
)
    ensures { AreSame workers.old workers.new }
{
    let count = workers.len();
    if count == 0 {
        return;
    }
    thread::for_each_mut(
        rt,
        workers,
        count,
        &|_, worker| worker.go_on(rt, gate, left, quantum),
    );
}

/// Has each worker go on until no program is left.
fn work_each<'q, 'a, S: RawStore + Send, G: Gate, R: Threads + Wait + Clock + Sync>(
    rt: &R,
    gate: &G,
    left: &AtomicUsize,
    quantum: u64,
    mut workers: Vec<Worker<'q, 'a, S>>,
) -> Vec<Worker<'q, 'a, S>>
    ensures { AreSame workers.entry.items result.items }
{
    work_all(rt, gate, left, quantum, workers.as_mut_slice());
    workers
}

/// Has each worker go on until no program is left, beside the movers, which go on until then: what each of them did it tells then. A mover for which no thread can be
/// made finds that none is left, and is not run.
pub(crate) fn run_beside<'q, 'a, S: RawStore + Send, G: Gate, R: Threads + Wait + Clock + Sync>(
    rt: &R,
    gate: &G,
    left: &AtomicUsize,
    quantum: u64,
    movers: Vec<Mover<'a, S>>,
    workers: Vec<Worker<'q, 'a, S>>,
) -> (Vec<Mover<'a, S>>, Vec<Worker<'q, 'a, S>>)
    ensures movers { AreSame movers.entry.items result.0.items }
    ensures workers { AreSame workers.entry.items result.1.items }
{
    thread::join(
        rt,
        move || move_each(rt, gate, left, movers),
        move || work_each(rt, gate, left, quantum, workers),
    )
}
