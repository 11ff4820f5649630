//! Workers, which take programs in turn from the queue of tasks.
ghost use Rattle.std.specs.Prelude.{◌≡◌, ◌≢◌, ◌+◌, ◌<◌, ◌≤◌, IfOk, IfSome, MatchOption, None, false, length, true};
ghost use Rattle.executor.specs.Ends.{AreDone, HasHadTurns};
ghost use Rattle.task_queue.specs.Tasked.{IsTask};

use crate::movers::rest;
use object_lock::OwnerSeat;
use program_run::{Finished, Gate, ProgramRun, Turn};
use remote_store::RawStore;
use std::alloc::{AllocError, Global};
use std::marker::Model;
use std::mem::ManuallyDrop;
use std::sync::Wait;
use std::sync::atomic::{AtomicUsize, Ordering};
use std::time::Clock;
use task_queue::{TaskPass, TaskQueue};

/// The end of a program, with the program's number, and its seat.
#[derive(Drop)]
pub(crate) struct Done<S: RawStore> {
    pub(crate) number: usize,
    pub(crate) end: Finished,
    pub(crate) seat: OwnerSeat<S>,
}

impl<S: RawStore> Model for Done<S> {
    ghost use Rattle.executor.specs.Ends.{DoneView};

    ghost Value = { DoneView S S.Cell };

    ghost view = { λ d. record { number = d.number; end = d.end; seat = d.seat } };
}

// The pass has no bytes, and nothing to drop: a type that borrows and has a pass as it is has no proof of its drop.
/// A worker: the queue from which it takes tasks, with a pass of it; a task that it keeps, as the queue refused it, or as no other has yet to end; and the
/// ends of the programs that ended with it. Each task that it took it put back, or it has ended, or is kept.
#[derive(Drop)]
pub(crate) struct Worker<'q, 'a, S: RawStore> {
    queue: &'q TaskQueue<'a, S>,
    pass: ManuallyDrop<TaskPass<ProgramRun<'a, S>>>,
    kept: Option<ProgramRun<'a, S>>,
    done: Vec<Done<S>>,
}

impl<'q, 'a, S: RawStore> Model for Worker<'q, 'a, S> {
    ghost use Rattle.executor.specs.Ends.{Works};
    ghost use Rattle.std.specs.Mem.{manually_drop_value};
    ghost use Rattle.std.specs.Prelude.{vec_capacity, vec_len};
    ghost use Rattle.task_queue.specs.Queues.{QueueView};

    ghost Value = { QueueView };

    ghost view = { λ w. w.queue.now };

    ghost invariant = { λ w. Works S.honest S.reliable w.queue.now (manually_drop_value w.pass) w.kept w.done.items (vec_len w.done) (vec_capacity w.done) };
}

/// Puts a task that is in hand, unless it is to be kept. It comes back where it is to be kept, or where the queue is full.
#[inline(always)]
fn put_unless<'a, S: RawStore, R: Wait>(
    queue: &TaskQueue<'a, S>,
    rt: &R,
    pass: &mut TaskPass<ProgramRun<'a, S>>,
    task: ProgramRun<'a, S>,
    is_kept: bool,
) -> Option<ProgramRun<'a, S>>
    requires pass { pass.old.queue ≡ queue.now }
    requires in_hand { 0 < pass.old.in_hand }
    requires task { IsTask queue.now.roster task }
    ensures queue { pass.new.queue ≡ queue.now }
    ensures put { MatchOption result (pass.new.in_hand + 1 ≡ pass.old.in_hand) (λ t. (t ≡ task.entry) × (pass.new ≡ pass.old)) }
    ensures kept { is_kept ≡ true → result ≢ None }
    ensures full { is_kept ≡ false → IfSome result (λ _. 256 < length queue.now.roster.programs) }
{
    if is_kept {
        Some(task)
    } else {
        queue.put(rt, pass, task)
    }
}

/// Gives a task a turn, and more as long as it goes on and is the only one that has not ended, for which no other waits. What became of it in the last.
fn turns<'a, S: RawStore, G: Gate, R: Wait>(
    rt: &R,
    gate: &G,
    task: &mut ProgramRun<'a, S>,
    left: &AtomicUsize,
    quantum: u64,
) -> Turn
    ensures { HasHadTurns task.old task.new result }
{
    for _ in rt.forever() {
        match task.turn(rt, gate, quantum) {
            Turn::Ran if left.load(Ordering::SeqCst) == 1 => (),
            other => return other,
        }
    }
    unreachable!()
}

impl<'q, 'a, S: RawStore> Worker<'q, 'a, S> {
    /// A worker with this pass of the queue, and room for so many ends.
    pub(crate) fn new(
        alloc: Global,
        queue: &'q TaskQueue<'a, S>,
        pass: TaskPass<ProgramRun<'a, S>>,
        room: usize,
    ) -> Result<Worker<'q, 'a, S>, AllocError>
        requires pass { pass.queue ≡ queue.now }
        requires none { pass.in_hand ≡ 0 }
        requires room { length queue.now.roster.programs ≤ room }
        ensures { IfOk result (λ w. w ≡ queue.now) }
    {
        Ok(Worker {
            queue,
            pass: ManuallyDrop::new(pass),
            kept: None,
            done: Vec::with_capacity(alloc, room)?,
        })
    }

    /// Takes a task where it keeps none.
    fn take<R: Wait>(&mut self, rt: &R)
        ensures { self.new ≡ self.old }
    {
        if self.kept.is_none() {
            self.kept = self.queue.take(rt, &mut self.pass);
        }
    }

    /// Gives the task that it keeps a turn, or more where it is the only one that has not ended, and puts it back, unless it has ended, or is the only one
    /// now: that is kept. False where there was nothing to do.
    fn turn<G: Gate, R: Wait>(&mut self, rt: &R, gate: &G, left: &AtomicUsize, quantum: u64) -> bool
        ensures { self.new ≡ self.old }
    {
        let Some(mut task) = self.kept.take() else {
            return false;
        };
        match turns(rt, gate, &mut task, left, quantum) {
            Turn::Held => {
                self.kept = put_unless(self.queue, rt, &mut self.pass, task, false);
                false
            }
            Turn::Ran => {
                let is_last = left.load(Ordering::SeqCst) == 1;
                self.kept = put_unless(self.queue, rt, &mut self.pass, task, is_last);
                true
            }
            Turn::Ended => {
                let number = task.number() as usize;
                let (end, seat) = task.into_finished();
                self.done.push_reserved(Done { number, end, seat });
                left.fetch_sub(1, Ordering::SeqCst);
                true
            }
        }
    }

    /// Goes on until every program has ended.
    pub(crate) fn go_on<G: Gate, R: Wait + Clock>(
        &mut self,
        rt: &R,
        gate: &G,
        left: &AtomicUsize,
        quantum: u64,
    )
        ensures { self.new ≡ self.old }
    {
        let mut idle = 0u32;
        for _ in rt.forever() {
            self.take(rt);
            if self.kept.is_none() && left.load(Ordering::SeqCst) == 0 {
                break;
            }
            idle = if self.turn(rt, gate, left, quantum) {
                0
            } else {
                idle.saturating_add(1)
            };
            rest(rt, idle);
        }
    }

    /// The ends of the programs that ended with it, with their seats.
    pub(crate) fn into_done(self) -> Vec<Done<S>>
        ensures { AreDone S.honest S.reliable self.entry.roster result.items }
    {
        self.done
    }
}
