//! The queue of tasks, and its passes.
ghost use Rattle.std.specs.Prelude.{◌≡◌, ◌+◌, ◌<◌, ◌≤◌, IfOk, IfSome, MatchOption, length};
ghost use Rattle.task_queue.specs.Tasked.{IsTask, roster};

use crate::rule::{Another, Founds, KnowsRoster, Puts, Takes, Tasked};
use crossbeam_queue::{Pass, RuledArrayQueue};
use program_run::ProgramRun;
use region::Region;
use remote_store::RawStore;
use std::alloc::{AllocError, Global};
use std::marker::Model;
use std::sync::Wait;

/// How many tasks the queue has room for.
const ROOM: usize = 256;

/// A queue of tasks that threads share. Each is a program of one region, and has not ended.
#[derive(Drop)]
pub struct TaskQueue<'a, S: RawStore> {
    queue: RuledArrayQueue<ProgramRun<'a, S>, KnowsRoster, Tasked>,
    region: &'a Region<S>,
    objects: usize,
}

impl<'a, S: RawStore> Model for TaskQueue<'a, S> {
    ghost use Rattle.crossbeam_queue.specs.Passes.{ruled_capacity};
    ghost use Rattle.std.specs.Prelude.{◌≡◌};
    ghost use Rattle.task_queue.specs.Queues.{QueueView};
    ghost use Rattle.task_queue.specs.Tasked.{roster};

    ghost Value = { QueueView };

    ghost view = { λ q. record { id = q.queue.table.shared.table_id; roster = roster q.region.now.table q.region.now.programs q.objects } };

    ghost invariant = { λ q. ruled_capacity q.queue ≡ 256 };
}

/// The right of one thread to take tasks from a queue and to put them back.
#[derive(Drop)]
pub struct TaskPass<T> {
    pass: Pass<T, KnowsRoster>,
}

impl<T> Model for TaskPass<T> {
    ghost use Rattle.std.specs.Prelude.{◌≡◌, []};
    ghost use Rattle.task_queue.specs.Queues.{PassView};
    ghost use Rattle.task_queue.specs.Tasked.{knows, roster_in};

    ghost Value = { PassView };

    ghost view = { λ p. record { queue = record { id = p.pass.table_id; roster = roster_in p.pass.me.0.client }; in_hand = p.pass.me.0.client.in_hand } };

    ghost invariant = { λ p. (p.pass.me.1 ≡ []) × (p.pass.me.0.client ≡ knows (roster_in p.pass.me.0.client) p.pass.me.0.client.in_hand) };
}

impl<'a, S: RawStore> TaskQueue<'a, S> {
    /// A queue with this one task, and the first of its passes, which has all other programs of the region in hand: the queue is to be filled with them.
    pub fn new(
        alloc: Global,
        region: &'a Region<S>,
        objects: usize,
        task: ProgramRun<'a, S>,
    ) -> Result<(TaskQueue<'a, S>, TaskPass<ProgramRun<'a, S>>), AllocError>
        requires { IsTask (roster region.now.table region.now.programs objects) task }
        ensures queue { IfOk result (λ r. r.0.roster ≡ roster region.now.table region.now.programs objects) }
        ensures pass { IfOk result (λ r. (r.1.queue ≡ r.0) × (r.1.in_hand + 1 ≡ length region.now.programs)) }
    {
        let (queue, mut pass) = RuledArrayQueue::ruled(alloc, ROOM)?;
        match queue.try_push_as::<Founds>(&mut pass, task) {
            Ok(()) => {
                let queue = TaskQueue {
                    queue,
                    region,
                    objects,
                };
                Ok((queue, TaskPass { pass }))
            }
            Err(_) => Err(AllocError),
        }
    }

    /// One more pass, which has nothing in hand.
    pub fn another(&self, pass: &mut TaskPass<ProgramRun<'a, S>>) -> TaskPass<ProgramRun<'a, S>>
        requires { pass.old.queue ≡ self.now }
        ensures same { pass.new ≡ pass.old }
        ensures made { (result.queue ≡ self.now) × (result.in_hand ≡ 0) }
    {
        TaskPass {
            pass: self.queue.another::<Another>(&mut pass.pass),
        }
    }

    /// Puts a task that is in hand. It comes back only where the queue is full, which it never is with no more programs than it has room for.
    pub fn put<R: Wait>(
        &self,
        rt: &R,
        pass: &mut TaskPass<ProgramRun<'a, S>>,
        task: ProgramRun<'a, S>,
    ) -> Option<ProgramRun<'a, S>>
        requires pass { pass.old.queue ≡ self.now }
        requires in_hand { 0 < pass.old.in_hand }
        requires task { IsTask self.now.roster task }
        ensures queue { pass.new.queue ≡ self.now }
        ensures put { MatchOption result (pass.new.in_hand + 1 ≡ pass.old.in_hand) (λ t. (t ≡ task.entry) × (pass.new ≡ pass.old)) }
        ensures full { IfSome result (λ _. 256 < length self.now.roster.programs) }
    {
        self.queue
            .push_as::<Puts, R>(rt, &mut pass.pass, task)
            .err()
    }

    /// Takes the task that waits longest. It is in hand then, with no more than there are programs.
    pub fn take<R: Wait>(
        &self,
        rt: &R,
        pass: &mut TaskPass<ProgramRun<'a, S>>,
    ) -> Option<ProgramRun<'a, S>>
        requires { pass.old.queue ≡ self.now }
        ensures queue { pass.new.queue ≡ self.now }
        ensures taken { MatchOption result (pass.new ≡ pass.old) (λ t. IsTask self.now.roster t × (pass.new.in_hand ≡ pass.old.in_hand + 1) × (pass.new.in_hand ≤ length self.now.roster.programs)) }
    {
        self.queue.pop_as::<Takes, R>(rt, &mut pass.pass)
    }
}
