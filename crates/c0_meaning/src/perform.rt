//! One task of a plain run, and all of them.
ghost use Rattle.c0_meaning.specs.Pendings.{Performs, RunsMain, means, pending_of, state_in};
ghost use Rattle.c0_values.specs.PlainStates.{Agrees, value_of};
ghost use Rattle.c0_meaning.specs.Run.{texts_in};

use crate::context::Context;
use crate::pending::PlainRun;
use crate::task::Task;
use c0_values::{Halt, Value};

impl<'p> PlainRun<'p> {
    /// Does a task.
    fn perform(&mut self, context: &Context<'p>, task: Task<'p>) -> Result<(), Halt>
        ensures { Performs context.now task.entry self.old result self.new }
    {
        match task {
            Task::Evaluate(expression) => self.evaluate(context, expression),
            Task::Combine(expression) => self.combine(context, expression),
            Task::Locate(place) => self.locate(place),
            Task::Reach(place) => self.reach(context, place),
            Task::Execute(statement, progress) => self.proceed(context, statement, progress),
            Task::ExecuteAll(statements) => self.execute_all(statements),
            Task::Check(conditions) => self.check(context, conditions),
            Task::Assert(_) => self.assert(),
            Task::Argument(rest, given, callee) => self.argument(context, rest, given, callee),
            Task::Peek => self.peek(),
            Task::EndBody => Ok(()),
            Task::EndCall(locals, depth) => self.end_call(locals, depth),
        }
    }

    /// Does what is pending, to the value of it. Where a task stops the program, the run tells where that stands. A run of more tasks than numbers of 64 bits tell apart is want of memory.
    pub(crate) fn finish(&mut self, context: &Context<'p>) -> Result<Value, Halt>
        ensures { Agrees (value_of (texts_in context.now)) result (means context.now (pending_of self.old)) (state_in context.now (pending_of self.new)) }
    {
        for _ in 0..u64::MAX {
            let Some(task) = self.next_task() else {
                return self.take();
            };
            self.site = task.site();
            self.perform(context, task)?;
        }
        Err(Halt::Memory)
    }

    /// The call of `main`.
    pub(crate) fn run_main(&mut self, context: &Context<'p>) -> Result<Value, Halt>
        ensures { RunsMain context.now self.old result self.new }
    {
        self.enter(context, context.program.main, Vec::new(context.alloc))?;
        self.finish(context)
    }
}
