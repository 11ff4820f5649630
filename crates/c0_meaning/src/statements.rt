//! The plain run of statements.
ghost use Rattle.std.specs.Prelude.{◌≡◌, [], ◌∷◌};
ghost use Rattle.c0_meaning.specs.Pendings.{Extends, Performs, Steps, left_by, means, pending_of};
ghost use Rattle.c0_typed.specs.Meaning.{Broken, Continued};
ghost use Rattle.c0_meaning.specs.declared.context.Context.{Context as ContextOf};
ghost use Rattle.c0_meaning.specs.declared.task.Progress.TheVariants as progress;
ghost use Rattle.c0_meaning.specs.declared.task.Task.TheVariants as task;

use crate::context::Context;
use crate::pending::PlainRun;
use crate::task::{Progress, Task};
use c0_typed::{Expression, Statement};
use c0_values::Halt;

impl<'p> PlainRun<'p> {
    /// What a statement does.
    pub(crate) fn execute(&mut self, statement: &'p Statement) -> Result<(), Halt>
        ensures { (c : ContextOf) → Performs c (task.Execute statement.entry progress.Begun) self.old result self.new }
    {
        match statement {
            Statement::Block(all) => self.then(Task::ExecuteAll(all)),
            Statement::Set(_, value)
            | Statement::Do(value)
            | Statement::If(value, _, _)
            | Statement::ReturnValue(value)
            | Statement::Assert(value)
            | Statement::Error(value) => self.evaluate_for(value, statement),
            Statement::Update(x, _, value) => {
                self.give_local(*x as usize)?;
                self.evaluate_for(value, statement)
            }
            Statement::Store(place, value) => self.then_three(
                Task::Locate(place),
                Task::Evaluate(value),
                Task::Execute(statement, Progress::Given),
            ),
            Statement::StoreUpdate(place, _, value) => {
                self.evaluate_for(value, statement)?;
                self.then_two(Task::Locate(place), Task::Peek)
            }
            Statement::Loop(_, _, _, _) => {
                self.then(Task::Execute(statement, Progress::Again(self.state.turns)))
            }
            Statement::Return => {
                self.leave_body();
                Ok(())
            }
            Statement::Break => {
                self.leave_loop();
                Ok(())
            }
            Statement::Continue => self.leave_turn(),
            Statement::Check(conditions) => self.then(Task::Check(conditions)),
        }
    }

    /// The value of an expression, and then the rest of the statement.
    fn evaluate_for(&mut self, value: &'p Expression, statement: &'p Statement) -> Result<(), Halt>
        ensures { Extends result (task.Evaluate value.entry ∷ task.Execute statement.entry progress.Given ∷ []) self.old self.new }
    {
        let rest = Task::Execute(statement, Progress::Given);
        self.then_two(Task::Evaluate(value), rest)
    }

    /// A statement, as far as it is.
    pub(crate) fn proceed(
        &mut self,
        context: &Context<'p>,
        statement: &'p Statement,
        progress: Progress,
    ) -> Result<(), Halt>
        ensures { Performs context.now (task.Execute statement.entry progress) self.old result self.new }
    {
        match progress {
            Progress::Begun => self.execute(statement),
            Progress::Given => self.complete(context, statement),
            Progress::Again(left) => self.again(statement, left),
            Progress::Tested(left) => self.test(statement, left),
            Progress::Turned(left) => self.round(statement, left),
        }
    }

    /// What a statement does, where what it evaluates first is given. No other statement comes here.
    fn complete(&mut self, context: &Context<'p>, statement: &'p Statement) -> Result<(), Halt>
        ensures { Performs context.now (task.Execute statement.entry progress.Given) self.old result self.new }
    {
        match statement {
            Statement::Set(x, _) => self.set_local(*x),
            Statement::Update(x, operator, _) => self.update(*x, *operator),
            Statement::Store(_, _) => self.store(),
            Statement::StoreUpdate(_, operator, _) => self.store_update(*operator),
            Statement::Do(_) => self.forget(),
            Statement::If(_, first, second) => self.branch(first, second),
            Statement::ReturnValue(_) => self.return_value(),
            Statement::Assert(_) => self.assert(),
            Statement::Error(_) => self.error(context),
            _ => Err(Halt::Memory),
        }
    }

    /// Statements in order.
    pub(crate) fn execute_all(&mut self, statements: &'p [Statement]) -> Result<(), Halt>
        ensures { (c : ContextOf) → Performs c (task.ExecuteAll statements.entry) self.old result self.new }
    {
        match statements.split_first() {
            None => Ok(()),
            Some((first, rest)) => self.then_two(
                Task::Execute(first, Progress::Begun),
                Task::ExecuteAll(rest),
            ),
        }
    }

    /// Conditions of a contract that must hold, where contracts are checked.
    pub(crate) fn check(
        &mut self,
        context: &Context<'p>,
        conditions: &'p [Expression],
    ) -> Result<(), Halt>
        ensures { Performs context.now (task.Check conditions.entry) self.old result self.new }
    {
        if !context.checks {
            return Ok(());
        }
        match conditions.split_first() {
            None => Ok(()),
            Some((first, rest)) => {
                self.then_three(
                    Task::Evaluate(first),
                    Task::Assert(first),
                    Task::Check(rest),
                )
            }
        }
    }

    /// A loop from its invariants on.
    fn again(&mut self, statement: &'p Statement, left: u64) -> Result<(), Halt>
        ensures { (c : ContextOf) → Performs c (task.Execute statement.entry (progress.Again left)) self.old result self.new }
    {
        let Statement::Loop(invariants, condition, _, _) = statement else {
            return Err(Halt::Memory);
        };
        let rest = Task::Execute(statement, Progress::Tested(left));
        self.then_three(Task::Check(invariants), Task::Evaluate(condition), rest)
    }

    /// A loop whose condition is given; its body is entered at most as often as there are turns.
    fn test(&mut self, statement: &'p Statement, left: u64) -> Result<(), Halt>
        ensures { (c : ContextOf) → Performs c (task.Execute statement.entry (progress.Tested left)) self.old result self.new }
    {
        let Statement::Loop(_, _, body, _) = statement else {
            return Err(Halt::Memory);
        };
        let condition = self.take()?;
        if !condition.truth() {
            return Ok(());
        }
        if left == 0 {
            return Err(Halt::Cut);
        }
        self.state.take_turn()?;
        self.then_two(
            Task::Execute(body, Progress::Begun),
            Task::Execute(statement, Progress::Turned(left - 1)),
        )
    }

    /// A loop behind its body: its third part, and the loop again.
    fn round(&mut self, statement: &'p Statement, left: u64) -> Result<(), Halt>
        ensures { (c : ContextOf) → Performs c (task.Execute statement.entry (progress.Turned left)) self.old result self.new }
    {
        let Statement::Loop(_, _, _, step) = statement else {
            return Err(Halt::Memory);
        };
        self.then_two(
            Task::Execute(step, Progress::Begun),
            Task::Execute(statement, Progress::Again(left)),
        )
    }

    /// Leaves the nearest loop.
    fn leave_loop(&mut self)
        ensures { (c : ContextOf) → left_by Broken c (pending_of self.old) ≡ means c (pending_of self.new) }
    {
        while let Some(task) = self.next_task() {
            if let Task::EndBody | Task::Execute(_, Progress::Turned(_)) = task {
                return;
            }
        }
    }

    /// Leaves the turn of the nearest loop.
    fn leave_turn(&mut self) -> Result<(), Halt>
        ensures { (c : ContextOf) → Steps c result (left_by Continued c (pending_of self.old)) (pending_of self.new) }
    {
        while let Some(task) = self.next_task() {
            match task {
                Task::EndBody => return Ok(()),
                Task::Execute(statement, Progress::Turned(left)) => {
                    return self.round(statement, left);
                }
                _ => {}
            }
        }
        Ok(())
    }
}
