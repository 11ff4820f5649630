//! What the plain run does for statements whose values are given.
ghost use Rattle.std.specs.Prelude.{◌≡◌, ℕ};
ghost use Rattle.c0_typed.specs.Meaning.{Returned};
ghost use Rattle.c0_typed.specs.Trees.{Do, Error, Exp, If, Place as PlaceTree, ReturnValue, Set, Store, StoreUpdate, Update};
ghost use Rattle.c0_typed.specs.Views.{stmt_of};
ghost use Rattle.c0_meaning.specs.Pendings.{Asserts, Completes, left_by, means, pending_of};
ghost use Rattle.c0_meaning.specs.Run.{texts_in};
ghost use Rattle.c0_meaning.specs.declared.context.Context.{Context as ContextOf};

use crate::context::Context;
use crate::pending::PlainRun;
use crate::task::{Progress, Task};
use c0_typed::Statement;
use c0_values::{Halt, asserted, binary_value, error_called};
use cells::Int32Op;

impl<'p> PlainRun<'p> {
    /// Gives a local the value.
    pub(crate) fn set_local(&mut self, x: u32) -> Result<(), Halt>
        ensures { (c : ContextOf) (a : Exp) → Completes c (Set x a) self.old result self.new }
    {
        let value = self.take()?;
        self.state.set_local(x as usize, value);
        Ok(())
    }

    /// Gives a local the value of an operator on what it held, and the value.
    pub(crate) fn update(&mut self, x: u32, operator: Int32Op) -> Result<(), Halt>
        ensures { (c : ContextOf) (a : Exp) → Completes c (Update x operator a) self.old result self.new }
    {
        let value = self.take()?;
        let held = self.take()?;
        let new = binary_value(operator, held, value)?;
        self.state.set_local(x as usize, new);
        Ok(())
    }

    /// Writes the value to the place.
    pub(crate) fn store(&mut self) -> Result<(), Halt>
        ensures { (c : ContextOf) (p : PlaceTree) (a : Exp) → Completes c (Store p a) self.old result self.new }
    {
        let value = self.take()?;
        let place = self.take_place()?;
        self.state.store(&place, value);
        Ok(())
    }

    /// Writes the value of an operator on what stood at the place, and the value.
    pub(crate) fn store_update(&mut self, operator: Int32Op) -> Result<(), Halt>
        ensures { (c : ContextOf) (p : PlaceTree) (a : Exp) → Completes c (StoreUpdate p operator a) self.old result self.new }
    {
        let value = self.take()?;
        let stood = self.take()?;
        let place = self.take_place()?;
        let new = binary_value(operator, stood, value)?;
        self.state.store(&place, new);
        Ok(())
    }

    /// Takes the value, which nothing needs.
    pub(crate) fn forget(&mut self) -> Result<(), Halt>
        ensures { (c : ContextOf) (a : Exp) → Completes c (Do a) self.old result self.new }
    {
        self.take()?;
        Ok(())
    }

    /// One of two statements.
    pub(crate) fn branch(&mut self, first: &'p Statement, second: &'p Statement) -> Result<(), Halt>
        ensures { (c : ContextOf) (a : Exp) → Completes c (If a (stmt_of (texts_in c) first.now) (stmt_of (texts_in c) second.now)) self.old result self.new }
    {
        let condition = self.take()?;
        if condition.truth() {
            return self.then(Task::Execute(first, Progress::Begun));
        }
        self.then(Task::Execute(second, Progress::Begun))
    }

    /// Returns the value.
    pub(crate) fn return_value(&mut self) -> Result<(), Halt>
        ensures { (c : ContextOf) (a : Exp) → Completes c (ReturnValue a) self.old result self.new }
    {
        let value = self.take()?;
        self.state.set_local(0, value);
        self.leave_body();
        Ok(())
    }

    /// Goes to the end of the function's body: what stands before it is not done.
    pub(crate) fn leave_body(&mut self)
        ensures { (c : ContextOf) → left_by Returned c (pending_of self.old) ≡ means c (pending_of self.new) }
    {
        while let Some(task) = self.next_task() {
            if let Task::EndBody = task {
                return;
            }
        }
    }

    /// Stops the program where the value is false.
    pub(crate) fn assert(&mut self) -> Result<(), Halt>
        ensures { (c : ContextOf) → Asserts c self.old result self.new }
    {
        let condition = self.take()?;
        asserted(condition)
    }

    /// Stops the program with the value as its text.
    pub(crate) fn error(&mut self, context: &Context<'p>) -> Result<(), Halt>
        ensures { (a : Exp) → Completes context.now (Error a) self.old result self.new }
    {
        let text = self.take()?;
        Err(error_called(context.alloc, context.program, text))
    }
}
