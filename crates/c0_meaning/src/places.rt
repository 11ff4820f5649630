//! The plain run of places.
ghost use Rattle.std.specs.Prelude.{ℕ};
ghost use Rattle.c0_typed.specs.Trees.{Deref, Exp, Field, Index, Place as PlaceTree, Load, Ty};
ghost use Rattle.c0_meaning.specs.Pendings.{Combines, Performs, Reaches};
ghost use Rattle.c0_meaning.specs.declared.context.Context.{Context as ContextOf};
ghost use Rattle.c0_meaning.specs.declared.task.Task.TheVariants as task;

use crate::context::Context;
use crate::pending::{Numbers, PlainRun};
use crate::task::Task;
use c0_typed::Place;
use c0_values::{Halt, at_field, pointed};

impl<'p> PlainRun<'p> {
    /// Where a place is, with its checks.
    pub(crate) fn locate(&mut self, place: &'p Place) -> Result<(), Halt>
        ensures { (c : ContextOf) → Performs c (task.Locate place.entry) self.old result self.new }
    {
        match place {
            Place::Deref(_, pointer) => self.then_two(Task::Evaluate(pointer), Task::Reach(place)),
            Place::Index(_, array, index) => self.then_three(
                Task::Evaluate(array),
                Task::Evaluate(index),
                Task::Reach(place),
            ),
            Place::Field(_, outer, _) => self.then_two(Task::Locate(outer), Task::Reach(place)),
        }
    }

    /// Where a place is, where what it stands on is given.
    pub(crate) fn reach(&mut self, context: &Context<'p>, place: &'p Place) -> Result<(), Halt>
        ensures { Performs context.now (task.Reach place.entry) self.old result self.new }
    {
        match place {
            Place::Deref(_, _) => self.deref(context),
            Place::Index(_, _, _) => self.index(context),
            Place::Field(_, _, field) => self.field(*field),
        }
    }

    /// The place that the value points to.
    fn deref(&mut self, context: &Context<'p>) -> Result<(), Halt>
        ensures { (ty : Ty) (a : Exp) → Reaches context.now (Deref ty a) self.old result self.new }
    {
        let pointer = self.take()?;
        let place = pointed(context.alloc, pointer)?;
        self.give_place(place)
    }

    /// The element of an array at an index.
    fn index(&mut self, context: &Context<'p>) -> Result<(), Halt>
        ensures { (ty : Ty) (a b : Exp) → Reaches context.now (Index ty a b) self.old result self.new }
    {
        let index = self.take()?;
        let array = self.take()?;
        match self.state.element(context.alloc, array, index) {
            Ok(place) => self.give_place(place),
            Err(halt) => {
                self.numbers = Some(Numbers::Index {
                    index: index.number(),
                    length: self.state.length(array.reference()),
                });
                Err(halt)
            }
        }
    }

    /// The field of the struct at the place.
    fn field(&mut self, field: u32) -> Result<(), Halt>
        ensures { (c : ContextOf) (j : ℕ) (p : PlaceTree) → Reaches c (Field j p field) self.old result self.new }
    {
        let place = self.take_place()?;
        let inner = at_field(place, field as usize)?;
        self.give_place(inner)
    }

    /// What stands at the place.
    pub(crate) fn load(&mut self) -> Result<(), Halt>
        ensures { (c : ContextOf) (ty : Ty) (p : PlaceTree) → Combines c (Load ty p) self.old result self.new }
    {
        let place = self.take_place()?;
        let value = self.state.load(&place);
        self.give(value)
    }

    /// What stands at the place, which stays.
    pub(crate) fn peek(&mut self) -> Result<(), Halt>
        ensures { (c : ContextOf) → Performs c task.Peek self.old result self.new }
    {
        let place = self.take_place()?;
        let value = self.state.load(&place);
        self.give_place(place)?;
        self.give(value)
    }
}
