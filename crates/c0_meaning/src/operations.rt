//! What the plain run does with values that are found.
ghost use Rattle.c0_typed.specs.Trees.{AllocArray, And, Binary, Choose, Compare, Exp, Length, Or, Ty, Unary};
ghost use Rattle.c0_typed.specs.Views.{exp_of, relation_of, type_of, unary_of};
ghost use Rattle.c0_meaning.specs.Pendings.{AllocatesOne, Combines};
ghost use Rattle.c0_meaning.specs.Run.{texts_in};
ghost use Rattle.c0_meaning.specs.declared.context.Context.{Context as ContextOf};

use crate::context::Context;
use crate::pending::{Numbers, PlainRun};
use crate::task::Task;
use c0_typed::{Expression, Relation, UnaryOperator, ValueType};
use c0_values::{Halt, Value, binary_value, compare, unary_value};
use cells::Int32Op;

impl<'p> PlainRun<'p> {
    /// An operator on a value.
    pub(crate) fn unary(&mut self, operator: UnaryOperator) -> Result<(), Halt>
        ensures { (c : ContextOf) (a : Exp) → Combines c (Unary (unary_of operator) a) self.old result self.new }
    {
        let value = self.take()?;
        self.give(unary_value(operator, value))
    }

    /// An operator on two values.
    pub(crate) fn binary(&mut self, operator: Int32Op) -> Result<(), Halt>
        ensures { (c : ContextOf) (a b : Exp) → Combines c (Binary operator a b) self.old result self.new }
    {
        let right = self.take()?;
        let left = self.take()?;
        let value = binary_value(operator, left, right)?;
        self.give(value)
    }

    pub(crate) fn compare(&mut self, relation: Relation) -> Result<(), Halt>
        ensures { (c : ContextOf) (ty : Ty) (a b : Exp) → Combines c (Compare ty (relation_of relation) a b) self.old result self.new }
    {
        let right = self.take()?;
        let left = self.take()?;
        self.give(Value::Truth(compare(relation, left, right)))
    }

    /// The right side of `&&`, where the left one is true.
    pub(crate) fn and(&mut self, right: &'p Expression) -> Result<(), Halt>
        ensures { (c : ContextOf) (a : Exp) → Combines c (And a (exp_of (texts_in c) right.now)) self.old result self.new }
    {
        let left = self.take()?;
        if !left.truth() {
            return self.give(left);
        }
        self.then(Task::Evaluate(right))
    }

    /// The right side of `||`, where the left one is false.
    pub(crate) fn or(&mut self, right: &'p Expression) -> Result<(), Halt>
        ensures { (c : ContextOf) (a : Exp) → Combines c (Or a (exp_of (texts_in c) right.now)) self.old result self.new }
    {
        let left = self.take()?;
        if left.truth() {
            return self.give(left);
        }
        self.then(Task::Evaluate(right))
    }

    /// One of two expressions.
    pub(crate) fn choose(
        &mut self,
        first: &'p Expression,
        second: &'p Expression,
    ) -> Result<(), Halt>
        ensures { (c : ContextOf) (ty : Ty) (a : Exp) → Combines c (Choose ty a (exp_of (texts_in c) first.now) (exp_of (texts_in c) second.now)) self.old result self.new }
    {
        let condition = self.take()?;
        if condition.truth() {
            return self.then(Task::Evaluate(first));
        }
        self.then(Task::Evaluate(second))
    }

    /// A fresh array of as many elements as the value tells.
    pub(crate) fn allocate_array(
        &mut self,
        context: &Context<'p>,
        ty: &'p ValueType,
    ) -> Result<(), Halt>
        ensures { (a : Exp) → Combines context.now (AllocArray (type_of ty.now) a) self.old result self.new }
    {
        let count = self.take()?;
        if !self.room.takes(ty, count.size().unwrap_or(0)) {
            return Err(Halt::Memory);
        }
        let structs = &context.program.structs;
        match self.state.allocate_many(context.alloc, structs, ty, count) {
            Ok(value) => self.give(value),
            Err(halt) => {
                self.numbers = Some(Numbers::Length(count.number()));
                Err(halt)
            }
        }
    }

    /// The length of the array that the value is.
    pub(crate) fn length(&mut self) -> Result<(), Halt>
        ensures { (c : ContextOf) (ty : Ty) (a : Exp) → Combines c (Length ty a) self.old result self.new }
    {
        let array = self.take()?;
        let value = self.state.length_value(array)?;
        self.give(value)
    }

    /// A fresh pointer to what has a type.
    pub(crate) fn allocate_one(
        &mut self,
        context: &Context<'p>,
        ty: &'p ValueType,
    ) -> Result<(), Halt>
        ensures { AllocatesOne context.now ty.now self.old result self.new }
    {
        if !self.room.takes(ty, 1) {
            return Err(Halt::Memory);
        }
        let value = self
            .state
            .allocate_one(context.alloc, &context.program.structs, ty)?;
        self.give(value)
    }
}
