//! The plain run of expressions.
ghost use Rattle.c0_meaning.specs.Pendings.{Performs};
ghost use Rattle.c0_meaning.specs.declared.context.Context.{Context as ContextOf};
ghost use Rattle.c0_meaning.specs.declared.task.Task.TheVariants as task;

use crate::context::Context;
use crate::pending::PlainRun;
use crate::task::{Callee, Task};
use c0_typed::{Expression, ValueType};
use c0_values::{Halt, Value, constant_value};

impl<'p> PlainRun<'p> {
    /// The value of an expression.
    pub(crate) fn evaluate(
        &mut self,
        context: &Context<'p>,
        expression: &'p Expression,
    ) -> Result<(), Halt>
        ensures { Performs context.now (task.Evaluate expression.entry) self.old result self.new }
    {
        match expression {
            Expression::At(_, inner) => self.evaluate(context, inner),
            Expression::Constant(constant) => self.give(constant_value(*constant)),
            Expression::Null(_) => self.give(Value::Reference(0)),
            Expression::Local(x) => self.give_local(*x as usize),
            Expression::Unary(_, first)
            | Expression::And(first, _)
            | Expression::Or(first, _)
            | Expression::Choose(_, first, _, _)
            | Expression::AllocArray(_, first)
            | Expression::Length(_, first) => {
                self.then_two(Task::Evaluate(first), Task::Combine(expression))
            }
            Expression::Binary(_, left, right) | Expression::Compare(_, _, left, right) => {
                let rest = Task::Combine(expression);
                self.then_three(Task::Evaluate(left), Task::Evaluate(right), rest)
            }
            Expression::Call(function, arguments) => {
                let given = Vec::new(context.alloc);
                self.arguments(context, arguments, given, Callee::Function(*function))
            }
            Expression::Print(output, arguments) => {
                let given = Vec::new(context.alloc);
                self.arguments(context, arguments, given, Callee::Library(*output))
            }
            Expression::Load(_, place) => {
                self.then_two(Task::Locate(place), Task::Combine(expression))
            }
            Expression::Alloc(ty) => self.allocate_one(context, ty),
        }
    }

    /// The value of an expression, where what it evaluates first is given. No other expression comes here.
    pub(crate) fn combine(
        &mut self,
        context: &Context<'p>,
        expression: &'p Expression,
    ) -> Result<(), Halt>
        ensures { Performs context.now (task.Combine expression.entry) self.old result self.new }
    {
        match expression {
            Expression::Unary(operator, _) => self.unary(*operator),
            Expression::Binary(operator, _, _) => self.binary(*operator),
            Expression::Compare(_, relation, _, _) => self.compare(*relation),
            Expression::And(_, right) => self.and(right),
            Expression::Or(_, right) => self.or(right),
            Expression::Choose(_, _, first, second) => self.choose(first, second),
            Expression::Load(_, _) => self.load(),
            Expression::AllocArray(ty, _) => self.allocate_array(context, ty),
            Expression::Length(_, _) => self.length(),
            _ => Err(Halt::Memory),
        }
    }
}
