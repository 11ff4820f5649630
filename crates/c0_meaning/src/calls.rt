//! The plain run of calls.
ghost use Rattle.std.specs.Prelude.{◌≡◌, map, IfSome};
ghost use Rattle.c0_typed.specs.Meaning.{locals_at_entry};
ghost use Rattle.c0_typed.specs.Views.{function_of};
ghost use Rattle.c0_meaning.specs.Pendings.{Performs, PerformsCall, PerformsCalls};
ghost use Rattle.c0_values.specs.PlainStates.{Texts, value_of};
ghost use Rattle.c0_meaning.specs.Run.{texts_in, values_of};
ghost use Rattle.c0_meaning.specs.declared.context.Context.{Context as ContextOf};
ghost use Rattle.c0_meaning.specs.declared.task.Callee.TheVariants as callee;
ghost use Rattle.c0_meaning.specs.declared.task.Task.TheVariants as task;

use crate::context::Context;
use crate::pending::PlainRun;
use crate::task::{Callee, Task};
use c0_typed::{Expression, Function, Output};
use c0_values::{Halt, Value, blank_value};
use std::mem;

/// What the locals of a call hold at first: its result, its arguments, and the others. None where a growth is refused.
fn entry_locals(mut given: Vec<Value>, function: &Function) -> Option<Vec<Value>>
    ensures { IfSome result (λ locals. (texts : Texts) → map (value_of texts) locals.items ≡ locals_at_entry (function_of texts function.now) (map (value_of texts) given.items)) }
{
    let Ok(()) = given.insert(0, blank_value(&function.result)) else {
        return None;
    };
    for ty in &function.locals {
        let Ok(()) = given.push(blank_value(ty)) else {
            return None;
        };
    }
    Some(given)
}

impl<'p> PlainRun<'p> {
    /// A call whose first arguments are given, and the others are not evaluated yet.
    pub(crate) fn arguments(
        &mut self,
        context: &Context<'p>,
        rest: &'p [Expression],
        given: Vec<Value>,
        callee: Callee,
    ) -> Result<(), Halt>
        ensures { PerformsCalls context.now rest.now (values_of (texts_in context.now) given) callee self.old result self.new }
    {
        match rest.split_first() {
            None => self.call(context, callee, given),
            Some((first, rest)) => {
                self.then_two(Task::Evaluate(first), Task::Argument(rest, given, callee))
            }
        }
    }

    /// A call of which the value is an argument, behind those that are given.
    pub(crate) fn argument(
        &mut self,
        context: &Context<'p>,
        rest: &'p [Expression],
        mut given: Vec<Value>,
        callee: Callee,
    ) -> Result<(), Halt>
        ensures { Performs context.now (task.Argument rest.entry given callee) self.old result self.new }
    {
        let value = self.take()?;
        let Ok(()) = given.push(value) else {
            return Err(Halt::Memory);
        };
        self.arguments(context, rest, given, callee)
    }

    /// A call, over its arguments.
    fn call(&mut self, context: &Context<'p>, callee: Callee, given: Vec<Value>) -> Result<(), Halt>
        ensures { PerformsCall context.now callee (values_of (texts_in context.now) given) self.old result self.new }
    {
        match callee {
            Callee::Function(function) => self.enter(context, function as usize, given),
            Callee::Library(output) => self.print(context, output, given),
        }
    }

    /// A call of the library.
    fn print(
        &mut self,
        context: &Context<'p>,
        output: Output,
        given: Vec<Value>,
    ) -> Result<(), Halt>
        ensures { PerformsCall context.now (callee.Library output) (values_of (texts_in context.now) given) self.old result self.new }
    {
        if !self.room.allows_output(self.state.output.len()) {
            return Err(Halt::Memory);
        }
        let value = self
            .state
            .print(context.alloc, context.program, output, given)?;
        self.give(value)
    }

    /// The call of a function: what must hold on entry, its body, and what must hold at its end are next.
    pub(crate) fn enter(
        &mut self,
        context: &Context<'p>,
        function: usize,
        given: Vec<Value>,
    ) -> Result<(), Halt>
        ensures { PerformsCall context.now (callee.Function function) (values_of (texts_in context.now) given) self.old result self.new }
    {
        if self.depth == 0 {
            return Err(Halt::Cut);
        }
        let waiting = self.waiting();
        if !self.room.allows_call(waiting) {
            self.refused = Some(function);
            return Err(Halt::Memory);
        }
        self.state.take_turn()?;
        let Some(function) = context.program.functions.get(function) else {
            return self.give(Value::Void);
        };
        let Some(locals) = entry_locals(given, function) else {
            return Err(Halt::Memory);
        };
        let outer = mem::replace(&mut self.state.locals, locals);
        self.locals = self.locals.wrapping_add(outer.len() as u64);
        let end = Task::EndCall(outer, self.depth);
        self.depth -= 1;
        self.then_two(Task::Check(&function.postconditions), end)?;
        self.then_three(
            Task::Check(&function.preconditions),
            Task::ExecuteAll(&function.body),
            Task::EndBody,
        )
    }

    /// Gives the result of the call, and its caller goes on with its own locals.
    pub(crate) fn end_call(&mut self, locals: Vec<Value>, depth: u64) -> Result<(), Halt>
        ensures { (c : ContextOf) → Performs c (task.EndCall locals depth) self.old result self.new }
    {
        let value = self.state.local(0);
        self.locals = self.locals.wrapping_sub(locals.len() as u64);
        self.state.locals = locals;
        self.depth = depth;
        self.give(value)
    }
}
