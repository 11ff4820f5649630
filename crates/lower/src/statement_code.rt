//! The code of statements.
ghost use Rattle.c0_typed.specs.declared.tree.Statement.TheViews.{If, Loop};
ghost use Rattle.c0_typed.specs.declared.tree.Statement.{Assert, Error, ReturnValue, Set, Store, StoreUpdate, Update};
ghost use Rattle.lower.specs.Building.{block_code, body_kinds, stmt_code, stmt_kinds};
ghost use Rattle.lower.specs.Exits.{has_continue, inside};
ghost use Rattle.lower.specs.Lowered.{turn_code};
ghost use Rattle.lower_expressions.specs.Building.{codes, conditions_code, conditions_kinds};
ghost use Rattle.lower_expressions.specs.Expressions.{sequence as in_order};
ghost use Rattle.middle_form.specs.Views.{code_of};
ghost use Rattle.std.specs.Prelude.{◌≡◌, ◌++◌, ◌∷◌, ◌+◌, [], IfOk, OnOk, length};

use crate::exits::{Exits, statement_continues};
use c0_typed::{Expression, Place, Statement};
use cells::Int32Op;
use code_form::{Kind, Operation};
use lower_expressions::building::{fresh, local_register, put, sequence};
use lower_expressions::condition_code::conditions;
use lower_expressions::context::Context;
use lower_expressions::expression_code::expression;
use lower_expressions::place_code::{load_cell, place, store_cell};
use middle_form::Code;
use std::alloc::AllocError;

/// The code of a statement, left by these exits.
#[cycle(statements)]
pub(crate) fn statement(
    context: &Context,
    kinds: &mut Vec<Kind>,
    code: &mut Vec<Code>,
    whole: &Statement,
    out: Exits,
) -> Result<(), AllocError>
    ensures registers { OnOk result (kinds.new.items ≡ kinds.old.items ++ stmt_kinds context.now whole.now) }
    ensures added { OnOk result (codes code.new.items ≡ codes code.old.items ++ stmt_code context.now whole.now (length kinds.old.items) out) }
{
    match whole {
        Statement::Block(all) => statements(context, kinds, code, all, out),
        Statement::Set(local, value) => set(context, kinds, code, *local, value, out),
        Statement::Update(local, operator, value) => {
            update(context, kinds, code, *local, *operator, value, out)
        }
        Statement::Store(to, value) => store(context, kinds, code, to, value, out),
        Statement::StoreUpdate(to, operator, value) => {
            store_update(context, kinds, code, to, *operator, value, out)
        }
        Statement::Do(value) => {
            let _register = expression(context, kinds, code, value)?;
            Ok(())
        }
        Statement::If(condition, first, second) => {
            choice(context, kinds, code, condition, first, second, out)
        }
        Statement::Loop(invariants, condition, body, step) => {
            repeat(context, kinds, code, invariants, condition, body, step, out)
        }
        Statement::Return => {
            code.push(Code::Exit(out.returns))?;
            Ok(())
        }
        Statement::Break => {
            code.push(Code::Exit(out.breaks))?;
            Ok(())
        }
        Statement::Continue => {
            code.push(Code::Exit(out.continues))?;
            Ok(())
        }
        Statement::ReturnValue(value) => give_back(context, kinds, code, value, out),
        Statement::Assert(condition) => asserted(context, kinds, code, condition, out),
        Statement::Error(text) => error(context, kinds, code, text, out),
        Statement::Check(all) => conditions(context, kinds, code, all),
    }
}

/// `local = value`.
fn set(
    context: &Context,
    kinds: &mut Vec<Kind>,
    code: &mut Vec<Code>,
    local: u32,
    value: &Expression,
    out: Exits,
) -> Result<(), AllocError>
    ensures registers { OnOk result (kinds.new.items ≡ kinds.old.items ++ stmt_kinds context.now (Set local value.now)) }
    ensures added { OnOk result (codes code.new.items ≡ codes code.old.items ++ stmt_code context.now (Set local value.now) (length kinds.old.items) out) }
{
    let from = expression(context, kinds, code, value)?;
    let to = local_register(context.locals, local);
    let _to = put(code, to, Operation::Move { to, from })?;
    Ok(())
}

/// `local op= value`.
fn update(
    context: &Context,
    kinds: &mut Vec<Kind>,
    code: &mut Vec<Code>,
    local: u32,
    operator: Int32Op,
    value: &Expression,
    out: Exits,
) -> Result<(), AllocError>
    ensures registers { OnOk result (kinds.new.items ≡ kinds.old.items ++ stmt_kinds context.now (Update local operator value.now)) }
    ensures added { OnOk result (codes code.new.items ≡ codes code.old.items ++ stmt_code context.now (Update local operator value.now) (length kinds.old.items) out) }
{
    let right = expression(context, kinds, code, value)?;
    let to = local_register(context.locals, local);
    let _to = put(
        code,
        to,
        Operation::Binary {
            operator,
            to,
            left: to,
            right,
        },
    )?;
    Ok(())
}

/// `place = value`: the place is found, with its checks, before the value.
fn store(
    context: &Context,
    kinds: &mut Vec<Kind>,
    code: &mut Vec<Code>,
    to: &Place,
    value: &Expression,
    out: Exits,
) -> Result<(), AllocError>
    ensures registers { OnOk result (kinds.new.items ≡ kinds.old.items ++ stmt_kinds context.now (Store to.now value.now)) }
    ensures added { OnOk result (codes code.new.items ≡ codes code.old.items ++ stmt_code context.now (Store to.now value.now) (length kinds.old.items) out) }
{
    let target = place(context, kinds, code, to)?;
    let stored = expression(context, kinds, code, value)?;
    store_cell(code, target, stored)?;
    Ok(())
}

/// `place op= value`: the place is found once, and what stands there is read, before the value.
fn store_update(
    context: &Context,
    kinds: &mut Vec<Kind>,
    code: &mut Vec<Code>,
    to: &Place,
    operator: Int32Op,
    value: &Expression,
    out: Exits,
) -> Result<(), AllocError>
    ensures registers { OnOk result (kinds.new.items ≡ kinds.old.items ++ stmt_kinds context.now (StoreUpdate to.now operator value.now)) }
    ensures added { OnOk result (codes code.new.items ≡ codes code.old.items ++ stmt_code context.now (StoreUpdate to.now operator value.now) (length kinds.old.items) out) }
{
    let held = fresh(kinds, Kind::Int)?;
    let cell = place(context, kinds, code, to)?;
    load_cell(code, held, cell)?;
    let right = expression(context, kinds, code, value)?;
    let from = put(
        code,
        held,
        Operation::Binary {
            operator,
            to: held,
            left: held,
            right,
        },
    )?;
    store_cell(code, cell, from)?;
    Ok(())
}

/// `if`.
#[cycle(statements)]
fn choice(
    context: &Context,
    kinds: &mut Vec<Kind>,
    code: &mut Vec<Code>,
    condition: &Expression,
    first: &Box<Statement>,
    second: &Box<Statement>,
    out: Exits,
) -> Result<(), AllocError>
    ensures registers { OnOk result (kinds.new.items ≡ kinds.old.items ++ stmt_kinds context.now (If condition.now first.now second.now)) }
    ensures added { OnOk result (codes code.new.items ≡ codes code.old.items ++ stmt_code context.now (If condition.now first.now second.now) (length kinds.old.items) out) }
{
    let condition = expression(context, kinds, code, condition)?;
    let then_code = branch(context, kinds, first, out)?;
    let else_code = branch(context, kinds, second, out)?;
    code.push(Code::Choose {
        condition,
        then_code,
        else_code,
    })?;
    Ok(())
}

/// The code of a statement, as one.
#[cycle(statements)]
fn branch(
    context: &Context,
    kinds: &mut Vec<Kind>,
    whole: &Statement,
    out: Exits,
) -> Result<Box<Code>, AllocError>
    ensures code { IfOk result (λ b. code_of b.value ≡ in_order (stmt_code context.now whole.now (length kinds.old.items) out)) }
    ensures registers { OnOk result (kinds.new.items ≡ kinds.old.items ++ stmt_kinds context.now whole.now) }
{
    let mut code = Vec::new(context.alloc);
    statement(context, kinds, &mut code, whole, out)?;
    let made = sequence(context.alloc, code)?;
    Ok(made)
}

/// The body of a loop: in a block, which a `continue` leaves, where it has one.
#[cycle(statements)]
fn body_of(
    context: &Context,
    kinds: &mut Vec<Kind>,
    code: &mut Vec<Code>,
    body: &Statement,
    out: Exits,
) -> Result<(), AllocError>
    ensures registers { OnOk result (kinds.new.items ≡ kinds.old.items ++ stmt_kinds context.now body.now) }
    ensures added { OnOk result (codes code.new.items ≡ codes code.old.items ++ turn_code (has_continue body.now) (stmt_code context.now body.now (length kinds.old.items) (inside (has_continue body.now) out))) }
{
    let in_block = statement_continues(body);
    let inside = out.inside(in_block)?;
    if in_block {
        let block = branch(context, kinds, body, inside)?;
        code.push(Code::Block(block))?;
        return Ok(());
    }
    statement(context, kinds, code, body, inside)
}

/// A loop: its invariants come before its condition.
#[cycle(statements)]
fn repeat(
    context: &Context,
    kinds: &mut Vec<Kind>,
    code: &mut Vec<Code>,
    invariants: &Vec<Expression>,
    condition: &Expression,
    body: &Box<Statement>,
    step: &Box<Statement>,
    out: Exits,
) -> Result<(), AllocError>
    ensures registers { OnOk result (kinds.new.items ≡ kinds.old.items ++ stmt_kinds context.now (Loop invariants.now condition.now body.now step.now)) }
    ensures added { OnOk result (codes code.new.items ≡ codes code.old.items ++ stmt_code context.now (Loop invariants.now condition.now body.now step.now) (length kinds.old.items) out) }
{
    let third = out.deeper()?;
    let mut test = Vec::new(context.alloc);
    conditions(context, kinds, &mut test, invariants)?;
    let condition = expression(context, kinds, &mut test, condition)?;
    let mut turn = Vec::new(context.alloc);
    body_of(context, kinds, &mut turn, body, out)?;
    statement(context, kinds, &mut turn, step, third)?;
    let test = sequence(context.alloc, test)?;
    let body = sequence(context.alloc, turn)?;
    code.push(Code::Loop {
        test,
        condition,
        body,
    })?;
    Ok(())
}

/// `return value`.
fn give_back(
    context: &Context,
    kinds: &mut Vec<Kind>,
    code: &mut Vec<Code>,
    value: &Expression,
    out: Exits,
) -> Result<(), AllocError>
    ensures registers { OnOk result (kinds.new.items ≡ kinds.old.items ++ stmt_kinds context.now (ReturnValue value.now)) }
    ensures added { OnOk result (codes code.new.items ≡ codes code.old.items ++ stmt_code context.now (ReturnValue value.now) (length kinds.old.items) out) }
{
    let from = expression(context, kinds, code, value)?;
    let to = local_register(context.locals, 0);
    let _to = put(code, to, Operation::Move { to, from })?;
    code.push(Code::Exit(out.returns))?;
    Ok(())
}

/// `assert`.
fn asserted(
    context: &Context,
    kinds: &mut Vec<Kind>,
    code: &mut Vec<Code>,
    condition: &Expression,
    out: Exits,
) -> Result<(), AllocError>
    ensures registers { OnOk result (kinds.new.items ≡ kinds.old.items ++ stmt_kinds context.now (Assert condition.now)) }
    ensures added { OnOk result (codes code.new.items ≡ codes code.old.items ++ stmt_code context.now (Assert condition.now) (length kinds.old.items) out) }
{
    let register = expression(context, kinds, code, condition)?;
    let _register = put(
        code,
        register,
        Operation::Assert {
            condition: register,
        },
    )?;
    Ok(())
}

/// `error`.
fn error(
    context: &Context,
    kinds: &mut Vec<Kind>,
    code: &mut Vec<Code>,
    text: &Expression,
    out: Exits,
) -> Result<(), AllocError>
    ensures registers { OnOk result (kinds.new.items ≡ kinds.old.items ++ stmt_kinds context.now (Error text.now)) }
    ensures added { OnOk result (codes code.new.items ≡ codes code.old.items ++ stmt_code context.now (Error text.now) (length kinds.old.items) out) }
{
    let text = expression(context, kinds, code, text)?;
    code.push(Code::Fail { text })?;
    Ok(())
}

/// The code of statements in order.
#[cycle(statements)]
pub(crate) fn statements(
    context: &Context,
    kinds: &mut Vec<Kind>,
    code: &mut Vec<Code>,
    all: &[Statement],
    out: Exits,
) -> Result<(), AllocError>
    ensures registers { OnOk result (kinds.new.items ≡ kinds.old.items ++ body_kinds context.now all.now) }
    ensures added { OnOk result (codes code.new.items ≡ codes code.old.items ++ block_code context.now all.now (length kinds.old.items) out) }
{
    for part in all {
        statement(context, kinds, code, part, out)?;
    }
    Ok(())
}
