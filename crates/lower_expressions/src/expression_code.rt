//! The code of expressions.
ghost use Rattle.c0_typed.specs.Views.{type_of};
ghost use Rattle.c0_typed.specs.declared.tree.Expression.TheViews.{AllocArray, And, Binary, Call, Choose, Compare, Length, Or, Print, Load, Unary};
ghost use Rattle.c0_typed.specs.declared.tree.Expression.{Alloc, Constant, Null};
ghost use Rattle.lower_expressions.specs.Building.{codes, exp_code, exp_kinds, list_at, list_code, list_kinds, moved, structs_in, type_given};
ghost use Rattle.lower_tables.specs.Kinds.{kind_of as kind_with};
ghost use Rattle.lower_expressions.specs.Expressions.{result_register as register_for, value_at};
ghost use Rattle.middle_form.specs.Views.{code_of};
ghost use Rattle.std.specs.Prelude.{◌≡◌, ◌++◌, ◌+◌, IfOk, OnOk, length};

use crate::building::{fresh, local_register, put, sequence};
use crate::constants::{
    code_relation, constant_code, constant_kind, print_code, result_register, swapped, unary_kind,
    unary_operator,
};
use crate::context::Context;
use crate::place_code::{load_cell, place};
use c0_typed::{Expression, Output, Place, Relation, UnaryOperator, ValueType};
use cells::Int32Op;
use code_form::{Kind, Operation};
use lower_tables::kinds::{kind_of, layout_number};
use middle_form::Code;
use std::alloc::AllocError;

/// The code of an expression, and the register where its value stands.
#[cycle(expressions)]
pub fn expression(
    context: &Context,
    kinds: &mut Vec<Kind>,
    code: &mut Vec<Code>,
    whole: &Expression,
) -> Result<u32, AllocError>
    ensures value { IfOk result (λ r. r ≡ value_at context.now.locals whole.now (length kinds.old.items)) }
    ensures registers { OnOk result (kinds.new.items ≡ kinds.old.items ++ exp_kinds context.now whole.now) }
    ensures added { OnOk result (codes code.new.items ≡ codes code.old.items ++ exp_code context.now whole.now (length kinds.old.items)) }
{
    match whole {
        Expression::At(_, inner) => expression(context, kinds, code, inner),
        Expression::Constant(value) => constant(context, kinds, code, *value),
        Expression::Null(ty) => null(context, kinds, code, ty),
        Expression::Local(local) => Ok(local_register(context.locals, *local)),
        Expression::Unary(operator, operand) => unary(context, kinds, code, *operator, operand),
        Expression::Binary(operator, left, right) => {
            binary(context, kinds, code, *operator, left, right)
        }
        Expression::Compare(ty, relation, left, right) => {
            compare(context, kinds, code, ty, *relation, left, right)
        }
        Expression::And(left, right) => conjunction(context, kinds, code, left, right),
        Expression::Or(left, right) => disjunction(context, kinds, code, left, right),
        Expression::Choose(ty, condition, first, second) => {
            choice(context, kinds, code, ty, condition, first, second)
        }
        Expression::Call(function, given) => call(context, kinds, code, *function, given),
        Expression::Print(output, given) => print(context, kinds, code, *output, given),
        Expression::Load(ty, from) => load(context, kinds, code, ty, from),
        Expression::Alloc(ty) => allocate(context, kinds, code, ty),
        Expression::AllocArray(ty, count) => allocate_array(context, kinds, code, ty, count),
        Expression::Length(ty, array) => array_length(context, kinds, code, ty, array),
    }
}

/// A constant.
fn constant(
    context: &Context,
    kinds: &mut Vec<Kind>,
    code: &mut Vec<Code>,
    value: c0_typed::Constant,
) -> Result<u32, AllocError>
    ensures value { IfOk result (λ r. r ≡ length kinds.old.items) }
    ensures registers { OnOk result (kinds.new.items ≡ kinds.old.items ++ exp_kinds context.now (Constant value)) }
    ensures added { OnOk result (codes code.new.items ≡ codes code.old.items ++ exp_code context.now (Constant value) (length kinds.old.items)) }
{
    let to = fresh(kinds, constant_kind(value))?;
    put(
        code,
        to,
        constant_code(&context.typed.texts, context.numbers, value, to),
    )
}

/// NULL.
fn null(
    context: &Context,
    kinds: &mut Vec<Kind>,
    code: &mut Vec<Code>,
    ty: &ValueType,
) -> Result<u32, AllocError>
    ensures value { IfOk result (λ r. r ≡ length kinds.old.items) }
    ensures registers { OnOk result (kinds.new.items ≡ kinds.old.items ++ exp_kinds context.now (Null ty.now)) }
    ensures added { OnOk result (codes code.new.items ≡ codes code.old.items ++ exp_code context.now (Null ty.now) (length kinds.old.items)) }
{
    let to = fresh(
        kinds,
        Kind::Ptr(layout_number(context.structs, context.singles, ty)),
    )?;
    put(code, to, Operation::Null { to })
}

/// A fresh pointer.
fn allocate(
    context: &Context,
    kinds: &mut Vec<Kind>,
    code: &mut Vec<Code>,
    ty: &ValueType,
) -> Result<u32, AllocError>
    ensures value { IfOk result (λ r. r ≡ length kinds.old.items) }
    ensures registers { OnOk result (kinds.new.items ≡ kinds.old.items ++ exp_kinds context.now (Alloc ty.now)) }
    ensures added { OnOk result (codes code.new.items ≡ codes code.old.items ++ exp_code context.now (Alloc ty.now) (length kinds.old.items)) }
{
    let layout = layout_number(context.structs, context.singles, ty);
    let to = fresh(kinds, Kind::Ptr(layout))?;
    put(code, to, Operation::Alloc { to, layout })
}

/// An operator on one value.
#[cycle(expressions)]
fn unary(
    context: &Context,
    kinds: &mut Vec<Kind>,
    code: &mut Vec<Code>,
    operator: UnaryOperator,
    operand: &Box<Expression>,
) -> Result<u32, AllocError>
    ensures value { IfOk result (λ r. r ≡ length kinds.old.items) }
    ensures registers { OnOk result (kinds.new.items ≡ kinds.old.items ++ exp_kinds context.now (Unary operator operand.now)) }
    ensures added { OnOk result (codes code.new.items ≡ codes code.old.items ++ exp_code context.now (Unary operator operand.now) (length kinds.old.items)) }
{
    let to = fresh(kinds, unary_kind(operator))?;
    let from = expression(context, kinds, code, operand)?;
    put(
        code,
        to,
        Operation::Unary {
            operator: unary_operator(operator),
            to,
            from,
        },
    )
}

/// An operator on two numbers.
#[cycle(expressions)]
fn binary(
    context: &Context,
    kinds: &mut Vec<Kind>,
    code: &mut Vec<Code>,
    operator: Int32Op,
    left: &Box<Expression>,
    right: &Box<Expression>,
) -> Result<u32, AllocError>
    ensures value { IfOk result (λ r. r ≡ length kinds.old.items) }
    ensures registers { OnOk result (kinds.new.items ≡ kinds.old.items ++ exp_kinds context.now (Binary operator left.now right.now)) }
    ensures added { OnOk result (codes code.new.items ≡ codes code.old.items ++ exp_code context.now (Binary operator left.now right.now) (length kinds.old.items)) }
{
    let to = fresh(kinds, Kind::Int)?;
    let (left, right) = operands(context, kinds, code, left, right)?;
    put(
        code,
        to,
        Operation::Binary {
            operator,
            to,
            left,
            right,
        },
    )
}

/// A comparison.
#[cycle(expressions)]
fn compare(
    context: &Context,
    kinds: &mut Vec<Kind>,
    code: &mut Vec<Code>,
    ty: &ValueType,
    relation: Relation,
    left: &Box<Expression>,
    right: &Box<Expression>,
) -> Result<u32, AllocError>
    ensures value { IfOk result (λ r. r ≡ length kinds.old.items) }
    ensures registers { OnOk result (kinds.new.items ≡ kinds.old.items ++ exp_kinds context.now (Compare ty.now relation left.now right.now)) }
    ensures added { OnOk result (codes code.new.items ≡ codes code.old.items ++ exp_code context.now (Compare ty.now relation left.now right.now) (length kinds.old.items)) }
{
    let to = fresh(kinds, Kind::Bool)?;
    let (left, right) = operands(context, kinds, code, left, right)?;
    put(
        code,
        to,
        Operation::Compare {
            relation: code_relation(relation),
            to,
            left,
            right,
        },
    )
}

/// `left && right`: the code of the right side runs only where the left one is true.
#[cycle(expressions)]
fn conjunction(
    context: &Context,
    kinds: &mut Vec<Kind>,
    code: &mut Vec<Code>,
    left: &Box<Expression>,
    right: &Box<Expression>,
) -> Result<u32, AllocError>
    ensures value { IfOk result (λ r. r ≡ length kinds.old.items) }
    ensures registers { OnOk result (kinds.new.items ≡ kinds.old.items ++ exp_kinds context.now (And left.now right.now)) }
    ensures added { OnOk result (codes code.new.items ≡ codes code.old.items ++ exp_code context.now (And left.now right.now) (length kinds.old.items)) }
{
    let to = fresh(kinds, Kind::Bool)?;
    let from = expression(context, kinds, code, left)?;
    let condition = put(code, to, Operation::Move { to, from })?;
    let then_code = branch(context, kinds, right, to)?;
    let else_code = sequence(context.alloc, Vec::new(context.alloc))?;
    code.push(Code::Choose {
        condition,
        then_code,
        else_code,
    })?;
    Ok(to)
}

/// `left || right`: the code of the right side runs only where the left one is false.
#[cycle(expressions)]
fn disjunction(
    context: &Context,
    kinds: &mut Vec<Kind>,
    code: &mut Vec<Code>,
    left: &Box<Expression>,
    right: &Box<Expression>,
) -> Result<u32, AllocError>
    ensures value { IfOk result (λ r. r ≡ length kinds.old.items) }
    ensures registers { OnOk result (kinds.new.items ≡ kinds.old.items ++ exp_kinds context.now (Or left.now right.now)) }
    ensures added { OnOk result (codes code.new.items ≡ codes code.old.items ++ exp_code context.now (Or left.now right.now) (length kinds.old.items)) }
{
    let to = fresh(kinds, Kind::Bool)?;
    let from = expression(context, kinds, code, left)?;
    let condition = put(code, to, Operation::Move { to, from })?;
    let then_code = sequence(context.alloc, Vec::new(context.alloc))?;
    let else_code = branch(context, kinds, right, to)?;
    code.push(Code::Choose {
        condition,
        then_code,
        else_code,
    })?;
    Ok(to)
}

/// `condition ? first : second`.
#[cycle(expressions)]
fn choice(
    context: &Context,
    kinds: &mut Vec<Kind>,
    code: &mut Vec<Code>,
    ty: &ValueType,
    condition: &Box<Expression>,
    first: &Box<Expression>,
    second: &Box<Expression>,
) -> Result<u32, AllocError>
    ensures value { IfOk result (λ r. r ≡ length kinds.old.items) }
    ensures registers { OnOk result (kinds.new.items ≡ kinds.old.items ++ exp_kinds context.now (Choose ty.now condition.now first.now second.now)) }
    ensures added { OnOk result (codes code.new.items ≡ codes code.old.items ++ exp_code context.now (Choose ty.now condition.now first.now second.now) (length kinds.old.items)) }
{
    let to = fresh(kinds, kind_of(context.structs, context.singles, ty))?;
    let condition = expression(context, kinds, code, condition)?;
    let then_code = branch(context, kinds, first, to)?;
    let else_code = branch(context, kinds, second, to)?;
    code.push(Code::Choose {
        condition,
        then_code,
        else_code,
    })?;
    Ok(to)
}

/// The kind of what a function of the text gives.
fn call_kind(context: &Context, function: u32) -> Kind
    ensures { result ≡ kind_with (length (structs_in context.now)) context.now.singles.now (type_given context.now function) }
{
    match context.typed.functions.get(function as usize) {
        Some(found) => kind_of(context.structs, context.singles, &found.result),
        None => Kind::Int,
    }
}

/// The register for what a function of the text gives.
fn call_register(context: &Context, function: u32, to: u32) -> Option<u32>
    ensures { result ≡ register_for (type_given context.now function) to }
{
    match context.typed.functions.get(function as usize) {
        Some(found) => result_register(&found.result, to),
        None => None,
    }
}

/// A call of a function.
#[cycle(expressions)]
fn call(
    context: &Context,
    kinds: &mut Vec<Kind>,
    code: &mut Vec<Code>,
    function: u32,
    given: &Vec<Expression>,
) -> Result<u32, AllocError>
    ensures value { IfOk result (λ r. r ≡ length kinds.old.items) }
    ensures registers { OnOk result (kinds.new.items ≡ kinds.old.items ++ exp_kinds context.now (Call function given.now)) }
    ensures added { OnOk result (codes code.new.items ≡ codes code.old.items ++ exp_code context.now (Call function given.now) (length kinds.old.items)) }
{
    let to = fresh(kinds, call_kind(context, function))?;
    let registers = arguments(context, kinds, code, given)?;
    let number = swapped(context.typed.main, function)?;
    code.push(Code::Call {
        to: call_register(context, function, to),
        function: number,
        arguments: registers,
    })?;
    Ok(to)
}

/// A call of the library.
#[cycle(expressions)]
fn print(
    context: &Context,
    kinds: &mut Vec<Kind>,
    code: &mut Vec<Code>,
    output: Output,
    given: &Vec<Expression>,
) -> Result<u32, AllocError>
    ensures value { IfOk result (λ r. r ≡ length kinds.old.items) }
    ensures registers { OnOk result (kinds.new.items ≡ kinds.old.items ++ exp_kinds context.now (Print output given.now)) }
    ensures added { OnOk result (codes code.new.items ≡ codes code.old.items ++ exp_code context.now (Print output given.now) (length kinds.old.items)) }
{
    let to = fresh(kinds, Kind::Int)?;
    let registers = arguments(context, kinds, code, given)?;
    let register = put(code, to, print_code(output, &registers))?;
    Ok(register)
}

/// What stands at a place.
#[cycle(expressions)]
fn load(
    context: &Context,
    kinds: &mut Vec<Kind>,
    code: &mut Vec<Code>,
    ty: &ValueType,
    from: &Box<Place>,
) -> Result<u32, AllocError>
    ensures value { IfOk result (λ r. r ≡ length kinds.old.items) }
    ensures registers { OnOk result (kinds.new.items ≡ kinds.old.items ++ exp_kinds context.now (Load ty.now from.now)) }
    ensures added { OnOk result (codes code.new.items ≡ codes code.old.items ++ exp_code context.now (Load ty.now from.now) (length kinds.old.items)) }
{
    let to = fresh(kinds, kind_of(context.structs, context.singles, ty))?;
    let cell = place(context, kinds, code, from)?;
    load_cell(code, to, cell)?;
    Ok(to)
}

/// A fresh array.
#[cycle(expressions)]
fn allocate_array(
    context: &Context,
    kinds: &mut Vec<Kind>,
    code: &mut Vec<Code>,
    ty: &ValueType,
    count: &Box<Expression>,
) -> Result<u32, AllocError>
    ensures value { IfOk result (λ r. r ≡ length kinds.old.items) }
    ensures registers { OnOk result (kinds.new.items ≡ kinds.old.items ++ exp_kinds context.now (AllocArray ty.now count.now)) }
    ensures added { OnOk result (codes code.new.items ≡ codes code.old.items ++ exp_code context.now (AllocArray ty.now count.now) (length kinds.old.items)) }
{
    let layout = layout_number(context.structs, context.singles, ty);
    let to = fresh(kinds, Kind::Arr(layout))?;
    let length = expression(context, kinds, code, count)?;
    put(code, to, Operation::AllocArray { to, layout, length })
}

/// The length of an array.
#[cycle(expressions)]
fn array_length(
    context: &Context,
    kinds: &mut Vec<Kind>,
    code: &mut Vec<Code>,
    ty: &ValueType,
    array: &Box<Expression>,
) -> Result<u32, AllocError>
    ensures value { IfOk result (λ r. r ≡ length kinds.old.items) }
    ensures registers { OnOk result (kinds.new.items ≡ kinds.old.items ++ exp_kinds context.now (Length ty.now array.now)) }
    ensures added { OnOk result (codes code.new.items ≡ codes code.old.items ++ exp_code context.now (Length ty.now array.now) (length kinds.old.items)) }
{
    let to = fresh(kinds, Kind::Int)?;
    let register = expression(context, kinds, code, array)?;
    put(code, to, Operation::Len { to, register })
}

/// The code of two expressions from left to right, and the registers where their values stand.
#[cycle(expressions)]
pub(crate) fn operands(
    context: &Context,
    kinds: &mut Vec<Kind>,
    code: &mut Vec<Code>,
    left: &Expression,
    right: &Expression,
) -> Result<(u32, u32), AllocError>
    ensures left { IfOk result (λ r. r.0 ≡ value_at context.now.locals left.now (length kinds.old.items)) }
    ensures right { IfOk result (λ r. r.1 ≡ value_at context.now.locals right.now (length kinds.old.items + length (exp_kinds context.now left.now))) }
    ensures registers { OnOk result (kinds.new.items ≡ kinds.old.items ++ (exp_kinds context.now left.now ++ exp_kinds context.now right.now)) }
    ensures added { OnOk result (codes code.new.items ≡ codes code.old.items ++ (exp_code context.now left.now (length kinds.old.items) ++ exp_code context.now right.now (length kinds.old.items + length (exp_kinds context.now left.now)))) }
{
    let first = expression(context, kinds, code, left)?;
    let second = expression(context, kinds, code, right)?;
    Ok((first, second))
}

/// The code of an expression whose value goes to a register.
#[cycle(expressions)]
fn branch(
    context: &Context,
    kinds: &mut Vec<Kind>,
    whole: &Expression,
    to: u32,
) -> Result<Box<Code>, AllocError>
    ensures code { IfOk result (λ b. code_of b.value ≡ moved context.now whole.now (length kinds.old.items) to) }
    ensures registers { OnOk result (kinds.new.items ≡ kinds.old.items ++ exp_kinds context.now whole.now) }
{
    let mut code = Vec::new(context.alloc);
    let from = expression(context, kinds, &mut code, whole)?;
    let _to = put(&mut code, to, Operation::Move { to, from })?;
    let made = sequence(context.alloc, code)?;
    Ok(made)
}

/// The code of arguments from left to right, and the registers where their values stand.
#[cycle(expressions)]
fn arguments(
    context: &Context,
    kinds: &mut Vec<Kind>,
    code: &mut Vec<Code>,
    given: &[Expression],
) -> Result<Vec<u32>, AllocError>
    ensures values { IfOk result (λ v. v.items ≡ list_at context.now given.now (length kinds.old.items)) }
    ensures registers { OnOk result (kinds.new.items ≡ kinds.old.items ++ list_kinds context.now given.now) }
    ensures added { OnOk result (codes code.new.items ≡ codes code.old.items ++ list_code context.now given.now (length kinds.old.items)) }
{
    let mut registers = Vec::new(context.alloc);
    for argument in given {
        registers.push(expression(context, kinds, code, argument)?)?;
    }
    Ok(registers)
}
