//! Instructions by the table.
ghost use Rattle.code_form.specs.Form.{Call, Simple, instruction_of};
ghost use Rattle.instruction_table.specs.Arguments.{arguments_of, has_output, is_of_heap, name_of, register_or_none, registers_of};
ghost use Rattle.instruction_table.specs.declared.parts.Argument.TheVariants.{Number, Register, Scope};
ghost use Rattle.std.specs.Prelude.{◌≡◌, ◌≤◌, ◌∷◌, [], None, Some, option_map, take, true};

use crate::name::Name;
use code_form::{Instruction, Operation};

/// An operand that is not a list: a number, and what it is the number of.
#[derive(Clone, Copy, PartialEq, Eq, Debug)]
pub enum Argument {
    Register(u32),
    /// No register, where there might be one.
    NoRegister,
    Scope(u8),
    Block(u32),
    Function(u32),
    /// A layout, a text or a number of cells.
    Number(u32),
    Integer(i32),
    Truth(bool),
    Character(u8),
}

/// An instruction by the table: its name, its operands, which are the first `count` of these, and behind them its list of
/// registers, if it has one.
#[derive(Clone, Copy)]
pub struct Parts<'a> {
    pub name: Name,
    pub arguments: [Argument; 4],
    pub count: usize,
    pub registers: Option<&'a [u32]>,
}

/// An instruction without a list, whose operands are the first `count` of these.
fn some(name: Name, arguments: [Argument; 4], count: usize) -> Parts<'static>
    ensures { result ≡ record { name = name; arguments = arguments; count = count; registers = None } }
{
    Parts {
        name,
        arguments,
        count,
        registers: None,
    }
}

fn zero(name: Name) -> Parts<'static>
    ensures name { result.name ≡ name }
    ensures count { result.count ≡ 0 }
    ensures registers { result.registers ≡ None }
{
    some(name, [Argument::NoRegister; 4], 0)
}

fn one(name: Name, first: Argument) -> Parts<'static>
    ensures name { result.name ≡ name }
    ensures count { result.count ≡ 1 }
    ensures arguments { take result.count result.arguments ≡ first ∷ [] }
    ensures registers { result.registers ≡ None }
{
    some(name, [first, first, first, first], 1)
}

fn two(name: Name, first: Argument, second: Argument) -> Parts<'static>
    ensures name { result.name ≡ name }
    ensures count { result.count ≡ 2 }
    ensures arguments { take result.count result.arguments ≡ first ∷ second ∷ [] }
    ensures registers { result.registers ≡ None }
{
    some(name, [first, second, second, second], 2)
}

fn three(name: Name, first: Argument, second: Argument, third: Argument) -> Parts<'static>
    ensures name { result.name ≡ name }
    ensures count { result.count ≡ 3 }
    ensures arguments { take result.count result.arguments ≡ first ∷ second ∷ third ∷ [] }
    ensures registers { result.registers ≡ None }
{
    some(name, [first, second, third, third], 3)
}

fn four(name: Name, arguments: [Argument; 4]) -> Parts<'static>
    ensures name { result.name ≡ name }
    ensures count { result.count ≡ 4 }
    ensures arguments { take result.count result.arguments ≡ arguments }
    ensures registers { result.registers ≡ None }
{
    some(name, arguments, 4)
}

fn register(number: u32) -> Argument
    ensures { result ≡ Register number }
{
    Argument::Register(number)
}

fn optional(number: Option<u32>) -> Argument
    ensures { result ≡ register_or_none number }
{
    match number {
        Some(number) => Argument::Register(number),
        None => Argument::NoRegister,
    }
}

fn aimed(scope: u8) -> Argument
    ensures { result ≡ Scope scope }
{
    Argument::Scope(scope)
}

fn number(number: u32) -> Argument
    ensures { result ≡ Number number }
{
    Argument::Number(number)
}

/// An instruction of one register.
fn of_one(name: Name, a: u32) -> Parts<'static>
    ensures name { result.name ≡ name }
    ensures few { result.count ≤ 4 }
    ensures arguments { take result.count result.arguments ≡ Register a ∷ [] }
    ensures registers { result.registers ≡ None }
{
    one(name, register(a))
}

/// An instruction of two registers.
fn of_two(name: Name, a: u32, b: u32) -> Parts<'static>
    ensures name { result.name ≡ name }
    ensures few { result.count ≤ 4 }
    ensures arguments { take result.count result.arguments ≡ Register a ∷ Register b ∷ [] }
    ensures registers { result.registers ≡ None }
{
    two(name, register(a), register(b))
}

/// An instruction of three registers.
fn of_three(name: Name, a: u32, b: u32, c: u32) -> Parts<'static>
    ensures name { result.name ≡ name }
    ensures few { result.count ≤ 4 }
    ensures arguments { take result.count result.arguments ≡ Register a ∷ Register b ∷ Register c ∷ [] }
    ensures registers { result.registers ≡ None }
{
    three(name, register(a), register(b), register(c))
}

/// An instruction that prints, flushes or asserts, by the table.
fn parts_of_output(operation: &Operation) -> Parts<'static>
    requires { has_output operation.now ≡ true }
    ensures name { result.name ≡ name_of (Simple operation.now) }
    ensures few { result.count ≤ 4 }
    ensures arguments { take result.count result.arguments ≡ arguments_of (Simple operation.now) }
    ensures registers { option_map (λ b. b.now) result.registers ≡ registers_of (Simple operation.now) }
{
    match *operation {
        Operation::Print { from } => of_one(Name::Print, from),
        Operation::Println { from } => of_one(Name::Println, from),
        Operation::Printint { from } => of_one(Name::Printint, from),
        Operation::Printbool { from } => of_one(Name::Printbool, from),
        Operation::Printchar { from } => of_one(Name::Printchar, from),
        Operation::Flush => zero(Name::Flush),
        Operation::Assert { condition } => of_one(Name::Assert, condition),
        _ => unreachable!(),
    }
}

/// A check, a hint or an allocation, by the table.
fn parts_of_heap(operation: &Operation) -> Parts<'static>
    requires { is_of_heap operation.now ≡ true }
    ensures name { result.name ≡ name_of (Simple operation.now) }
    ensures few { result.count ≤ 4 }
    ensures arguments { take result.count result.arguments ≡ arguments_of (Simple operation.now) }
    ensures registers { option_map (λ b. b.now) result.registers ≡ registers_of (Simple operation.now) }
{
    match *operation {
        Operation::CheckNull { register } => of_one(Name::CheckNull, register),
        Operation::CheckIndex {
            to,
            register: array,
            index,
            size,
        } => four(
            Name::CheckIndex,
            [register(to), register(array), register(index), number(size)],
        ),
        Operation::Len { to, register } => of_two(Name::Len, to, register),
        Operation::Prefetch {
            register: reference,
            offset,
            displacement,
        } => three(
            Name::Prefetch,
            register(reference),
            optional(offset),
            number(displacement),
        ),
        Operation::Alloc { to, layout } => two(Name::Alloc, register(to), number(layout)),
        Operation::AllocArray { to, layout, length } => three(
            Name::AllocArray,
            register(to),
            number(layout),
            register(length),
        ),
        _ => unreachable!(),
    }
}

/// A simple instruction, by the table.
fn parts_of_simple(operation: &Operation) -> Parts<'static>
    ensures name { result.name ≡ name_of (Simple operation.now) }
    ensures few { result.count ≤ 4 }
    ensures arguments { take result.count result.arguments ≡ arguments_of (Simple operation.now) }
    ensures registers { option_map (λ b. b.now) result.registers ≡ registers_of (Simple operation.now) }
{
    match *operation {
        Operation::Const { to, value } => {
            two(Name::Const, register(to), Argument::Integer(value))
        }
        Operation::TextOf { to, number: text } => two(Name::TextOf, register(to), number(text)),
        Operation::BoolOf { to, value } => two(Name::BoolOf, register(to), Argument::Truth(value)),
        Operation::CharOf { to, code } => {
            two(Name::CharOf, register(to), Argument::Character(code))
        }
        Operation::Null { to } => of_one(Name::Null, to),
        Operation::Move { to, from } => of_two(Name::Move, to, from),
        Operation::Binary {
            operator,
            to,
            left,
            right,
        } => of_three(Name::Binary(operator), to, left, right),
        Operation::Unary { operator, to, from } => of_two(Name::Unary(operator), to, from),
        Operation::Compare {
            relation,
            to,
            left,
            right,
        } => of_three(Name::Compare(relation), to, left, right),
        Operation::CheckNull { .. }
        | Operation::CheckIndex { .. }
        | Operation::Len { .. }
        | Operation::Prefetch { .. }
        | Operation::Alloc { .. }
        | Operation::AllocArray { .. } => parts_of_heap(operation),
        _ => parts_of_output(operation),
    }
}

fn parts_of_call(to: Option<u32>, function: u32, arguments: &[u32]) -> Parts<'_>
    ensures name { result.name ≡ name_of (Call to function arguments.now) }
    ensures few { result.count ≤ 4 }
    ensures arguments { take result.count result.arguments ≡ arguments_of (Call to function arguments.now) }
    ensures registers { option_map (λ b. b.now) result.registers ≡ registers_of (Call to function arguments.now) }
{
    let to = optional(to);
    Parts {
        name: Name::Call,
        arguments: [to, Argument::Function(function), to, to],
        count: 2,
        registers: Some(arguments),
    }
}

/// An instruction by the table.
pub fn parts_of(instruction: &Instruction) -> Parts<'_>
    ensures name { result.name ≡ name_of (instruction_of instruction.now) }
    ensures few { result.count ≤ 4 }
    ensures arguments { take result.count result.arguments ≡ arguments_of (instruction_of instruction.now) }
    ensures registers { option_map (λ b. b.now) result.registers ≡ registers_of (instruction_of instruction.now) }
{
    match instruction {
        Instruction::Simple(operation) => parts_of_simple(operation),
        Instruction::Aim {
            scope,
            register: reference,
            offset,
            displacement,
        } => four(
            Name::Aim,
            [
                aimed(*scope),
                register(*reference),
                optional(*offset),
                number(*displacement),
            ],
        ),
        Instruction::Load { to, scope } => two(Name::Load, register(*to), aimed(*scope)),
        Instruction::Store { scope, from } => { two(Name::Store, aimed(*scope), register(*from)) }
        Instruction::Leave { scope } => one(Name::Leave, aimed(*scope)),
        Instruction::Call {
            to,
            function,
            arguments,
        } => parts_of_call(*to, *function, arguments),
        Instruction::Jump { block } => one(Name::Jump, Argument::Block(*block)),
        Instruction::Branch {
            condition,
            then_block,
            else_block,
        } => three(
            Name::Branch,
            register(*condition),
            Argument::Block(*then_block),
            Argument::Block(*else_block),
        ),
        Instruction::Return { from } => of_one(Name::Return, *from),
        Instruction::ReturnVoid => zero(Name::ReturnVoid),
        Instruction::Error { text } => of_one(Name::Error, *text),
    }
}
