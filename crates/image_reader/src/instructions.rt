//! What stands behind the code of an instruction.
ghost use Rattle.code_form.specs.Form.{instruction_of};
ghost use Rattle.image_reader.specs.Outcome.{Gives};
ghost use Rattle.image_reader.specs.Reading.{instruction_at, named};
ghost use Rattle.instruction_table.specs.declared.name.Name.TheVariants as n;
ghost use Rattle.std.specs.Prelude.{Some};

use crate::failure::Failure;
use crate::fields::{byte_of, integer_of, letter_of, number_of, optional_of, place_of, truth_of};
use crate::lists::registers_of;
use cells::Int32Op;
use code_form::{Instruction, Operation, Relation, UnaryOperator};
use instruction_table::{ImageFault, Name, name_of_code};
use std::alloc::Global;

fn constant(bytes: &[u8]) -> Result<(Instruction, &[u8]), Failure>
    ensures { Gives (λ x. (instruction_of x.0, x.1.now)) result (named (Some n.Const) bytes.now) }
{
    let (to, rest) = number_of(bytes)?;
    let (value, rest) = integer_of(rest)?;
    Ok((Instruction::Simple(Operation::Const { to, value }), rest))
}

fn text(bytes: &[u8]) -> Result<(Instruction, &[u8]), Failure>
    ensures { Gives (λ x. (instruction_of x.0, x.1.now)) result (named (Some n.TextOf) bytes.now) }
{
    let (to, rest) = number_of(bytes)?;
    let (number, rest) = number_of(rest)?;
    Ok((Instruction::Simple(Operation::TextOf { to, number }), rest))
}

fn truth(bytes: &[u8]) -> Result<(Instruction, &[u8]), Failure>
    ensures { Gives (λ x. (instruction_of x.0, x.1.now)) result (named (Some n.BoolOf) bytes.now) }
{
    let (to, rest) = number_of(bytes)?;
    let (value, rest) = truth_of(rest)?;
    Ok((Instruction::Simple(Operation::BoolOf { to, value }), rest))
}

fn character(bytes: &[u8]) -> Result<(Instruction, &[u8]), Failure>
    ensures { Gives (λ x. (instruction_of x.0, x.1.now)) result (named (Some n.CharOf) bytes.now) }
{
    let (to, rest) = number_of(bytes)?;
    let (code, rest) = letter_of(rest)?;
    Ok((Instruction::Simple(Operation::CharOf { to, code }), rest))
}

fn null(bytes: &[u8]) -> Result<(Instruction, &[u8]), Failure>
    ensures { Gives (λ x. (instruction_of x.0, x.1.now)) result (named (Some n.Null) bytes.now) }
{
    let (to, rest) = number_of(bytes)?;
    Ok((Instruction::Simple(Operation::Null { to }), rest))
}

fn moves(bytes: &[u8]) -> Result<(Instruction, &[u8]), Failure>
    ensures { Gives (λ x. (instruction_of x.0, x.1.now)) result (named (Some n.Move) bytes.now) }
{
    let (to, rest) = number_of(bytes)?;
    let (from, rest) = number_of(rest)?;
    Ok((Instruction::Simple(Operation::Move { to, from }), rest))
}

fn binary(operator: Int32Op, bytes: &[u8]) -> Result<(Instruction, &[u8]), Failure>
    ensures { Gives (λ x. (instruction_of x.0, x.1.now)) result (named (Some (n.Binary operator)) bytes.now) }
{
    let (to, rest) = number_of(bytes)?;
    let (left, rest) = number_of(rest)?;
    let (right, rest) = number_of(rest)?;
    let instruction = Instruction::Simple(Operation::Binary {
        operator,
        to,
        left,
        right,
    });
    Ok((instruction, rest))
}

fn unary(operator: UnaryOperator, bytes: &[u8]) -> Result<(Instruction, &[u8]), Failure>
    ensures { Gives (λ x. (instruction_of x.0, x.1.now)) result (named (Some (n.Unary operator)) bytes.now) }
{
    let (to, rest) = number_of(bytes)?;
    let (from, rest) = number_of(rest)?;
    let instruction = Instruction::Simple(Operation::Unary { operator, to, from });
    Ok((instruction, rest))
}

fn compare(relation: Relation, bytes: &[u8]) -> Result<(Instruction, &[u8]), Failure>
    ensures { Gives (λ x. (instruction_of x.0, x.1.now)) result (named (Some (n.Compare relation)) bytes.now) }
{
    let (to, rest) = number_of(bytes)?;
    let (left, rest) = number_of(rest)?;
    let (right, rest) = number_of(rest)?;
    let instruction = Instruction::Simple(Operation::Compare {
        relation,
        to,
        left,
        right,
    });
    Ok((instruction, rest))
}

fn check_null(bytes: &[u8]) -> Result<(Instruction, &[u8]), Failure>
    ensures { Gives (λ x. (instruction_of x.0, x.1.now)) result (named (Some n.CheckNull) bytes.now) }
{
    let (register, rest) = number_of(bytes)?;
    Ok((Instruction::Simple(Operation::CheckNull { register }), rest))
}

fn check_index(bytes: &[u8]) -> Result<(Instruction, &[u8]), Failure>
    ensures { Gives (λ x. (instruction_of x.0, x.1.now)) result (named (Some n.CheckIndex) bytes.now) }
{
    let (to, rest) = number_of(bytes)?;
    let (register, rest) = number_of(rest)?;
    let (index, rest) = number_of(rest)?;
    let (size, rest) = number_of(rest)?;
    let instruction = Instruction::Simple(Operation::CheckIndex {
        to,
        register,
        index,
        size,
    });
    Ok((instruction, rest))
}

fn length_of(bytes: &[u8]) -> Result<(Instruction, &[u8]), Failure>
    ensures { Gives (λ x. (instruction_of x.0, x.1.now)) result (named (Some n.Len) bytes.now) }
{
    let (to, rest) = number_of(bytes)?;
    let (register, rest) = number_of(rest)?;
    Ok((Instruction::Simple(Operation::Len { to, register }), rest))
}

fn aim(bytes: &[u8]) -> Result<(Instruction, &[u8]), Failure>
    ensures { Gives (λ x. (instruction_of x.0, x.1.now)) result (named (Some n.Aim) bytes.now) }
{
    let (scope, rest) = byte_of(bytes)?;
    let ((register, offset, displacement), rest) = place_of(rest)?;
    let instruction = Instruction::Aim {
        scope,
        register,
        offset,
        displacement,
    };
    Ok((instruction, rest))
}

fn load(bytes: &[u8]) -> Result<(Instruction, &[u8]), Failure>
    ensures { Gives (λ x. (instruction_of x.0, x.1.now)) result (named (Some n.Load) bytes.now) }
{
    let (to, rest) = number_of(bytes)?;
    let (scope, rest) = byte_of(rest)?;
    Ok((Instruction::Load { to, scope }, rest))
}

fn store(bytes: &[u8]) -> Result<(Instruction, &[u8]), Failure>
    ensures { Gives (λ x. (instruction_of x.0, x.1.now)) result (named (Some n.Store) bytes.now) }
{
    let (scope, rest) = byte_of(bytes)?;
    let (from, rest) = number_of(rest)?;
    Ok((Instruction::Store { scope, from }, rest))
}

fn leave(bytes: &[u8]) -> Result<(Instruction, &[u8]), Failure>
    ensures { Gives (λ x. (instruction_of x.0, x.1.now)) result (named (Some n.Leave) bytes.now) }
{
    let (scope, rest) = byte_of(bytes)?;
    Ok((Instruction::Leave { scope }, rest))
}

fn prefetch(bytes: &[u8]) -> Result<(Instruction, &[u8]), Failure>
    ensures { Gives (λ x. (instruction_of x.0, x.1.now)) result (named (Some n.Prefetch) bytes.now) }
{
    let ((register, offset, displacement), rest) = place_of(bytes)?;
    let instruction = Instruction::Simple(Operation::Prefetch {
        register,
        offset,
        displacement,
    });
    Ok((instruction, rest))
}

fn alloc_struct(bytes: &[u8]) -> Result<(Instruction, &[u8]), Failure>
    ensures { Gives (λ x. (instruction_of x.0, x.1.now)) result (named (Some n.Alloc) bytes.now) }
{
    let (to, rest) = number_of(bytes)?;
    let (layout, rest) = number_of(rest)?;
    Ok((Instruction::Simple(Operation::Alloc { to, layout }), rest))
}

fn alloc_array(bytes: &[u8]) -> Result<(Instruction, &[u8]), Failure>
    ensures { Gives (λ x. (instruction_of x.0, x.1.now)) result (named (Some n.AllocArray) bytes.now) }
{
    let (to, rest) = number_of(bytes)?;
    let (layout, rest) = number_of(rest)?;
    let (length, rest) = number_of(rest)?;
    let instruction = Instruction::Simple(Operation::AllocArray { to, layout, length });
    Ok((instruction, rest))
}

fn print(bytes: &[u8]) -> Result<(Instruction, &[u8]), Failure>
    ensures { Gives (λ x. (instruction_of x.0, x.1.now)) result (named (Some n.Print) bytes.now) }
{
    let (from, rest) = number_of(bytes)?;
    Ok((Instruction::Simple(Operation::Print { from }), rest))
}

fn println(bytes: &[u8]) -> Result<(Instruction, &[u8]), Failure>
    ensures { Gives (λ x. (instruction_of x.0, x.1.now)) result (named (Some n.Println) bytes.now) }
{
    let (from, rest) = number_of(bytes)?;
    Ok((Instruction::Simple(Operation::Println { from }), rest))
}

fn printint(bytes: &[u8]) -> Result<(Instruction, &[u8]), Failure>
    ensures { Gives (λ x. (instruction_of x.0, x.1.now)) result (named (Some n.Printint) bytes.now) }
{
    let (from, rest) = number_of(bytes)?;
    Ok((Instruction::Simple(Operation::Printint { from }), rest))
}

fn printbool(bytes: &[u8]) -> Result<(Instruction, &[u8]), Failure>
    ensures { Gives (λ x. (instruction_of x.0, x.1.now)) result (named (Some n.Printbool) bytes.now) }
{
    let (from, rest) = number_of(bytes)?;
    Ok((Instruction::Simple(Operation::Printbool { from }), rest))
}

fn printchar(bytes: &[u8]) -> Result<(Instruction, &[u8]), Failure>
    ensures { Gives (λ x. (instruction_of x.0, x.1.now)) result (named (Some n.Printchar) bytes.now) }
{
    let (from, rest) = number_of(bytes)?;
    Ok((Instruction::Simple(Operation::Printchar { from }), rest))
}

fn flush(bytes: &[u8]) -> Result<(Instruction, &[u8]), Failure>
    ensures { Gives (λ x. (instruction_of x.0, x.1.now)) result (named (Some n.Flush) bytes.now) }
{
    Ok((Instruction::Simple(Operation::Flush), bytes))
}

fn assertion(bytes: &[u8]) -> Result<(Instruction, &[u8]), Failure>
    ensures { Gives (λ x. (instruction_of x.0, x.1.now)) result (named (Some n.Assert) bytes.now) }
{
    let (condition, rest) = number_of(bytes)?;
    Ok((Instruction::Simple(Operation::Assert { condition }), rest))
}

fn jump(bytes: &[u8]) -> Result<(Instruction, &[u8]), Failure>
    ensures { Gives (λ x. (instruction_of x.0, x.1.now)) result (named (Some n.Jump) bytes.now) }
{
    let (block, rest) = number_of(bytes)?;
    Ok((Instruction::Jump { block }, rest))
}

fn branches(bytes: &[u8]) -> Result<(Instruction, &[u8]), Failure>
    ensures { Gives (λ x. (instruction_of x.0, x.1.now)) result (named (Some n.Branch) bytes.now) }
{
    let (condition, rest) = number_of(bytes)?;
    let (then_block, rest) = number_of(rest)?;
    let (else_block, rest) = number_of(rest)?;
    let instruction = Instruction::Branch {
        condition,
        then_block,
        else_block,
    };
    Ok((instruction, rest))
}

fn returns(bytes: &[u8]) -> Result<(Instruction, &[u8]), Failure>
    ensures { Gives (λ x. (instruction_of x.0, x.1.now)) result (named (Some n.Return) bytes.now) }
{
    let (from, rest) = number_of(bytes)?;
    Ok((Instruction::Return { from }, rest))
}

fn returns_void(bytes: &[u8]) -> Result<(Instruction, &[u8]), Failure>
    ensures { Gives (λ x. (instruction_of x.0, x.1.now)) result (named (Some n.ReturnVoid) bytes.now) }
{
    Ok((Instruction::ReturnVoid, bytes))
}

fn error(bytes: &[u8]) -> Result<(Instruction, &[u8]), Failure>
    ensures { Gives (λ x. (instruction_of x.0, x.1.now)) result (named (Some n.Error) bytes.now) }
{
    let (text, rest) = number_of(bytes)?;
    Ok((Instruction::Error { text }, rest))
}

fn call(alloc: Global, bytes: &[u8]) -> Result<(Instruction, &[u8]), Failure>
    ensures { Gives (λ x. (instruction_of x.0, x.1.now)) result (named (Some n.Call) bytes.now) }
{
    let (to, rest) = optional_of(bytes)?;
    let (function, rest) = number_of(rest)?;
    let (arguments, rest) = registers_of(alloc, rest)?;
    let instruction = Instruction::Call {
        to,
        function,
        arguments,
    };
    Ok((instruction, rest))
}

/// The instruction with this name.
fn named_of(alloc: Global, name: Name, bytes: &[u8]) -> Result<(Instruction, &[u8]), Failure>
    ensures { Gives (λ x. (instruction_of x.0, x.1.now)) result (named (Some name) bytes.now) }
{
    match name {
        Name::Const => constant(bytes),
        Name::TextOf => text(bytes),
        Name::BoolOf => truth(bytes),
        Name::CharOf => character(bytes),
        Name::Null => null(bytes),
        Name::Move => moves(bytes),
        Name::Binary(operator) => binary(operator, bytes),
        Name::Unary(operator) => unary(operator, bytes),
        Name::Compare(relation) => compare(relation, bytes),
        Name::CheckNull => check_null(bytes),
        Name::CheckIndex => check_index(bytes),
        Name::Len => length_of(bytes),
        Name::Aim => aim(bytes),
        Name::Load => load(bytes),
        Name::Store => store(bytes),
        Name::Leave => leave(bytes),
        Name::Prefetch => prefetch(bytes),
        Name::Alloc => alloc_struct(bytes),
        Name::AllocArray => alloc_array(bytes),
        Name::Call => call(alloc, bytes),
        Name::Print => print(bytes),
        Name::Println => println(bytes),
        Name::Printint => printint(bytes),
        Name::Printbool => printbool(bytes),
        Name::Printchar => printchar(bytes),
        Name::Flush => flush(bytes),
        Name::Assert => assertion(bytes),
        Name::Jump => jump(bytes),
        Name::Branch => branches(bytes),
        Name::Return => returns(bytes),
        Name::ReturnVoid => returns_void(bytes),
        Name::Error => error(bytes),
    }
}

/// An instruction.
#[tactic(auto, unfolding(crate::specs::Reading::instruction_at))]
pub(crate) fn instruction_from(alloc: Global, bytes: &[u8]) -> Result<(Instruction, &[u8]), Failure>
    ensures { Gives (λ x. (instruction_of x.0, x.1.now)) result (instruction_at bytes.now) }
{
    let (code, rest) = byte_of(bytes)?;
    match name_of_code(code) {
        Some(name) => named_of(alloc, name, rest),
        None => Err(Failure::Fault(ImageFault::BadOp)),
    }
}
