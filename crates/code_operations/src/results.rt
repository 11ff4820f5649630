//! Simple instructions that write a register, or nothing, and go on: what they write.
ghost use Rattle.code_form.specs.Code.{Goes, Stops, if_zero, indexes, natural, op_does};
ghost use Rattle.code_form.specs.declared.form.Operation.TheVariants as form;
ghost use Rattle.code_form.specs.Form.{Head};
ghost use Rattle.code_form.specs.declared.form.Operation.{Operation as OperationForm};
ghost use Rattle.code_operations.specs.Outcomes.{IsScalarOf, Reads, Tells};
ghost use Rattle.cells.specs.Stops.{Stop};
ghost use Rattle.std.specs.Prelude.{◌≡◌, []};

use crate::allocations::Allocations;
use crate::registers::Registers;
use crate::values::{cell_of, cell_of_truth, holds, natural_of, number};
use cells::Int32Op;
use code_form::{Operation, Relation, UnaryOperator};

/// What a simple instruction comes to whose operands fit.
#[derive(Clone, Copy)]
pub enum Outcome {
    /// A reference or an offset is written, or what another register holds.
    Sets { to: u32, value: u64 },
    /// A number, a truth value, a character or a text is written.
    SetsScalar { to: u32, value: u64 },
    Goes,
    /// It does more than to write a register, or stops the program.
    Other,
}

#[inline(always)]
fn sets(to: u32, value: u64) -> Outcome
    ensures { result ≡ Outcome.Sets to value }
{
    Outcome::Sets { to, value }
}

#[inline(always)]
fn sets_scalar(to: u32, value: u64) -> Outcome
    ensures { result ≡ Outcome.SetsScalar to value }
{
    Outcome::SetsScalar { to, value }
}

#[inline(always)]
fn binary<R: Registers>(registers: &R, operator: Int32Op, to: u32, left: u32, right: u32) -> Outcome
    requires { Reads (R.has registers.now) (form.Binary operator to left right) }
    ensures told { (H : Head) → Tells result (op_does H [] (R.values registers.now) (form.Binary operator to left right)) }
    ensures scalar { IsScalarOf result (form.Binary operator to left right) }
{
    let left = number(registers.value(left));
    let right = number(registers.value(right));
    match operator.apply(left, right) {
        Ok(value) => sets_scalar(to, cell_of(value)),
        Err(_) => Outcome::Other,
    }
}

#[inline(always)]
fn unary<R: Registers>(registers: &R, operator: UnaryOperator, to: u32, from: u32) -> Outcome
    requires { Reads (R.has registers.now) (form.Unary operator to from) }
    ensures told { (H : Head) → Tells result (op_does H [] (R.values registers.now) (form.Unary operator to from)) }
    ensures scalar { IsScalarOf result (form.Unary operator to from) }
{
    let value = registers.value(from);
    match operator {
        UnaryOperator::Negate => sets_scalar(to, cell_of(number(value).wrapping_neg())),
        UnaryOperator::Complement => sets_scalar(to, cell_of(!number(value))),
        UnaryOperator::Not => sets_scalar(to, if value == 0 { 1 } else { 0 }),
    }
}

#[inline(always)]
fn compare<R: Registers>(
    registers: &R,
    relation: Relation,
    to: u32,
    left: u32,
    right: u32,
) -> Outcome
    requires { Reads (R.has registers.now) (form.Compare relation to left right) }
    ensures told { (H : Head) → Tells result (op_does H [] (R.values registers.now) (form.Compare relation to left right)) }
    ensures scalar { IsScalarOf result (form.Compare relation to left right) }
{
    let holds = holds(relation, registers.value(left), registers.value(right));
    sets_scalar(to, cell_of_truth(holds))
}

/// Goes on where the value is not 0.
#[inline(always)]
fn goes_where(value: u64) -> Outcome
    ensures told { (s : Stop) → Tells result (if_zero value (Stops s) Goes) }
    ensures scalar { (o : OperationForm) → IsScalarOf result o }
{
    if value == 0 {
        Outcome::Other
    } else {
        Outcome::Goes
    }
}

/// The offset of an element, where the array of so many has it.
#[inline(always)]
fn index(to: u32, place: i32, length: u64, size: u32) -> Outcome
    ensures told { Tells result (indexes to (natural place) length size) }
    ensures scalar { (o : OperationForm) → IsScalarOf result o }
{
    match natural_of(place) {
        Some(place) if u64::from(place) < length => sets(to, u64::from(place) * u64::from(size)),
        _ => Outcome::Other,
    }
}

/// What a simple instruction comes to whose operands fit.
#[inline(always)]
pub fn outcome_of<R: Registers>(
    operation: &Operation,
    registers: &R,
    allocations: &Allocations,
) -> Outcome
    requires { Reads (R.has registers.now) operation.now }
    ensures told { (H : Head) → Tells result (op_does H allocations.now (R.values registers.now) operation.now) }
    ensures scalar { IsScalarOf result operation.now }
{
    match *operation {
        Operation::Const { to, value } => sets_scalar(to, cell_of(value)),
        Operation::TextOf { to, number } => sets_scalar(to, u64::from(number)),
        Operation::BoolOf { to, value } => sets_scalar(to, cell_of_truth(value)),
        Operation::CharOf { to, code } => sets_scalar(to, u64::from(code)),
        Operation::Null { to } => sets(to, 0),
        Operation::Move { to, from } => sets(to, registers.value(from)),
        Operation::Binary {
            operator,
            to,
            left,
            right,
        } => binary(registers, operator, to, left, right),
        Operation::Unary { operator, to, from } => unary(registers, operator, to, from),
        Operation::Compare {
            relation,
            to,
            left,
            right,
        } => compare(registers, relation, to, left, right),
        Operation::CheckNull { register } => goes_where(registers.value(register)),
        Operation::CheckIndex {
            to,
            register,
            index: place,
            size,
        } => {
            let length = allocations.length(registers.value(register));
            index(to, number(registers.value(place)), length, size)
        }
        Operation::Len { to, register } => {
            sets_scalar(to, allocations.length(registers.value(register)))
        }
        Operation::Assert { condition } => goes_where(registers.value(condition)),
        Operation::Flush => Outcome::Goes,
        _ => Outcome::Other,
    }
}
