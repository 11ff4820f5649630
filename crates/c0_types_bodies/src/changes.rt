//! The operators that change what a destination holds, and which destinations hold a number.

ghost use Rattle.std.specs.Prelude.{◌≡◌, List, IfErr, false, is_ok};
ghost use Rattle.c0_types_bodies.specs.Bodies.{InUpdated, NoNumber, destination_of};
ghost use Rattle.c0_rules.specs.Expressions.{operator_rule};
ghost use Rattle.c0_rules.specs.FaultStatements.{destination_type};
ghost use Rattle.c0_rules.specs.Statements.{change_of, step_of};
ghost use Rattle.c0_rules.specs.Types.{IntType, Name as Word, same_type};
ghost use Rattle.c0_types_tables.specs.Views.{resolved_of};

use crate::scope::Destination;
use c0_source::fault::{Fault, FaultKind, Span};
use c0_source::kind::Operator;
use c0_syntax::operator::Change;
use c0_types_tables::resolved::ResolvedType;
use cells::Int32Op;

/// The operator of `op=`, which works on numbers.
pub fn change_of_operator(operator: Operator) -> Option<Int32Op>
    ensures { result ≡ change_of (operator_rule operator) }
{
    match operator {
        Operator::BitOr => Some(Int32Op::Or),
        Operator::BitXor => Some(Int32Op::Xor),
        Operator::BitAnd => Some(Int32Op::And),
        Operator::ShiftLeft => Some(Int32Op::Shl),
        Operator::ShiftRight => Some(Int32Op::Shr),
        Operator::Add => Some(Int32Op::Add),
        Operator::Subtract => Some(Int32Op::Sub),
        Operator::Multiply => Some(Int32Op::Mul),
        Operator::Divide => Some(Int32Op::Div),
        Operator::Modulo => Some(Int32Op::Mod),
        Operator::Or | Operator::And => None,
        Operator::Equal | Operator::NotEqual => None,
        Operator::Less | Operator::LessEqual | Operator::Greater | Operator::GreaterEqual => None,
    }
}

/// The operator of `++` or `--`.
pub fn operator_of_step(change: Change) -> Int32Op
    ensures { result ≡ step_of change }
{
    match change {
        Change::Increment => Int32Op::Add,
        Change::Decrement => Int32Op::Sub,
    }
}

/// Why a value of this type at this place is not changed by an operator on numbers.
pub fn no_number(resolved: &ResolvedType, span: Span) -> Fault
    ensures { same_type (resolved_of resolved.now) IntType ≡ false → NoNumber result (resolved_of resolved.now) span }
{
    let kind = if resolved.is_small() {
        FaultKind::TypeMismatch
    } else {
        FaultKind::NotSmall
    };
    Fault { kind, span }
}

/// A destination at this place holds a number.
pub fn check_number(destination: &Destination<'_>, span: Span) -> Result<(), Fault>
    ensures number { (texts : List Word) → is_ok result ≡ same_type (destination_type (destination_of texts destination.now)) IntType }
    ensures cause { (texts : List Word) → IfErr result (λ f. InUpdated f (destination_of texts destination.now) span) }
{
    let resolved = match destination {
        Destination::Local(local) => &local.resolved,
        Destination::Place(found) => &found.resolved,
    };
    if resolved.same_as(&ResolvedType::INT) {
        return Ok(());
    }
    Err(no_number(resolved, span))
}
