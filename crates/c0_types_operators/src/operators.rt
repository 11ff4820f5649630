//! What each operator works on.

ghost use Rattle.std.specs.Prelude.{◌≡◌};
ghost use Rattle.c0_typed.specs.Views.{relation_of};
ghost use Rattle.c0_rules.specs.Expressions as x;
ghost use Rattle.c0_types_operators.specs.Operators.{rule_of};
ghost use Rattle.c0_types_tables.specs.Views.{resolved_of};

use c0_source::kind::Operator;
use c0_typed::Relation;
use c0_types_tables::resolved::{ResolvedPlain, ResolvedType};
use cells::Int32Op;

/// What an operator between two operands works on.
#[derive(Clone, Copy, Debug, PartialEq, Eq)]
pub enum OperatorRule {
    OnNumbers(Int32Op),
    Compares(Relation),
    Conjunction,
    Disjunction,
}

/// The rule of each operator.
pub fn operator_rule(operator: Operator) -> OperatorRule
    ensures { rule_of result ≡ x.operator_rule operator }
{
    match operator {
        Operator::Or => OperatorRule::Disjunction,
        Operator::And => OperatorRule::Conjunction,
        Operator::BitOr => OperatorRule::OnNumbers(Int32Op::Or),
        Operator::BitXor => OperatorRule::OnNumbers(Int32Op::Xor),
        Operator::BitAnd => OperatorRule::OnNumbers(Int32Op::And),
        Operator::Equal => OperatorRule::Compares(Relation::Equal),
        Operator::NotEqual => OperatorRule::Compares(Relation::Unequal),
        Operator::Less => OperatorRule::Compares(Relation::Below),
        Operator::LessEqual => OperatorRule::Compares(Relation::AtMost),
        Operator::Greater => OperatorRule::Compares(Relation::Above),
        Operator::GreaterEqual => OperatorRule::Compares(Relation::AtLeast),
        Operator::ShiftLeft => OperatorRule::OnNumbers(Int32Op::Shl),
        Operator::ShiftRight => OperatorRule::OnNumbers(Int32Op::Shr),
        Operator::Add => OperatorRule::OnNumbers(Int32Op::Add),
        Operator::Subtract => OperatorRule::OnNumbers(Int32Op::Sub),
        Operator::Multiply => OperatorRule::OnNumbers(Int32Op::Mul),
        Operator::Divide => OperatorRule::OnNumbers(Int32Op::Div),
        Operator::Modulo => OperatorRule::OnNumbers(Int32Op::Mod),
    }
}

/// Whether a comparison is one of equality.
pub fn is_equality(relation: Relation) -> bool
    ensures { result ≡ x.is_equality (relation_of relation) }
{
    match relation {
        Relation::Equal | Relation::Unequal => true,
        Relation::Below | Relation::AtMost | Relation::Above | Relation::AtLeast => false,
    }
}

/// Whether values of a type may be compared so: equality takes all small types but strings, order numbers and characters.
pub fn is_compared(relation: Relation, resolved: &ResolvedType) -> bool
    ensures { result ≡ x.is_compared (relation_of relation) (resolved_of resolved.now) }
{
    match resolved {
        ResolvedType::Plain(plain) => match plain {
            ResolvedPlain::Void | ResolvedPlain::Struct(_) | ResolvedPlain::Text => false,
            ResolvedPlain::Int | ResolvedPlain::Char => true,
            ResolvedPlain::Bool => is_equality(relation),
        },
        ResolvedType::Pointer(_) | ResolvedType::Array(_) => is_equality(relation),
    }
}
