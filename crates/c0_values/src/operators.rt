//! The operators of the plain run.
ghost use Rattle.std.specs.Prelude.{◌≡◌, neg_ℤ};
ghost use Rattle.cells.specs.Numbers.{wrap32};
ghost use Rattle.cells.specs.Stops.{ArithFault};
ghost use Rattle.c0_typed.specs.Meaning.{State, binary_value as binary_of, relation_value, unary_value as unary_value_of, value_or};
ghost use Rattle.c0_typed.specs.Views.{relation_of, unary_of};
ghost use Rattle.c0_values.specs.PlainStates.{Agrees, Texts, value_of};

use crate::plain_state::Halt;
use crate::value::Value;
use c0_typed::{Relation, UnaryOperator};
use cells::{Int32Op, Stop};

/// What is left of the opposite number in 32 bits.
fn negated(number: i32) -> i32
    ensures { result ≡ wrap32 (neg_ℤ number) }
{
    number.wrapping_neg()
}

/// The value of an operator on one value.
pub fn unary_value(operator: UnaryOperator, value: Value) -> Value
    ensures { (texts : Texts) → value_of texts result ≡ unary_value_of (unary_of operator) (value_of texts value) }
{
    match operator {
        UnaryOperator::Negate => Value::Number(negated(value.number())),
        UnaryOperator::Complement => Value::Number(!value.number()),
        UnaryOperator::Not => Value::Truth(!value.truth()),
    }
}

/// The value of an operator on two numbers.
pub fn binary_value(operator: Int32Op, left: Value, right: Value) -> Result<Value, Halt>
    ensures { (texts : Texts) (s : State) → Agrees (value_of texts) result (value_or ArithFault (binary_of operator (value_of texts left) (value_of texts right)) s) s }
{
    match operator.apply(left.number(), right.number()) {
        Ok(number) => Ok(Value::Number(number)),
        Err(_) => Err(Halt::Stopped(Stop::ArithFault)),
    }
}

/// The value of a comparison.
pub fn compare(relation: Relation, left: Value, right: Value) -> bool
    ensures { (texts : Texts) → result ≡ relation_value (relation_of relation) (value_of texts left) (value_of texts right) }
{
    match relation {
        Relation::Equal => left.is_same(right),
        Relation::Unequal => !left.is_same(right),
        Relation::Below => left.is_below(right),
        Relation::AtMost => !right.is_below(left),
        Relation::Above => right.is_below(left),
        Relation::AtLeast => !left.is_below(right),
    }
}
