//! Which parts of typed trees are the same.

use c0_typed::{
    Constant, Levels, Output, PlainType, Relation, Target, UnaryOperator, ValueType, layouts,
    more_turns, sound,
};
use std::alloc::{AllocError, Global};
use std::fmt::{Debug, Write};
use std::sync::Arc;

const UNARY_OPERATORS: [UnaryOperator; 3] = [
    UnaryOperator::Negate,
    UnaryOperator::Complement,
    UnaryOperator::Not,
];

const RELATIONS: [Relation; 6] = [
    Relation::Equal,
    Relation::Unequal,
    Relation::Below,
    Relation::AtMost,
    Relation::Above,
    Relation::AtLeast,
];

const OUTPUTS: [Output; 6] = [
    Output::Print,
    Output::Println,
    Output::Printint,
    Output::Printbool,
    Output::Printchar,
    Output::Flush,
];

const CONSTANTS: [Constant; 5] = [
    Constant::Number(1),
    Constant::Truth(true),
    Constant::Letter(1),
    Constant::Text(0),
    Constant::Text(1),
];

/// Puts the type behind others.
fn put_type(types: &mut Vec<ValueType>, added: ValueType) -> Result<(), AllocError> {
    types.push(added)?;
    Ok(())
}

/// Some types, of which the last is the fourth again.
fn types(alloc: Global) -> Result<Vec<ValueType>, AllocError> {
    let mut types = Vec::new(alloc);
    put_type(&mut types, ValueType::Plain(PlainType::Int))?;
    put_type(&mut types, ValueType::Plain(PlainType::Struct(0)))?;
    put_type(&mut types, ValueType::Plain(PlainType::Struct(1)))?;
    let of_truths = ValueType::Array(Target::of_plain(alloc, PlainType::Bool)?);
    put_type(&mut types, of_truths)?;
    let number = Target::of_plain(alloc, PlainType::Int)?;
    let pointer = Target {
        levels: Arc::new(alloc, Levels::Pointer(number.levels))?,
        innermost: PlainType::Int,
    };
    put_type(&mut types, ValueType::Pointer(pointer))?;
    let again = ValueType::Array(Target::of_plain(alloc, PlainType::Bool)?);
    put_type(&mut types, again)?;
    Ok(types)
}

/// A 1 for each of these that is the same as this one, else a 0.
fn put_marks<T: PartialEq>(item: &T, items: &[T], told: &mut String) -> Result<(), AllocError> {
    for other in items {
        told.push(if item == other { '1' } else { '0' })?;
    }
    Ok(())
}

/// Each of these, and which of them are the same.
fn put_each<T: Debug + PartialEq>(items: &[T], told: &mut String) -> Result<(), AllocError> {
    for item in items {
        if !told.is_empty() {
            told.push('\n')?;
        }
        put_marks(item, items, told)?;
        write!(told, " {item:?}")?;
    }
    Ok(())
}

/// The things of this name.
pub(crate) fn put_same(alloc: Global, name: &str, told: &mut String) -> Result<(), AllocError> {
    // For the proof alone: these laws hold with no condition.
    sound();
    layouts();
    more_turns();
    match name {
        "unary operators" => put_each(&UNARY_OPERATORS, told),
        "relations" => put_each(&RELATIONS, told),
        "outputs" => put_each(&OUTPUTS, told),
        "constants" => put_each(&CONSTANTS, told),
        "types" => put_each(&types(alloc)?, told),
        _ => told.push_str("no such things"),
    }
}
