//! Constants and operators.
ghost use Rattle.lower_expressions.specs.Expressions.{code_relation as relation_of, constant_code as constant_with, constant_kind as kind_of_constant, print_code as print_with, result_register as register_for, swapped as number_of, unary_kind as kind_of_unary, unary_operator as operator_of};
ghost use Rattle.c0_typed.specs.Views.{type_of};
ghost use Rattle.lower_tables.specs.Tables.{AreNumbered};
ghost use Rattle.std.specs.Prelude.{◌≡◌, IfOk, map, string_bytes};

use c0_typed::{Constant, Output, PlainType, Relation, UnaryOperator, ValueType};
use code_form::{Kind, Operation};
use lower_tables::texts::text_number;
use std::alloc::AllocError;
use std::collections::BTreeMap;

/// The kind of a constant.
pub(crate) fn constant_kind(constant: Constant) -> Kind
    ensures { result ≡ kind_of_constant constant }
{
    match constant {
        Constant::Number(_) => Kind::Int,
        Constant::Truth(_) => Kind::Bool,
        Constant::Letter(_) => Kind::Char,
        Constant::Text(_) => Kind::Text,
    }
}

/// A constant into a register, in a program with these texts and their numbers.
pub(crate) fn constant_code(
    texts: &[String],
    numbers: &BTreeMap<String, u32>,
    constant: Constant,
    to: u32,
) -> Operation
    requires { AreNumbered (map string_bytes texts.now) numbers.now }
    ensures { result ≡ constant_with (map string_bytes texts.now) constant to }
{
    match constant {
        Constant::Number(value) => Operation::Const { to, value },
        Constant::Truth(value) => Operation::BoolOf { to, value },
        Constant::Letter(code) => Operation::CharOf { to, code },
        Constant::Text(text) => {
            let number = text_number(texts, numbers, text);
            Operation::TextOf { to, number }
        }
    }
}

/// The kind of an operator's value.
pub(crate) fn unary_kind(operator: UnaryOperator) -> Kind
    ensures { result ≡ kind_of_unary operator }
{
    match operator {
        UnaryOperator::Not => Kind::Bool,
        UnaryOperator::Negate | UnaryOperator::Complement => Kind::Int,
    }
}

/// An operator on one value.
pub(crate) fn unary_operator(operator: UnaryOperator) -> code_form::UnaryOperator
    ensures { result ≡ operator_of operator }
{
    match operator {
        UnaryOperator::Negate => code_form::UnaryOperator::Negate,
        UnaryOperator::Complement => code_form::UnaryOperator::Complement,
        UnaryOperator::Not => code_form::UnaryOperator::Not,
    }
}

/// A comparison.
pub(crate) fn code_relation(relation: Relation) -> code_form::Relation
    ensures { result ≡ relation_of relation }
{
    match relation {
        Relation::Equal => code_form::Relation::Equal,
        Relation::Unequal => code_form::Relation::NotEqual,
        Relation::Below => code_form::Relation::Less,
        Relation::AtMost => code_form::Relation::LessOrEqual,
        Relation::Above => code_form::Relation::Greater,
        Relation::AtLeast => code_form::Relation::GreaterOrEqual,
    }
}

/// A call of the library that prints what the first of these registers holds.
pub(crate) fn print_code(output: Output, registers: &[u32]) -> Operation
    ensures { result ≡ print_with output registers.now }
{
    let Some(from) = registers.first() else {
        return Operation::Flush;
    };
    let from = *from;
    match output {
        Output::Print => Operation::Print { from },
        Output::Println => Operation::Println { from },
        Output::Printint => Operation::Printint { from },
        Output::Printbool => Operation::Printbool { from },
        Output::Printchar => Operation::Printchar { from },
        Output::Flush => Operation::Flush,
    }
}

/// The register for the result of a function of this type.
pub(crate) fn result_register(ty: &ValueType, to: u32) -> Option<u32>
    ensures { result ≡ register_for (type_of ty.now) to }
{
    match ty {
        ValueType::Plain(PlainType::Void) => None,
        ValueType::Plain(_) | ValueType::Pointer(_) | ValueType::Array(_) => Some(to),
    }
}

/// The number in the code of a function of the text: `main` and what stood first change places.
pub(crate) fn swapped(main: usize, function: u32) -> Result<u32, AllocError>
    ensures { IfOk result (λ n. n ≡ number_of main function) }
{
    if function as usize == main {
        return Ok(0);
    }
    if function != 0 {
        return Ok(function);
    }
    let Ok(main) = u32::try_from(main) else {
        return Err(AllocError);
    };
    Ok(main)
}
