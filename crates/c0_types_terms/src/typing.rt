//! What the static rules give of an expression, and where it stands.

use c0_typed::{Expression, Place};
use c0_types_tables::environment::Environment;
use c0_types_tables::names::Names;
use c0_types_tables::resolved::ResolvedType;
use std::alloc::Global;

/// An expression with its type, `void` for a call without a result; or one that has NULL's own type.
#[derive(Debug, Drop)]
pub enum Typing {
    Has(ResolvedType, Expression),
    Null(Expression),
}

/// A part of the heap, with the type that it holds.
#[derive(Debug, Drop)]
pub struct ResolvedPlace {
    pub resolved: ResolvedType,
    pub place: Place,
}

/// A local in scope.
#[derive(Debug, Drop)]
pub struct Local {
    pub name: String,
    pub number: u32,
    pub resolved: ResolvedType,
}

/// Where an expression stands: what is declared, the texts of the program, the locals in scope, and the type of `\result` inside
/// `ensures` of a function that has one.
#[derive(Drop)]
pub struct Terms<'a> {
    pub alloc: Global,
    pub environment: &'a Environment,
    pub texts: &'a Names,
    pub locals: &'a [Local],
    pub result: Option<&'a ResolvedType>,
}
