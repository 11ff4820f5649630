//! A program that no text reads as, since it reads a local that it has not assigned.

use c0_meaning::mean;
use c0_typed::{Expression, Function, PlainType, Statement, Typed, ValueType};
use std::alloc::{AllocError, Global};
use std::fmt::Write;

/// `int main() { bool b; int x; return .. }`, which returns what the local of this number holds.
fn main_with(alloc: Global, local: u32) -> Result<Function, AllocError> {
    let mut locals = Vec::with_capacity(alloc, 2)?;
    locals.push_reserved(ValueType::Plain(PlainType::Bool));
    locals.push_reserved(ValueType::Plain(PlainType::Int));
    let mut body = Vec::with_capacity(alloc, 1)?;
    body.push_reserved(Statement::ReturnValue(Expression::Local(local)));
    Ok(Function {
        result: ValueType::Plain(PlainType::Int),
        parameters: Vec::new(alloc),
        locals,
        preconditions: Vec::new(alloc),
        postconditions: Vec::new(alloc),
        body,
    })
}

/// The program that is this function.
fn program(alloc: Global, main: Function) -> Result<Typed, AllocError> {
    let mut functions = Vec::with_capacity(alloc, 1)?;
    functions.push_reserved(main);
    Ok(Typed {
        structs: Vec::new(alloc),
        functions,
        texts: Vec::new(alloc),
        main: 0,
    })
}

/// What the program means that returns the local of this number, which is not assigned: how it ends, and how much it prints.
pub(crate) fn put_unassigned(
    alloc: Global,
    number: &str,
    told: &mut String,
) -> Result<(), AllocError> {
    let Ok(local) = number.parse() else {
        return told.push_str("no local");
    };
    let program = program(alloc, main_with(alloc, local)?)?;
    let Ok(meant) = mean(alloc, &program, false, 1) else {
        return Err(AllocError);
    };
    let printed = meant.output.len();
    match &meant.stop {
        Some(stop) => write!(told, "{stop}, {printed} bytes"),
        None => told.push_str("cut"),
    }
}
