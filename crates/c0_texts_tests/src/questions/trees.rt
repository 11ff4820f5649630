//! What is told of the tree that a text reads as.

use c0_front::read_text;
use c0_source::fault::Fault;
use c0_syntax::expression::{Expression, ExpressionKind};
use c0_syntax::level::Level;
use c0_syntax::program::{Declaration, DeclarationKind};
use c0_syntax::statement::{Statement, StatementKind};
use std::alloc::{AllocError, Global};

/// The tree of a text, with the places of its parts.
pub(crate) fn tree(alloc: Global, text: &[u8]) -> Result<Vec<u8>, Fault> {
    let program = read_text(alloc, text, Level::C0)?;
    Ok(format!(in alloc; "{program:?}")?.into_bytes())
}

/// A line for each expression that the functions of a text return: its operator, and which of the two operands has one itself.
pub(crate) fn shapes(alloc: Global, text: &[u8]) -> Result<Vec<u8>, Fault> {
    let program = read_text(alloc, text, Level::C0)?;
    let mut shown = Vec::new(alloc);
    show(&program.declarations, &mut shown)?;
    Ok(shown)
}

/// Puts the shapes of all that functions return behind what is shown.
fn show(declarations: &[Declaration], shown: &mut Vec<u8>) -> Result<(), AllocError> {
    for declaration in declarations {
        if let DeclarationKind::DefineFunction(_, body) = &declaration.kind {
            show_returned(body, shown)?;
        }
    }
    Ok(())
}

/// Puts the shapes of all that these statements return behind what is shown.
fn show_returned(body: &[Statement], shown: &mut Vec<u8>) -> Result<(), AllocError> {
    for statement in body {
        if let StatementKind::ReturnValue(value) = &statement.kind {
            show_shape(value, shown)?;
        }
    }
    Ok(())
}

/// Puts the operator of an expression, and which of its operands has one, behind what is shown, on a line of its own.
fn show_shape(value: &Expression, shown: &mut Vec<u8>) -> Result<(), AllocError> {
    let alloc = *shown.allocator();
    if !shown.is_empty() {
        shown.push(b'\n')?;
    }
    let ExpressionKind::Binary(operator, first, second) = &value.kind else {
        return shown.extend_from_slice(b"otherwise");
    };
    let inner = match (is_binary(first), is_binary(second)) {
        (true, false) => "first",
        (false, true) => "second",
        (true, true) => "both",
        (false, false) => "none",
    };
    let line = format!(in alloc; "{operator:?} {inner}")?;
    shown.extend_from_slice(line.as_bytes())
}

/// Whether an expression has an operator between two operands.
fn is_binary(value: &Expression) -> bool {
    matches!(&value.kind, ExpressionKind::Binary(_, _, _))
}
