//! An `if`, and statements in order, made of their parts.
//! A tree held where a step may fail is boxed before, or dropped there by a call: a drop that `?` makes is proved
//! variant by variant.

ghost use Rattle.std.specs.Prelude.{◌≡◌, ◌⊎◌, List, Err, IfErr, IfOk, IsOkAnd, box_value};
ghost use Rattle.c0_source.specs.declared.fault.FaultKind.TheVariants.{OutOfMemory};
ghost use Rattle.c0_typed.specs.Trees as y;
ghost use Rattle.c0_typed.specs.Trees.{Skip};
ghost use Rattle.c0_typed.specs.Views.{exp_of, stmt_of};
ghost use Rattle.c0_rules.specs.Types.{Name};

use crate::loops::refused_with;
use c0_source::fault::Fault;
use c0_typed::{Expression as TypedExpression, Statement as TypedStatement};
use std::alloc::{AllocError, Global};

/// The statement that does nothing.
pub fn skip(alloc: Global) -> TypedStatement
    ensures { (texts : List Name) → stmt_of texts result ≡ Skip }
{
    TypedStatement::Block(Vec::new(alloc))
}

// An `if` whose first statement is boxed.
fn choice_of_boxed(
    alloc: Global,
    condition: TypedExpression,
    first: Box<TypedStatement>,
    second: TypedStatement,
) -> Result<TypedStatement, AllocError>
    ensures { IfOk result (λ b. (texts : List Name) → stmt_of texts b ≡ y.If (exp_of texts condition) (stmt_of texts (box_value first)) (stmt_of texts second)) }
{
    match Box::new(alloc, second) {
        Ok(second) => Ok(TypedStatement::If(condition, first, second)),
        Err(error) => {
            drop(condition);
            Err(error.into())
        }
    }
}

/// An `if` with both of its statements.
pub fn choice(
    alloc: Global,
    condition: TypedExpression,
    first: TypedStatement,
    second: TypedStatement,
) -> Result<TypedStatement, AllocError>
    ensures { IfOk result (λ b. (texts : List Name) → stmt_of texts b ≡ y.If (exp_of texts condition) (stmt_of texts first) (stmt_of texts second)) }
{
    match Box::new(alloc, first) {
        Ok(first) => choice_of_boxed(alloc, condition, first, second),
        Err(error) => {
            drop(condition);
            drop(second);
            Err(error.into())
        }
    }
}

/// An `if` whose other statement has this result.
pub fn chosen(
    alloc: Global,
    condition: TypedExpression,
    first: TypedStatement,
    second: Result<TypedStatement, Fault>,
) -> Result<TypedStatement, Fault>
    ensures answers { IfOk result (λ r. IsOkAnd second (λ b. (texts : List Name) → stmt_of texts r ≡ y.If (exp_of texts condition) (stmt_of texts first) (stmt_of texts b))) }
    ensures cause { IfErr result (λ f. (f.kind ≡ OutOfMemory) ⊎ (second ≡ Err f)) }
{
    match second {
        Ok(second) => Ok(choice(alloc, condition, first, second)?),
        Err(fault) => Err(refused_with(condition, first, fault)),
    }
}

// Two statements in order.
fn in_turn(
    alloc: Global,
    first: TypedStatement,
    second: TypedStatement,
) -> Result<TypedStatement, AllocError>
    ensures { IfOk result (λ b. (texts : List Name) → stmt_of texts b ≡ y.Seq (stmt_of texts first) (y.Seq (stmt_of texts second) y.Skip)) }
{
    let mut both = Vec::new(alloc);
    if let Err(error) = both.push(first) {
        drop(second);
        return Err(error.into());
    }
    both.push(second)?;
    Ok(TypedStatement::Block(both))
}

/// Two statements in order, the second of which has this result.
pub fn followed(
    alloc: Global,
    first: TypedStatement,
    second: Result<TypedStatement, Fault>,
) -> Result<TypedStatement, Fault>
    ensures answers { IfOk result (λ r. IsOkAnd second (λ b. (texts : List Name) → stmt_of texts r ≡ y.Seq (stmt_of texts first) (y.Seq (stmt_of texts b) y.Skip))) }
    ensures cause { IfErr result (λ f. (f.kind ≡ OutOfMemory) ⊎ (second ≡ Err f)) }
{
    match second {
        Ok(second) => Ok(in_turn(alloc, first, second)?),
        Err(fault) => {
            drop(first);
            Err(fault)
        }
    }
}
