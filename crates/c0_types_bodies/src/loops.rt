//! Loops made of their parts.
//! A tree held where a step may fail is boxed before, or dropped there by a call: a drop that `?` makes is proved
//! variant by variant.

ghost use Rattle.std.specs.Prelude.{◌≡◌, ◌⊎◌, List, Err, IfErr, IfOk, IsOkAnd, MatchResult, Ok, box_value, is_err, option_map};
ghost use Rattle.c0_source.specs.declared.fault.FaultKind.TheVariants.{OutOfMemory};
ghost use Rattle.c0_syntax.specs.Views.{simple_of};
ghost use Rattle.c0_typed.specs.Trees as y;
ghost use Rattle.c0_typed.specs.Views.{exp_of, exps_of, stmt_of};
ghost use Rattle.c0_rules.specs.FaultStatements.{ThirdCause};
ghost use Rattle.c0_rules.specs.Statements.{declares};
ghost use Rattle.c0_rules.specs.Types.{Environment, Name};

use c0_source::fault::{Fault, FaultKind};
use c0_syntax::statement::{SimpleKind, SimpleStatement};
use c0_typed::{Expression as TypedExpression, Statement as TypedStatement};
use std::alloc::Global;

/// The parts of a loop beside its body.
#[derive(Drop)]
pub struct LoopHead {
    pub condition: TypedExpression,
    pub third: TypedStatement,
    pub invariants: Vec<TypedExpression>,
}

/// A fault for which these parts of a statement end here.
pub fn refused_with(condition: TypedExpression, statement: TypedStatement, fault: Fault) -> Fault
    ensures { result ≡ fault }
{
    drop(condition);
    drop(statement);
    fault
}

// A loop whose body is boxed.
fn repetition_of_boxed(
    alloc: Global,
    invariants: Vec<TypedExpression>,
    condition: TypedExpression,
    body: Box<TypedStatement>,
    third: TypedStatement,
) -> Result<TypedStatement, Fault>
    ensures answers { IfOk result (λ b. (texts : List Name) → stmt_of texts b ≡ y.Loop (exps_of texts invariants.items) (exp_of texts condition) (stmt_of texts (box_value body)) (stmt_of texts third)) }
    ensures cause { IfErr result (λ f. f.kind ≡ OutOfMemory) }
{
    match Box::new(alloc, third) {
        Ok(third) => Ok(TypedStatement::Loop(invariants, condition, body, third)),
        Err(error) => {
            drop(condition);
            Err(error.into())
        }
    }
}

// A loop.
fn repetition(
    alloc: Global,
    invariants: Vec<TypedExpression>,
    condition: TypedExpression,
    body: TypedStatement,
    third: TypedStatement,
) -> Result<TypedStatement, Fault>
    ensures answers { IfOk result (λ b. (texts : List Name) → stmt_of texts b ≡ y.Loop (exps_of texts invariants.items) (exp_of texts condition) (stmt_of texts body) (stmt_of texts third)) }
    ensures cause { IfErr result (λ f. f.kind ≡ OutOfMemory) }
{
    match Box::new(alloc, body) {
        Ok(body) => repetition_of_boxed(alloc, invariants, condition, body, third),
        Err(error) => Err(refused_with(condition, third, error.into())),
    }
}

/// The parts of a loop whose invariants have this result.
pub fn headed(
    condition: TypedExpression,
    third: TypedStatement,
    invariants: Result<Vec<TypedExpression>, Fault>,
) -> Result<LoopHead, Fault>
    ensures { MatchResult result (λ h. (h.condition ≡ condition) × (h.third ≡ third) × (invariants ≡ Ok h.invariants)) (λ f. invariants ≡ Err f) }
{
    match invariants {
        Ok(invariants) => Ok(LoopHead {
            condition,
            third,
            invariants,
        }),
        Err(fault) => Err(refused_with(condition, third, fault)),
    }
}

/// A loop whose body has this result.
pub fn repeated(
    alloc: Global,
    head: LoopHead,
    body: Result<TypedStatement, Fault>,
) -> Result<TypedStatement, Fault>
    ensures answers { IfOk result (λ r. IsOkAnd body (λ b. (texts : List Name) → stmt_of texts r ≡ y.Loop (exps_of texts head.invariants.items) (exp_of texts head.condition) (stmt_of texts b) (stmt_of texts head.third))) }
    ensures cause { IfErr result (λ f. (f.kind ≡ OutOfMemory) ⊎ (body ≡ Err f)) }
{
    match body {
        Ok(body) => {
            let LoopHead {
                condition,
                third,
                invariants,
            } = head;
            repetition(alloc, invariants, condition, body, third)
        }
        Err(fault) => {
            drop(head);
            Err(fault)
        }
    }
}

/// The third part of a `for` declares no local.
pub fn check_third(third: &Option<SimpleStatement>) -> Result<(), Fault>
    ensures answers { is_err result ≡ declares (option_map simple_of third.now) }
    ensures cause { IfErr result (λ f. (env : Environment) → ThirdCause env f third.now) }
{
    let Some(simple) = third else {
        return Ok(());
    };
    match simple.kind {
        SimpleKind::Declare(_, _) | SimpleKind::Initialize(_, _, _) => Err(Fault {
            kind: FaultKind::StepDeclares,
            span: simple.span,
        }),
        SimpleKind::Assign(_, _) | SimpleKind::Update(_, _, _) => Ok(()),
        SimpleKind::Step(_, _) | SimpleKind::Evaluate(_) => Ok(()),
    }
}
