//! What is assigned behind each statement, whatever it reads.

ghost use Rattle.std.specs.Prelude.{◌≡◌, IfOk, option_map};
ghost use Rattle.c0_syntax.specs.Views.{expression_of, simple_of, statement_of, statements_of};
ghost use Rattle.c0_rules.specs.Assignment as a;
ghost use Rattle.c0_rules.specs.Mentions.{as_variable as variable_by};
ghost use Rattle.c0_types_flow.specs.FlowViews.{behind_of, flow_of};

use super::assigned::as_variable;
use super::{Behind, Flow};
use c0_syntax::expression::Expression;
use c0_syntax::statement::{SimpleKind, SimpleStatement, Statement, StatementKind};
use std::alloc::{AllocError, Global};

// Behind an assignment to this destination, by `=`, by another operator or by a step.
fn after_assignment<'a>(
    alloc: Global,
    destination: &Expression,
    flow: &Flow<'a>,
) -> Result<Behind<'a>, AllocError>
    ensures { IfOk result (λ behind. behind_of (flow_of flow.now) behind ≡ a.after_assignment (variable_by (expression_of destination.now)) (flow_of flow.now)) }
{
    match as_variable(destination) {
        Some(name) => flow.assign(alloc, name),
        None => Ok(Behind::Same),
    }
}

// Behind a simple statement.
fn after_simple<'a>(
    alloc: Global,
    simple: &'a SimpleStatement,
    flow: &Flow<'a>,
) -> Result<Behind<'a>, AllocError>
    ensures { IfOk result (λ behind. behind_of (flow_of flow.now) behind ≡ a.after_simple (simple_of simple.now) (flow_of flow.now)) }
{
    match &simple.kind {
        SimpleKind::Declare(_, name) => flow.declare(alloc, name),
        SimpleKind::Assign(destination, _)
        | SimpleKind::Update(destination, _, _)
        | SimpleKind::Step(destination, _) => after_assignment(alloc, destination, flow),
        SimpleKind::Initialize(_, _, _) | SimpleKind::Evaluate(_) => Ok(Behind::Same),
    }
}

// Behind the first part of a `for`.
fn after_part<'a>(
    alloc: Global,
    part: &'a Option<SimpleStatement>,
    flow: &Flow<'a>,
) -> Result<Behind<'a>, AllocError>
    ensures { IfOk result (λ behind. behind_of (flow_of flow.now) behind ≡ a.after_part (option_map simple_of part.now) (flow_of flow.now)) }
{
    match part {
        Some(simple) => after_simple(alloc, simple, flow),
        None => Ok(Behind::Same),
    }
}

/// Behind a statement, whatever it reads.
#[cycle(after)]
#[tactic(auto, using(crate::proofs::Flows::joined_before, crate::proofs::Rows::block_is))]
pub(crate) fn after_statement<'a>(
    alloc: Global,
    statement: &'a Statement,
    flow: &Flow<'a>,
) -> Result<Behind<'a>, AllocError>
    ensures { IfOk result (λ behind. behind_of (flow_of flow.now) behind ≡ a.after_statement (statement_of statement.now) (flow_of flow.now)) }
{
    match &statement.kind {
        StatementKind::Simple(simple) => after_simple(alloc, simple, flow),
        StatementKind::Block(statements) => {
            let inner = after_statements(alloc, statements, flow)?;
            flow.leave(alloc, &inner)
        }
        StatementKind::Return | StatementKind::ReturnValue(_) => Ok(Behind::Changed(Flow::Ended)),
        StatementKind::IfElse(_, first, second) => {
            let behind_first = after_statement(alloc, first, flow)?;
            let behind_second = after_statement(alloc, second, flow)?;
            flow.join(alloc, &behind_first, &behind_second)
        }
        StatementKind::For(first, _, _, _, _) => {
            let start = after_part(alloc, first, flow)?;
            flow.leave(alloc, &start)
        }
        StatementKind::Error(_) => Ok(Behind::Changed(Flow::Ended)),
        StatementKind::Break | StatementKind::Continue => Ok(Behind::Changed(Flow::Ended)),
        StatementKind::If(_, _) | StatementKind::While(_, _, _) => Ok(Behind::Same),
        StatementKind::Annotated(_) | StatementKind::Assert(_) => Ok(Behind::Same),
    }
}

/// Behind statements in order, whatever they read.
#[cycle(after)]
pub(crate) fn after_statements<'a>(
    alloc: Global,
    body: &'a [Statement],
    flow: &Flow<'a>,
) -> Result<Behind<'a>, AllocError>
    ensures { IfOk result (λ behind. behind_of (flow_of flow.now) behind ≡ a.after_statements (statements_of body.now) (flow_of flow.now)) }
{
    let mut behind = Behind::Same;
    for statement in body {
        let next = after_statement(alloc, statement, behind.over(&*flow))?;
        behind = behind.then(next);
    }
    Ok(behind)
}

/// Behind a statement in the body of a loop, whatever it reads. The body begins at `start`; the paths of this statement that end a turn
/// by `continue` meet those that met before. A loop in the statement has its own.
#[cycle(ends)]
#[tactic(auto, using(crate::proofs::Flows::joined_before, crate::proofs::Rows::block_is))]
fn ends_of<'a>(
    alloc: Global,
    start: &Flow<'a>,
    statement: &'a Statement,
    flow: &Flow<'a>,
    met: &mut Flow<'a>,
) -> Result<Behind<'a>, AllocError>
    ensures behind { IfOk result (λ behind. behind_of (flow_of flow.now) behind ≡ a.after_statement (statement_of statement.now) (flow_of flow.now)) }
    ensures continued { IfOk result (λ _. flow_of met.new ≡ a.continued (flow_of start.now) (statement_of statement.now) (flow_of flow.now) (flow_of met.old)) }
{
    match &statement.kind {
        StatementKind::Block(statements) => {
            let inner = ends_of_all(alloc, start, statements, flow, met)?;
            flow.leave(alloc, &inner)
        }
        StatementKind::If(_, body) => {
            ends_of(alloc, start, body, flow, met)?;
            Ok(Behind::Same)
        }
        StatementKind::IfElse(_, first, second) => {
            let behind_first = ends_of(alloc, start, first, flow, met)?;
            let behind_second = ends_of(alloc, start, second, flow, met)?;
            flow.join(alloc, &behind_first, &behind_second)
        }
        StatementKind::Continue => {
            *met = start.merge(alloc, met, flow)?;
            Ok(Behind::Changed(Flow::Ended))
        }
        _ => after_statement(alloc, statement, flow),
    }
}

/// The same of statements in order.
#[cycle(ends)]
fn ends_of_all<'a>(
    alloc: Global,
    start: &Flow<'a>,
    body: &'a [Statement],
    flow: &Flow<'a>,
    met: &mut Flow<'a>,
) -> Result<Behind<'a>, AllocError>
    ensures behind { IfOk result (λ behind. behind_of (flow_of flow.now) behind ≡ a.after_statements (statements_of body.now) (flow_of flow.now)) }
    ensures continued { IfOk result (λ _. flow_of met.new ≡ a.some_continued (flow_of start.now) (statements_of body.now) (flow_of flow.now) (flow_of met.old)) }
{
    let mut behind = Behind::Same;
    for statement in body {
        let next = ends_of(alloc, start, statement, behind.over(&*flow), met)?;
        behind = behind.then(next);
    }
    Ok(behind)
}

/// Where the third part of a `for` stands, whose body begins here: behind the body, and behind each `continue` that ends a turn of it.
pub(crate) fn after_body<'a>(
    alloc: Global,
    body: &'a Statement,
    flow: &Flow<'a>,
) -> Result<Behind<'a>, AllocError>
    ensures { IfOk result (λ behind. behind_of (flow_of flow.now) behind ≡ a.after_body (statement_of body.now) (flow_of flow.now)) }
{
    let mut met = Flow::Ended;
    let behind = ends_of(alloc, flow, body, flow, &mut met)?;
    flow.join(alloc, &behind, &Behind::Changed(met))
}
