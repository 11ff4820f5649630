//! What is assigned behind each statement, and reads of locals that may not be assigned.

ghost use Rattle.std.specs.Prelude.{◌≡◌, ◌⊎◌, IfErr, MatchResult, Some, false, is_ok, map, option_map, true};
ghost use Rattle.c0_source.specs.declared.fault.FaultKind.TheVariants.{OutOfMemory};
ghost use Rattle.c0_syntax.specs.Views.{annotation_of, expression_of, simple_of, spec_of, statement_of, statements_of};
ghost use Rattle.c0_rules.specs.Assignment as a;
ghost use Rattle.c0_rules.specs.FaultPaths.{ReadIn, ReadInAnnotations, ReadInBody, ReadInDestination, ReadInPart, ReadInSimple, ReadInSpecs, ReadInStatement};
ghost use Rattle.c0_types_flow.specs.FlowViews.{behind_of, flow_of, for_start, third_reads};
ghost use Rattle.c0_rules.specs.Mentions.{as_variable as variable_by, specs_in};
ghost use Rattle.c0_rules.specs.Types.{provided};
ghost use Rattle.c0_rules.specs.Answers.{Answers};

use super::after::after_body;
use super::assigned::as_variable;
use super::{Behind, Flow};
use crate::mentioned::Refused;
use c0_source::fault::Fault;
use c0_syntax::expression::Expression;
use c0_syntax::statement::{
    Annotation, SimpleKind, SimpleStatement, Spec, Statement, StatementKind,
};
use std::alloc::Global;

/// The first local that an expression reads and some path has not assigned is an error, `NotAssigned` at its name.
pub(crate) fn check_reads(flow: &Flow, expression: &Expression) -> Result<(), Fault>
    ensures answers { is_ok result ≡ a.reads_assigned (flow_of flow.now) (expression_of expression.now) }
    ensures cause { IfErr result (λ f. ReadIn f (flow_of flow.now) expression.now) }
{
    Refused::Unassigned(flow).check_expression(expression)
}

/// The same of the conditions of specs.
pub(crate) fn check_spec_reads(flow: &Flow, specs: &[Spec]) -> Result<(), Fault>
    ensures answers { is_ok result ≡ a.specs_read_assigned (flow_of flow.now) (map spec_of specs.now) }
    ensures cause { IfErr result (λ f. ReadInSpecs f (flow_of flow.now) specs.now) }
{
    Refused::Unassigned(flow).check_specs(specs)
}

/// The same of the specs of annotations.
pub(crate) fn check_annotation_reads(flow: &Flow, annotations: &[Annotation]) -> Result<(), Fault>
    ensures answers { is_ok result ≡ a.specs_read_assigned (flow_of flow.now) (specs_in (map annotation_of annotations.now)) }
    ensures cause { IfErr result (λ f. ReadInAnnotations f (flow_of flow.now) annotations.now) }
{
    Refused::Unassigned(flow).check_annotations(annotations)
}

// Nothing changes where an expression is read.
fn behind_read<'a>(expression: &Expression, flow: &Flow) -> Result<Behind<'a>, Fault>
    ensures answers { Answers (behind_of (flow_of flow.now)) result (provided (a.reads_assigned (flow_of flow.now) (expression_of expression.now)) (Some (flow_of flow.now))) }
    ensures cause { IfErr result (λ f. ReadIn f (flow_of flow.now) expression.now) }
{
    check_reads(flow, expression)?;
    Ok(Behind::Same)
}

// Nor where specs are.
fn behind_specs<'a>(specs: &[Spec], flow: &Flow) -> Result<Behind<'a>, Fault>
    ensures answers { Answers (behind_of (flow_of flow.now)) result (provided (a.specs_read_assigned (flow_of flow.now) (map spec_of specs.now)) (Some (flow_of flow.now))) }
    ensures cause { IfErr result (λ f. ReadInSpecs f (flow_of flow.now) specs.now) }
{
    check_spec_reads(flow, specs)?;
    Ok(Behind::Same)
}

// Where a path ends with the value of an expression.
fn behind_end<'a>(expression: &Expression, flow: &Flow) -> Result<Behind<'a>, Fault>
    ensures answers { Answers (behind_of (flow_of flow.now)) result (provided (a.reads_assigned (flow_of flow.now) (expression_of expression.now)) (Some a.Ended)) }
    ensures cause { IfErr result (λ f. ReadIn f (flow_of flow.now) expression.now) }
{
    check_reads(flow, expression)?;
    Ok(Behind::Changed(Flow::Ended))
}

// Behind an assignment: a local that is given a value is not read.
fn behind_assignment<'a>(
    alloc: Global,
    destination: &Expression,
    value: &Expression,
    flow: &Flow<'a>,
) -> Result<Behind<'a>, Fault>
    ensures answers { Answers (behind_of (flow_of flow.now)) result (a.flow_of_assignment (variable_by (expression_of destination.now)) (expression_of destination.now) (expression_of value.now) (flow_of flow.now)) }
    ensures cause { IfErr result (λ f. (f.kind ≡ OutOfMemory) ⊎ ReadInDestination f (flow_of flow.now) destination.now ⊎ ReadIn f (flow_of flow.now) value.now) }
{
    match as_variable(destination) {
        Some(variable) => {
            check_reads(flow, value)?;
            Ok(flow.assign(alloc, variable)?)
        }
        None => {
            check_reads(flow, destination)?;
            check_reads(flow, value)?;
            Ok(Behind::Same)
        }
    }
}

/// Behind a simple statement.
pub(crate) fn behind_simple<'a>(
    alloc: Global,
    simple: &'a SimpleStatement,
    flow: &Flow<'a>,
) -> Result<Behind<'a>, Fault>
    ensures answers { Answers (behind_of (flow_of flow.now)) result (a.flow_of_simple (simple_of simple.now) (flow_of flow.now)) }
    ensures cause { IfErr result (λ f. (f.kind ≡ OutOfMemory) ⊎ ReadInSimple f (flow_of flow.now) simple.now.kind) }
{
    match &simple.kind {
        SimpleKind::Declare(_, name) => Ok(flow.declare(alloc, name)?),
        SimpleKind::Initialize(_, _, value) => behind_read(value, flow),
        SimpleKind::Assign(destination, value) => {
            behind_assignment(alloc, destination, value, flow)
        }
        SimpleKind::Update(destination, _, value) => {
            check_reads(flow, destination)?;
            check_reads(flow, value)?;
            Ok(Behind::Same)
        }
        SimpleKind::Step(destination, _) => behind_read(destination, flow),
        SimpleKind::Evaluate(expression) => behind_read(expression, flow),
    }
}

/// Behind the first or the third part of a `for`.
pub(crate) fn behind_part<'a>(
    alloc: Global,
    part: &'a Option<SimpleStatement>,
    flow: &Flow<'a>,
) -> Result<Behind<'a>, Fault>
    ensures answers { Answers (behind_of (flow_of flow.now)) result (a.flow_of_part (option_map simple_of part.now) (flow_of flow.now)) }
    ensures cause { IfErr result (λ f. (f.kind ≡ OutOfMemory) ⊎ ReadInPart f (flow_of flow.now) part.now) }
{
    match part {
        Some(simple) => behind_simple(alloc, simple, flow),
        None => Ok(Behind::Same),
    }
}

// The third part of a `for`, whose body begins here: it sees what the body assigns at its end and at each `continue`, whatever the body reads.
fn check_third<'a>(
    alloc: Global,
    third: &'a Option<SimpleStatement>,
    body: &'a Statement,
    flow: &Flow<'a>,
) -> Result<(), Fault>
    ensures answers { MatchResult result (λ _. third_reads (option_map simple_of third.now) (statement_of body.now) (flow_of flow.now) ≡ true) (λ f. (f.kind ≡ OutOfMemory) ⊎ (third_reads (option_map simple_of third.now) (statement_of body.now) (flow_of flow.now) ≡ false)) }
    ensures cause { IfErr result (λ f. (f.kind ≡ OutOfMemory) ⊎ ReadInPart f (a.after_body (statement_of body.now) (flow_of flow.now)) third.now) }
{
    let left = after_body(alloc, body, flow)?;
    behind_part(alloc, third, left.over(flow))?;
    Ok(())
}

// Where the condition of a `for` is evaluated first; the condition, the third part and the annotations are looked at in the order of the text.
fn behind_for_start<'a>(
    alloc: Global,
    first: &'a Option<SimpleStatement>,
    condition: &Expression,
    third: &'a Option<SimpleStatement>,
    annotations: &[Annotation],
    body: &'a Statement,
    flow: &Flow<'a>,
) -> Result<Behind<'a>, Fault>
    ensures answers { Answers (behind_of (flow_of flow.now)) result (for_start (option_map simple_of first.now) (expression_of condition.now) (option_map simple_of third.now) (map annotation_of annotations.now) (statement_of body.now) (flow_of flow.now)) }
    ensures cause { IfErr result (λ f. (f.kind ≡ OutOfMemory) ⊎ ReadInPart f (flow_of flow.now) first.now ⊎ ((g : a.Flow) × (a.flow_of_part (option_map simple_of first.now) (flow_of flow.now) ≡ Some g) × (ReadIn f g condition.now ⊎ ReadInPart f (a.after_body (statement_of body.now) g) third.now ⊎ ReadInAnnotations f g annotations.now))) }
{
    let start = behind_part(alloc, first, flow)?;
    let inner = start.over(flow);
    check_reads(inner, condition)?;
    check_third(alloc, third, body, inner)?;
    check_annotation_reads(inner, annotations)?;
    Ok(start)
}

// At the end of a scope that began here.
fn leave_scope<'a>(alloc: Global, inner: &Behind<'a>, flow: &Flow<'a>) -> Result<Behind<'a>, Fault>
    ensures answers { Answers (behind_of (flow_of flow.now)) result (Some (a.left_scope (flow_of flow.now) (behind_of (flow_of flow.now) inner.now))) }
    ensures cause { IfErr result (λ f. f.kind ≡ OutOfMemory) }
{
    Ok(flow.leave(alloc, inner)?)
}

// Behind a choice of two ways that began here.
fn join_ways<'a>(
    alloc: Global,
    first: &Behind<'a>,
    second: &Behind<'a>,
    flow: &Flow<'a>,
) -> Result<Behind<'a>, Fault>
    ensures answers { Answers (behind_of (flow_of flow.now)) result (Some (a.joined (flow_of flow.now) (behind_of (flow_of flow.now) first.now) (behind_of (flow_of flow.now) second.now))) }
    ensures cause { IfErr result (λ f. f.kind ≡ OutOfMemory) }
{
    Ok(flow.join(alloc, first, second)?)
}

/// Behind a statement. A read of a local that may not be assigned is an error, `NotAssigned` at its name.
#[cycle(flow)]
pub(crate) fn behind_statement<'a>(
    alloc: Global,
    statement: &'a Statement,
    flow: &Flow<'a>,
) -> Result<Behind<'a>, Fault>
    ensures answers { Answers (behind_of (flow_of flow.now)) result (a.flow_of_statement (statement_of statement.now) (flow_of flow.now)) }
    ensures cause { IfErr result (λ f. (f.kind ≡ OutOfMemory) ⊎ ReadInStatement f (flow_of flow.now) statement.now.kind) }
{
    match &statement.kind {
        StatementKind::Simple(simple) => behind_simple(alloc, simple, flow),
        StatementKind::Block(statements) => {
            let inner = behind_statements(alloc, statements, flow)?;
            leave_scope(alloc, &inner, flow)
        }
        StatementKind::Annotated(annotation) => behind_specs(&annotation.specs, flow),
        StatementKind::Return => Ok(Behind::Changed(Flow::Ended)),
        StatementKind::ReturnValue(value) => behind_end(value, flow),
        StatementKind::If(condition, body) => {
            check_reads(flow, condition)?;
            behind_statement(alloc, body, flow)?;
            Ok(Behind::Same)
        }
        StatementKind::IfElse(condition, first, second) => {
            check_reads(flow, condition)?;
            let behind_first = behind_statement(alloc, first, flow)?;
            let behind_second = behind_statement(alloc, second, flow)?;
            join_ways(alloc, &behind_first, &behind_second, flow)
        }
        StatementKind::While(condition, annotations, body) => {
            check_reads(flow, condition)?;
            check_annotation_reads(flow, annotations)?;
            behind_statement(alloc, body, flow)?;
            Ok(Behind::Same)
        }
        StatementKind::For(first, condition, third, annotations, body) => {
            let start = behind_for_start(alloc, first, condition, third, annotations, body, flow)?;
            let inner = start.over(&*flow);
            behind_statement(alloc, body, inner)?;
            leave_scope(alloc, &start, flow)
        }
        StatementKind::Assert(condition) => behind_read(condition, flow),
        StatementKind::Error(text) => behind_end(text, flow),
        StatementKind::Break | StatementKind::Continue => Ok(Behind::Changed(Flow::Ended)),
    }
}

/// Behind statements in order.
#[cycle(flow)]
pub(crate) fn behind_statements<'a>(
    alloc: Global,
    body: &'a [Statement],
    flow: &Flow<'a>,
) -> Result<Behind<'a>, Fault>
    ensures answers { Answers (behind_of (flow_of flow.now)) result (a.flow_of_statements (statements_of body.now) (flow_of flow.now)) }
    ensures cause { IfErr result (λ f. (f.kind ≡ OutOfMemory) ⊎ ReadInBody f (flow_of flow.now) body.now) }
{
    let mut behind = Behind::Same;
    for statement in body {
        let next = behind_statement(alloc, statement, behind.over(&*flow))?;
        behind = behind.then(next);
    }
    Ok(behind)
}
