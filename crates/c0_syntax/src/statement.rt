//! Annotations and statements.

use crate::expression::Expression;
use crate::name::Name;
use crate::operator::Change;
use crate::value_type::ValueType;
use c0_source::fault::Span;
use c0_source::kind::{Clause, Operator};

/// What a spec says of its condition.
#[derive(Clone, Copy, Debug, PartialEq, Eq)]
pub enum SpecKind {
    /// `requires`, `ensures` or `loop_invariant`.
    Contract(Clause),
    /// `assert`.
    Assert,
}

/// A spec of an annotation, with the places of its word and of all its tokens.
#[derive(Debug, Drop)]
pub struct Spec {
    pub kind: SpecKind,
    pub word: Span,
    pub condition: Expression,
    pub span: Span,
}

/// An annotation, with the place of all its tokens.
#[derive(Debug, Drop)]
pub struct Annotation {
    pub specs: Vec<Spec>,
    pub span: Span,
}

/// A simple statement, with the place of all its tokens; a semicolon isn't among them.
#[derive(Debug, Drop)]
pub struct SimpleStatement {
    pub kind: SimpleKind,
    pub span: Span,
}

/// What a simple statement is.
#[derive(Debug, Drop)]
pub enum SimpleKind {
    /// Declares a local.
    Declare(ValueType, Name),
    /// Declares a local with a value.
    Initialize(ValueType, Name, Expression),
    /// Gives a destination a value.
    Assign(Expression, Expression),
    /// `destination op= value`.
    Update(Expression, Operator, Expression),
    /// `destination++` or `destination--`.
    Step(Expression, Change),
    /// An expression, for what it does.
    Evaluate(Expression),
}

/// A statement, with the place of all its tokens.
#[derive(Debug, Drop)]
#[cycle(statement)]
pub struct Statement {
    pub kind: StatementKind,
    pub span: Span,
}

/// What a statement is. A loop has the annotations that stand behind its header.
#[derive(Debug, Drop)]
#[cycle(statement)]
pub enum StatementKind {
    Simple(SimpleStatement),
    Block(Vec<Statement>),
    /// An annotation that stands where a statement may.
    Annotated(Annotation),
    Return,
    ReturnValue(Expression),
    If(Expression, Box<Statement>),
    IfElse(Expression, Box<Statement>, Box<Statement>),
    While(Expression, Vec<Annotation>, Box<Statement>),
    /// The first part, the condition, the third part, the annotations and the body.
    For(
        Option<SimpleStatement>,
        Expression,
        Option<SimpleStatement>,
        Vec<Annotation>,
        Box<Statement>,
    ),
    Assert(Expression),
    Error(Expression),
    Break,
    Continue,
}
