//! Expressions.

use crate::name::Name;
use crate::operator::PrefixOperator;
use crate::value_type::ValueType;
use c0_source::fault::Span;
use c0_source::kind::Operator;

/// An expression, with the place of all its tokens.
#[derive(Debug, Drop)]
#[cycle(expression)]
pub struct Expression {
    pub kind: ExpressionKind,
    pub span: Span,
}

/// What an expression is.
#[derive(Debug, Drop)]
#[cycle(expression)]
pub enum ExpressionKind {
    /// A number by its value, modulo 2^32.
    Number(u32),
    /// A character by its code, below 128.
    Character(u8),
    Truth(bool),
    Null,
    /// A text without its quotes, escapes replaced by what they stand for.
    Text(String),
    Variable(Name),
    /// An expression in parentheses.
    Parenthesized(Box<Expression>),
    Call(Name, Vec<Expression>),
    Alloc(ValueType),
    AllocArray(ValueType, Box<Expression>),
    /// `\result`.
    Result,
    /// `\length`.
    Length(Box<Expression>),
    /// `a[i]`.
    Index(Box<Expression>, Box<Expression>),
    /// `a.f`.
    Field(Box<Expression>, Name),
    /// `a->f`.
    PointerField(Box<Expression>, Name),
    Unary(PrefixOperator, Box<Expression>),
    Binary(Operator, Box<Expression>, Box<Expression>),
    /// `condition ? first : second`.
    Conditional(Box<Expression>, Box<Expression>, Box<Expression>),
}
