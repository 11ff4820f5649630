//! Declarations and programs.

use crate::name::Name;
use crate::statement::{Annotation, Statement};
use crate::value_type::ValueType;
use c0_source::fault::Span;

/// A parameter or a field.
#[derive(Debug, Drop)]
pub struct TypedName {
    pub value_type: ValueType,
    pub name: Name,
}

/// A function up to its body, with the place from its result to the closing parenthesis, and the annotations behind that.
#[derive(Debug, Drop)]
pub struct Header {
    pub result: ValueType,
    pub name: Name,
    pub parameters: Vec<TypedName>,
    pub annotations: Vec<Annotation>,
    pub span: Span,
}

/// A declaration, with the place of all its tokens.
#[derive(Debug, Drop)]
pub struct Declaration {
    pub kind: DeclarationKind,
    pub span: Span,
}

/// What a declaration is.
#[derive(Debug, Drop)]
pub enum DeclarationKind {
    /// `#use <name>`.
    UseName(String),
    /// `#use` of a text.
    UseText(String),
    /// `struct s;`.
    DeclareStruct(Name),
    /// A struct and its fields.
    DefineStruct(Name, Vec<TypedName>),
    Typedef(ValueType, Name),
    /// A function without a body.
    DeclareFunction(Header),
    /// A function with the statements of its body.
    DefineFunction(Header, Vec<Statement>),
}

/// A program, with the place in bytes where its text ends.
#[derive(Debug, Drop)]
pub struct Program {
    pub declarations: Vec<Declaration>,
    pub end: usize,
}
