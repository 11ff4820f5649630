//! Types.

use crate::name::Name;
use c0_source::fault::Span;
use c0_source::kind::Base;

/// A type, with the place of all its tokens.
#[derive(Debug, Drop)]
#[cycle(value_type)]
pub struct ValueType {
    pub kind: TypeKind,
    pub span: Span,
}

/// What a type is.
#[derive(Debug, Drop)]
#[cycle(value_type)]
pub enum TypeKind {
    /// A type with a keyword of its own.
    Basic(Base),
    /// `struct` and a name.
    Struct(Name),
    /// A name that a `typedef` declared.
    Named(Name),
    /// A type and `*`.
    Pointer(Box<ValueType>),
    /// A type and `[]`.
    Array(Box<ValueType>),
}
