//! What is read.

use c0_syntax::expression::Expression;
use c0_syntax::program::{Header, TypedName};
use c0_syntax::statement::{Annotation, SimpleStatement, Statement};

/// The annotations and the body of a loop.
#[derive(Debug, Drop)]
pub struct FoundBody {
    pub annotations: Vec<Annotation>,
    pub body: Box<Statement>,
}

/// A `for` from its third part on.
#[derive(Debug, Drop)]
pub struct FoundForEnd {
    pub step: Option<SimpleStatement>,
    pub body: FoundBody,
}

/// A `for` from its condition on.
#[derive(Debug, Drop)]
pub struct FoundForTest {
    pub condition: Expression,
    pub end: FoundForEnd,
}

/// A parameter, and how many tokens stand from its name on.
#[derive(Debug, Drop)]
pub struct FoundParameter {
    pub parameter: TypedName,
    pub at: usize,
}

/// Parameters, and how many tokens stand from the name on of the first one that is too many for a definition, if one is.
#[derive(Debug, Drop)]
pub struct FoundParameters {
    pub parameters: Vec<TypedName>,
    pub over: Option<usize>,
}

/// A function up to its body, how many tokens stand from its name on, and from the name of a parameter that is too many.
#[derive(Debug, Drop)]
pub struct FoundHeader {
    pub header: Header,
    pub at: usize,
    pub over: Option<usize>,
}
