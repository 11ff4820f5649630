//! What is read.

use c0_syntax::expression::Expression;

/// An expression, and how many nodes are on its longest path.
#[derive(Debug, Drop)]
pub struct FoundExpression {
    pub expression: Expression,
    pub height: usize,
}

/// The arguments of a call, and how many nodes are on their longest path.
#[derive(Debug, Drop)]
pub struct FoundArguments {
    pub arguments: Vec<Expression>,
    pub height: usize,
}

/// Whether more signs may stand behind the expression so far.
#[derive(Debug, Drop)]
pub enum ExpressionStep {
    More(FoundExpression),
    Done(FoundExpression),
}
