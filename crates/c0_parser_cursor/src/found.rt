//! What is read.

use c0_syntax::value_type::ValueType;

/// A type, and how many nodes are on its longest path.
#[derive(Debug, Drop)]
pub struct FoundType {
    pub value_type: ValueType,
    pub height: usize,
}

/// Whether more signs may stand behind the type so far.
#[derive(Debug, Drop)]
pub enum TypeStep {
    More(FoundType),
    Done(FoundType),
}
