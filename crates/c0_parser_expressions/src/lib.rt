//! From the tokens of an expression to its tree.
#![tactic(auto)]

pub mod expressions;
pub mod found;
