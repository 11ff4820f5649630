//! The static rules of operators: what each gives of operands that have been typed, and so of a choice between two.
#![tactic(auto)]

pub mod operands;
pub mod operators;
