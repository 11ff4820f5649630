//! What the static rules give of an expression, where it stands, and the steps that its forms have in common.
#![tactic(auto)]

pub mod retyping;
pub mod steps;
pub mod typing;
