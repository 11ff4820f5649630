//! What is in scope at a place of a body, and statements made of parts that have been typed.
#![tactic(auto)]

pub mod branches;
pub mod changes;
pub mod loops;
pub mod scope;
