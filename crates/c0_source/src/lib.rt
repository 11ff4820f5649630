//! The source text of a program: its bytes, the faults of a compilation, and which texts are which tokens.
#![tactic(auto)]

pub mod fault;
pub mod kind;
pub mod laws;
pub mod position;
pub mod source;
