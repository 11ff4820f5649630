//! `lower`: the structured code of a typed program, which means the same.
#![tactic(auto)]

mod exits;
mod laws;
mod lowering;
mod program;
mod statement_code;

pub use laws::{lowered_means_the_same, same_program_same_code};
pub use lowering::lower;
