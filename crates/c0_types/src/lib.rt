//! `check`: the static rules of a whole program, its declarations in order, and the typed program of those that are well typed.
#![tactic(auto)]

mod declare;
mod functions;
mod programs;

pub use c0_rules::{accepted_texts, elaborated, refused_texts};
pub use programs::check;
