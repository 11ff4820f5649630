//! What the statements of a function do to its names: definite assignment, ends of paths, and what a program mentions.
#![tactic(auto)]

pub mod flow;
pub mod mentioned;
