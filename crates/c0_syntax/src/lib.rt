//! Programs as trees: what they are, which tokens they read from, and how they are printed.
#![tactic(auto)]

pub mod expression;
mod layout;
pub mod level;
mod mark;
pub mod name;
pub mod operator;
pub mod print;
pub mod program;
mod render;
mod spelling;
pub mod statement;
pub mod value_type;
