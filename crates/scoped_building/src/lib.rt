//! What the passes over structured code share: the parts of scoped code while it is built, what holds of them, and the walk over the functions of a program.
#![tactic(auto)]

mod functions;
mod parts;

pub use functions::map_functions;
pub use parts::{choice, put, repetition};
