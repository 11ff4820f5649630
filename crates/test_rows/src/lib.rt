//! Rows of a test: a text each, and what must be told of it.
#![tactic(auto)]

mod lines;
mod reading;

pub use reading::{Row, compare, rows, without_blanks};
