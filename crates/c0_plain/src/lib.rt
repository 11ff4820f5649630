//! The plain run of a text: what its program means within a bound.
#![tactic(auto)]

mod plain;

pub use plain::{Untold, mean_text, mean_text_placed};
