//! Reading from left to right, as definitions, and what holds of it for all tokens.
#![tactic(auto)]

pub mod laws;
pub mod read_error;
