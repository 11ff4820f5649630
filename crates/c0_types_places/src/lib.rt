//! The static rules of names, constants and calls, of memory and of places of it, whose operands have been typed.
#![tactic(auto)]

pub mod memory;
pub mod names;
pub mod places;
