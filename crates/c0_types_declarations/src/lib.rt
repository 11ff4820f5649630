//! The static rules of what is declared but for contracts and bodies: headers of functions, structs, and the library in use.
#![tactic(auto)]

pub mod definitions;
pub mod headers;
