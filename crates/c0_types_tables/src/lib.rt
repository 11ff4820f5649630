//! What a program's declarations give, in tables by name: types behind typedefs, structs, functions; and names by number.
#![tactic(auto)]

pub mod environment;
pub mod names;
pub mod resolved;
pub mod signatures;
pub mod structs;
pub mod typedefs;
