//! Tokens still to be read: the next one, names, texts, directives and types.
#![tactic(auto)]

pub mod cursor;
pub mod directives;
pub mod found;
mod letters;
pub mod type_names;
