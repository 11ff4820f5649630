//! `parse`: from the tokens of a text to its tree, by declarations and statements.
#![tactic(auto)]

mod annotations;
mod declarations;
mod found;
pub mod parse;
mod simple_statements;
mod statements;

pub use c0_grammar_laws::laws;
