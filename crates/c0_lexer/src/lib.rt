//! `lex`: from the text of a program to its tokens.
#![tactic(auto)]

mod byte;
mod comment;
pub mod lex;
mod literal;
mod longest;
mod number;
mod piece;
mod table;
pub mod token;
mod word;
