//! The pages of help, which words ask for them, and which of them is shown of words.
#![tactic(auto)]

mod faults;
mod pages;
pub mod topics;
