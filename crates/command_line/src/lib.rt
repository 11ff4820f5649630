//! The command line: which words name which command, and what is told of words that name none.
#![tactic(auto)]

pub mod complaint;
pub mod help;
pub mod line;
pub mod mistakes;
pub mod options;
pub mod words;
