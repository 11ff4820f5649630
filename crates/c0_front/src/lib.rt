//! The front end: from the bytes of a text to its tree, and to its typed tree.
#![tactic(auto)]

mod texts;

pub use texts::{check_text, read_text};
