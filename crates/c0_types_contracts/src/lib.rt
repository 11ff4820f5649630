//! The contract of a function: what it wants on entry and at each return, or why it breaks a rule.
#![tactic(auto)]

pub mod contracts;
