//! The static rules of statements: what each is in a typed tree, or why it breaks a rule.
#![tactic(auto)]

pub mod bodies;
