//! The static rules of expressions: what each is once its names are replaced, or why it breaks a rule.
#![tactic(auto)]

pub mod terms;
