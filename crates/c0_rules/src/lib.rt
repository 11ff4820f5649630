//! The static rules as definitions: which programs are well typed, their typed trees, and what each fault is caused by.
#![tactic(auto)]

mod laws;

pub use laws::{accepted_texts, elaborated, refused_texts};
