//! The lines of a schedule: an actor and what it chooses.
#![tactic(auto)]

pub mod line;
