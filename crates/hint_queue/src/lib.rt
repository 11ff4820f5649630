//! The queue of hints: objects that will be wanted soon. Each hint in it names an object of an admitted program.
#![tactic(auto)]

mod queue;
mod rule;

pub use queue::{HintPass, Hints};
