//! The queue of tasks: programs of a region that wait for a worker. Each task in it names an admitted program, which has not ended.
#![tactic(auto)]

mod queue;
mod rule;

pub use queue::{TaskPass, TaskQueue};
