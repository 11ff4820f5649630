//! Calls one behind the other, and the execution of an image up to its heap.
#![tactic(auto)]

mod calls;
mod completing;
mod execution;
mod halt;
mod places;
mod registers;
mod room;
mod running;

pub use call_execution::{Hinted, Holder, Plan, Stretch};
pub use execution::Execution;
