//! The memory of a world: the words of its objects, its frames and cells, and the berth of each object.
#![tactic(auto)]

mod lock;
mod memory;

pub use lock::{Berths, Lock};
pub use memory::{Object, ObjectPlace, WorldMemory};
