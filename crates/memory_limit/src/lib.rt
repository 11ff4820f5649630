//! How much memory a program may take beside its objects.
#![tactic(auto)]

mod limit;

pub use limit::{MemoryLimit, MemoryUse};
