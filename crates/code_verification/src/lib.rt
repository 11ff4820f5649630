//! What a verified image is; that no run of one is stuck, and that entry facts hold wherever a run enters a block.
#![tactic(auto)]

mod laws;

pub use laws::{entered, formed, verified, verified_is_covered};
