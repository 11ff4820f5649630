//! The first fault of an image, in reading order; that an image without one is verified, and that a verified image has none.
#![tactic(auto)]

mod fault;
mod laws;

pub use fault::VerifyFault;
pub use laws::{accepted_is_verified, verified_is_accepted, worked_faults};
