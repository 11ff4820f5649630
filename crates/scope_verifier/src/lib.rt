//! The verifier of images: which image is accepted, and the first fault of one that is not.
#![tactic(auto)]

mod acceptance;
mod facts;
mod kinds;
mod knowledge;
mod numbers;

pub use acceptance::{Verified, verify};
